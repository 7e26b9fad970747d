//! Commands by which holders report on what they hold.
ghost use Rattle.std.specs.Prelude.{OnOk};
ghost use Rattle.std.specs.Str.{IsUtf8};
ghost use Rattle.wb_states.specs.declared.command.Command.TheVariants as of;
ghost use Rattle.wb_states.specs.declared.moves.Move.TheVariants as to;
ghost use Rattle.wb_states.specs.Machine.{arch_words};
ghost use Rattle.wb_step.specs.Carries.{Carries, HasOutcome};
ghost use Rattle.wb_step.specs.Outcomes.{taken_step};

use crate::OfficePart;
use crate::checks::words_of;
use crate::texts::{is_long, read_relations};
use crate::transition::{keep_record, prepare_move};
use deb_relations::Relations;
use std::alloc::Global;
use wb_states::{Move, Refusal, Reply, command};

/// Moves the record that is held under the take number.
pub(crate) fn move_taken(
    alloc: Global,
    office: &mut OfficePart,
    take_number: u64,
    change: Move,
) -> Result<Reply, Refusal>
    ensures reaches { HasOutcome office.old office.new
        (taken_step office.old take_number (λ _. change)) result }
{
    let found = office.by_take(take_number);
    let Some((key, current)) = found else {
        return Err(Refusal::NotHeld);
    };
    let made = prepare_move(alloc, office, &key.0, &key.1, current, change)?;
    keep_record(office, made)
}

/// Says that its build failed.
pub(crate) fn attempted(
    alloc: Global,
    office: &mut OfficePart,
    command: &command::Attempted,
) -> Result<Reply, Refusal>
    ensures carries { Carries office.old office.new (of.Attempted command.now) result }
    ensures utf8 { OnOk result (IsUtf8 command.now.reason) }
{
    if is_long(&command.reason) {
        return Err(Refusal::TextTooLong);
    }
    let change = Move::Attempted {
        reason: command.reason.clone()?,
    };
    move_taken(alloc, office, command.take_number, change)
}

/// Lets it wait for what the relations ask for.
pub(crate) fn waits(
    alloc: Global,
    office: &mut OfficePart,
    command: &command::Waits,
) -> Result<Reply, Refusal>
    ensures carries { Carries office.old office.new (of.Waits command.now) result }
{
    let read = read_relations(alloc, &command.relations)?;
    wait_taken(alloc, office, command.take_number, read)
}

/// Lets the record that is held under the take number wait for the relations, as they are on its
/// architecture.
fn wait_taken(
    alloc: Global,
    office: &mut OfficePart,
    take_number: u64,
    relations: Relations,
) -> Result<Reply, Refusal>
    ensures reaches { HasOutcome office.old office.new (taken_step office.old take_number
        (λ entry. to.Waits relations (arch_words office.old entry.0.0))) result }
{
    let found = office.by_take(take_number);
    let Some((key, current)) = found else {
        return Err(Refusal::NotHeld);
    };
    let words = words_of(alloc, office, &key.0)?;
    let change = Move::Waits {
        relations,
        arch: words,
    };
    let made = prepare_move(alloc, office, &key.0, &key.1, current, change)?;
    keep_record(office, made)
}
