//! One command, carried out in memory.
ghost use Rattle.std.specs.Prelude.{OnOk};
ghost use Rattle.wb_step.specs.Carries.{Carries};
ghost use Rattle.wb_step.specs.Locality.{IsSingle};
ghost use Rattle.wb_step.specs.Utf8.{HasUtf8Texts};

use crate::{OfficePart, builder, holder, named, operator, priority, removal};
use std::alloc::Global;
use wb_states::{Command, Move, Refusal, Reply};

// A command in memory has no transaction: it makes its copies first and writes last, and the writes
// that can fail come before those that cannot. "Whole or not at all" rests on that; that of the
// office rests on one transaction for each command.
// No merge, no report, and no architecture that is taken away: these may change many records, so an
// office carries them out over its tables, one paragraph or one record at a time. `step` says what
// they do, and each law speaks of them.
/// Carries out one command on a part of an office in memory, whole or not at all, and answers it.
/// The command is neither a merge nor a report, and takes no architecture away. The part has what
/// the command names, and need not be consistent.
///
/// The refusal is the first that is true of the command in the order of [`Refusal`]; `Memory` comes
/// if there is no memory for it, at any point after its names, its version, its number and the
/// lengths of its texts were looked at. After every refusal the part is as it was (this project's
/// own).
pub fn carry_out(
    alloc: Global,
    office: &mut OfficePart,
    command: &Command,
) -> Result<Reply, Refusal>
    requires single { IsSingle command.now }
    ensures carries { Carries office.old office.new command.now result }
    ensures utf8 { OnOk result (HasUtf8Texts command.now) }
{
    // One arm for each command, which makes the function long. In groups, each would need an arm
    // for the commands of the others.
    match command {
        Command::AddArch(command) => operator::add_arch(office, command),
        Command::AddBuilder(command) => operator::add_builder(office, command),
        Command::RemoveBuilder(command) => removal::remove_builder(office, command),
        Command::Enter(command) => operator::enter(alloc, office, command),
        Command::Next(command) => builder::next(alloc, office, command),
        Command::Take(command) => builder::take(alloc, office, command),
        Command::Built(command) => {
            holder::move_taken(alloc, office, command.take_number, Move::Built)
        }
        Command::Uploaded(command) => {
            holder::move_taken(alloc, office, command.take_number, Move::Uploaded)
        }
        Command::Waits(command) => holder::waits(alloc, office, command),
        Command::PutBack(command) => {
            holder::move_taken(alloc, office, command.take_number, Move::PutBack)
        }
        Command::Attempted(command) => holder::attempted(alloc, office, command),
        Command::GiveBack(command) => named::give_back(alloc, office, command),
        Command::DepWait(command) => named::dep_wait(alloc, office, command),
        Command::Fail(command) => named::fail(alloc, office, command),
        Command::NotForUs(command) => named::not_for_us(alloc, office, command),
        Command::Rebuild(command) => named::rebuild(alloc, office, command),
        Command::BuildPriority(command) => priority::build_priority(alloc, office, command),
        Command::Forget(command) => removal::forget(alloc, office, command),
        Command::RemoveArch(_) | Command::Merge(_) | Command::Report(_) => unreachable!(),
    }
}
