//! The record that a command moves.
ghost use Rattle.std.specs.Prelude.{◌≡◌, ◌+◌, None, false, nat_le, Ok, Err, OnOk, IfOk, IfErr, OnErr};
ghost use Rattle.std.specs.FinMap as map;
ghost use Rattle.wb_states.specs.declared.refusal.Refusal.TheVariants.{Memory};
ghost use Rattle.wb_states.specs.declared.reply.Reply.TheVariants.{Done};
ghost use Rattle.wb_states.specs.Limits.{count_limit};
ghost use Rattle.wb_states.specs.Moves.{move_refusal, record_after_move};
ghost use Rattle.wb_states.specs.Refusals.{IsOfMachine};
ghost use Rattle.wb_states.specs.Lookups.{entry_of};
ghost use Rattle.wb_step.specs.Outcomes.{move_step};
ghost use Rattle.wb_step.specs.Step.{counted};

use crate::OfficePart;
use crate::checks::is_spent;
use crate::keyed::with_key;
use crate::operator::accept_one;
use deb_text::Text;
use std::alloc::Global;
use wb_states::{KeyedRecord, Move, Record, Refusal, Reply, move_record};

/// The record after a move that nothing refuses.
pub(crate) fn move_checked(alloc: Global, current: &Record, change: Move) -> Result<Record, Refusal>
    ensures value { IfOk result (λ after. after ≡ record_after_move change current.now) }
    ensures ok { OnOk result (move_refusal change current.now ≡ None) }
    ensures refused { IfErr result (λ refusal. IsOfMachine refusal
        → move_refusal change current.now ≡ Some refusal) }
{
    move_record(alloc, current, &change)
}

/// The record after the move of a command that can be counted. Nothing is written.
pub(crate) fn prepare_move(
    alloc: Global,
    office: &OfficePart,
    arch: &Text,
    source: &Text,
    current: &Record,
    change: Move,
) -> Result<KeyedRecord, Refusal>
    ensures value { IfOk result (λ made. entry_of made
        ≡ ((arch.now, source.now), record_after_move change current.now)) }
    ensures ok { OnOk result (move_refusal change current.now ≡ None) }
    ensures room { OnOk result (nat_le count_limit office.now.accepted ≡ false) }
    ensures refused { IfErr result (λ refusal. IsOfMachine refusal
        → move_step office.now ((arch.now, source.now), current.now) change
        ≡ (Err refusal, office.now)) }
{
    let after = move_checked(alloc, current, change)?;
    if is_spent(office) {
        return Err(Refusal::Spent);
    }
    Ok(with_key(arch, source, after)?)
}

/// Writes a record that a command changed, and counts the command.
pub(crate) fn keep_record(office: &mut OfficePart, made: KeyedRecord) -> Result<Reply, Refusal>
    requires { nat_le count_limit office.old.accepted ≡ false }
    ensures reply { IfOk result (λ reply. reply ≡ Done (office.old.accepted + 1)) }
    ensures ok { OnOk result (office.new ≡ counted office.old
        (record office.old {
          records = map.insert office.old.records (made.arch, made.source) made.current;
        })) }
    ensures refused { IfErr result (λ refusal. refusal ≡ Memory) }
    ensures unchanged { OnErr result (office.new ≡ office.old) }
{
    office.put(made.arch, made.source, made.current)?;
    Ok(accept_one(office))
}
