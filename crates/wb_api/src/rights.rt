//! Whether who asks may: by the rights on the line of a key, and by who holds the take number of a
//! report.
ghost use Rattle.std.specs.Prelude.{◌≡◌, IfErr, IfOk, IfSome, None, Err, false, true};
ghost use Rattle.wb_states.specs.Machine.{Machine};
ghost use Rattle.wb_states.specs.Refusals.{IsOfMachine, is_of_store};
ghost use Rattle.wb_states.specs.declared.refusal.Refusal.TheVariants.{Closed, Memory, Store};
ghost use Rattle.wb_states.specs.declared.store_fault.StoreFault.{StoreFault};
ghost use Rattle.wb_step.specs.Offices.{StandsOn};
ghost use Rattle.wb_keys.specs.Rights.{may_command, rights_named};
ghost use Rattle.wb_api.specs.declared.request.Request.TheVariants.{Command as asked_Command};
ghost use Rattle.wb_api.specs.Exchange.{IsNotAllowed, LeadsOn, response_of_answer};
ghost use Rattle.wb_api.specs.Rights.{is_allowed, may_request, NeedsHolder};

use crate::Request;
use crate::answer::{HttpAnswer, fault_answer, refusal_answer};
use std::alloc::Global;
use wb_keys::{Access, Kind, Rights, Shown, holder_needed, may, may_ask};
use wb_states::{Command, Refusal};
use wb_step::CarryOut;
use wb_streams::Fault;

/// Whether a line with these rights may give the office a command. The office is asked only for who
/// holds the take number that a builder reports under.
fn may_give<O: CarryOut>(
    office: &mut O,
    rights: Rights<'_>,
    command: &Command,
) -> Result<bool, Refusal>
    // whatever the store gives back
    ensures shut { O.is_closed office.old → O.is_closed office.new }
    ensures stands { ¬ O.is_closed office.old → StandsOn (O.is_closed office.new) result }
    ensures asks { IfErr result (λ _. NeedsHolder (rights_named rights.entry) (asked_Command command.now)) }
    ensures refused { IfErr result (λ refusal. IsOfMachine refusal → is_of_store refusal ≡ true) }
    // at each state at which it stands
    ensures clean { O.is_clean office.new → O.is_clean office.old }
    ensures value { (machine : Machine) → O.is_clean office.new → O.stands_at office.old machine
        → IfOk result (λ allowed. (allowed ≡ may_command (rights_named rights.entry) machine command.now)
        × O.stands_at office.new machine) }
    ensures memory { (machine : Machine) → O.is_clean office.new → O.stands_at office.old machine
        → result ≡ Err Memory → O.stands_at office.new machine }
    ensures closed { (machine : Machine) → O.is_clean office.new → O.stands_at office.old machine
        → result ≡ Err Closed → O.is_closed office.new × O.stands_at office.new machine }
    ensures store { (machine : Machine) → O.is_clean office.new → O.stands_at office.old machine
        → (fault : StoreFault) → result ≡ Err (Store fault) → O.leaves office.new machine machine fault }
{
    match holder_needed(rights, command) {
        Some(take_number) => {
            let holder = office.holder_of(take_number)?;
            Ok(may(rights, command, holder.as_ref()))
        }
        None => Ok(may(rights, command, None)),
    }
}

/// Whether a line with these rights may ask the office for this.
fn may_request<O: CarryOut>(
    office: &mut O,
    rights: Rights<'_>,
    request: &Request,
) -> Result<bool, Refusal>
    // whatever the store gives back
    ensures shut { O.is_closed office.old → O.is_closed office.new }
    ensures stands { ¬ O.is_closed office.old → StandsOn (O.is_closed office.new) result }
    ensures asks { IfErr result (λ _. NeedsHolder (rights_named rights.entry) request.now) }
    ensures refused { IfErr result (λ refusal. IsOfMachine refusal → is_of_store refusal ≡ true) }
    // at each state at which it stands
    ensures clean { O.is_clean office.new → O.is_clean office.old }
    ensures value { (machine : Machine) → O.is_clean office.new → O.stands_at office.old machine
        → IfOk result (λ allowed. (allowed ≡ may_request (rights_named rights.entry) machine request.now)
        × O.stands_at office.new machine) }
    ensures memory { (machine : Machine) → O.is_clean office.new → O.stands_at office.old machine
        → result ≡ Err Memory → O.stands_at office.new machine }
    ensures closed { (machine : Machine) → O.is_clean office.new → O.stands_at office.old machine
        → result ≡ Err Closed → O.is_closed office.new × O.stands_at office.new machine }
    ensures store { (machine : Machine) → O.is_clean office.new → O.stands_at office.old machine
        → (fault : StoreFault) → result ≡ Err (Store fault) → O.leaves office.new machine machine fault }
{
    match request {
        Request::Command(command) => may_give(office, rights, command),
        Request::Query(_) => Ok(may_ask(rights, Kind::Query)),
        Request::Merge(_) => Ok(may_ask(rights, Kind::Operator)),
    }
}

/// What is answered to a request of who shows this of a key in place of the office's answer:
/// `NotAllowed`, or that it was not found out who holds the take number of a report. None if it is
/// allowed. The office is as it was, but for a store that failed.
pub(crate) fn not_allowed<O: CarryOut>(
    alloc: Global,
    office: &mut O,
    access: &Access,
    shown: &Shown,
    request: &Request,
) -> Option<HttpAnswer>
    ensures clean { O.is_clean office.new → O.is_clean office.old }
    ensures value { IfSome result (λ answer. LeadsOn O.is_clean O.is_closed O.stands_at O.leaves
        office.old office.new (λ before after standing. (after ≡ before) × IsNotAllowed access.now shown.now
        before request.now (response_of_answer answer before) standing)) }
    ensures allowed { result ≡ None → (machine : Machine) → O.is_clean office.new → O.stands_at office.old machine
        → O.stands_at office.new machine × (is_allowed access.now shown.now machine request.now ≡ true) }
{
    let Some(rights) = access.rights_of(shown) else {
        return Some(fault_answer(Fault::NotAllowed));
    };
    match may_request(office, rights, request) {
        Ok(true) => None,
        Ok(false) => Some(fault_answer(Fault::NotAllowed)),
        Err(refusal) => Some(refusal_answer(alloc, &refusal)),
    }
}
