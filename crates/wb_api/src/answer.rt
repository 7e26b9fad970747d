//! The answer to one request, before it is written.
ghost use Rattle.std.specs.Prelude.{◌≡◌, IfSome, None};
ghost use Rattle.wb_states.specs.Machine.{Machine};
ghost use Rattle.wb_step.specs.Offices.{Accepts, Reaches};
ghost use Rattle.wb_api.specs.Responses.{IsRefusal, memory_response};
ghost use Rattle.wb_api.specs.Exchange.{fault_response, IsCommandAnswer, LeadsOn, response_of_answer, over_http};

use crate::encode::reply_json;
use crate::refusal::{refusal_json, try_refusal_json};
use crate::status::status_of;
use http::StatusCode;
use std::alloc::Global;
use std::borrow::CowStr;
use wb_states::{Command, Refusal};
use wb_step::CarryOut;
use wb_streams::Fault;

/// The status of an answer, and its body.
#[derive(Drop)]
pub(crate) struct HttpAnswer {
    pub(crate) status: StatusCode,
    pub(crate) text: CowStr<'static>,
}

/// The answer that memory ran out. It takes no memory.
pub(crate) fn memory_answer(alloc: Global) -> HttpAnswer
    ensures value { (machine : Machine) → response_of_answer result machine ≡ memory_response over_http machine }
{
    HttpAnswer {
        status: StatusCode::SERVICE_UNAVAILABLE,
        text: refusal_json(alloc, &Refusal::Memory),
    }
}

/// The answer to a fault of the request. Takes no memory.
pub(crate) fn fault_answer(fault: Fault) -> HttpAnswer
    ensures value { (machine : Machine) → response_of_answer result machine ≡ fault_response machine fault }
{
    HttpAnswer {
        status: fault.status(),
        text: CowStr::Borrowed(fault.json()),
    }
}

/// The answer to what was refused. It says that memory ran out if there is none for the text of the
/// refusal.
pub(crate) fn refusal_answer(alloc: Global, refusal: &Refusal) -> HttpAnswer
    ensures value { (machine : Machine)
        → IsRefusal over_http machine refusal.now (response_of_answer result machine) }
{
    match try_refusal_json(alloc, refusal) {
        Ok(text) => HttpAnswer {
            status: status_of(refusal),
            text,
        },
        Err(_) => memory_answer(alloc),
    }
}

/// The answer of the office to a command, which it carries out first. It is `None` if the command
/// was accepted and there is no memory for the reply; a reply that repeats an assignment accepts
/// nothing.
pub(crate) fn answer_command<O: CarryOut>(
    alloc: Global,
    office: &mut O,
    command: &Command,
) -> Option<HttpAnswer>
    ensures clean { O.is_clean office.new → O.is_clean office.old }
    ensures value { IfSome result (λ answer. LeadsOn O.is_clean O.is_closed O.stands_at O.leaves
        office.old office.new (λ before after standing. IsCommandAnswer before
        command.now (response_of_answer answer after) standing)) }
    ensures memory { result ≡ None → Reaches O.is_clean O.stands_at office.old office.new
        (λ before after. Accepts before command.now after) }
{
    let accepted = office.accepted_count();
    match office.carry_out(command) {
        Ok(reply) => match reply_json(alloc, command.name(), &reply) {
            Ok(text) => Some(HttpAnswer {
                status: StatusCode::OK,
                text: CowStr::Owned(text),
            }),
            Err(_) if office.accepted_count() == accepted => Some(memory_answer(alloc)),
            Err(_) => None,
        },
        Err(refusal) => Some(refusal_answer(alloc, &refusal)),
    }
}
