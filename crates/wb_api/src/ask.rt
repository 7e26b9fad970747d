//! The answer of the office to a query.
ghost use Rattle.wb_states.specs.Machine.{Machine};
ghost use Rattle.wb_api.specs.Responses.{IsFoundAnswer};
ghost use Rattle.wb_api.specs.Exchange.{IsQueryAnswer, LeadsOn, over_http, response_of_answer};

use crate::answer::{HttpAnswer, memory_answer, refusal_answer};
use crate::query::query_json;
use http::StatusCode;
use std::alloc::Global;
use std::borrow::CowStr;
use wb_states::{Answer, Query, Refusal};
use wb_step::CarryOut;

/// The answer to what the office found, or to its refusal. That memory ran out is the answer only
/// if the office said so, or if there is none for the text.
fn found_answer(alloc: Global, found: Result<Answer, Refusal>) -> HttpAnswer
    ensures value { (machine : Machine) → IsFoundAnswer over_http machine found (response_of_answer result machine) }
{
    match found {
        Ok(found) => match query_json(alloc, &found) {
            Ok(text) => HttpAnswer {
                status: StatusCode::OK,
                text: CowStr::Owned(text),
            },
            Err(_) => memory_answer(alloc),
        },
        Err(refusal) => refusal_answer(alloc, &refusal),
    }
}

/// The answer of the office to a query.
pub(crate) fn answer_query<O: CarryOut>(alloc: Global, office: &mut O, query: &Query) -> HttpAnswer
    ensures clean { O.is_clean office.new → O.is_clean office.old }
    ensures value { LeadsOn O.is_clean O.is_closed O.stands_at O.leaves office.old office.new
        (λ before after standing. IsQueryAnswer before query.now (response_of_answer result after) standing) }
{
    let found = office.ask(query);
    found_answer(alloc, found)
}
