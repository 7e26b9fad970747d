//! The answer of the office to a merge of lists.
ghost use Rattle.std.specs.Prelude.{◌≡◌, IfSome, IsOk, None, true};
ghost use Rattle.wb_lists.specs.Lists.{MayReadLess, MayReadMerge};
ghost use Rattle.wb_states.specs.Machine.{Machine};
ghost use Rattle.wb_states.specs.declared.command.Command.{Command};
ghost use Rattle.wb_step.specs.Offices.{Accepts, Reaches};
ghost use Rattle.wb_api.specs.Exchange.{IsMergeAnswer, LeadsOn, over_http, response_of_answer};
ghost use Rattle.wb_api.specs.Responses.{TellsMerge};

use crate::answer::{HttpAnswer, fault_answer, memory_answer, refusal_answer};
use crate::encode::reply_json;
use http::StatusCode;
use std::alloc::Global;
use std::borrow::CowStr;
use wb_archive::MergeFrom;
use wb_lists::{Lists, MergeLists, MergeNames, lists_of};
use wb_states::{Refusal, Reply};
use wb_streams::Fault;

/// The answer to a merge that the office answered so. It is `None` if there is no memory for the
/// reply and the merge was counted as accepted.
fn merged_answer(
    alloc: Global,
    is_counted: bool,
    answered: Result<Reply, Refusal>,
) -> Option<HttpAnswer>
    ensures value { IfSome result (λ answer. (machine : Machine)
        → TellsMerge over_http is_counted answered machine (response_of_answer answer machine)) }
    ensures memory { result ≡ None → (is_counted ≡ true) × IsOk answered }
{
    match answered {
        Ok(reply) => match reply_json(alloc, "merge", &reply) {
            Ok(text) => Some(HttpAnswer {
                status: StatusCode::OK,
                text: CowStr::Owned(text),
            }),
            Err(_) if is_counted => None,
            Err(_) => Some(memory_answer(alloc)),
        },
        Err(refusal) => Some(refusal_answer(alloc, &refusal)),
    }
}

/// The answer to a merge of the lists of these names. They are opened first, in their order, and
/// nothing is asked of the office if one of them cannot be opened. It is `None` if the merge was
/// accepted and there is no memory for the reply.
pub(crate) fn answer_merge<O: MergeFrom, L: Lists>(
    alloc: Global,
    office: &mut O,
    lists: &mut L,
    names: &MergeNames,
) -> Option<HttpAnswer>
    ensures clean { O.is_clean office.new → O.is_clean office.old }
    ensures value { IfSome result (λ answer. LeadsOn O.is_clean O.is_closed O.stands_at O.leaves
        office.old office.new (λ before after standing. IsMergeAnswer (L.may_read lists.old) before
        names.now (response_of_answer answer after) standing)) }
    ensures memory { result ≡ None → Reaches O.is_clean O.stands_at office.old office.new
        (λ before after. (command : Command)
        × MayReadMerge (L.may_read lists.old) names.now.sources names.now.parts command
        × Accepts before command after) }
    ensures kept { MayReadLess (L.may_read lists.old) (L.may_read lists.new) }
{
    match lists_of(alloc, lists, &names.sources, names.parts.as_slice()) {
        Ok(Some(MergeLists { sources, parts })) => {
            let accepted = office.accepted_count();
            let answered = office.merge_from(sources, parts);
            let is_counted = office.accepted_count() != accepted;
            merged_answer(alloc, is_counted, answered)
        }
        Ok(None) => Some(fault_answer(Fault::NoList)),
        Err(_) => Some(memory_answer(alloc)),
    }
}
