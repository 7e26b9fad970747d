//! The answer to what was asked, before it is written.
ghost use Rattle.std.specs.Prelude.{◌≡◌, ◌≤◌, IfSome, IsOk, None, Some, Ok, false, true};
ghost use Rattle.wb_lists.specs.Lists.{MayReadLess};
ghost use Rattle.wb_step.specs.Offices.{Accepts, Failed, InDoubt, Leads, Reaches};
ghost use Rattle.wb_api.specs.Responses.{IsFoundAnswer, IsRefusedByStore, memory_response};
ghost use Rattle.wb_daemon.specs.Run.{file_fault_response, line_fault_response, Asked, Invokes, InvokesAs, IsInvocationRefused, on_line};
ghost use Rattle.wb_daemon.specs.Run.{IsRefused, IsResponse};
ghost use Rattle.wb_states.specs.Machine.{Machine};
ghost use Rattle.wb_states.specs.declared.command.Command.{Command};
ghost use Rattle.wb_daemon.specs.Turn.{response_of_answer, IsInvocationResponseOrMemory, IsCommandResponseOrMemory};
ghost use Rattle.wb_daemon.specs.Turn.{is_refused_by_store, IsMadeResponse, IsQueryResponseOrMemory, IsReadAs, Tells};
ghost use Rattle.wb_words.specs.declared.fault.WordsFault.TheVariants.{NoCommand, Memory};
ghost use Rattle.wb_words.specs.declared.words.Invocation.TheVariants.{Merge as invocation_Merge};

use crate::lists::RunLists;
use crate::report::report_of;
use crate::status::{ACCEPTED, FILE_FAULT, LINE_FAULT, REFUSED};
use deb_text::Text;
use std::alloc::{AllocError, Global};
use std::borrow::CowStr;
use wb_api::{file_fault_json, line_fault_json, query_json, refusal_json, reply_json};
use wb_archive::MergeFrom;
use wb_lists::{MergeLists, PartNames, lists_of};
use wb_states::{Answer, Command, Query, Refusal, Reply};
use wb_step::CarryOut;
use wb_words::{Invocation, WordsFault};

/// What is said to what was asked, without its line feed, its status, and whether the run stops after it, since
/// the store failed or the office is closed.
#[derive(Drop)]
pub(crate) struct LineAnswer {
    pub(crate) text: CowStr<'static>,
    pub(crate) status: u8,
    pub(crate) stops: bool,
}

/// The reply or the refusal of the office to a command of this name, with its status. It is `None` if there is no memory for
/// the reply and the command was counted as accepted.
fn tell(
    alloc: Global,
    name: &str,
    is_counted: bool,
    answered: Result<Reply, Refusal>,
) -> Option<LineAnswer>
    ensures status { IfSome result (λ answer. answer.status ≤ 3) }
    ensures value { IfSome result (Tells name.now is_counted answered) }
    ensures memory { result ≡ None → (is_counted ≡ true) × IsOk answered }
{
    match answered {
        Ok(reply) => match reply_json(alloc, name, &reply) {
            Ok(text) => Some(LineAnswer {
                text: CowStr::Owned(text),
                status: ACCEPTED,
                stops: false,
            }),
            Err(_) if is_counted => None,
            Err(_) => Some(memory_answer(alloc)),
        },
        Err(refusal) => Some(LineAnswer {
            text: refusal_json(alloc, &refusal),
            status: REFUSED,
            stops: refusal.is_of_store(),
        }),
    }
}

/// The reply or the refusal of the office to a command, with its status. It is `None` if the command was
/// accepted and there is no memory for the reply; a reply that repeats an assignment accepts nothing.
fn answer_to<O: CarryOut>(alloc: Global, office: &mut O, command: &Command) -> Option<LineAnswer>
    ensures clean { O.is_clean office.new → O.is_clean office.old }
    ensures status { IfSome result (λ answer. answer.status ≤ 3) }
    ensures value { IfSome result (λ answer. answer.stops ≡ false
        → Reaches O.is_clean O.stands_at office.old office.new (λ before after.
        IsCommandResponseOrMemory before command.now (response_of_answer answer after))) }
    ensures memory { result ≡ None → Reaches O.is_clean O.stands_at office.old office.new (λ before after.
        Accepts before command.now after) }
    ensures stops { IfSome result (λ answer. answer.stops ≡ true
        → Leads O.is_clean O.is_closed O.stands_at O.leaves office.old office.new (λ before after standing.
        IsRefusedByStore on_line before (InDoubt command.now) (response_of_answer answer after) standing)) }
{
    let accepted = office.accepted_count();
    let answered = office.carry_out(command);
    let is_counted = office.accepted_count() != accepted;
    tell(alloc, command.name(), is_counted, answered)
}

/// What the office found for a query, or its refusal, with its status. That memory ran out is the answer only if the office
/// said so, or if there is none for the text.
fn found_answer(alloc: Global, found: Result<Answer, Refusal>) -> LineAnswer
    ensures value { (machine : Machine) → IsFoundAnswer on_line machine found (response_of_answer result machine) }
    ensures status { result.status ≤ 3 }
    ensures stops { result.stops ≡ is_refused_by_store found }
{
    match found {
        Ok(found) => match query_json(alloc, &found) {
            Ok(text) => LineAnswer {
                text: CowStr::Owned(text),
                status: ACCEPTED,
                stops: false,
            },
            Err(_) => memory_answer(alloc),
        },
        Err(refusal) => LineAnswer {
            text: refusal_json(alloc, &refusal),
            status: REFUSED,
            stops: refusal.is_of_store(),
        },
    }
}

/// What the office found for a query, or its refusal, with its status. If there is no memory for its text, it says so: the
/// office is as it was.
fn answer_query<O: CarryOut>(alloc: Global, office: &mut O, query: &Query) -> LineAnswer
    ensures clean { O.is_clean office.new → O.is_clean office.old }
    ensures status { result.status ≤ 3 }
    ensures value { result.stops ≡ false
        → Reaches O.is_clean O.stands_at office.old office.new (λ before after.
        IsQueryResponseOrMemory before query.now (response_of_answer result after)) }
    ensures stops { result.stops ≡ true
        → Leads O.is_clean O.is_closed O.stands_at O.leaves office.old office.new (λ before after standing.
        IsRefusedByStore on_line before Failed (response_of_answer result after) standing) }
{
    let found = office.ask(query);
    found_answer(alloc, found)
}

/// The answer if memory ran out, which takes none.
fn memory_answer(alloc: Global) -> LineAnswer
    ensures value { (machine : Machine) → response_of_answer result machine ≡ memory_response on_line machine }
    ensures status { result.status ≤ 3 }
    ensures stops { result.stops ≡ false }
{
    LineAnswer {
        text: refusal_json(alloc, &Refusal::Memory),
        status: REFUSED,
        stops: false,
    }
}

/// The answer if a list cannot be opened, or a report cannot be read.
fn file_answer() -> LineAnswer
    ensures value { (machine : Machine) → response_of_answer result machine ≡ file_fault_response machine }
    ensures status { result.status ≤ 3 }
    ensures stops { result.stops ≡ false }
{
    LineAnswer {
        text: CowStr::Borrowed(file_fault_json()),
        status: FILE_FAULT,
        stops: false,
    }
}

/// The answer if words ask for nothing that there is.
fn fault_answer() -> LineAnswer
    ensures value { (machine : Machine) → response_of_answer result machine ≡ line_fault_response machine }
    ensures status { result.status ≤ 3 }
    ensures stops { result.stops ≡ false }
{
    LineAnswer {
        text: CowStr::Borrowed(line_fault_json()),
        status: LINE_FAULT,
        stops: false,
    }
}

/// The answer to a command that a file was read for: it is a file fault if that is at fault, and out of memory if there is
/// none for it. It is `None` if the command was accepted and there is no memory for the reply.
fn answer_made<O: CarryOut>(
    alloc: Global,
    office: &mut O,
    made: Result<Option<Command>, AllocError>,
) -> Option<LineAnswer>
    ensures clean { O.is_clean office.new → O.is_clean office.old }
    ensures status { IfSome result (λ answer. answer.status ≤ 3) }
    ensures value { IfSome result (λ answer. answer.stops ≡ false
        → Reaches O.is_clean O.stands_at office.old office.new (λ before after.
        IsMadeResponse made before (response_of_answer answer after))) }
    ensures memory { result ≡ None → Reaches O.is_clean O.stands_at office.old office.new (λ before after.
        (command : Command) × (made ≡ Ok (Some command)) × Accepts before command after) }
    ensures stops { IfSome result (λ answer. answer.stops ≡ true
        → Leads O.is_clean O.is_closed O.stands_at O.leaves office.old office.new (λ before after standing.
        (command : Command) × (made ≡ Ok (Some command))
        × IsRefusedByStore on_line before (InDoubt command) (response_of_answer answer after) standing)) }
{
    match made {
        Ok(Some(command)) => answer_to(alloc, office, &command),
        Ok(None) => Some(file_answer()),
        Err(_) => Some(memory_answer(alloc)),
    }
}

/// The answer to a merge of the lists of these names. They are opened first, in their order, and nothing is asked of the
/// office if one of them cannot be opened. It is `None` if the merge was accepted and there is no memory for the reply.
fn answer_merge<O: MergeFrom, L: RunLists>(
    alloc: Global,
    office: &mut O,
    lists: &mut L,
    sources: &Text,
    parts: &[PartNames],
) -> Option<LineAnswer>
    // what is said
    ensures status { IfSome result (λ answer. answer.status ≤ 3) }
    ensures value { IfSome result (λ answer. answer.stops ≡ false
        → Reaches O.is_clean O.stands_at office.old office.new (λ before after.
        IsInvocationResponseOrMemory (L.may_read lists.old) before (invocation_Merge sources.now parts.now)
        (response_of_answer answer after))) }
    ensures memory { result ≡ None → Reaches O.is_clean O.stands_at office.old office.new (λ before after.
        (command : Command) × InvokesAs (L.may_read lists.old) (invocation_Merge sources.now parts.now) command
        × Accepts before command after) }
    ensures stops { IfSome result (λ answer. answer.stops ≡ true
        → Leads O.is_clean O.is_closed O.stands_at O.leaves office.old office.new (λ before after standing.
        IsInvocationRefused (L.may_read lists.old) before (invocation_Merge sources.now parts.now)
        (response_of_answer answer after) standing)) }
    // what is left of the lists and the office
    ensures kept { MayReadLess (L.may_read lists.old) (L.may_read lists.new) }
    ensures clean { O.is_clean office.new → O.is_clean office.old }
{
    match lists_of(alloc, lists, sources, parts) {
        Ok(Some(MergeLists { sources, parts })) => {
            let accepted = office.accepted_count();
            let answered = office.merge_from(sources, parts);
            let is_counted = office.accepted_count() != accepted;
            tell(alloc, "merge", is_counted, answered)
        }
        Ok(None) => Some(file_answer()),
        Err(_) => Some(memory_answer(alloc)),
    }
}

/// The answer to what words ask for. The lists of a merge are opened first, and the file of a report is read, and nothing is
/// asked of the office if one of them is at fault. It is `None` if the command was accepted and there is no memory
/// for the reply.
fn answer_invocation<O: MergeFrom, L: RunLists>(
    alloc: Global,
    office: &mut O,
    lists: &mut L,
    invocation: &Invocation,
) -> Option<LineAnswer>
    // what is said
    ensures status { IfSome result (λ answer. answer.status ≤ 3) }
    ensures value { IfSome result (λ answer. answer.stops ≡ false
        → Reaches O.is_clean O.stands_at office.old office.new (λ before after.
        IsInvocationResponseOrMemory (L.may_read lists.old) before invocation.now
        (response_of_answer answer after))) }
    ensures memory { result ≡ None → Reaches O.is_clean O.stands_at office.old office.new (λ before after.
        (command : Command) × InvokesAs (L.may_read lists.old) invocation.now command × Accepts before command after) }
    ensures stops { IfSome result (λ answer. answer.stops ≡ true
        → Leads O.is_clean O.is_closed O.stands_at O.leaves office.old office.new (λ before after standing.
        IsInvocationRefused (L.may_read lists.old) before invocation.now (response_of_answer answer after) standing)) }
    // what is left of the lists and the office
    ensures kept { MayReadLess (L.may_read lists.old) (L.may_read lists.new) }
    ensures clean { O.is_clean office.new → O.is_clean office.old }
{
    match invocation {
        Invocation::Command { command } => answer_to(alloc, office, command),
        Invocation::Query { query } => Some(answer_query(alloc, office, query)),
        Invocation::Merge { sources, parts } => {
            answer_merge(alloc, office, lists, sources, parts.as_slice())
        }
        Invocation::Report { arch, file } => {
            let made = report_of(alloc, lists, arch, file);
            answer_made(alloc, office, made)
        }
    }
}

/// The answer to words that were not read as anything.
fn unread_answer(alloc: Global, fault: &WordsFault) -> LineAnswer
    ensures fault { fault.now ≡ NoCommand → (machine : Machine)
        → response_of_answer result machine ≡ line_fault_response machine }
    ensures memory { fault.now ≡ Memory → (machine : Machine)
        → response_of_answer result machine ≡ memory_response on_line machine }
    ensures status { result.status ≤ 3 }
    ensures stops { result.stops ≡ false }
{
    match fault {
        WordsFault::NoCommand => fault_answer(),
        WordsFault::Memory => memory_answer(alloc),
    }
}

/// The answer to words, by what they were read as. It is `None` if they asked for a command that was accepted and there is
/// no memory for the reply.
pub(crate) fn answer_read<O: MergeFrom, L: RunLists>(
    alloc: Global,
    office: &mut O,
    lists: &mut L,
    read: &Result<Invocation, WordsFault>,
) -> Option<LineAnswer>
    // what is said
    ensures status { IfSome result (λ answer. answer.status ≤ 3) }
    ensures value { IfSome result (λ answer. (asked : Asked) → IsReadAs asked read.now → answer.stops ≡ false
        → Reaches O.is_clean O.stands_at office.old office.new (λ before after.
        IsResponse (L.may_read lists.old) before asked (response_of_answer answer after))) }
    ensures memory { (asked : Asked) → IsReadAs asked read.now → result ≡ None
        → Reaches O.is_clean O.stands_at office.old office.new (λ before after.
        (command : Command) × Invokes (L.may_read lists.old) asked command × Accepts before command after) }
    ensures stops { IfSome result (λ answer. (asked : Asked) → IsReadAs asked read.now → answer.stops ≡ true
        → Leads O.is_clean O.is_closed O.stands_at O.leaves office.old office.new (λ before after standing.
        IsRefused (L.may_read lists.old) before asked (response_of_answer answer after) standing)) }
    // what is left of the lists and the office
    ensures kept { MayReadLess (L.may_read lists.old) (L.may_read lists.new) }
    ensures clean { O.is_clean office.new → O.is_clean office.old }
{
    match read {
        Ok(invocation) => answer_invocation(alloc, office, lists, invocation),
        Err(fault) => Some(unread_answer(alloc, fault)),
    }
}
