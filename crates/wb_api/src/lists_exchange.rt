//! One exchange of an office that merges lists: where a merge is asked for, its lists are opened
//! before the office is asked.
ghost use Rattle.std.specs.Prelude.{◌≡◌, ℕ, List, [], IfSome, IsOk, None, Some, false, true};
ghost use Rattle.wb_lists.specs.Lists.{MayReadLess, MayReadMerge};
ghost use Rattle.wb_lists.specs.declared.names.MergeNames.{MergeNames as AnyNames};
ghost use Rattle.wb_keys.specs.declared.access.Shown.{Shown as AnyShown};
ghost use Rattle.wb_states.specs.Machine.{Machine};
ghost use Rattle.wb_states.specs.declared.command.Command.{Command as AnyCommand};
ghost use Rattle.wb_step.specs.Offices.{Accepts, Reaches};
ghost use Rattle.wb_step.specs.Step.{step};
ghost use Rattle.wb_api.specs.Requests.{MeansWith};
ghost use Rattle.wb_api.specs.declared.request.Received.TheVariants.{Asked};
ghost use Rattle.wb_api.specs.declared.request.Received.{Received as AnyReceived};
ghost use Rattle.wb_api.specs.declared.request.Request.TheVariants.{Command as asked_Command, Merge as asked_Merge};
ghost use Rattle.wb_streams.specs.Streams.{Flags};
ghost use Rattle.wb_api.specs.Exchange.{AcceptsOf, AsksFor, asks_merge, ExchangesWith, fails_to_write, is_asked};
ghost use Rattle.wb_api.specs.Exchange.{is_merge, is_silent, IsAnswerTo, IsAnswerWith, LeadsOn, ReceivesWith};
ghost use Rattle.wb_api.specs.Exchange.{response_of_answer, TellsOk};

use crate::answer::{HttpAnswer, answer_command};
use crate::ask::answer_query;
use crate::merge_answer::answer_merge;
use crate::rights::not_allowed;
use crate::route::Routes;
use crate::serve::{KeyedRequest, Served, receive, respond};
use crate::{Request, Service};
use std::alloc::Global;
use std::io::{Read, Write};
use wb_archive::MergeFrom;
use wb_keys::Access;
use wb_lists::Lists;
use wb_streams::{WatchedReader, WatchedWriter};

/// The answer of the office to a request, with the lists of a merge. It is `None` if a command was
/// accepted and there is no memory for the reply.
fn answer_request<O: MergeFrom, L: Lists>(
    alloc: Global,
    office: &mut O,
    lists: &mut L,
    request: &Request,
) -> Option<HttpAnswer>
    // what is answered
    ensures clean { O.is_clean office.new → O.is_clean office.old }
    ensures value { IfSome result (λ answer. LeadsOn O.is_clean O.is_closed O.stands_at O.leaves
        office.old office.new (λ before after standing. IsAnswerWith (L.may_read lists.old) before
        request.now (response_of_answer answer after) standing)) }
    ensures memory { result ≡ None → Reaches O.is_clean O.stands_at office.old office.new
        (λ before after. (command : AnyCommand) × AsksFor (L.may_read lists.old) request.now command
        × Accepts before command after) }
    // what is left of the lists
    ensures kept { MayReadLess (L.may_read lists.old) (L.may_read lists.new) }
    ensures unopened { asks_merge request.now ≡ false → lists.new ≡ lists.old }
{
    match request {
        Request::Command(command) => answer_command(alloc, office, command),
        Request::Query(query) => Some(answer_query(alloc, office, query)),
        Request::Merge(names) => answer_merge(alloc, office, lists, names),
    }
}

/// The answer to a request, by who asks: that it is not allowed, or else the answer of the office.
fn answer_asked<O: MergeFrom, L: Lists>(
    alloc: Global,
    access: &Access,
    office: &mut O,
    lists: &mut L,
    asked: &KeyedRequest,
) -> Option<HttpAnswer>
    // what is answered
    ensures clean { O.is_clean office.new → O.is_clean office.old }
    ensures value { IfSome result (λ answer. LeadsOn O.is_clean O.is_closed O.stands_at O.leaves
        office.old office.new (IsAnswerTo access.now (L.may_read lists.old) asked.now.shown
        asked.now.request answer)) }
    ensures memory { result ≡ None → Reaches O.is_clean O.stands_at office.old office.new
        (AcceptsOf access.now (L.may_read lists.old) asked.now.shown asked.now.request) }
    // what is left of the lists
    ensures kept { MayReadLess (L.may_read lists.old) (L.may_read lists.new) }
    ensures unopened { asks_merge asked.now.request ≡ false → lists.new ≡ lists.old }
{
    match not_allowed(alloc, office, access, &asked.shown, &asked.request) {
        Some(answer) => Some(answer),
        None => {
            office.asked_by(access.name_of(&asked.shown));
            answer_request(alloc, office, lists, &asked.request)
        }
    }
}

/// Reads one request, has the office carry it out, with the lists of a merge, and writes the
/// answer.
fn exchange<O: MergeFrom, L: Lists, R: Read + Drop, W: Write + Drop>(
    alloc: Global,
    routes: &Routes,
    service: &Service,
    office: &mut O,
    lists: &mut L,
    reader: &mut WatchedReader<R>,
    writer: &mut WatchedWriter<W>,
) -> Served
    // what was asked, done and answered, and which lists were opened
    ensures clean { O.is_clean office.new → O.is_clean office.old }
    ensures value { (received : AnyReceived) × ReceivesWith service.now reader.old reader.new received
        × (is_asked received ≡ false → office.new ≡ office.old)
        × (is_merge received ≡ false → lists.new ≡ lists.old)
        × LeadsOn O.is_clean O.is_closed O.stands_at O.leaves office.old office.new
        (λ before after standing. ExchangesWith service.now.access (L.may_read lists.old) received
        before after standing
        writer.old.bytes writer.new.bytes result) }
    ensures kept { MayReadLess (L.may_read lists.old) (L.may_read lists.new) }
    // no byte is written without an answer, and only a failed write sets the flag of the writer
    ensures silent { is_silent result ≡ true → writer.new.bytes ≡ writer.old.bytes }
    ensures failed { Flags (fails_to_write result) writer.old writer.new }
{
    match receive(alloc, routes, service, reader, writer) {
        Ok(asked) => {
            let answer = answer_asked(alloc, &service.access, office, lists, &asked);
            respond(writer, answer)
        }
        Err(served) => served,
    }
}

/// Serves one exchange as [`serve_one`](crate::serve_one) does, of an office that also merges
/// lists, if the service has them, and to those who may ask.
///
/// Who shows no key that the service knows is answered `NoKey` by the head of the request, and so
/// is `NotAllowed` whose line has no right for the path, so that no body is read. Whose line has no
/// right for what the body says is answered `NotAllowed` before the office is asked for anything
/// but who holds the take number of a report; if that cannot be found out, the answer is `Memory`,
/// `Store` or `Closed` as for a query. The office is as it was after each of these.
///
/// The lists that a merge names are opened once the request has come and before the office is
/// asked: the Sources list, and then those of its parts in their order. If one of them cannot be
/// opened, the answer is the fault `NoList`, and if there is no memory for them the refusal
/// `Memory`; the office is as it was. A list that breaks off later is refused as in
/// [`merge_from`](MergeFrom::merge_from). No list is opened for any other request. Source: RFC
/// 9112, section 9.3, for one exchange; the rest is this project's own.
pub fn serve_with_lists<O: MergeFrom, L: Lists, R: Read + Drop, W: Write + Drop>(
    alloc: Global,
    routes: &Routes,
    service: &Service,
    office: &mut O,
    lists: &mut L,
    reader: &mut WatchedReader<R>,
    writer: &mut WatchedWriter<W>,
) -> Served
    // what was asked, done and answered, and which lists were opened
    ensures clean { O.is_clean office.new → O.is_clean office.old }
    ensures value { (received : AnyReceived) × ReceivesWith service.now reader.old reader.new received
        × (is_asked received ≡ false → office.new ≡ office.old)
        × (is_merge received ≡ false → lists.new ≡ lists.old)
        × LeadsOn O.is_clean O.is_closed O.stands_at O.leaves office.old office.new
        (λ before after standing. ExchangesWith service.now.access (L.may_read lists.old) received
        before after standing
        writer.old.bytes writer.new.bytes result) }
    ensures kept { MayReadLess (L.may_read lists.old) (L.may_read lists.new) }
    // what an answer with status 200 to a command says, or a front of one; and to a merge, that one
    // of what its lists may be read as stands
    ensures acknowledged { (before : Machine) (input : List ℕ) (shown : AnyShown) (command : AnyCommand)
        → O.is_clean office.new → O.stands_at office.old before → reader.old.bytes ≡ Some input
        → MeansWith service.now input (Asked shown (asked_Command command)) → TellsOk result
        → IsOk (step before command).0 × O.stands_at office.new (step before command).1 }
    ensures merged { (before : Machine) (input : List ℕ) (shown : AnyShown) (names : AnyNames)
        → O.is_clean office.new → O.stands_at office.old before → reader.old.bytes ≡ Some input
        → MeansWith service.now input (Asked shown (asked_Merge names)) → TellsOk result
        → (command : AnyCommand) × MayReadMerge (L.may_read lists.old) names.sources names.parts command
        × IsOk (step before command).0 × O.stands_at office.new (step before command).1 }
    // no byte is written without an answer, and only a failed write sets the flag of the writer
    ensures silent { is_silent result ≡ true → writer.new.bytes ≡ writer.old.bytes }
    ensures failed { Flags (fails_to_write result) writer.old writer.new }
{
    exchange(alloc, routes, service, office, lists, reader, writer)
}

// An answer takes memory here alone, since it is kept until the client takes it. If there is none,
// the client gets a front, as after a failed write. An answer that is written to the socket at once
// would have all others wait.
/// Serves one exchange over the bytes of a request that has come, as [`serve_with_lists`] does over
/// a reader: how it ended, and the bytes of the answer. If there is no memory for all of these, it
/// ended with a failed write, and they are a front. Source: RFC 9112, section 9.3, for one
/// exchange; the rest is this project's own.
pub fn answer_with_lists<O: MergeFrom, L: Lists>(
    alloc: Global,
    routes: &Routes,
    service: &Service,
    office: &mut O,
    lists: &mut L,
    request: &[u8],
) -> (Served, Vec<u8>)
    ensures clean { O.is_clean office.new → O.is_clean office.old }
    ensures value { (received : AnyReceived) × MeansWith service.now request.now received
        × (is_asked received ≡ false → office.new ≡ office.old)
        × (is_merge received ≡ false → lists.new ≡ lists.old)
        × LeadsOn O.is_clean O.is_closed O.stands_at O.leaves office.old office.new
        (λ before after standing. ExchangesWith service.now.access (L.may_read lists.old) received
        before after standing
        (Some []) (Some result.1.items) result.0) }
    ensures kept { MayReadLess (L.may_read lists.old) (L.may_read lists.new) }
{
    let mut reader = WatchedReader::new(request);
    let mut writer = WatchedWriter::new(Vec::new(alloc));
    let served = serve_with_lists(
        alloc,
        routes,
        service,
        office,
        lists,
        &mut reader,
        &mut writer,
    );
    (served, writer.into_inner())
}
