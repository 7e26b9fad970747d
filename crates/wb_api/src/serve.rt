//! One exchange: a request is read whole, the office answers it, and only then is the answer
//! written.
ghost use Rattle.std.specs.Prelude.{◌≡◌, ℕ, List, IfErr, IfSome, IsOk, None, Some, false, true};
ghost use Rattle.std.specs.Cow.{cow_str_bytes};
ghost use Rattle.wb_keys.specs.declared.access.Shown.{Shown as AnyShown};
ghost use Rattle.wb_states.specs.Machine.{Machine};
ghost use Rattle.wb_states.specs.declared.command.Command.{Command as AnyCommand};
ghost use Rattle.wb_step.specs.Offices.{Accepts, Leads, Reaches};
ghost use Rattle.wb_step.specs.Step.{step};
ghost use Rattle.wb_api.specs.Requests.{Means};
ghost use Rattle.wb_api.specs.declared.request.Received.TheVariants.{Asked};
ghost use Rattle.wb_api.specs.declared.request.Received.{Received as AnyReceived};
ghost use Rattle.wb_api.specs.declared.request.Request.TheVariants.{Command as asked_Command};
ghost use Rattle.wb_streams.specs.Streams.{Flags};
ghost use Rattle.wb_api.specs.Exchange.{Begins, Exchanges, fails_to_write, is_asked, IsAnswer, is_silent, LeadsOn};
ghost use Rattle.wb_api.specs.Exchange.{Receives, ReceivesWith, response_of_answer, Sends, SendsAny, TellsOk};

use crate::answer::{HttpAnswer, answer_command, fault_answer, memory_answer};
use crate::ask::answer_query;
use crate::route::Routes;
use crate::{Received, Request, Service, read_request};
use http::StatusCode;
use std::alloc::Global;
use std::io::{Read, Write};
use wb_keys::Shown;
use wb_step::CarryOut;
use wb_streams::{Fault, WatchedReader, WatchedWriter, write_answer};

/// How an exchange ended.
/// Source: this project's own.
#[derive(Clone, Copy, Debug, PartialEq, Eq)]
pub enum Served {
    /// The input ended before its first byte. Nothing was written.
    Nothing,
    /// The reader failed. Nothing was written, and the office was not asked.
    ReadFailed,
    /// An answer with this status was written.
    Answered {
        /// The status.
        status: StatusCode,
    },
    /// The writer failed, and of an answer with this status a front was written.
    WriteFailed {
        /// The status.
        status: StatusCode,
    },
    /// A command was accepted, and there is no memory for the reply. Nothing was written.
    Mute,
}

/// The answer of the office to a request. It is `None` if a command was accepted and there is no
/// memory for the reply.
fn answer_request<O: CarryOut>(
    alloc: Global,
    office: &mut O,
    request: &Request,
) -> Option<HttpAnswer>
    ensures clean { O.is_clean office.new → O.is_clean office.old }
    ensures value { IfSome result (λ answer. LeadsOn O.is_clean O.is_closed O.stands_at O.leaves
        office.old office.new (λ before after standing. IsAnswer before
        request.now (response_of_answer answer after) standing)) }
    ensures memory { result ≡ None → Reaches O.is_clean O.stands_at office.old office.new
        (λ before after. (command : AnyCommand) × (request.now ≡ asked_Command command)
        × Accepts before command after) }
{
    match request {
        Request::Command(command) => answer_command(alloc, office, command),
        Request::Query(query) => Some(answer_query(alloc, office, query)),
        // There is no list, so that the office has nothing to merge.
        Request::Merge(_) => Some(fault_answer(Fault::NoList)),
    }
}

/// A request, and what it shows of a key.
#[derive(Drop)]
pub(crate) struct KeyedRequest {
    pub(crate) shown: Shown,
    pub(crate) request: Request,
}

/// Writes the answer.
pub(crate) fn send<W: Write + Drop>(writer: &mut WatchedWriter<W>, answer: &HttpAnswer) -> Served
    ensures value { (machine : Machine) → Sends (response_of_answer answer.now machine)
        writer.old.bytes writer.new.bytes result }
    ensures spoken { is_silent result ≡ false }
    ensures failed { Flags (fails_to_write result) writer.old writer.new }
{
    let status = answer.status;
    if write_answer(writer, status, answer.text.as_str()) {
        Served::Answered { status }
    } else {
        Served::WriteFailed { status }
    }
}

/// Reads one request to this service. If none came, or none that is to be carried out, its fault is
/// answered, and the error is how the exchange ended.
pub(crate) fn receive<R: Read + Drop, W: Write + Drop>(
    alloc: Global,
    routes: &Routes,
    service: &Service,
    reader: &mut WatchedReader<R>,
    writer: &mut WatchedWriter<W>,
) -> Result<KeyedRequest, Served>
    ensures value { (received : AnyReceived) × ReceivesWith service.now reader.old reader.new received
        × Begins received writer.old writer.new result }
    ensures silent { IfErr result (λ served. is_silent served ≡ true → writer.new.bytes ≡ writer.old.bytes) }
    ensures failed { IfErr result (λ served. Flags (fails_to_write served) writer.old writer.new) }
{
    match read_request(alloc, routes, service, reader) {
        Received::Asked { shown, request } => Ok(KeyedRequest { shown, request }),
        Received::Nothing => Err(Served::Nothing),
        Received::Failed => Err(Served::ReadFailed),
        Received::Memory => Err(send(writer, &memory_answer(alloc))),
        Received::Refused(fault) => Err(send(writer, &fault_answer(fault))),
    }
}

/// Writes what is answered to a request. It is `None`, and nothing is written, if a command was
/// accepted and there is no memory for the reply.
pub(crate) fn respond<W: Write + Drop>(
    writer: &mut WatchedWriter<W>,
    answer: Option<HttpAnswer>,
) -> Served
    ensures value { SendsAny answer writer.old.bytes writer.new.bytes result }
    ensures silent { is_silent result ≡ true → writer.new.bytes ≡ writer.old.bytes }
    ensures failed { Flags (fails_to_write result) writer.old writer.new }
{
    match answer {
        Some(answer) => send(writer, &answer),
        None => Served::Mute,
    }
}

/// Reads one request to this service, has the office carry it out, whoever asks, and writes the
/// answer.
fn exchange<O: CarryOut, R: Read + Drop, W: Write + Drop>(
    alloc: Global,
    routes: &Routes,
    service: &Service,
    office: &mut O,
    reader: &mut WatchedReader<R>,
    writer: &mut WatchedWriter<W>,
) -> Served
    ensures clean { O.is_clean office.new → O.is_clean office.old }
    ensures value { (received : AnyReceived) × ReceivesWith service.now reader.old reader.new received
        × (is_asked received ≡ false → office.new ≡ office.old)
        × LeadsOn O.is_clean O.is_closed O.stands_at O.leaves office.old office.new
        (λ before after standing. Exchanges received before after standing
        writer.old.bytes writer.new.bytes result) }
    ensures silent { is_silent result ≡ true → writer.new.bytes ≡ writer.old.bytes }
    ensures failed { Flags (fails_to_write result) writer.old writer.new }
{
    match receive(alloc, routes, service, reader, writer) {
        Ok(asked) => respond(writer, answer_request(alloc, office, &asked.request)),
        Err(served) => served,
    }
}

/// Serves one exchange, without lists and without keys: reads one request, has the office carry it
/// out, and writes the answer, after which the connection is to be closed.
///
/// The request is read whole before the office is asked, and nothing is written before the office
/// has answered. A fault of the request is answered without asking the office. How the bytes are
/// cut into reads plays no part, and neither does what follows the body. If there is no memory for
/// the request, or for the text of a refusal, of a repeated reply or of what a query found, the
/// answer is the refusal `Memory` instead, with status 503. The exchange ends without an answer if
/// no byte came, if the reader failed, and if there is no memory for the reply to an accepted
/// command, which stands. After a failed write a front of the answer was written, and what was
/// carried out stands too. Source: RFC 9112, section 9.3, for one exchange; the rest is this
/// project's own.
pub fn serve_one<O: CarryOut, R: Read + Drop, W: Write + Drop>(
    alloc: Global,
    routes: &Routes,
    office: &mut O,
    reader: &mut WatchedReader<R>,
    writer: &mut WatchedWriter<W>,
) -> Served
    // what was asked, done and answered
    ensures clean { O.is_clean office.new → O.is_clean office.old }
    ensures value { (received : AnyReceived) × Receives reader.old reader.new received
        × (is_asked received ≡ false → office.new ≡ office.old)
        × Leads O.is_clean O.is_closed O.stands_at O.leaves office.old office.new
        (λ before after standing. Exchanges received before after standing
        writer.old.bytes writer.new.bytes result) }
    // the same, and an office that is not closed after it stands open at the state after it
    ensures goes_on { (received : AnyReceived) × Receives reader.old reader.new received
        × (is_asked received ≡ false → office.new ≡ office.old)
        × LeadsOn O.is_clean O.is_closed O.stands_at O.leaves office.old office.new
        (λ before after standing. Exchanges received before after standing
        writer.old.bytes writer.new.bytes result) }
    // what an answer with status 200 to a command says, or a front of one
    ensures acknowledged { (before : Machine) (input : List ℕ) (shown : AnyShown) (command : AnyCommand)
        → O.is_clean office.new → O.stands_at office.old before → reader.old.bytes ≡ Some input
        → Means input (Asked shown (asked_Command command)) → TellsOk result
        → IsOk (step before command).0 × O.stands_at office.new (step before command).1 }
    // no byte is written without an answer, and only a failed write sets the flag of the writer
    ensures silent { is_silent result ≡ true → writer.new.bytes ≡ writer.old.bytes }
    ensures failed { Flags (fails_to_write result) writer.old writer.new }
{
    let service = Service::plain();
    exchange(alloc, routes, &service, office, reader, writer)
}
