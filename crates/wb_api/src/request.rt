//! A request (RFC 9112, section 2.1), read from a stream.
ghost use Rattle.std.specs.Prelude.{◌≡◌, ℕ, ◌≤◌, List, ◌++◌, drop, Err, false, length, IfSome, map};
ghost use Rattle.std.specs.Io.KnownBytes.{Consumes};
ghost use Rattle.httparse.specs.Borrowed.{header_parts};
ghost use Rattle.httparse.specs.Grammar.{RequestHead};
ghost use Rattle.wb_streams.specs.Streams.{Flags};
ghost use Rattle.wb_streams.specs.Bodies.{TookLess, TookNoMore};
ghost use Rattle.wb_streams.specs.Heads.{IsHeadAt};
ghost use Rattle.wb_keys.specs.Rights.{rights_named};
ghost use Rattle.wb_api.specs.Commands.{IsText};
ghost use Rattle.wb_api.specs.Requests.{Answers, asked_in, asked_with, body_asked, body_length};
ghost use Rattle.wb_api.specs.Requests.{body_wanted, is_failed, IsRequestFrontWith};
ghost use Rattle.wb_api.specs.Requests.{IsWithinRequestWith, LacksBody, LacksMemoryWith, LacksRest};
ghost use Rattle.wb_api.specs.Requests.{length_wanted, MeansWith, query_wanted, Shows, TakesMemory, wanted_by_with};
ghost use Rattle.wb_api.specs.Requests.{wanted_from_with, wanted_of_with, WantsOr};
ghost use Rattle.wb_api.specs.Rights.{shown_by, shown_in};
ghost use Rattle.wb_api.specs.Outcomes.{GivesOr};
ghost use Rattle.wb_api.specs.declared.failure.RequestError.TheVariants.{Memory};
ghost use Rattle.wb_api.specs.declared.request.Received.TheVariants as received;
ghost use Rattle.wb_api.specs.Routes.{route_at};

use crate::Service;
use crate::command::command_of;
use crate::failure::RequestError;
use crate::key::shown_by;
use crate::merge::merge_of;
use crate::route::{BodyKind, QueryKind, Route, Routes, query_of};
use http::Method;
use httparse::{EMPTY_HEADER, Header, Status};
use std::alloc::Global;
use std::io::Read;
use wb_keys::{Kind, Rights, Shown, may_ask};
use wb_lists::MergeNames;
use wb_states::{Command, Query};
use wb_streams::{
    BodyRead, FIELD_LIMIT, Fault, HEAD_LIMIT, HeadRead, WatchedReader, content_length, has_field,
    is_from_browser, read_body, read_head,
};

/// What a request asks for.
/// Source: this project's own.
#[derive(Debug, Drop)]
pub enum Request {
    /// A command to the office.
    Command(Command),
    /// A query, which changes nothing.
    Query(Query),
    /// A merge of lists that are opened by their names.
    Merge(MergeNames),
}

/// What a head asks for.
#[derive(Drop)]
pub(crate) enum Wanted {
    Query(Query),
    /// A command or a merge, which a body of `length` bytes gives.
    Body { kind: BodyKind, length: usize },
}

/// What was read of a request.
/// Source: this project's own.
#[derive(Debug, Drop)]
pub enum Received {
    /// The input ended before its first byte.
    Nothing,
    /// The reader failed.
    Failed,
    /// There is no memory for the request.
    Memory,
    /// The request is not to be carried out.
    Refused(Fault),
    /// A request.
    Asked {
        /// What it shows of a key.
        shown: Shown,
        /// What it asks for.
        request: Request,
    },
}

/// The length of the body that the fields of a command or a merge state. The errors are those of
/// these fields.
#[tactic(auto, unfolding(crate::specs::Requests::length_wanted))]
fn length_wanted(kind: BodyKind, fields: &[Header<'_>]) -> Result<Wanted, Fault>
    ensures value { result ≡ length_wanted kind (map header_parts fields.now) }
{
    if has_field(fields, "transfer-encoding") {
        return Err(Fault::NotSupported);
    }
    match content_length(fields) {
        Ok(length) => Ok(Wanted::Body { kind, length }),
        Err(fault) => Err(fault),
    }
}

/// What the head of a command or a merge asks for, by a line with these rights. The errors are
/// those of its method, of the rights, of its fields and its length.
#[tactic(auto, unfolding(crate::specs::Requests::body_wanted))]
fn body_wanted(
    rights: Rights<'_>,
    kind: BodyKind,
    method: &str,
    fields: &[Header<'_>],
) -> Result<Wanted, Fault>
    ensures value { result ≡ body_wanted (rights_named rights.entry) kind method.now (map header_parts fields.now) }
{
    // Compared as texts: `Method::from_bytes` takes memory for an unknown method of more than 15
    // bytes, so a request with a wrong method could be answered as out of memory.
    if method != Method::POST.as_str() {
        return Err(Fault::WrongMethod);
    }
    if !may_ask(rights, kind.kind()) {
        return Err(Fault::NotAllowed);
    }
    length_wanted(kind, fields)
}

/// What the head of a query asks for, by a line with these rights. The errors are those of its
/// method, of the rights and of the parts of its path, and that memory ran out.
#[tactic(auto, unfolding(crate::specs::Requests::query_wanted), using(crate::proofs::RequestLemmas::query_wants))]
fn query_wanted(
    alloc: Global,
    rights: Rights<'_>,
    kind: QueryKind,
    method: &str,
    target: &str,
) -> Result<Wanted, RequestError>
    ensures value { WantsOr result (query_wanted (rights_named rights.entry) kind method.now target.now) }
{
    if method != Method::GET.as_str() {
        return Err(RequestError::Fault(Fault::WrongMethod));
    }
    if !may_ask(rights, Kind::Query) {
        return Err(RequestError::Fault(Fault::NotAllowed));
    }
    match query_of(alloc, kind, target) {
        Ok(query) => Ok(Wanted::Query(query)),
        Err(error) => Err(error),
    }
}

/// What a head asks for that takes no memory.
fn wanted_or_fault(wanted: Result<Wanted, Fault>) -> Result<Wanted, RequestError>
    ensures value { WantsOr result wanted }
{
    match wanted {
        Ok(wanted) => Ok(wanted),
        Err(fault) => Err(RequestError::Fault(fault)),
    }
}

/// What a head of this method, target and fields asks for, by a line with these rights. The errors
/// are that nothing has the target, those of the command, the merge or the query that has it, and
/// that memory ran out.
fn wanted_by(
    alloc: Global,
    routes: &Routes,
    has_lists: bool,
    rights: Rights<'_>,
    method: &str,
    target: &str,
    fields: &[Header<'_>],
) -> Result<Wanted, RequestError>
    ensures value { WantsOr result (wanted_by_with has_lists (rights_named rights.entry)
        (route_at target.now) method.now target.now (map header_parts fields.now)) }
{
    match routes.at(target) {
        Some(Route::Command(kind)) => wanted_or_fault(body_wanted(
            rights,
            BodyKind::Command(kind),
            method,
            fields,
        )),
        Some(Route::Query(kind)) => query_wanted(alloc, rights, kind, method, target),
        Some(Route::Merge) if has_lists => {
            wanted_or_fault(body_wanted(rights, BodyKind::Merge, method, fields))
        }
        Some(Route::Merge) | None => Err(RequestError::Fault(Fault::NoRoute)),
    }
}

/// What a head of this method, target and fields asks for, which shows this of a key. The errors
/// are that a web page had it sent, that its key is on no line, and those of its target.
fn wanted_from(
    alloc: Global,
    routes: &Routes,
    service: &Service,
    shown: &Shown,
    method: &str,
    target: &str,
    fields: &[Header<'_>],
) -> Result<Wanted, RequestError>
    ensures value { shown.now ≡ shown_by (map header_parts fields.now) → WantsOr result
        (wanted_from_with service.now method.now target.now (map header_parts fields.now)) }
{
    if is_from_browser(fields) {
        return Err(RequestError::Fault(Fault::FromBrowser));
    }
    let Some(rights) = service.access.rights_of(shown) else {
        return Err(RequestError::Fault(Fault::NoKey));
    };
    wanted_by(
        alloc,
        routes,
        service.has_lists,
        rights,
        method,
        target,
        fields,
    )
}

/// What the head at the front of the bytes shows of a key, and what it asks for.
fn head_of(
    alloc: Global,
    routes: &Routes,
    service: &Service,
    bytes: &[u8],
) -> (Shown, Result<Wanted, RequestError>)
    ensures value { (count : ℕ) (head : RequestHead) → IsHeadAt bytes.now count head
        → WantsOr result.1 (wanted_of_with service.now head) }
    ensures shown { (count : ℕ) (head : RequestHead) → IsHeadAt bytes.now count head
        → result.0 ≡ shown_in head }
{
    let mut fields = [EMPTY_HEADER; FIELD_LIMIT];
    let mut request = httparse::Request::new(&mut fields);
    let Ok(Status::Complete(_)) = request.parse(bytes) else {
        return (Shown::Nothing, Err(RequestError::Fault(Fault::BadHead)));
    };
    match (request.method, request.path) {
        (Some(method), Some(target)) => {
            let fields: &[Header<'_>] = request.headers;
            let shown = shown_by(fields);
            let wanted = wanted_from(alloc, routes, service, &shown, method, target, fields);
            (shown, wanted)
        }
        _ => (Shown::Nothing, Err(RequestError::Fault(Fault::BadHead))),
    }
}

/// What the head at the front of the bytes asks for.
pub(crate) fn wanted_of(
    alloc: Global,
    routes: &Routes,
    service: &Service,
    bytes: &[u8],
) -> Result<Wanted, RequestError>
    ensures value { (count : ℕ) (head : RequestHead) → IsHeadAt bytes.now count head
        → WantsOr result (wanted_of_with service.now head) }
{
    let (_, wanted) = head_of(alloc, routes, service, bytes);
    wanted
}

/// What the bytes of a body ask for. The errors are that they ask for nothing, and, for bytes that
/// are UTF-8, that memory ran out.
fn request_in(alloc: Global, kind: BodyKind, bytes: &[u8]) -> Result<Request, RequestError>
    ensures value { GivesOr result (asked_in kind bytes.now) }
    ensures memory { result ≡ Err Memory → IsText bytes.now }
{
    match kind {
        BodyKind::Command(command) => match command_of(alloc, command, bytes) {
            Ok(command) => Ok(Request::Command(command)),
            Err(error) => Err(error),
        },
        BodyKind::Merge => match merge_of(alloc, bytes) {
            Ok(names) => Ok(Request::Merge(names)),
            Err(error) => Err(error),
        },
    }
}

/// What the bytes of a body give, of a request that shows this of a key.
fn receive_asked(alloc: Global, shown: Shown, kind: BodyKind, bytes: &[u8]) -> Received
    ensures value { Answers (asked_in kind bytes.now) result }
    ensures shown { Shows shown result }
    ensures memory { result ≡ received.Memory → IsText bytes.now }
    ensures failed { is_failed result ≡ false }
{
    match request_in(alloc, kind, bytes) {
        Ok(request) => Received::Asked { shown, request },
        Err(RequestError::Fault(fault)) => Received::Refused(fault),
        Err(RequestError::Memory) => Received::Memory,
    }
}

/// Reads the body of a command or a merge that shows this of a key, of which a front may have come
/// already, and what follows it. A body that came whole is read where it stands, without memory for
/// it.
fn receive_body<R: Read + Drop>(
    alloc: Global,
    reader: &mut WatchedReader<R>,
    already: &[u8],
    shown: Shown,
    kind: BodyKind,
    length: usize,
) -> Received
    ensures value { IfSome reader.old.bytes
        (λ left. Answers (body_asked kind length (already.now ++ left)) result) }
    ensures shown { Shows shown result }
    ensures failed { Flags (is_failed result) reader.old reader.new }
    ensures front { result ≡ received.Failed
        → TookLess already.now length reader.old.bytes reader.new.bytes }
    ensures bound { TookNoMore already.now length reader.old.bytes reader.new.bytes }
    ensures memory { result ≡ received.Memory → (taken : List ℕ)
        × Consumes reader.old.bytes reader.new.bytes taken × LacksBody length already.now taken }
{
    if length <= already.len() {
        return receive_asked(alloc, shown, kind, &already[..length]);
    }
    match read_body(alloc, reader, already, length) {
        BodyRead::Whole(body) => receive_asked(alloc, shown, kind, body.as_slice()),
        BodyRead::Cut => Received::Refused(Fault::BodyCut),
        BodyRead::Failed => Received::Failed,
        BodyRead::Memory => Received::Memory,
    }
}

/// Reads what follows a head of `count` bytes, which stands at the front of what came already.
fn receive_rest<R: Read + Drop>(
    alloc: Global,
    routes: &Routes,
    service: &Service,
    reader: &mut WatchedReader<R>,
    already: &[u8],
    count: usize,
) -> Received
    requires { count ≤ length already.now }
    ensures value { IfSome reader.old.bytes (λ left. (head : RequestHead) → IsHeadAt already.now count head
        → Answers (asked_with service.now head (drop count already.now ++ left)) result) }
    ensures shown { (head : RequestHead) → IsHeadAt already.now count head
        → Shows (shown_in head) result }
    ensures memory { result ≡ received.Memory → (head : RequestHead) → IsHeadAt already.now count head
        → TakesMemory (wanted_of_with service.now head) }
    ensures failed { Flags (is_failed result) reader.old reader.new }
    ensures front { result ≡ received.Failed → (head : RequestHead)
        → IsHeadAt already.now count head → TookLess (drop count already.now)
        (body_length (wanted_of_with service.now head)) reader.old.bytes reader.new.bytes }
    ensures bound { (head : RequestHead) → IsHeadAt already.now count head
        → TookNoMore (drop count already.now) (body_length (wanted_of_with service.now head))
        reader.old.bytes reader.new.bytes }
    ensures lacks { result ≡ received.Memory → (head : RequestHead) → IsHeadAt already.now count head
        → (taken : List ℕ) × Consumes reader.old.bytes reader.new.bytes taken
        × LacksRest (wanted_of_with service.now head) (drop count already.now) taken }
{
    let (shown, wanted) = head_of(alloc, routes, service, already);
    match wanted {
        Ok(Wanted::Query(query)) => Received::Asked {
            shown,
            request: Request::Query(query),
        },
        Ok(Wanted::Body { kind, length }) => {
            receive_body(alloc, reader, &already[count..], shown, kind, length)
        }
        Err(RequestError::Fault(fault)) => Received::Refused(fault),
        Err(RequestError::Memory) => Received::Memory,
    }
}

/// Reads one request: a head of at most 8192 bytes and 32 fields, and for a command or a merge a
/// body of at most 16777216 bytes. Without lists there is no path of a merge. A request that a web
/// page had its browser send is refused by its head, and so is one whose key is on no line, or on
/// one without a right for such requests. No byte after the request plays a part, and
/// neither does how the bytes are cut into reads. A read that fails, also one that is interrupted,
/// ends it, and so does the end of the input. The memory for a body is taken before the first read
/// of it, and a body that came with the head takes none. There is no read once the request has
/// come, or a fault of it, since the client waits for its answer then. The reads of a head take at
/// most 8192 bytes, which may include bytes after the request; those of a body take none after it.
/// Source: RFC 9112; the limits, the paths and the keys are this project's own.
pub fn read_request<R: Read + Drop>(
    alloc: Global,
    routes: &Routes,
    service: &Service,
    reader: &mut WatchedReader<R>,
) -> Received
    ensures value { IfSome reader.old.bytes (λ input. MeansWith service.now input result) }
    ensures failed { Flags (is_failed result) reader.old reader.new }
    ensures front { result ≡ received.Failed → (seen : List ℕ)
        × Consumes reader.old.bytes reader.new.bytes seen × IsRequestFrontWith service.now seen }
    ensures bound { (seen : List ℕ)
        × Consumes reader.old.bytes reader.new.bytes seen × IsWithinRequestWith service.now seen }
    ensures memory { result ≡ received.Memory
        → LacksMemoryWith service.now reader.old.bytes reader.new.bytes }
{
    let mut room = [0u8; HEAD_LIMIT];
    match read_head(reader, &mut room) {
        HeadRead::Whole { count, filled } => {
            receive_rest(alloc, routes, service, reader, &room[..filled], count)
        }
        HeadRead::Nothing => Received::Nothing,
        HeadRead::Malformed => Received::Refused(Fault::BadHead),
        HeadRead::TooLarge => Received::Refused(Fault::HeadTooLarge),
        HeadRead::Failed => Received::Failed,
    }
}
