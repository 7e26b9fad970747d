//! One client: its socket, which never waits, and its connection.
ghost use Rattle.std.specs.Prelude.{◌≡◌, ◌↔◌, IsTrue, [], ◌∷◌, ◌++◌, option_map};
ghost use Rattle.wb_serve.specs.Connections.{asked_of, given_of, opened, put};
ghost use Rattle.wb_serve.specs.Places.{IsNotGiven};
ghost use Rattle.wb_serve.specs.declared.connection.Stage.TheVariants.{Ready};

use crate::connection::{Connection, Stage, Took, Wrote};
use crate::history::History;
use mio::net::TcpStream;
use std::alloc::Global;
use std::io::{ErrorKind, Read};
use std::net::Shutdown;
use std::time::Duration;
use wb_api::{Routes, Service};

// One deadline for all that a client sends and is sent. A limit on each read lets a client that
// sends a byte in time keep its connection for days.
/// How many seconds a client has for its request and its answer together.
pub(crate) const LIMIT_SECONDS: u64 = 30;

/// How many seconds a client that was answered has until it closes its end.
const CLOSING_SECONDS: u64 = 2;

/// How many bytes are read, and dropped, of what a client sends after its answer.
const CLOSING_BYTES: usize = 16_777_216;

/// A request of no more bytes is read whatever the others hold.
const SMALL: usize = 65_536;

/// How many steps a client makes in a turn.
const STEPS: usize = 4;

/// What is to be done with a client after a step.
#[derive(Clone, Copy, Debug, PartialEq, Eq)]
pub(crate) enum Next {
    /// It can step again at once.
    Again,
    /// It steps again when its socket is ready, when there is memory for its request, or when it
    /// has its answer.
    Wait,
    /// The connection is over.
    Close,
    /// Reading failed before the request had come.
    ReadFailed,
    /// The request had come, and got no answer.
    Unanswered,
    /// Writing failed before the answer was written.
    WriteFailed,
}

/// What a client holds that others want.
#[derive(Clone, Copy, Debug, PartialEq, Eq)]
pub(crate) enum Wanted {
    /// Its place.
    Place,
    /// Memory for the rest of its request.
    Room,
    /// Memory for its answer.
    Answer,
}

/// What the clients share.
#[derive(Drop)]
pub(crate) struct Shared<'a> {
    /// Where memory comes from.
    pub(crate) alloc: Global,
    /// The paths that are served.
    pub(crate) routes: &'a Routes,
    /// Where what is read lies until it is kept.
    pub(crate) buffer: Vec<u8>,
    /// How many bytes more the requests that are not small may have together.
    pub(crate) room: usize,
    /// Whether one found no room since this was last looked at.
    pub(crate) is_short: bool,
    /// How many bytes the answers have together that are being written.
    pub(crate) answers: usize,
    /// The time since the service began.
    pub(crate) now: Duration,
}

/// A client.
#[derive(Drop)]
pub(crate) struct Client {
    stream: TcpStream,
    connection: Connection,
    /// How many bytes of the room that all share it holds, once it has taken what it needs.
    held: Option<usize>,
    /// How many bytes its answer has, while it is being written.
    answer: usize,
    /// When bytes last came from it or went to it.
    moved: Duration,
    /// How many bytes were dropped since its answer was written.
    dropped: Option<usize>,
    readable: bool,
    writable: bool,
    /// When its time is over.
    deadline: Duration,
    /// The status of its answer.
    code: u16,
}

impl Client {
    /// A client that has just connected.
    pub(crate) fn new(alloc: Global, stream: TcpStream, now: Duration) -> Client
        ensures opened { result.connection ≡ opened }
    {
        Client {
            stream,
            connection: Connection::new(alloc),
            held: None,
            answer: 0,
            moved: now,
            dropped: None,
            readable: true,
            writable: true,
            deadline: now.saturating_add(Duration::from_secs(LIMIT_SECONDS)),
            code: 0,
        }
    }

    /// Says that its socket may be ready for this.
    pub(crate) fn wake(&mut self, readable: bool, writable: bool)
        ensures connection { self.new.connection ≡ self.old.connection }
    {
        self.readable = self.readable || readable;
        self.writable = self.writable || writable;
    }

    /// Gives back what it holds of the room, and says whether that is anything.
    pub(crate) fn release(&mut self, shared: &mut Shared<'_>) -> bool
        ensures connection { self.new.connection ≡ self.old.connection }
    {
        let held = self.held.unwrap_or(0);
        shared.room = shared.room.saturating_add(held);
        self.held = None;
        held != 0
    }

    /// Notes that its answer is not being written any more.
    pub(crate) fn end_answer(&mut self, shared: &mut Shared<'_>)
        ensures connection { self.new.connection ≡ self.old.connection }
    {
        shared.answers = shared.answers.saturating_sub(self.answer);
        self.answer = 0;
    }

    /// Whether it holds what is wanted, and neither sent nor took anything since then, although it
    /// was to.
    pub(crate) fn is_idle_since(&self, wanted: Wanted, time: Duration) -> bool {
        let holds = match wanted {
            Wanted::Place => self.dropped.is_none() && self.connection.stage() != Stage::Ready,
            Wanted::Room => match self.connection.stage() {
                Stage::Body(_) => 0 < self.held.unwrap_or(0),
                _ => false,
            },
            Wanted::Answer => 0 < self.answer,
        };
        holds && self.moved <= time
    }

    /// Whether its head has not come.
    pub(crate) fn is_in_head(&self) -> bool {
        self.dropped.is_none() && self.connection.stage() == Stage::Head
    }

    /// Whether it has its answer.
    pub(crate) fn is_answered(&self) -> bool {
        match self.connection.stage() {
            Stage::Answer(_) => true,
            _ => self.dropped.is_some(),
        }
    }

    /// When its time is over.
    pub(crate) fn deadline(&self) -> Duration {
        self.deadline
    }

    /// The status of its answer, or 0 if it has none.
    pub(crate) fn code(&self) -> u16 {
        self.code
    }

    /// Whether its request has come, and it waits for its answer.
    pub(crate) fn waits(&self) -> bool
        ensures value { IsTrue result ↔ (self.now.connection.stage ≡ Ready) }
    {
        self.connection.stage() == Stage::Ready
    }

    /// What has come of its request, if it waits for its answer.
    pub(crate) fn request(&self) -> Option<&[u8]>
        ensures value { option_map (λ bytes. bytes.now) result ≡ asked_of self.now.connection }
    {
        self.connection.request()
    }

    /// Gives it its answer, for which it waits. Gives the answers that were given so far, and then
    /// this one.
    pub(crate) fn answer(&mut self, history: &History, answer: Vec<u8>) -> History
        requires waits { self.old.connection.stage ≡ Ready }
        ensures value { result ≡ history.now
            ++ record { request = self.old.connection.bytes; answer = answer.items } ∷ [] }
        ensures put { self.new.connection ≡ put answer.items }
    {
        let given = history.and(&self.connection, &answer);
        self.connection.answer(answer);
        given
    }

    /// Notes the status of its answer, and how many bytes it has.
    pub(crate) fn note(&mut self, shared: &mut Shared<'_>, code: u16, length: usize)
        ensures connection { self.new.connection ≡ self.old.connection }
    {
        self.moved = shared.now;
        self.code = code;
        self.answer = length;
        shared.answers = shared.answers.saturating_add(length);
    }

    /// The steps of a turn. None of them gives it an answer.
    pub(crate) fn steps(&mut self, service: &Service, shared: &mut Shared<'_>) -> Next
        ensures given { IsNotGiven (given_of self.old.connection)
            (given_of self.new.connection) }
    {
        if self.deadline <= shared.now {
            return self.overdue();
        }
        for _ in 0..STEPS {
            let next = self.step(service, shared);
            if next != Next::Again {
                return next;
            }
        }
        Next::Again
    }

    /// What is done with a client that is let go.
    pub(crate) fn overdue(&self) -> Next {
        if self.dropped.is_some() {
            return Next::Close;
        }
        match self.connection.stage() {
            Stage::Head | Stage::Body(_) => Next::ReadFailed,
            Stage::Ready => Next::Unanswered,
            Stage::Answer(_) => Next::WriteFailed,
        }
    }

    /// One step, with one call of the system at most.
    fn step(&mut self, service: &Service, shared: &mut Shared<'_>) -> Next
        ensures given { IsNotGiven (given_of self.old.connection)
            (given_of self.new.connection) }
    {
        if let Some(dropped) = self.dropped {
            return self.drain(shared, dropped);
        }
        match self.connection.stage() {
            Stage::Head => self.read(service, shared),
            Stage::Body(total) => self.read_body(service, shared, total),
            Stage::Ready => Next::Wait,
            Stage::Answer(_) => self.write(shared),
        }
    }

    /// Reads what comes of the request.
    fn read(&mut self, service: &Service, shared: &mut Shared<'_>) -> Next
        ensures given { IsNotGiven (given_of self.old.connection)
            (given_of self.new.connection) }
    {
        if !self.readable {
            return Next::Wait;
        }
        let alloc = shared.alloc;
        let routes = shared.routes;
        let took = self.connection.read_from(
            alloc,
            routes,
            service,
            &mut self.stream,
            &mut shared.buffer,
        );
        match took {
            Took::Some => {
                self.moved = shared.now;
                Next::Again
            }
            Took::Again => Next::Again,
            Took::All => Next::Wait,
            Took::Later => {
                self.readable = false;
                Next::Wait
            }
            Took::Failed => Next::ReadFailed,
        }
    }

    /// Reads the rest of a request of this many bytes, once there is memory for all of them.
    fn read_body(&mut self, service: &Service, shared: &mut Shared<'_>, total: usize) -> Next
        ensures given { IsNotGiven (given_of self.old.connection)
            (given_of self.new.connection) }
    {
        if self.held.is_none() && !self.reserve(shared, total) {
            return Next::Wait;
        }
        self.read(service, shared)
    }

    // The whole length is taken before the body is read: if bytes were counted as they come, many
    // half-read bodies would fill the room, and none of them would end.
    /// Takes the memory for a request of this many bytes, if there is room for it.
    fn reserve(&mut self, shared: &mut Shared<'_>, total: usize) -> bool
        ensures connection { self.new.connection ≡ self.old.connection }
    {
        let held = if total <= SMALL { 0 } else { total };
        let Some(left) = shared.room.checked_sub(held) else {
            shared.is_short = true;
            return false;
        };
        if !self.connection.reserve(shared.alloc) {
            shared.is_short = true;
            return false;
        }
        shared.room = left;
        self.held = Some(held);
        true
    }

    /// Writes what the socket takes of the answer, and closes this end after it.
    fn write(&mut self, shared: &mut Shared<'_>) -> Next
        ensures given { IsNotGiven (given_of self.old.connection)
            (given_of self.new.connection) }
    {
        if !self.writable {
            return Next::Wait;
        }
        match self.connection.write_to(&mut self.stream) {
            Wrote::Some => {
                self.moved = shared.now;
                Next::Again
            }
            Wrote::Again => Next::Again,
            Wrote::All => self.close(shared),
            Wrote::Later => {
                self.writable = false;
                Next::Wait
            }
            Wrote::Failed => Next::WriteFailed,
        }
    }

    // If a server closes while the client still sends, the client may lose an answer that was
    // written already, such as 413. So this end writes no more first, and what the client sends is
    // read, within limits, before the connection ends. A client that closes once it has its answer
    // costs nothing.
    /// Closes this end, so that a client which is still sending gets its answer (RFC 9112, section
    /// 9.6).
    fn close(&mut self, shared: &mut Shared<'_>) -> Next
        ensures given { IsNotGiven (given_of self.old.connection)
            (given_of self.new.connection) }
    {
        self.end_answer(shared);
        self.connection = Connection::new(shared.alloc);
        self.dropped = Some(0);
        self.deadline = shared
            .now
            .saturating_add(Duration::from_secs(CLOSING_SECONDS));
        match self.stream.shutdown(Shutdown::Write) {
            Ok(()) => Next::Again,
            Err(_) => Next::Close,
        }
    }

    /// Drops what the client still sends, up to its end.
    fn drain(&mut self, shared: &mut Shared<'_>, dropped: usize) -> Next
        ensures given { IsNotGiven (given_of self.old.connection)
            (given_of self.new.connection) }
    {
        if !self.readable {
            return Next::Wait;
        }
        match self.stream.read(&mut shared.buffer) {
            Ok(0) => Next::Close,
            Ok(count) => {
                let dropped = dropped.saturating_add(count);
                self.dropped = Some(dropped);
                if dropped < CLOSING_BYTES {
                    Next::Again
                } else {
                    Next::Close
                }
            }
            Err(error) => match error.kind() {
                ErrorKind::WouldBlock => {
                    self.readable = false;
                    Next::Wait
                }
                ErrorKind::Interrupted => Next::Again,
                _ => Next::Close,
            },
        }
    }
}
