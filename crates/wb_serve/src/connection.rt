//! One connection: what has come of its request, and then what is left of its answer. It makes no
//! call of the system: its bytes come from a reader and go to a writer.
ghost use Rattle.std.specs.Prelude.{◌≡◌, ◌<◌, ℕ, length, option_map, true};
ghost use Rattle.wb_serve.specs.Connections.{IsAdded, IsRead, IsWritten, asked_of, is_coming};
ghost use Rattle.wb_serve.specs.Connections.{opened, put};
ghost use Rattle.wb_serve.specs.declared.connection.Stage.TheVariants.{Ready};

use std::alloc::Global;
use std::io::{ErrorKind, Read, Write};
use std::marker::Model;
use wb_api::{Coming, Routes, Service, coming_of};
use wb_streams::HEAD_LIMIT;

/// How far the exchange with a client is.
/// Source: this project's own.
#[derive(Clone, Copy, Debug, PartialEq, Eq)]
pub enum Stage {
    /// Its head is coming.
    Head,
    /// Its head has come, and the rest of a request of so many bytes is coming.
    Body(usize),
    /// Its request has come, or its end, and it waits for its answer.
    Ready,
    /// It has its answer, of which so many bytes were written.
    Answer(usize),
}

/// What a read of a connection gave.
/// Source: this project's own.
#[derive(Clone, Copy, Debug, PartialEq, Eq)]
pub enum Took {
    /// Bytes came, and more have to come before an answer is due.
    Some,
    /// The request has come, or nothing more comes.
    All,
    /// Nothing, and a read may give something at once.
    Again,
    /// Nothing, until the client sends something.
    Later,
    /// The read failed, or there is no memory for what came.
    Failed,
}

/// What a write to a connection gave.
/// Source: this project's own.
#[derive(Clone, Copy, Debug, PartialEq, Eq)]
pub enum Wrote {
    /// Bytes of the answer were written.
    Some,
    /// Nothing, since all of the answer was written before.
    All,
    /// Nothing, and a write may take something at once.
    Again,
    /// Nothing, until the client takes something.
    Later,
    /// The write failed.
    Failed,
}

/// What has come of a request, until it is answered; and then the answer.
/// Source: this project's own.
#[derive(Drop)]
pub struct Connection {
    stage: Stage,
    bytes: Vec<u8>,
}

impl Model for Connection {
    ghost use Rattle.wb_serve.specs.Connections.{ConnectionState};

    ghost Value = { ConnectionState };

    ghost view = { λ c. record { stage = c.stage; bytes = c.bytes.items } };
}

impl Connection {
    /// A connection of which nothing has come.
    /// Source: this project's own.
    pub fn new(alloc: Global) -> Connection
        ensures value { result ≡ opened }
    {
        Connection {
            stage: Stage::Head,
            bytes: Vec::new(alloc),
        }
    }

    /// How far its exchange is.
    /// Source: this project's own.
    pub fn stage(&self) -> Stage
        ensures value { result ≡ self.now.stage }
    {
        self.stage
    }

    /// What has come of the request, if it waits for its answer.
    /// Source: this project's own.
    pub fn request(&self) -> Option<&[u8]>
        ensures value { option_map (λ bytes. bytes.now) result ≡ asked_of self.now }
    {
        match self.stage {
            Stage::Ready => Some(self.bytes.as_slice()),
            _ => None,
        }
    }

    /// Gives it its answer, of which no byte is written yet. It has to wait for one.
    /// Source: this project's own.
    pub fn answer(&mut self, answer: Vec<u8>)
        requires waits { self.old.stage ≡ Ready }
        ensures value { self.new ≡ put answer.items }
    {
        self.bytes = answer;
        self.stage = Stage::Answer(0);
    }

    /// Takes the memory for a request whose length is known, and says whether there is any. Without
    /// it the connection is as it was.
    /// Source: this project's own.
    pub fn reserve(&mut self, alloc: Global) -> bool
        ensures value { self.new ≡ self.old }
    {
        let Stage::Body(total) = self.stage else {
            return true;
        };
        let Ok(mut bytes) = Vec::with_capacity(alloc, total) else {
            return false;
        };
        if bytes.extend_from_slice(self.bytes.as_slice()).is_err() {
            return false;
        }
        self.bytes = bytes;
        true
    }

    /// How many bytes may still come of the request.
    fn left(&self) -> usize
        ensures coming { 0 < result → is_coming self.now.stage ≡ true }
    {
        match self.stage {
            Stage::Head => HEAD_LIMIT.saturating_sub(self.bytes.len()),
            Stage::Body(total) => total.saturating_sub(self.bytes.len()),
            Stage::Ready | Stage::Answer(_) => 0,
        }
    }

    /// Reads once, through a buffer of one byte at least, unless the connection waits for its
    /// answer or has it. Nothing is read of what follows the request, but for what comes with the
    /// last bytes of a head. What the request may be is up to the service.
    /// Source: RFC 9112, section 6.3; the limits are this project's own.
    pub fn read_from<R: Read>(
        &mut self,
        alloc: Global,
        routes: &Routes,
        service: &Service,
        reader: &mut R,
        buffer: &mut [u8],
    ) -> Took
        ensures value { IsRead service.now result self.old self.new
            (R.remaining reader.old) (R.remaining reader.new) }
    {
        let left = self.left().min(buffer.len());
        if left == 0 {
            return Took::Later;
        }
        self.read_into(alloc, routes, service, reader, &mut buffer[..left])
    }

    /// Reads once, at most as much as there is room for. More of the request has to come.
    fn read_into<R: Read>(
        &mut self,
        alloc: Global,
        routes: &Routes,
        service: &Service,
        reader: &mut R,
        room: &mut [u8],
    ) -> Took
        requires room { 0 < length room.old }
        requires coming { is_coming self.old.stage ≡ true }
        ensures value { IsRead service.now result self.old self.new
            (R.remaining reader.old) (R.remaining reader.new) }
    {
        match reader.read(room) {
            Ok(0) => {
                self.stage = Stage::Ready;
                Took::All
            }
            Ok(count) => self.add(alloc, routes, service, &room[..count]),
            Err(error) => match error.kind() {
                ErrorKind::WouldBlock => Took::Later,
                ErrorKind::Interrupted => Took::Again,
                _ => Took::Failed,
            },
        }
    }

    /// Adds bytes to what has come, and looks whether a request has.
    fn add(&mut self, alloc: Global, routes: &Routes, service: &Service, came: &[u8]) -> Took
        ensures value { IsAdded service.now result self.old self.new came.now }
    {
        if self.bytes.extend_from_slice(came).is_err() {
            return Took::Failed;
        }
        match coming_of(alloc, routes, service, self.bytes.as_slice()) {
            Coming::Head => {
                self.stage = Stage::Head;
                Took::Some
            }
            Coming::Body(total) => {
                self.stage = Stage::Body(total);
                Took::Some
            }
            Coming::Whole => {
                self.stage = Stage::Ready;
                Took::All
            }
        }
    }

    /// Writes once what is left of the answer, if there is one.
    /// Source: this project's own.
    pub fn write_to<W: Write>(&mut self, writer: &mut W) -> Wrote
        ensures value { IsWritten result self.old self.new
            (W.contents writer.old) (W.contents writer.new) }
    {
        let Stage::Answer(done) = self.stage else {
            return Wrote::Later;
        };
        let Some(rest) = self.bytes.get(done..) else {
            return Wrote::Failed;
        };
        if rest.is_empty() {
            return Wrote::All;
        }
        match writer.write(rest) {
            Ok(0) => Wrote::Failed,
            Ok(count) => {
                self.stage = Stage::Answer(done + count);
                Wrote::Some
            }
            Err(error) => match error.kind() {
                ErrorKind::WouldBlock => Wrote::Later,
                ErrorKind::Interrupted => Wrote::Again,
                _ => Wrote::Failed,
            },
        }
    }
}
