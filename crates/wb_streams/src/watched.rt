//! A reader and a writer that report whether they failed, as a stream of C can (`ferror`).
//!
//! The flags are private to this file, and only its one call of `read` and its one of `write` set
//! them. That a flag is set if that call failed, and only then, can be read here but is not proved:
//! all else that a contract says of a failed read or write rests on it.
ghost use Rattle.std.specs.Prelude.{◌≡◌, ◌<◌, length, true, false, OnErr, OnOk, IfOk};
ghost use Rattle.std.specs.Io.{ReadsAtMost, WritesAtMost};
ghost use Rattle.std.specs.Io.KnownBytes.{ReadConsumes, WriteAppends};
ghost use Rattle.wb_streams.specs.Streams.{Stream};

use std::io::{self, ErrorKind, Read, Write};
use std::marker::Model;

// No clause of Rust's readers and writers says when they fail. So what stops for a failed read or
// write has to find its flag set, and all else has to leave it as it was: a failed read is never
// taken for the end of an input either. A premise on when a reader may fail could not be met for a
// terminal.
/// A reader that reports whether a read of it failed.
#[derive(Drop)]
pub struct WatchedReader<R: Read + Drop> {
    inner: R,
    failed: bool,
}

impl<R: Read + Drop> Model for WatchedReader<R> {
    ghost Value = { Stream };

    ghost view = { λ r. record { bytes = R.remaining r.inner; failed = r.failed } };
}

impl<R: Read + Drop> WatchedReader<R> {
    /// The reader, of which no read has failed so far.
    pub fn new(inner: R) -> Self
        ensures value { result ≡ record { bytes = R.remaining inner; failed = false } }
    {
        WatchedReader {
            inner,
            failed: false,
        }
    }

    /// Whether a read has failed so far.
    pub fn has_failed(&self) -> bool
        ensures value { result ≡ self.now.failed }
    {
        self.failed
    }

    /// Reads into the room, and gives how many bytes. The error is that of the reader, also if the
    /// read was interrupted; then nothing was read.
    pub fn read(&mut self, room: &mut [u8]) -> io::Result<usize>
        ensures bound { ReadsAtMost result room.new }
        ensures bytes { ReadConsumes self.old.bytes self.new.bytes result room.new }
        ensures ok { OnOk result (self.new.failed ≡ self.old.failed) }
        ensures err { OnErr result (self.new.failed ≡ true) }
    {
        match self.inner.read(room) {
            Ok(count) => Ok(count),
            Err(error) => {
                self.failed = true;
                Err(error)
            }
        }
    }
}

/// A writer that reports whether a write of it failed.
#[derive(Drop)]
pub struct WatchedWriter<W: Write + Drop> {
    inner: W,
    failed: bool,
}

impl<W: Write + Drop> Model for WatchedWriter<W> {
    ghost Value = { Stream };

    ghost view = { λ w. record { bytes = W.contents w.inner; failed = w.failed } };
}

impl<W: Write + Drop> WatchedWriter<W> {
    /// The writer, of which no write has failed so far.
    pub fn new(inner: W) -> Self
        ensures value { result ≡ record { bytes = W.contents inner; failed = false } }
    {
        WatchedWriter {
            inner,
            failed: false,
        }
    }

    /// The writer inside, with what was written to it.
    pub fn into_inner(self) -> W
        ensures value { W.contents result ≡ self.bytes }
    {
        let WatchedWriter { inner, .. } = self;
        inner
    }

    /// Whether a write has failed so far.
    pub fn has_failed(&self) -> bool
        ensures value { result ≡ self.now.failed }
    {
        self.failed
    }

    /// Writes bytes, of which there is one at least, and gives how many were taken. The error is
    /// that of the writer, also if the write was interrupted, or `WriteZero` if it took no byte;
    /// then nothing was written.
    pub fn write(&mut self, bytes: &[u8]) -> io::Result<usize>
        requires filled { 0 < length bytes.now }
        ensures some { IfOk result (λ count. 0 < count) }
        ensures bound { WritesAtMost result bytes.now }
        ensures bytes { WriteAppends self.old.bytes self.new.bytes result bytes.now }
        ensures ok { OnOk result (self.new.failed ≡ self.old.failed) }
        ensures err { OnErr result (self.new.failed ≡ true) }
    {
        match self.inner.write(bytes) {
            Ok(0) => {
                self.failed = true;
                Err(io::Error::from(ErrorKind::WriteZero))
            }
            Ok(count) => Ok(count),
            Err(error) => {
                self.failed = true;
                Err(error)
            }
        }
    }
}
