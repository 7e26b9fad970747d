//! The lists and reports that stand in files, or come from pipes.
ghost use Rattle.std.specs.Prelude.{IfOk};
ghost use Rattle.std.specs.Counts.{IsPrefixLen};

use crate::compression::compressor_of;
use crate::progress::{is_watched, size_of_long};
use crate::say;
use std::alloc::{AllocError, Global};
use std::fs;
use std::io::{self, BufReader, Read};
use std::rt::Files;
use wb_daemon::{Message, RunLists};
use wb_lists::Lists;

/// After how many bytes of a long list it is said again how far it is read.
const REPORTED_BYTES: u64 = 16_000_000;

/// The lists and reports whose names are paths from the working directory. Messages go to standard
/// error.
pub(crate) struct FileLists<'a, F> {
    rt: &'a F,
    /// Whether a person may read the messages.
    is_watched: bool,
}

impl<'a> FileLists<'a, HostRuntime> {
    /// The lists that this program reads.
    pub(crate) fn new(rt: &'a HostRuntime) -> Self {
        FileLists {
            rt,
            is_watched: is_watched(rt),
        }
    }
}

impl<'a, F> Drop for FileLists<'a, F> {
    fn drop(self) {
        let FileLists {
            rt: _,
            is_watched: _,
        } = self;
    }
}

// A list is read once, from its front to its end, and nobody asks how long it is, so a pipe does as
// well as a file. Whether a pipe's writer failed cannot be seen at the pipe, and no archive's list
// has a mark at its end.
impl<'a, F: Files + Eprint> Lists for FileLists<'a, F> {
    type List = BufReader<FileList<'a, F>>;

    fn open(
        &mut self,
        alloc: Global,
        name: &str,
    ) -> Result<Option<BufReader<FileList<'a, F>>>, AllocError> {
        match fs::open(self.rt, name) {
            Ok(file) => {
                let name = String::from_str(alloc, name)?;
                let list = FileList::new(self.rt, name, file, self.is_watched);
                Ok(Some(BufReader::new(alloc, list).ok().ok_or(AllocError)?))
            }
            Err(error) => {
                self.report(Message::ListFailed {
                    name,
                    error: &error,
                });
                Ok(None)
            }
        }
    }
}

impl<'a, F: Files + Eprint> RunLists for FileLists<'a, F> {
    // A report is read past its buffer, in which there is nothing: that the read failed is reported
    // by whoever asked for it.
    fn read(list: &mut BufReader<FileList<'a, F>>, room: &mut [u8]) -> io::Result<usize> {
        list.get_mut().read_on(room)
    }

    fn report(&mut self, message: Message<'_>) {
        say(self.rt, message);
    }
}

/// A list or a report that was opened. Why a read of it failed is said on standard error, since the
/// answer says only that one did; and how far a long one is read, if a person may read that.
pub(crate) struct FileList<'a, F: Files> {
    rt: &'a F,
    name: String,
    file: F::File,
    /// How many bytes it has, if it is long and how far it is read is to be said.
    size: Option<u64>,
    /// How many bytes were read.
    read: u64,
    /// How many bytes were read when it was said last how far it is.
    reported: u64,
}

impl<'a, F: Files + Eprint> FileList<'a, F> {
    /// The file that was opened by this name, of which nothing was read. How far it is read is said
    /// only if a person watches.
    pub(crate) fn new(rt: &'a F, name: String, file: F::File, is_watched: bool) -> Self {
        let size = if is_watched {
            size_of_long(rt, name.as_str())
        } else {
            None
        };
        FileList {
            rt,
            name,
            file,
            size,
            read: 0,
            reported: 0,
        }
    }

    /// Reads on, and says of the first bytes if they are those of a compressed file: what follows
    /// is no text then.
    fn read_on(&mut self, room: &mut [u8]) -> io::Result<usize>
        ensures bound { IfOk result (λ count. IsPrefixLen count room.new) }
    {
        let count = self.file.read(room)?;
        if self.read == 0 {
            if let Some(program) = room.get(..count).and_then(|bytes| compressor_of(bytes)) {
                let _ = eprintln!(self.rt;
                    "wb: {} is compressed by {program}, and has to be unpacked first",
                    self.name.as_str()
                );
            }
        }
        self.count(count as u64);
        Ok(count)
    }

    // What is decided after the reading takes two seconds for the 20,000 names of an architecture
    // of sid, and says nothing, since the contract of an office has no call for it.
    /// Counts bytes that were read, and says how far the list is read, if it is time.
    fn count(&mut self, bytes: u64) {
        self.read = self.read.saturating_add(bytes);
        if let Some(size) = self.size {
            if self.read.saturating_sub(self.reported) >= REPORTED_BYTES {
                self.reported = self.read;
                let _ = eprintln!(self.rt;
                    "wb: reading {}, {} of {} MB",
                    self.name.as_str(),
                    self.read / 1_000_000,
                    size / 1_000_000
                );
            }
        }
    }
}

impl<'a, F: Files> Drop for FileList<'a, F> {
    fn drop(self) {
        let FileList {
            rt: _,
            name: _,
            file: _,
            size: _,
            read: _,
            reported: _,
        } = self;
    }
}

impl<'a, F: Files + Eprint> Read for FileList<'a, F> {
    fn read(&mut self, room: &mut [u8]) -> io::Result<usize> {
        match self.read_on(room) {
            Ok(count) => Ok(count),
            Err(error) => {
                say(
                    self.rt,
                    Message::ListFailed {
                        name: self.name.as_str(),
                        error: &error,
                    },
                );
                Err(error)
            }
        }
    }
}
