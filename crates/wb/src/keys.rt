//! The file of keys that says who may ask a service for what.

use std::alloc::AllocError;
use std::fmt::{self, Display, Formatter};
use std::fs::{self, Metadata};
use std::io::{self, Read};
use std::os::unix::fs::MetadataExt;
use wb_keys::{Access, BadLine, Keys};

/// How many bytes a file of keys has at most: its 1000 lines and what is said between them.
const LIMIT: u64 = 1_048_576;

/// The bits of a mode by which its group or others may read or write a file.
const OPEN_TO_OTHERS: u32 = 0o066;

/// Why keys are not read.
#[derive(Drop)]
enum NotRead {
    /// The system does not open or read the file.
    Failed(io::Error),
    /// It is no regular file.
    NoFile,
    /// Its group or others may read or write it, by this mode.
    OpenToOthers(u32),
    /// It is larger than a file of keys may be.
    TooLarge,
    /// It has no bytes, as while it is written in place or if there was no room for it.
    Empty,
    /// A line is malformed.
    Malformed(BadLine),
    /// There is no memory for it.
    Memory,
}

impl From<io::Error> for NotRead {
    fn from(error: io::Error) -> NotRead {
        NotRead::Failed(error)
    }
}

impl From<AllocError> for NotRead {
    fn from(_error: AllocError) -> NotRead {
        NotRead::Memory
    }
}

impl Display for NotRead {
    fn fmt<W: fmt::Write>(&self, f: &mut Formatter<W>) -> fmt::Result {
        match self {
            NotRead::Failed(error) => write!(f, "{error}"),
            NotRead::NoFile => f.write_str("it is no regular file"),
            NotRead::OpenToOthers(mode) => write!(
                f,
                "its group or others may read or write it (mode {mode:04o}): give it the mode 0600"
            ),
            NotRead::TooLarge => write!(f, "it has more than {LIMIT} bytes"),
            NotRead::Empty => f.write_str("it is empty"),
            NotRead::Malformed(wrong) => write!(f, "{wrong}"),
            NotRead::Memory => f.write_str("there is no memory for it"),
        }
    }
}

/// The state of a file: one that was replaced, written or given another mode has another.
#[derive(Clone, Copy, PartialEq, Eq)]
struct FileState {
    dev: u64,
    ino: u64,
    size: u64,
    changed: i64,
    changed_nanos: i64,
}

fn state_of(found: &Metadata) -> FileState {
    FileState {
        dev: found.dev(),
        ino: found.ino(),
        size: found.size(),
        changed: found.ctime(),
        changed_nanos: found.ctime_nsec(),
    }
}

/// A file of keys, which is read anew when it was changed.
#[derive(Drop)]
pub(crate) struct KeyFile<'a> {
    rt: &'a HostRuntime,
    name: &'a str,
    /// The state of the file that was read last, also if its keys were not taken over.
    last: Option<FileState>,
}

impl<'a> KeyFile<'a> {
    /// The file of this name, which was not read yet.
    pub(crate) fn new(rt: &'a HostRuntime, name: &'a str) -> KeyFile<'a> {
        KeyFile {
            rt,
            name,
            last: None,
        }
    }

    /// Whether the file is another than the one that was read last, or was changed since. One that
    /// cannot be looked at now is another, once.
    pub(crate) fn is_changed(&self) -> bool {
        let now = match fs::metadata(self.rt, self.name) {
            Ok(found) => Some(state_of(&found)),
            Err(_) => None,
        };
        now != self.last
    }

    /// Who may ask by the keys of the file, or says on standard error why it is not read.
    pub(crate) fn first_access(&mut self) -> Option<Access> {
        self.access(true, "")
    }

    /// Who may ask by the keys of a file that was changed while others are in force, which stay in
    /// force if it is not read, or is empty. Says on standard error why it is not read.
    pub(crate) fn next_access(&mut self) -> Option<Access> {
        self.access(false, ", and those before stay in force")
    }

    // Both, with what is said after why it is not read.
    fn access(&mut self, may_be_empty: bool, follows: &str) -> Option<Access> {
        match self.read(may_be_empty) {
            Ok(keys) => Some(Access::ByKeys(keys)),
            Err(why) => {
                let _ = eprintln!(self.rt;
                    "wb: the keys in {} are not read{follows}: {why}",
                    self.name
                );
                None
            }
        }
    }

    // What is noted of the file is what its name led to before it was opened, so that it is read
    // again if it was changed meanwhile, and one that cannot be opened is told of once. A pipe that
    // nobody writes would hold the office, and is not opened.
    fn read(&mut self, may_be_empty: bool) -> Result<Keys, NotRead> {
        self.last = None;
        let named = fs::metadata(self.rt, self.name)?;
        self.last = Some(state_of(&named));
        if !named.is_file() {
            return Err(NotRead::NoFile);
        }
        let mut file = fs::open(self.rt, self.name)?;
        let mode = file.metadata()?.mode() & 0o7777;
        if mode & OPEN_TO_OTHERS != 0 {
            return Err(NotRead::OpenToOthers(mode));
        }
        let mut bytes = Vec::new(self.rt.alloc());
        file.take(LIMIT + 1).read_to_end(&mut bytes)?;
        if bytes.len() as u64 > LIMIT {
            return Err(NotRead::TooLarge);
        }
        if bytes.is_empty() && !may_be_empty {
            return Err(NotRead::Empty);
        }
        match Keys::read(self.rt.alloc(), bytes.as_slice())? {
            Ok(keys) => Ok(keys),
            Err(wrong) => Err(NotRead::Malformed(wrong)),
        }
    }
}
