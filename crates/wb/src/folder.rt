//! The lists of a folder, which requests name.

use crate::lists::FileList;
use crate::progress::is_watched;
use std::alloc::{AllocError, Global};
use std::fmt::{self, Display, Formatter};
use std::fs::{self, File, FileType, Metadata};
use std::io::{self, BufReader};
use std::os::unix::fs::{FileTypeExt, MetadataExt};
use std::path::{Path, PathBuf};
use std::time::{Duration, Instant};
use wb_lists::Lists;

/// How many lines about lists are printed in a second: any program of the machine may name a list
/// that is not there, again and again.
const LINES: u32 = 20;

/// Why a list is not opened.
#[derive(Drop)]
enum NotOpened {
    /// The system does not open it.
    Failed(io::Error),
    /// It is no regular file, but this.
    Other(&'static str),
    /// Its name had become that of another file before it was opened.
    Replaced,
}

impl From<io::Error> for NotOpened {
    fn from(error: io::Error) -> NotOpened {
        NotOpened::Failed(error)
    }
}

impl Display for NotOpened {
    fn fmt<W: fmt::Write>(&self, f: &mut Formatter<W>) -> fmt::Result {
        match self {
            NotOpened::Failed(error) => write!(f, "{error}"),
            NotOpened::Other(kind) => write!(f, "it is {kind}, and no regular file"),
            NotOpened::Replaced => f.write_str("it was replaced meanwhile"),
        }
    }
}

/// What a file is that is no regular one.
fn kind_of(found: FileType) -> &'static str {
    if found.is_symlink() {
        "a link"
    } else if found.is_dir() {
        "a folder"
    } else if found.is_fifo() {
        "a pipe"
    } else if found.is_socket() {
        "a socket"
    } else {
        "a device"
    }
}

/// Whether both are of one file.
fn is_same(seen: &Metadata, opened: &Metadata) -> bool {
    seen.dev() == opened.dev() && seen.ino() == opened.ino()
}

/// The lists of a folder: the regular files that stand in it, by their names. Nothing else is
/// opened, since a link may lead out of the folder, and whoever opens a pipe waits until somebody
/// writes to it. Why a list is not opened is said on standard error.
#[derive(Drop)]
pub(crate) struct FolderLists<'a> {
    rt: &'a HostRuntime,
    folder: &'a str,
    /// Whether a person may read the messages.
    is_watched: bool,
    /// When the second began in which lines were printed last.
    begun: Option<Instant>,
    /// How many lines were printed in it.
    printed: u32,
    /// How many were left out since the last was printed.
    left_out: u64,
}

impl<'a> FolderLists<'a> {
    /// The lists of this folder.
    pub(crate) fn new(rt: &'a HostRuntime, folder: &'a str) -> Self {
        FolderLists {
            rt,
            folder,
            is_watched: is_watched(rt),
            begun: None,
            printed: 0,
            left_out: 0,
        }
    }

    // The kit opens files without a flag that refuses links, or one that does not wait for a pipe.
    // So the name is looked at before. Who may write to the folder can put a pipe there between the
    // two.
    /// The regular file of this path.
    fn open_file(&self, path: &PathBuf) -> Result<File, NotOpened> {
        let seen = fs::symlink_metadata(self.rt, path.as_str())?;
        if !seen.is_file() {
            return Err(NotOpened::Other(kind_of(seen.file_type())));
        }
        let file = fs::open(self.rt, path.as_str())?;
        if is_same(&seen, &file.metadata()?) {
            Ok(file)
        } else {
            Err(NotOpened::Replaced)
        }
    }

    /// A reader over a file that was opened by this path.
    fn reader(
        &self,
        alloc: Global,
        path: PathBuf,
        file: File,
    ) -> Result<BufReader<FileList<'a, HostRuntime>>, AllocError> {
        let list = FileList::new(self.rt, path.into_string(), file, self.is_watched);
        BufReader::new(alloc, list).ok().ok_or(AllocError)
    }

    /// Says why the list of this name is not opened, unless many lines were printed in a second.
    fn report(&mut self, name: &str, why: NotOpened) {
        if !self.may_print() {
            self.left_out = self.left_out.saturating_add(1);
            return;
        }
        self.printed = self.printed.saturating_add(1);
        self.count_left_out();
        // The name is that of a request, and may have any character.
        let _ = eprintln!(self.rt;
            "wb: the list {name:?} of a request cannot be opened in {}: {why}",
            self.folder
        );
    }

    /// Whether a line more may be printed within this second.
    fn may_print(&mut self) -> bool {
        if self.is_over() {
            self.begun = Instant::now(self.rt).ok();
            self.printed = 0;
        }
        self.printed < LINES
    }

    /// Whether the second is over in which lines were printed last.
    fn is_over(&self) -> bool {
        let Some(begun) = &self.begun else {
            return true;
        };
        match begun.elapsed(self.rt) {
            Ok(passed) => passed >= Duration::from_secs(1),
            Err(_) => false,
        }
    }

    /// Says how many lines were left out, if any were.
    pub(crate) fn count_left_out(&mut self) {
        if self.left_out > 0 {
            let _ = eprintln!(self.rt; "wb: {} lines about lists were left out", self.left_out);
        }
        self.left_out = 0;
    }
}

impl<'a> Lists for FolderLists<'a> {
    type List = BufReader<FileList<'a, HostRuntime>>;

    fn open(
        &mut self,
        alloc: Global,
        name: &str,
    ) -> Result<Option<BufReader<FileList<'a, HostRuntime>>>, AllocError> {
        let path = Path::new(self.folder).join(alloc, name)?;
        match self.open_file(&path) {
            Ok(file) => Ok(Some(self.reader(alloc, path, file)?)),
            Err(why) => {
                self.report(name, why);
                Ok(None)
            }
        }
    }
}
