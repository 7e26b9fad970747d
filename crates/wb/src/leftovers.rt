//! What a refused opening made, and takes away again.
ghost use Rattle.std.specs.Prelude.{◌≡◌, IsTrue, false, true};
ghost use Rattle.wb.specs.Leftovers.{is_new_file, removes_file, removes_log};

use crate::names::{FileNames, is_free, size_of};
use crate::starting::Log;
use std::fs;
use std::io::ErrorKind;

/// How many bytes the making of a database writes into its file first: those of a page.
const FIRST_PAGE: u64 = 4_096;

/// What stood at the names of a file and its log before an opening that was refused, and what
/// stands there after it.
#[derive(Clone, Copy, Debug, PartialEq, Eq)]
pub(crate) struct Leftovers {
    /// There was a file.
    pub(crate) file_was_there: bool,
    /// There was a log.
    pub(crate) log_was_there: bool,
    /// The file has more than its first page.
    pub(crate) file_has_pages: bool,
    /// The log has frames.
    pub(crate) log_has_frames: bool,
}

impl Leftovers {
    /// Whether the log is removed: it was not there, and has no frame, or its file is new and is
    /// removed too.
    fn removes_log(self) -> bool
        ensures value { result ≡ removes_log self }
        ensures new { IsTrue result → self.log_was_there ≡ false }
        ensures frames { IsTrue result → self.log_has_frames ≡ true → removes_file self ≡ true }
    {
        !self.log_was_there && (!self.log_has_frames || self.is_new_file())
    }

    /// Whether the file is removed: it is new, and no log with frames is left beside it.
    fn removes_file(self) -> bool
        ensures value { result ≡ removes_file self }
        ensures new { IsTrue result → self.file_was_there ≡ false }
        ensures frames { IsTrue result → self.log_has_frames ≡ true → removes_log self ≡ true }
    {
        self.is_new_file() && (!self.log_has_frames || !self.log_was_there)
    }

    /// Whether the file was not there, and has at most the page that the making of a database
    /// writes first.
    fn is_new_file(self) -> bool
        ensures value { result ≡ is_new_file self }
    {
        !self.file_was_there && !self.file_has_pages
    }
}

/// What stood at the names of a file and its log before an opening.
#[derive(Clone, Copy)]
pub(crate) struct Before {
    file_was_there: bool,
    log_was_there: bool,
}

impl Before {
    /// What stands there now.
    pub(crate) fn look(rt: &HostRuntime, names: &FileNames<'_>) -> Before {
        Before {
            file_was_there: !is_free(rt, names.file),
            log_was_there: !is_free(rt, names.log.as_str()),
        }
    }

    /// Removes what a refused opening made. The log goes before the file, so that it is never left
    /// alone.
    pub(crate) fn restore(self, rt: &HostRuntime, names: &FileNames<'_>) {
        let found = Leftovers {
            file_was_there: self.file_was_there,
            log_was_there: self.log_was_there,
            file_has_pages: size_of(rt, names.file) > FIRST_PAGE,
            log_has_frames: names.read_log(rt) == Log::Frames,
        };
        if found.removes_log() && !remove(rt, names.log.as_str()) {
            return;
        }
        if found.removes_file() {
            let _ = remove(rt, names.file);
        }
    }
}

/// Removes what an opening made, if it is there, and answers whether it is gone. That it is not is
/// reported on standard error.
pub(crate) fn remove(rt: &HostRuntime, name: &str) -> bool {
    match fs::remove_file(rt, name) {
        Ok(()) => true,
        Err(error) if error.kind() == ErrorKind::NotFound => true,
        Err(error) => {
            let _ = eprintln!(rt; "wb: {name} was made, and cannot be removed: {error}");
            false
        }
    }
}
