//! The names of an office's file, of its log and of its lock, and what stands at them.

use crate::starting::Log;
use std::alloc::{AllocError, Global};
use std::fs;
use std::io::ErrorKind;

/// How many bytes the log of a file has if it holds no frame: those of its header.
const EMPTY_LOG: u64 = 41;

/// The names of the file of an office and of what stands beside it.
#[derive(Drop)]
pub(crate) struct FileNames<'a> {
    /// The name of the file, which is that of no link.
    pub(crate) file: &'a str,
    /// The name of its log.
    pub(crate) log: String,
    /// The name of its lock.
    pub(crate) lock: String,
}

impl<'a> FileNames<'a> {
    /// The names of this file and of what stands beside it. The only error is that there is no
    /// memory for them.
    pub(crate) fn new(alloc: Global, file: &'a str) -> Result<FileNames<'a>, AllocError> {
        Ok(FileNames {
            file,
            log: format!(in alloc; "{file}-wal")?,
            lock: format!(in alloc; "{file}.lock")?,
        })
    }

    /// What the log has.
    pub(crate) fn read_log(&self, rt: &HostRuntime) -> Log {
        if size_of(rt, self.log.as_str()) > EMPTY_LOG {
            Log::Frames
        } else {
            Log::NoFrame
        }
    }
}

/// The size of a file in bytes, 0 if there is none that can be seen.
pub(crate) fn size_of(rt: &HostRuntime, name: &str) -> u64 {
    match fs::metadata(rt, name) {
        Ok(found) => found.len(),
        Err(_) => 0,
    }
}

/// Whether nothing has the name. What cannot be looked at is there.
pub(crate) fn is_free(rt: &HostRuntime, name: &str) -> bool {
    match fs::symlink_metadata(rt, name) {
        Ok(_) => false,
        Err(error) => error.kind() == ErrorKind::NotFound,
    }
}
