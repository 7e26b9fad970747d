//! The lock on the file of an office, which one program has at a time.

use crate::names::FileNames;
use std::fs::{self, OpenOptions, TryLockError};
use std::io::{self, ErrorKind};
use std::os::unix::fs::{MetadataExt, OpenOptionsExt};

/// The lock of a program on the file of an office, which ends with this value.
#[derive(Drop)]
pub(crate) struct FileLock {
    /// The file of the lock, which is locked.
    _held: fs::File,
    /// The file of the lock was not there before.
    pub(crate) is_new: bool,
}

/// Why the lock on the file of an office is not taken.
#[derive(Clone, Copy)]
pub(crate) enum LockRefusal {
    /// Another program has it.
    InUse,
    /// Its file cannot be opened or locked, which was said.
    Device,
}

// The system drops this lock when the program ends, also after a kill, which the number of a
// process in a file outlives. The kit's `sqlite` locks the file of the office as well, which keeps
// sqlite3 out.
/// Takes the lock on the file of these names, which is a file with the file's name and `.lock`
/// after it that its owner alone may open.
pub(crate) fn lock_of(rt: &HostRuntime, names: &FileNames<'_>) -> Result<FileLock, LockRefusal> {
    let name = names.lock.as_str();
    let (held, is_new) = match open_lock(rt, name) {
        Ok(opened) => opened,
        Err(error) => return Err(refuse_lock(rt, name, error)),
    };
    match held.try_lock() {
        Ok(()) => {}
        Err(TryLockError::WouldBlock) => return Err(LockRefusal::InUse),
        Err(TryLockError::Error(error)) => return Err(refuse_lock(rt, name, error)),
    }
    match has_name(&held) {
        Ok(true) => Ok(FileLock {
            _held: held,
            is_new,
        }),
        Ok(false) => Err(LockRefusal::InUse),
        Err(error) => Err(refuse_lock(rt, name, error)),
    }
}

/// The file of the lock, and whether this call made it.
fn open_lock(rt: &HostRuntime, name: &str) -> io::Result<(fs::File, bool)> {
    let mut how = OpenOptions::new();
    how.write(true).create_new(true).mode(0o600);
    match how.open(rt, name) {
        Ok(made) => Ok((made, true)),
        Err(error) if error.kind() == ErrorKind::AlreadyExists => {
            how.create_new(false).create(true);
            Ok((how.open(rt, name)?, false))
        }
        Err(error) => Err(error),
    }
}

/// Whether the file of the lock still has a name: a program whose opening was refused removes the
/// lock that it made, and who opened it meanwhile locks what nobody else will find.
fn has_name(held: &fs::File) -> io::Result<bool> {
    Ok(held.metadata()?.nlink() > 0)
}

/// Says that the lock of this name cannot be opened or taken, for the system's reason.
fn refuse_lock(rt: &HostRuntime, name: &str, error: io::Error) -> LockRefusal {
    let _ = eprintln!(rt; "wb: {name} cannot be locked: {error}");
    LockRefusal::Device
}
