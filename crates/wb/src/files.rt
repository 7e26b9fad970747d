//! The files of an office as a database: the pages, and the log of the last commits.

ghost use Rattle.std.specs.Prelude.{IfOk, IfSome};
ghost use Rattle.sqlite.specs.Held.{IsNew};

use crate::asked::{AskedFile, ReadOnly, asked_files};
use sqlite::{Connection, File, FileStore, Files, Options, Unknown};
use sqlite_disk::Memory;
use sqlite_std_file::OpenError;
use std::fmt::Display;
use std::hash::{BuildHasher, RandomState};
use std::io;
use wb_states::StoreFault;
use wb_store::opening_fault;

/// How many pages of 4,096 bytes are kept in memory after they were read: 8 MB, so that a command
/// finds what it looks up without the disk.
const PAGES_KEPT: usize = 2_000;

// With 2,000 the log of such a merge had 50 MB in place of 61. With 100 the statements took an
// eighth more time.
/// How many pages that a command wrote are in memory before they go to the log, ahead of the
/// commit: 2 MB. The statements of a merge of three architectures took 18 MB more with 2,000, and
/// were no quicker: a savepoint has pages of its own, and both grow by doubling. A hand-out writes
/// some ten pages, so it never comes to this.
const PAGES_BEFORE_LOG: usize = 500;

// `wb` opens its files itself: the kit's `Connection::open_with_sums` copies at 1,000 pages, some
// 140 hand-outs, and of a file that cannot be opened says neither the system's reason nor which
// program has it. With 8,000 a hand-out took 3 % less over 35,000 records, and a tenth to a quarter
// less over 350,000; 4,000 and 32,000 differ from it by less than the runs do.
/// How many pages the log has before it is copied into the database and begun anew: 33 MB. Each of
/// these copies has the disk write five times, so a longer log makes commands quicker, and a start
/// after a kill slower by the reading of it.
const PAGES_IN_LOG: usize = 8_000;

/// Whether SQLite takes the name for no file: for a database in memory, or for a URI.
pub(crate) fn names_no_file(name: &str) -> bool {
    name == ":memory:" || name.starts_with("file:")
}

/// Opens the database of this name and its log, which are made if they are not there, with a sum of
/// each page. Says why they cannot be opened, and answers what that is to the store: `Memory` if
/// memory ran out, `NotOffice` if they are there and hold no database, and else `Device`.
pub(crate) fn connect(
    rt: &HostRuntime,
    file: &str,
) -> Result<Connection<FileStore<File>>, StoreFault>
    ensures fresh { IfOk result IsNew }
{
    let files = match sqlite_std_file::open(rt, file, Unknown) {
        Ok(files) => files,
        Err(error) => return Err(refuse_files(rt, file, error)),
    };
    let seed = match RandomState::new(rt) {
        Ok(state) => state.hash_one(&0u8),
        Err(error) => return Err(refuse_system(rt, file, error)),
    };
    match Connection::open_files_with(rt.alloc(), files, options_of(seed), true) {
        Ok(conn) => Ok(conn),
        Err((error, _)) => {
            let fault = opening_fault(error);
            Err(refuse(rt, file, fault, fault))
        }
    }
}

/// Opens the database of this name to be asked alone: nothing is written to it or its log. `None`
/// if it cannot be opened so.
pub(crate) fn connect_to_ask(
    rt: &HostRuntime,
    file: &str,
) -> Option<Connection<FileStore<AskedFile<ReadOnly<File>, Memory>>>>
    ensures fresh { IfSome result IsNew }
{
    let Files { mut log, db } = sqlite_std_file::open(rt, file, Unknown).ok()?;
    let files = asked_files(rt.alloc(), &mut log, db).ok()?;
    let seed = RandomState::new(rt).ok()?.hash_one(&0u8);
    Connection::open_files_with(rt.alloc(), files, options_of(seed), true).ok()
}

/// How a database is kept, with this number for the salts of its log.
fn options_of(seed: u64) -> Options {
    Options {
        cache_pages: PAGES_KEPT,
        spill_pages: PAGES_BEFORE_LOG,
        checkpoint_frames: PAGES_IN_LOG,
        seed,
    }
}

/// Says why the files are not opened, and answers what that is to the store.
fn refuse_files(rt: &HostRuntime, file: &str, error: OpenError) -> StoreFault {
    match error {
        OpenError::OutOfMemory => refuse(rt, file, StoreFault::Memory, error),
        OpenError::Io(error) => refuse_system(rt, file, error),
        OpenError::Busy => refuse(rt, file, StoreFault::Device, "another program has it open"),
        OpenError::HotJournal => refuse(rt, file, StoreFault::Device, error),
    }
}

/// Says for which reason of the system the files are not opened, and answers what that is to the
/// store.
fn refuse_system(rt: &HostRuntime, file: &str, error: io::Error) -> StoreFault {
    match error.kind() {
        io::ErrorKind::OutOfMemory => refuse(rt, file, StoreFault::Memory, StoreFault::Memory),
        io::ErrorKind::Unsupported => refuse(
            rt,
            file,
            StoreFault::Device,
            "it or its log is no regular file, or has a second name",
        ),
        _ => refuse(rt, file, StoreFault::Device, error),
    }
}

/// Says why the store cannot be opened, and answers the fault.
pub(crate) fn refuse<R: Display + Drop>(
    rt: &HostRuntime,
    file: &str,
    fault: StoreFault,
    reason: R,
) -> StoreFault {
    let _ = eprintln!(rt; "wb: {file} cannot be opened: {reason}");
    fault
}
