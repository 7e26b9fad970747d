//! A connection over two files, the database and its log: closed, opened, and given up after a fault.

ghost use Rattle.std.specs.Prelude.{◌≡◌, IsTrue, IfOk, IfErr};
ghost use Rattle.sqlite.specs.WalReads.{AreClean};
ghost use Rattle.sqlite.specs.State.{HasCleanDisk};
ghost use Rattle.sqlite.specs.Closing.{IsCopied};
ghost use Rattle.sqlite.specs.Held.{IsNew};
ghost use Rattle.sqlite.specs.Files.{file_state, Finds, IsOpened};
ghost use Rattle.wb_sql.specs.HandedBack.{IsUnclosed, IsUnopened};
ghost use Rattle.wb_sql.specs.Settled.{AreSettled, LeaveOnly};
ghost use Rattle.wb_sql.specs.Transactions.{LeavesAlone};

use sqlite::{Connection, Error, FileStore, Files, Options};
use sqlite_disk::Disk;
use std::alloc::Global;

/// Closes a connection, and gives back its files, which then hold the last commit, also after a crash. What is not
/// committed is lost. It fails if the store is shut, a file fails or memory runs out, and gives the files back then too.
pub fn close<D: Disk + Drop>(conn: Connection<FileStore<D>>) -> Result<Files<D>, (Error, Files<D>)>
    ensures settled { IfOk result (λ files. AreClean D.Disk files.log files.db
        → AreSettled D.Disk files (file_state conn).committed.trees) }
    ensures copied { IfOk result (λ files. AreClean D.Disk files.log files.db → IsCopied conn files) }
    ensures usable { IfOk result (λ files. IsTrue (D.Disk.is_usable files.log) × IsTrue (D.Disk.is_usable files.db)) }
    ensures err { IfErr result (λ e. IsUnclosed conn e.0 e.1) }
{
    match conn.close_files() {
        Ok(files) => Ok(files),
        Err((error, store)) => Err((error, store.close())),
    }
}

/// Gives up a connection, as after a fault, and hands out its files. They hold what the connection could leave.
pub fn surrender<D: Disk + Drop>(conn: Connection<FileStore<D>>) -> Files<D>
    ensures left { AreClean D.Disk result.log result.db → LeaveOnly D.Disk result (file_state conn).may_leave }
    ensures clean { AreClean D.Disk result.log result.db → HasCleanDisk (file_state conn) }
{
    conn.into_store().close()
}

/// Opens files, and finds what they hold. It fails as `Connection::open_files` does, and then gives the files back.
pub fn open<D: Disk + Drop>(
    alloc: Global,
    files: Files<D>,
    options: Options,
) -> Result<Connection<FileStore<D>>, (Error, Files<D>)>
    requires log { IsTrue (D.Disk.is_usable files.log) }
    requires db { IsTrue (D.Disk.is_usable files.db) }
    ensures opened { IfOk result (λ c. HasCleanDisk (file_state c) → IsOpened c) }
    ensures finds { IfOk result (λ c. HasCleanDisk (file_state c) → Finds files c) }
    ensures found { IfOk result (λ c. HasCleanDisk (file_state c)
        → (db : _) → AreSettled D.Disk files db → (file_state c).committed.trees ≡ db) }
    ensures alone { IfOk result (λ c. HasCleanDisk (file_state c)
        → LeavesAlone (file_state c) (file_state c).committed.trees) }
    ensures fresh { IfOk result IsNew }
    ensures err { IfErr result (λ e. IsUnopened D.Disk files e.0 e.1) }
{
    match Connection::open_files(alloc, files, options) {
        Ok(conn) => Ok(conn),
        Err((error, left)) => Err((error, left.into_files())),
    }
}
