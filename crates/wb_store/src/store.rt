//! The store of an office: a database that is opened or adopted, looked up, changed in transactions, and closed.
ghost use Rattle.std.specs.Prelude.{◌≡◌, ◌⊎◌, false, true, not, [], None, Err, IfErr, IfOk, IsErrAnd, IsTrue, OnOk};
ghost use Rattle.sqlite.specs.Change.{KeepsRows};
ghost use Rattle.sqlite.specs.Files.{file_state};
ghost use Rattle.sqlite.specs.Held.{state};
ghost use Rattle.sqlite.specs.State.{HasCleanDisk, IsUnchanged, Survives};
ghost use Rattle.sqlite_wal.specs.Reads.{AreClean};
ghost use Rattle.wb_sql.specs.Among.{HasOffice, LacksOffice};
ghost use Rattle.wb_sql.specs.Format.{HasFormatColumn};
ghost use Rattle.wb_sql.specs.Settled.{LeaveOnly};
ghost use Rattle.wb_sql.specs.Transactions.{FailsToRun, IsKeptOrUndone};
ghost use Rattle.wb_sql.specs.Upgrading.{HasFirstOffice};
ghost use Rattle.wb_states.specs.Machine.{Machine, empty_office};
ghost use Rattle.wb_states.specs.declared.store_fault.StoreFault.TheVariants.{NotOffice};
ghost use Rattle.wb_store.specs.Checks.{HasGoodRows, HasGoodRowsIn};
ghost use Rattle.wb_store.specs.Formats.{IsNewer};
ghost use Rattle.wb_store.specs.Files.{AreFoundAt, AreGivenUp, AreNew, AreRefused, AreUnclosed};
ghost use Rattle.wb_store.specs.Files.{IsFaultOfClosing, IsFaultOfOpening, LeaveOffice};
ghost use Rattle.wb_store.specs.Opened.{IsOpenedAt, IsOpenedAtOne};
ghost use Rattle.wb_store.specs.Opening.{HasNoRowsLeft, HasNoScratchRows, IsRefusedFrom, PreparesOffice};
ghost use Rattle.wb_store.specs.Others.{KeepsOthersOver};
ghost use Rattle.wb_store.specs.Preparing.{IsFoundAt};
ghost use Rattle.wb_store.specs.Settled.{AreSettledAt, LeavesEither, IsBackAt};
ghost use Rattle.wb_store.specs.Upgrading.{HasFirst};
ghost use Rattle.wb_store.specs.declared.format.Format.TheVariants.{One};

use crate::fault::{fault_of, opening_fault};
use crate::writing::Writing;
use crate::{RefusedConnection, RefusedFiles, laws};
use sqlite::{Alter, Connection, FileStore, Files, Options};
use sqlite_disk::Disk;
use std::alloc::Global;
use std::marker::Model;
use wb_states::{Counts, StoreFault, Table};

// No other crate sees the connection: an office uses this and `Writing`, and nothing above runs a
// text of SQL. Clauses see both as the connection, so that what a look-up or a change promises is
// said once, by `LooksUp` and `Changes`. They are two types, since a caller of one could begin a
// transaction within another.
/// The store of an office: a database that has the office's tables, perhaps beside those of others. Clauses see it as the
/// connection of the database.
#[derive(Drop)]
pub struct Store<S: Alter + Drop> {
    pub(crate) conn: Connection<S>,
}

impl<S: Alter + Drop> Model for Store<S> {
    ghost use Rattle.sqlite.specs.Held.{Held, held_code};

    ghost Value = { Held S };

    ghost coded = { held_code S.code };

    ghost view = { λ store. store.conn };
}

impl<S: Alter + Drop> Store<S> {
    /// Takes over the office whose tables the connection has, which is in no transaction, and answers its two counts too; a
    /// database that lacks the tables becomes that of an empty office. Tables of others may stand beside the office's, as
    /// [`has_office_tables`](wb_sql::has_office_tables) and [`lacks_office`](wb_sql::lacks_office) say. Each row of the
    /// office's tables is tested. An office of the first schema, whose tables are those of format 1, is then brought over
    /// into the second in one transaction: each record has build priority 0, and the table of its records stays without a
    /// row. The faults are `NewerSchema` if the table `office` has one row, with a format that is newer than this
    /// program's, whatever its other tables are; `NotOffice` if the database has something of the office's names, but not
    /// its tables, or a table that refers to them, and is then left as it is, or the row of the office is missing or of
    /// another format than that of the tables; `Damaged` with the table and the first row, counted from 1, that breaks the
    /// rules of an office, or with row 0 if a statement on the table was refused, `Memory`, and `Device` if the disk failed
    /// or is full. After a fault a crash leaves the office as it was found, in the one schema or in the other, or the
    /// tables of an empty one, and no transaction is under way. It hands the connection back then. A limit of steps of the
    /// connection stays (this project's own).
    pub fn try_adopt(conn: Connection<S>) -> Result<(Store<S>, Counts), RefusedConnection<S>>
        requires idle { conn.in_transaction ≡ false }
        ensures found { IfOk result (λ opened. HasCleanDisk (state S.Store opened.0)
            → (machine : Machine) → IsFoundAt machine (state S.Store conn)
            → IsOpenedAt machine opened.1 (state S.Store opened.0)) }
        ensures good { IfOk result (λ opened. HasCleanDisk (state S.Store opened.0)
            → HasOffice conn.schema
            → HasGoodRows (state S.Store conn).now × HasNoRowsLeft (state S.Store conn).now) }
        ensures good_first { IfOk result (λ opened. HasCleanDisk (state S.Store opened.0)
            → HasFirstOffice conn.schema
            → HasGoodRowsIn One (state S.Store conn).now × HasNoScratchRows (state S.Store conn).now) }
        ensures known { IfOk result (λ _. LacksOffice conn.schema ⊎ (HasOffice conn.schema ⊎ HasFirstOffice conn.schema)) }
        ensures newer { IfOk result (λ opened. HasCleanDisk (state S.Store opened.0)
            → ¬ IsNewer (state S.Store conn).now) }
        ensures other { ¬ LacksOffice conn.schema → ¬ HasOffice conn.schema → ¬ HasFormatColumn conn.schema
            → IsErrAnd result (λ refused. (refused.fault ≡ NotOffice) × (refused.conn ≡ conn)) }
        ensures others { IfOk result (λ opened. HasCleanDisk (state S.Store opened.0)
            → IsTrue (state S.Store conn).is_open → LacksOffice conn.schema
            → KeepsRows conn.schema.tables (state S.Store conn).now.trees (state S.Store opened.0).now.trees) }
        ensures others_first { IfOk result (λ opened. HasCleanDisk (state S.Store opened.0)
            → (machine : Machine) → HasFirst machine (state S.Store conn)
            → KeepsOthersOver (state S.Store conn).now (state S.Store opened.0).now) }
        ensures limit { IfOk result (λ opened. opened.0.step_limit ≡ conn.step_limit) }
        ensures clean { IfOk result (λ opened. HasCleanDisk (state S.Store opened.0)
            → HasCleanDisk (state S.Store conn)) }
        ensures refused { IfErr result (λ refused. PreparesOffice S.Store conn refused.conn (Err refused.fault)) }
    {
        let mut conn = conn;
        match laws::prepare(&mut conn) {
            Ok(counts) => Ok((Store { conn }, counts)),
            Err(fault) => Err(RefusedConnection { fault, conn }),
        }
    }

    /// Takes over the office as [`try_adopt`](Store::try_adopt) does, but drops a connection that it refuses (this project's
    /// own).
    pub fn adopt(conn: Connection<S>) -> Result<(Store<S>, Counts), StoreFault>
        requires idle { conn.in_transaction ≡ false }
        ensures found { IfOk result (λ opened. HasCleanDisk (state S.Store opened.0)
            → (machine : Machine) → IsFoundAt machine (state S.Store conn)
            → IsOpenedAt machine opened.1 (state S.Store opened.0)) }
        ensures good { IfOk result (λ opened. HasCleanDisk (state S.Store opened.0)
            → HasOffice conn.schema
            → HasGoodRows (state S.Store conn).now × HasNoRowsLeft (state S.Store conn).now) }
        ensures good_first { IfOk result (λ opened. HasCleanDisk (state S.Store opened.0)
            → HasFirstOffice conn.schema
            → HasGoodRowsIn One (state S.Store conn).now × HasNoScratchRows (state S.Store conn).now) }
        ensures known { IfOk result (λ _. LacksOffice conn.schema ⊎ (HasOffice conn.schema ⊎ HasFirstOffice conn.schema)) }
        ensures newer { IfOk result (λ opened. HasCleanDisk (state S.Store opened.0)
            → ¬ IsNewer (state S.Store conn).now) }
        ensures other { ¬ LacksOffice conn.schema → ¬ HasOffice conn.schema
            → ¬ HasFormatColumn conn.schema → result ≡ Err NotOffice }
        ensures others { IfOk result (λ opened. HasCleanDisk (state S.Store opened.0)
            → IsTrue (state S.Store conn).is_open → LacksOffice conn.schema
            → KeepsRows conn.schema.tables (state S.Store conn).now.trees (state S.Store opened.0).now.trees) }
        ensures others_first { IfOk result (λ opened. HasCleanDisk (state S.Store opened.0)
            → (machine : Machine) → HasFirst machine (state S.Store conn)
            → KeepsOthersOver (state S.Store conn).now (state S.Store opened.0).now) }
        ensures limit { IfOk result (λ opened. opened.0.step_limit ≡ conn.step_limit) }
        ensures clean { IfOk result (λ opened. HasCleanDisk (state S.Store opened.0)
            → HasCleanDisk (state S.Store conn)) }
        ensures refused { IfErr result (IsRefusedFrom S.Store conn) }
    {
        match Store::try_adopt(conn) {
            Ok(opened) => Ok(opened),
            Err(refused) => Err(refused.fault),
        }
    }

    /// Begins a transaction, while none is under way. It writes nothing, and cannot fail (this project's own).
    pub fn begin(&mut self) -> Writing<'_, S>
        requires idle { self.old.in_transaction ≡ false }
        ensures same_reference { result.store.ghost_name ≡ self.entry.ghost_name }
        ensures begun { result.store.now ≡ record self.old { in_transaction = true } }
        ensures unsaved { result.is_saved ≡ false }
    {
        wb_sql::begin(&mut self.conn);
        Writing {
            store: self,
            is_saved: false,
            last_place: 0,
        }
    }

    /// Whether no transaction is under way. Takes no memory (this project's own).
    pub fn is_idle(&self) -> bool
        ensures value { result ≡ not self.now.in_transaction }
    {
        self.conn.is_autocommit()
    }

    /// Whether the store can still be used, as it cannot if a fault closed its database or memory does not suffice for the
    /// empty statement. Nothing is written; a transaction may be taken back only if the store cannot be used (this
    /// project's own).
    pub fn is_usable(&mut self) -> bool
        ensures open { HasCleanDisk (state S.Store self.new) → IsTrue result
            → IsUnchanged (state S.Store self.old) (state S.Store self.new) }
        ensures shut { HasCleanDisk (state S.Store self.new) → result ≡ false
            → FailsToRun [] (state S.Store self.old) (state S.Store self.new) }
        ensures unchanged { HasCleanDisk (state S.Store self.new)
            → IsKeptOrUndone (state S.Store self.old) (state S.Store self.new) }
        ensures survives { Survives (state S.Store self.old) (state S.Store self.new) (λ _. ⊥) }
    {
        wb_sql::is_usable(&mut self.conn)
    }
}

impl<D: Disk + Drop> Store<FileStore<D>> {
    /// Opens the store that two files hold, a database and its log, and answers its two counts too; a database that lacks
    /// the office's tables becomes that of an empty office. Each row is tested. The faults are those of [`opening_fault`]
    /// if the files cannot be opened as a database, and those of [`try_adopt`](Store::try_adopt); the files are handed back
    /// then, and hold what they held (this project's own).
    pub fn try_open(
        alloc: Global,
        files: Files<D>,
        options: Options,
    ) -> Result<(Store<FileStore<D>>, Counts), RefusedFiles<D>>
        requires log { IsTrue (D.Disk.is_usable files.log) }
        requires db { IsTrue (D.Disk.is_usable files.db) }
        ensures found { IfOk result (λ opened. HasCleanDisk (file_state opened.0)
            → (machine : Machine) → AreFoundAt D.Disk files machine
            → IsOpenedAt machine opened.1 (file_state opened.0)) }
        ensures left { IfOk result (λ opened. HasCleanDisk (file_state opened.0)
            → (one other : Machine) → LeaveOffice D.Disk files one other
            → IsOpenedAtOne one other opened.1 (file_state opened.0)) }
        ensures new { IfOk result (λ opened. HasCleanDisk (file_state opened.0) → AreNew D.Disk files
            → IsOpenedAt empty_office opened.1 (file_state opened.0)) }
        ensures clean { IfOk result (λ opened. HasCleanDisk (file_state opened.0)
            → AreClean D.Disk files.log files.db) }
        ensures unlimited { IfOk result (λ opened. opened.0.step_limit ≡ None) }
        ensures refused { IfErr result (λ refused. AreRefused D.Disk files refused.fault refused.files) }
    {
        match wb_sql::open(alloc, files, options) {
            Ok(conn) => adopt_over(conn),
            Err((error, back)) => Err(RefusedFiles {
                fault: opening_fault(error),
                files: back,
            }),
        }
    }

    /// Opens the store as [`try_open`](Store::try_open) does, but drops files that it refuses (this project's own).
    pub fn open(
        alloc: Global,
        files: Files<D>,
        options: Options,
    ) -> Result<(Store<FileStore<D>>, Counts), StoreFault>
        requires log { IsTrue (D.Disk.is_usable files.log) }
        requires db { IsTrue (D.Disk.is_usable files.db) }
        ensures found { IfOk result (λ opened. HasCleanDisk (file_state opened.0)
            → (machine : Machine) → AreFoundAt D.Disk files machine
            → IsOpenedAt machine opened.1 (file_state opened.0)) }
        ensures left { IfOk result (λ opened. HasCleanDisk (file_state opened.0)
            → (one other : Machine) → LeaveOffice D.Disk files one other
            → IsOpenedAtOne one other opened.1 (file_state opened.0)) }
        ensures new { IfOk result (λ opened. HasCleanDisk (file_state opened.0) → AreNew D.Disk files
            → IsOpenedAt empty_office opened.1 (file_state opened.0)) }
        ensures clean { IfOk result (λ opened. HasCleanDisk (file_state opened.0)
            → AreClean D.Disk files.log files.db) }
        ensures unlimited { IfOk result (λ opened. opened.0.step_limit ≡ None) }
        ensures refused { IfErr result (IsFaultOfOpening D.Disk files) }
    {
        match Store::try_open(alloc, files, options) {
            Ok(opened) => Ok(opened),
            Err(refused) => Err(refused.fault),
        }
    }

    /// Closes the store, and gives back its files: they hold its state, also after a crash. The fault is `Memory`, or
    /// `Device` if the disk failed or is full, or if a fault closed the database before; the files are handed back then too,
    /// and a crash leaves no more than before (this project's own).
    pub fn try_close(self) -> Result<Files<D>, RefusedFiles<D>>
        ensures settled { IfOk result (λ files. AreClean D.Disk files.log files.db → (machine : Machine)
            → IsBackAt machine (file_state self) → AreSettledAt D.Disk files machine) }
        ensures either { IfOk result (λ files. AreClean D.Disk files.log files.db → (before after : Machine)
            → LeavesEither before after (file_state self)
            → AreSettledAt D.Disk files before ⊎ AreSettledAt D.Disk files after) }
        ensures clean { IfOk result (λ files. AreClean D.Disk files.log files.db → HasCleanDisk (file_state self)) }
        ensures usable { IfOk result (λ files. IsTrue (D.Disk.is_usable files.log) × IsTrue (D.Disk.is_usable files.db)) }
        ensures err { IfErr result (λ refused. AreUnclosed self refused.fault refused.files) }
    {
        let Store { conn } = self;
        close(conn)
    }

    /// Closes the store as [`try_close`](Store::try_close) does, but drops files that are not closed (this project's own).
    pub fn close(self) -> Result<Files<D>, StoreFault>
        ensures settled { IfOk result (λ files. AreClean D.Disk files.log files.db → (machine : Machine)
            → IsBackAt machine (file_state self) → AreSettledAt D.Disk files machine) }
        ensures either { IfOk result (λ files. AreClean D.Disk files.log files.db → (before after : Machine)
            → LeavesEither before after (file_state self)
            → AreSettledAt D.Disk files before ⊎ AreSettledAt D.Disk files after) }
        ensures clean { IfOk result (λ files. AreClean D.Disk files.log files.db → HasCleanDisk (file_state self)) }
        ensures usable { IfOk result (λ files. IsTrue (D.Disk.is_usable files.log) × IsTrue (D.Disk.is_usable files.db)) }
        ensures err { IfErr result (IsFaultOfClosing self) }
    {
        match self.try_close() {
            Ok(files) => Ok(files),
            Err(refused) => Err(refused.fault),
        }
    }

    /// Gives the store up, as after a fault, and hands out its files. A crash leaves of them what it could leave of the
    /// store (this project's own).
    pub fn surrender(self) -> Files<D>
        ensures left { AreClean D.Disk result.log result.db → LeaveOnly D.Disk result (file_state self).may_leave }
        ensures clean { AreClean D.Disk result.log result.db → HasCleanDisk (file_state self) }
    {
        let Store { conn } = self;
        wb_sql::surrender(conn)
    }
}

/// Takes over the office of a connection over files, and hands these out if it is refused.
fn adopt_over<D: Disk + Drop>(
    conn: Connection<FileStore<D>>,
) -> Result<(Store<FileStore<D>>, Counts), RefusedFiles<D>>
    requires idle { conn.in_transaction ≡ false }
    ensures found { IfOk result (λ opened. HasCleanDisk (file_state opened.0)
        → (machine : Machine) → IsFoundAt machine (file_state conn)
        → IsOpenedAt machine opened.1 (file_state opened.0)) }
    ensures limit { IfOk result (λ opened. opened.0.step_limit ≡ conn.step_limit) }
    ensures clean { IfOk result (λ opened. HasCleanDisk (file_state opened.0) → HasCleanDisk (file_state conn)) }
    ensures refused { IfErr result (λ refused. AreGivenUp conn refused.fault refused.files) }
{
    match Store::try_adopt(conn) {
        Ok(opened) => Ok(opened),
        Err(refused) => Err(RefusedFiles {
            fault: refused.fault,
            files: wb_sql::surrender(refused.conn),
        }),
    }
}

/// Closes the connection of a store, and gives back its files. It is apart since a connection that comes out of a store and
/// is dropped with its fault leaves the prover an invariant to show that it cannot name.
fn close<D: Disk + Drop>(conn: Connection<FileStore<D>>) -> Result<Files<D>, RefusedFiles<D>>
    ensures settled { IfOk result (λ files. AreClean D.Disk files.log files.db → (machine : Machine)
        → IsBackAt machine (file_state conn) → AreSettledAt D.Disk files machine) }
    ensures either { IfOk result (λ files. AreClean D.Disk files.log files.db → (before after : Machine)
        → LeavesEither before after (file_state conn)
        → AreSettledAt D.Disk files before ⊎ AreSettledAt D.Disk files after) }
    ensures clean { IfOk result (λ files. AreClean D.Disk files.log files.db → HasCleanDisk (file_state conn)) }
    ensures usable { IfOk result (λ files. IsTrue (D.Disk.is_usable files.log) × IsTrue (D.Disk.is_usable files.db)) }
    ensures err { IfErr result (λ refused. AreUnclosed conn refused.fault refused.files) }
{
    match wb_sql::close(conn) {
        Ok(files) => Ok(files),
        Err((error, files)) => Err(RefusedFiles {
            fault: fault_of(error, Table::Office),
            files,
        }),
    }
}
