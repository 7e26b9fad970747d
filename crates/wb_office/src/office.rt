//! The office over tables: each command is one transaction.
ghost use Rattle.std.specs.Prelude.{◌≡◌, ◌⊎◌, [], false, true, None, Err, Ok, map, IfOk, IfErr};
ghost use Rattle.std.specs.Prelude.{IfSome, IsErrAnd, IsTrue, OnOk, is_some};
ghost use Rattle.sqlite.specs.Change.{KeepsRows};
ghost use Rattle.sqlite.specs.Files.{file_state};
ghost use Rattle.sqlite.specs.Held.{state};
ghost use Rattle.sqlite.specs.State.{HasCleanDisk, Survives};
ghost use Rattle.sqlite_wal.specs.Reads.{AreClean};
ghost use Rattle.wb_states.specs.Machine.{Machine, empty_office};
ghost use Rattle.wb_states.specs.declared.store_fault.StoreFault.TheVariants.{NotOffice};
ghost use Rattle.wb_sql.specs.Settled.{LeaveOnly};
ghost use Rattle.wb_store.specs.Settled.{AreSettledAt, LeavesEither, StandsForTrees};
ghost use Rattle.wb_sql.specs.Among.{HasOffice, LacksOffice};
ghost use Rattle.wb_sql.specs.Format.{HasFormatColumn};
ghost use Rattle.wb_sql.specs.Upgrading.{HasFirstOffice};
ghost use Rattle.wb_store.specs.Checks.{HasGoodRows, HasGoodRowsIn};
ghost use Rattle.wb_store.specs.Formats.{IsNewer};
ghost use Rattle.wb_store.specs.Opening.{HasNoRowsLeft, HasNoScratchRows, IsRefusedFrom};
ghost use Rattle.wb_store.specs.Opening.{PreparesOffice};
ghost use Rattle.wb_store.specs.declared.format.Format.TheVariants.{One};
ghost use Rattle.wb_store.specs.Files.{AreFoundAt, AreNew, AreRefused, AreUnclosed};
ghost use Rattle.wb_store.specs.Files.{IsFaultOfClosing, IsFaultOfOpening, LeaveOffice};
ghost use Rattle.wb_store.specs.Merging.{no_merge};
ghost use Rattle.wb_store.specs.Others.{KeepsOthersOver};
ghost use Rattle.wb_store.specs.Preparing.{IsFoundAt};
ghost use Rattle.wb_store.specs.TableRows.{FailsToShowOne, table_rows};
ghost use Rattle.wb_store.specs.Upgrading.{HasFirst};
ghost use Rattle.wb_rows.specs.Shown.{row_of};
ghost use Rattle.wb_office.specs.declared.answer.Failure.TheVariants.{Uncommitted};
ghost use Rattle.wb_states.specs.Holds.{holder_of};
ghost use Rattle.wb_states.specs.Queries.{answer_of, has_malformed_name};
ghost use Rattle.wb_states.specs.Refusals.{IsOfMachine, is_of_store};
ghost use Rattle.wb_office.specs.Applies.{Applies, CannotGoOn, Ends, EndsWith, refusal_for};
ghost use Rattle.wb_merge.specs.Changes.{AreChanges};
ghost use Rattle.wb_step.specs.Step.{step};
ghost use Rattle.wb_office.specs.AppliesLists.{AppliesLists, HasListsNoted, changes_told};
ghost use Rattle.wb_office.specs.Asks.{Asks};
ghost use Rattle.wb_office.specs.Failed.{HasFailed};
ghost use Rattle.wb_office.specs.Standing.{LeavesOne, StandsAt, StandsAtOne};

use crate::answer::{Failure, answer};
use crate::carry::CarryError;
use crate::known::Known;
use crate::lists::answer_lists;
use crate::query::{find_answer, find_holder};
use deb_text::{Items, Text};
use sqlite::{Alter, Connection, FileStore, Files, Options};
use sqlite_disk::Disk;
use std::alloc::Global;
use std::io::BufRead;
use wb_archive::{ArchList, MergeFrom, TellChanges, check_archs};
use wb_merge::ArchChanges;
use wb_rows::TableRow;
use wb_states::{Answer, Command, Query, Refusal, Reply, StoreFault};
use wb_step::{CarryOut, check_texts};
use wb_store::{RefusedConnection, RefusedFiles, Store};

/// The office, with its state in the tables of a database.
#[derive(Drop)]
pub struct Office<S: Alter + Drop> {
    alloc: Global,
    store: Store<S>,
    known: Known,
    is_closed: bool,
    /// Whether what merges and reports change is noted.
    is_noting: bool,
    /// What the last command changed, if it was a merge or a report that was accepted, and this was
    /// noted.
    changes: Option<Vec<ArchChanges>>,
}

impl<S: Alter + Drop> Office<S> {
    /// Opens the office whose tables the connection has, which is in no transaction; a database
    /// that lacks them becomes that of an empty office. Tables of others may stand beside the
    /// office's, as [`has_office_tables`](wb_sql::has_office_tables) and
    /// [`lacks_office`](wb_sql::lacks_office) say. Each row of the office's tables is tested. An
    /// office of the first schema, whose tables are those of format 1, is then brought over into
    /// the second in one transaction: each record has build priority 0, and the table of its
    /// records stays without a row. The faults are `NewerSchema` if the table `office` has one row,
    /// with a format that is newer than this program's, whatever its other tables are; `NotOffice`
    /// if the database has something of the office's names, but not its tables, or a table that
    /// refers to them, and is then left as it is, or the row of the office is missing or of another
    /// format than that of the tables; `Damaged` with the table and the first row, counted from 1,
    /// that breaks the rules of an office, or with row 0 if a statement on the table was refused,
    /// `Memory`, and `Device` if the disk failed or is full. After a fault a crash leaves the
    /// office as it was found, in the one schema or in the other, or the tables of an empty one,
    /// and no transaction is under way. It hands the connection back then. A limit of steps of the
    /// connection stays (this project's own).
    pub fn try_adopt(alloc: Global, conn: Connection<S>) -> Result<Office<S>, RefusedConnection<S>>
        requires idle { conn.in_transaction ≡ false }
        ensures opened { IfOk result (λ office. office.is_closed ≡ false) }
        ensures silent { IfOk result (λ office. office.is_noting ≡ false) }
        ensures found { IfOk result (λ office. HasCleanDisk (state S.Store office.store)
            → (machine : Machine) → IsFoundAt machine (state S.Store conn)
            → StandsAt machine office.is_closed office.known (state S.Store office.store)) }
        ensures good { IfOk result (λ office. HasCleanDisk (state S.Store office.store)
            → HasOffice conn.schema
            → HasGoodRows (state S.Store conn).now × HasNoRowsLeft (state S.Store conn).now) }
        ensures good_first { IfOk result (λ office. HasCleanDisk (state S.Store office.store)
            → HasFirstOffice conn.schema
            → HasGoodRowsIn One (state S.Store conn).now × HasNoScratchRows (state S.Store conn).now) }
        ensures known { IfOk result (λ _. LacksOffice conn.schema ⊎ (HasOffice conn.schema ⊎ HasFirstOffice conn.schema)) }
        ensures newer { IfOk result (λ office. HasCleanDisk (state S.Store office.store)
            → ¬ IsNewer (state S.Store conn).now) }
        ensures other { ¬ LacksOffice conn.schema → ¬ HasOffice conn.schema → ¬ HasFormatColumn conn.schema
            → IsErrAnd result (λ refused. (refused.fault ≡ NotOffice) × (refused.conn ≡ conn)) }
        ensures others { IfOk result (λ office. HasCleanDisk (state S.Store office.store)
            → IsTrue (state S.Store conn).is_open → LacksOffice conn.schema
            → KeepsRows conn.schema.tables (state S.Store conn).now.trees (state S.Store office.store).now.trees) }
        ensures others_first { IfOk result (λ office. HasCleanDisk (state S.Store office.store)
            → (machine : Machine) → HasFirst machine (state S.Store conn)
            → KeepsOthersOver (state S.Store conn).now (state S.Store office.store).now) }
        ensures limit { IfOk result (λ office. office.store.step_limit ≡ conn.step_limit) }
        ensures clean { IfOk result (λ office. HasCleanDisk (state S.Store office.store) → HasCleanDisk (state S.Store conn)) }
        ensures refused { IfErr result (λ refused. PreparesOffice S.Store conn refused.conn (Err refused.fault)) }
    {
        match Store::try_adopt(conn) {
            Ok((store, counts)) => Ok(Office {
                alloc,
                store,
                known: Known::new(alloc, counts),
                is_closed: false,
                is_noting: false,
                changes: None,
            }),
            Err(refused) => Err(refused),
        }
    }

    /// Opens the office as [`try_adopt`](Office::try_adopt) does, but drops a connection that it
    /// refuses (this project's own).
    pub fn adopt(alloc: Global, conn: Connection<S>) -> Result<Office<S>, StoreFault>
        requires idle { conn.in_transaction ≡ false }
        ensures opened { IfOk result (λ office. office.is_closed ≡ false) }
        ensures silent { IfOk result (λ office. office.is_noting ≡ false) }
        ensures found { IfOk result (λ office. HasCleanDisk (state S.Store office.store)
            → (machine : Machine) → IsFoundAt machine (state S.Store conn)
            → StandsAt machine office.is_closed office.known (state S.Store office.store)) }
        ensures good { IfOk result (λ office. HasCleanDisk (state S.Store office.store)
            → HasOffice conn.schema
            → HasGoodRows (state S.Store conn).now × HasNoRowsLeft (state S.Store conn).now) }
        ensures good_first { IfOk result (λ office. HasCleanDisk (state S.Store office.store)
            → HasFirstOffice conn.schema
            → HasGoodRowsIn One (state S.Store conn).now × HasNoScratchRows (state S.Store conn).now) }
        ensures known { IfOk result (λ _. LacksOffice conn.schema ⊎ (HasOffice conn.schema ⊎ HasFirstOffice conn.schema)) }
        ensures newer { IfOk result (λ office. HasCleanDisk (state S.Store office.store)
            → ¬ IsNewer (state S.Store conn).now) }
        ensures other { ¬ LacksOffice conn.schema → ¬ HasOffice conn.schema
            → ¬ HasFormatColumn conn.schema → result ≡ Err NotOffice }
        ensures others { IfOk result (λ office. HasCleanDisk (state S.Store office.store)
            → IsTrue (state S.Store conn).is_open → LacksOffice conn.schema
            → KeepsRows conn.schema.tables (state S.Store conn).now.trees (state S.Store office.store).now.trees) }
        ensures others_first { IfOk result (λ office. HasCleanDisk (state S.Store office.store)
            → (machine : Machine) → HasFirst machine (state S.Store conn)
            → KeepsOthersOver (state S.Store conn).now (state S.Store office.store).now) }
        ensures limit { IfOk result (λ office. office.store.step_limit ≡ conn.step_limit) }
        ensures clean { IfOk result (λ office. HasCleanDisk (state S.Store office.store) → HasCleanDisk (state S.Store conn)) }
        ensures refused { IfErr result (IsRefusedFrom S.Store conn) }
    {
        match Office::try_adopt(alloc, conn) {
            Ok(office) => Ok(office),
            Err(refused) => Err(refused.fault),
        }
    }

    /// Whether the office is closed: it answers `Closed` to each command, until it is opened again.
    /// Takes no memory (this project's own).
    pub fn closed(&self) -> bool
        ensures value { result ≡ self.now.is_closed }
    {
        self.is_closed
    }

    /// Carries out one command, whole or not at all, and answers it.
    ///
    /// An accepted command is one transaction, which is committed before it is answered. The
    /// refusal is the first that is true of the command in the order of [`Refusal`]; the office is
    /// then as it was. Its texts are tested before the tables are asked, so that no command whose
    /// texts are refused is answered `Store`. After `Memory` the office is as it was too, but is
    /// closed if the transaction could not be taken back. After `Store` it is closed, and a crash
    /// leaves the command whole or not at all. A closed office, and no other, answers `Closed` to
    /// each command (this project's own).
    pub fn apply(&mut self, command: &Command) -> Result<Reply, Refusal>
        ensures applies { Applies S.Store command.now self.old.is_closed self.old.known self.old.store
            self.new.is_closed self.new.known self.new.store result }
        ensures notes { self.new.is_noting ≡ self.old.is_noting }
        ensures untold { IfErr result (λ _. self.new.changes ≡ None) }
        ensures noted { HasCleanDisk (state S.Store self.new.store) → (machine : Machine)
            → StandsAt machine self.old.is_closed self.old.known (state S.Store self.old.store)
            → OnOk result (IfSome self.new.changes (λ changes.
            AreChanges changes.items machine.records (step machine command.now).1.records)) }
    {
        self.changes = None;
        if self.is_closed {
            return Err(Refusal::Closed);
        }
        let lines = check_texts(self.alloc, command)?;
        let mut notes = no_notes(self.alloc, self.is_noting);
        match answer(
            self.alloc,
            &mut self.store,
            &mut self.known,
            command,
            lines,
            &mut notes,
        ) {
            Ok(reply) => {
                self.changes = notes;
                Ok(reply)
            }
            Err(failure) => {
                let (refusal, is_closed) = end(&mut self.store, failure);
                self.is_closed = is_closed;
                Err(refusal)
            }
        }
    }

    /// Merges a Sources list and a Packages list of each of some architectures, as readers give
    /// them, whole or not at all, and answers it. No list is held in memory.
    ///
    /// An accepted merge is one transaction, which is committed before it is answered. The names of
    /// the architectures are tested before anything is read: `BadName` comes if one is malformed,
    /// and `RepeatedArch` if two are the same, and nothing is done. Sources is read once, before
    /// the others; a Packages list is not read if its architecture was never added. If no part was
    /// merged, the refusal is that of the first, or `UnknownArch` if there is none: `UnknownArch`,
    /// or `BadListing`, with the fault `Read` if the list could not be read on. `Spent` comes if no
    /// more command can be counted. The office is then as it was. After `Memory` it is as it was
    /// too, but is closed if the transaction could not be taken back. After `Store` it is closed,
    /// and a crash leaves the merge whole or not at all. A closed office, and no other, answers
    /// `Closed` (this project's own).
    pub fn merge_from<R: BufRead + Drop>(
        &mut self,
        sources: R,
        parts: Vec<ArchList<R>>,
    ) -> Result<Reply, Refusal>
        ensures applies { AppliesLists S.Store R.remaining sources parts.items self.old.is_closed self.old.known self.old.store
            self.new.is_closed self.new.known self.new.store result }
        ensures notes { self.new.is_noting ≡ self.old.is_noting }
        ensures untold { IfErr result (λ _. self.new.changes ≡ None) }
        ensures noted { HasCleanDisk (state S.Store self.new.store) → (machine : Machine)
            → StandsAt machine self.old.is_closed self.old.known (state S.Store self.old.store)
            → IfOk result (HasListsNoted S.Store R.remaining sources parts.items machine
            self.new.is_closed self.new.known self.new.changes self.new.store) }
    {
        self.changes = None;
        if self.is_closed {
            return Err(Refusal::Closed);
        }
        check_archs(parts.as_slice())?;
        let mut notes = no_notes(self.alloc, self.is_noting);
        match answer_lists(
            self.alloc,
            &mut self.store,
            &mut self.known,
            sources,
            parts,
            &mut notes,
        ) {
            Ok(reply) => {
                self.changes = notes;
                Ok(reply)
            }
            Err(failure) => {
                let (refusal, is_closed) = end(&mut self.store, failure);
                self.is_closed = is_closed;
                Err(refusal)
            }
        }
    }

    /// Answers a query, which changes nothing: the queue of an architecture, its records in a
    /// state, by the names of their source packages, or how many are in each; a record, or what it
    /// needs to be built; or what a builder holds, of all architectures, by take number.
    ///
    /// The refusals come in this order: `Closed`, `BadName` if a name is malformed or no state has
    /// the state's name, `UnknownArch` if the architecture was never added, `UnknownBuilder` if the
    /// builder was added for no architecture, `UnknownSource` if the source package has no record
    /// there. `Memory` comes for no malformed name; the office is then closed if its connection
    /// cannot be used on. After `Store` it is closed. The office is as it was after each answer
    /// (this project's own).
    pub fn ask(&mut self, query: &Query) -> Result<Answer, Refusal>
        ensures asks { Asks S.Store (λ machine. answer_of machine query.now)
            (has_malformed_name query.now) self.old.is_closed self.old.known self.old.store
            self.new.is_closed self.new.known self.new.store result }
        ensures notes { (self.new.is_noting ≡ self.old.is_noting)
            × (self.new.changes ≡ self.old.changes) }
    {
        if self.is_closed {
            return Err(Refusal::Closed);
        }
        if query.has_malformed_name() {
            return Err(Refusal::BadName);
        }
        match find_answer(&mut self.store, &mut self.known, query) {
            Ok(answer) => answer,
            Err(fault) => {
                let (refusal, is_closed) = end_with(&mut self.store, fault);
                self.is_closed = is_closed;
                Err(refusal)
            }
        }
    }

    /// The builder of the record that is held under this take number, or none if nobody holds it,
    /// as for a number that was never given.
    ///
    /// `Closed` comes of a closed office, and of no other. `Memory` comes if there is no memory for
    /// what is read; the office is then closed if its connection cannot be used on. After `Store`
    /// it is closed. No other refusal comes, and the office is as it was after each answer (this
    /// project's own).
    pub fn holder_of(&mut self, take_number: u64) -> Result<Option<Text>, Refusal>
        ensures asks { Asks S.Store (λ machine. Ok (holder_of machine take_number))
            false self.old.is_closed self.old.known self.old.store
            self.new.is_closed self.new.known self.new.store result }
        ensures refused { IfErr result (λ refusal. IsOfMachine refusal → is_of_store refusal ≡ true) }
        ensures notes { (self.new.is_noting ≡ self.old.is_noting)
            × (self.new.changes ≡ self.old.changes) }
    {
        if self.is_closed {
            return Err(Refusal::Closed);
        }
        match find_holder(&mut self.store, take_number) {
            Ok(holder) => Ok(holder),
            Err(fault) => {
                let (refusal, is_closed) = end_with(&mut self.store, fault);
                self.is_closed = is_closed;
                Err(refusal)
            }
        }
    }

    /// Has what merges and reports change noted from now on, for [`changes`](Office::changes).
    /// Nothing else of the office changes. Takes no memory (this project's own).
    pub fn note_changes(&mut self)
        ensures notes { self.new.is_noting ≡ true }
        ensures stays { (self.new.is_closed ≡ self.old.is_closed) × (self.new.known ≡ self.old.known)
            × (self.new.store ≡ self.old.store) × (self.new.changes ≡ self.old.changes) }
    {
        self.is_noting = true;
    }

    /// What the last command changed, architecture by architecture, if it was a merge or a
    /// report that was accepted, and if that was noted: nothing if [`note_changes`](Office::note_changes) was not
    /// called before, if there was no memory for it, or after any other command. Takes no memory
    /// (this project's own).
    pub fn changes(&self) -> &[ArchChanges]
        ensures value { result.now ≡ changes_told self.now.changes }
    {
        match &self.changes {
            Some(changes) => changes.as_slice(),
            None => &[],
        }
    }

    /// Each row of the office's tables, once, as [`Store::rows`] has them, of an office that is
    /// open. The office is as it was; after a fault it is given up.
    pub(crate) fn rows(&mut self) -> Result<Items<TableRow>, StoreFault>
        ensures kept { (self.new.is_closed ≡ self.old.is_closed) × (self.new.known ≡ self.old.known) }
        ensures notes { (self.new.is_noting ≡ self.old.is_noting)
            × (self.new.changes ≡ self.old.changes) }
        ensures clean { HasCleanDisk (state S.Store self.new.store) → HasCleanDisk (state S.Store self.old.store) }
        ensures shows { IfOk result (λ rows. HasCleanDisk (state S.Store self.new.store) → self.old.is_closed ≡ false
            → (machine : Machine) → StandsAt machine self.old.is_closed self.old.known (state S.Store self.old.store)
            → (map row_of rows ≡ table_rows machine no_merge)
            × StandsAt machine self.new.is_closed self.new.known (state S.Store self.new.store)) }
        ensures err { IfErr result (λ fault. HasCleanDisk (state S.Store self.new.store)
            → HasOffice self.old.store.schema → FailsToShowOne S.Store self.old.store self.new.store fault) }
        ensures survives { Survives (state S.Store self.old.store) (state S.Store self.new.store)
            (λ _. ¬ HasOffice self.old.store.schema) }
    {
        self.store.rows(self.alloc)
    }
}

impl<D: Disk + Drop> Office<FileStore<D>> {
    /// Opens the office that two files hold, a database and its log; a database that lacks the
    /// office's tables becomes that of an empty office. Each row is tested. The faults are those of
    /// [`Store::try_open`] if the files cannot be opened as a database, and those of
    /// [`try_adopt`](Office::try_adopt); the files are handed back then, and hold what they held
    /// (this project's own).
    pub fn try_open(
        alloc: Global,
        files: Files<D>,
        options: Options,
    ) -> Result<Office<FileStore<D>>, RefusedFiles<D>>
        requires log { IsTrue (D.Disk.is_usable files.log) }
        requires db { IsTrue (D.Disk.is_usable files.db) }
        ensures opened { IfOk result (λ office. office.is_closed ≡ false) }
        ensures silent { IfOk result (λ office. office.is_noting ≡ false) }
        ensures found { IfOk result (λ office. HasCleanDisk (file_state office.store)
            → (machine : Machine) → AreFoundAt D.Disk files machine
            → StandsAt machine office.is_closed office.known (file_state office.store)) }
        ensures left { IfOk result (λ office. HasCleanDisk (file_state office.store)
            → (one other : Machine) → LeaveOffice D.Disk files one other
            → StandsAtOne one other office.is_closed office.known (file_state office.store)) }
        ensures new { IfOk result (λ office. HasCleanDisk (file_state office.store) → AreNew D.Disk files
            → StandsAt empty_office office.is_closed office.known (file_state office.store)) }
        ensures clean { IfOk result (λ office. HasCleanDisk (file_state office.store)
            → AreClean D.Disk files.log files.db) }
        ensures unlimited { IfOk result (λ office. office.store.step_limit ≡ None) }
        ensures refused { IfErr result (λ refused. AreRefused D.Disk files refused.fault refused.files) }
    {
        let (store, counts) = Store::try_open(alloc, files, options)?;
        Ok(Office {
            alloc,
            store,
            known: Known::new(alloc, counts),
            is_closed: false,
            is_noting: false,
            changes: None,
        })
    }

    /// Opens the office as [`try_open`](Office::try_open) does, but drops files that it refuses
    /// (this project's own).
    pub fn open(
        alloc: Global,
        files: Files<D>,
        options: Options,
    ) -> Result<Office<FileStore<D>>, StoreFault>
        requires log { IsTrue (D.Disk.is_usable files.log) }
        requires db { IsTrue (D.Disk.is_usable files.db) }
        ensures opened { IfOk result (λ office. office.is_closed ≡ false) }
        ensures silent { IfOk result (λ office. office.is_noting ≡ false) }
        ensures found { IfOk result (λ office. HasCleanDisk (file_state office.store)
            → (machine : Machine) → AreFoundAt D.Disk files machine
            → StandsAt machine office.is_closed office.known (file_state office.store)) }
        ensures left { IfOk result (λ office. HasCleanDisk (file_state office.store)
            → (one other : Machine) → LeaveOffice D.Disk files one other
            → StandsAtOne one other office.is_closed office.known (file_state office.store)) }
        ensures new { IfOk result (λ office. HasCleanDisk (file_state office.store) → AreNew D.Disk files
            → StandsAt empty_office office.is_closed office.known (file_state office.store)) }
        ensures clean { IfOk result (λ office. HasCleanDisk (file_state office.store)
            → AreClean D.Disk files.log files.db) }
        ensures unlimited { IfOk result (λ office. office.store.step_limit ≡ None) }
        ensures refused { IfErr result (IsFaultOfOpening D.Disk files) }
    {
        match Office::try_open(alloc, files, options) {
            Ok(office) => Ok(office),
            Err(refused) => Err(refused.fault),
        }
    }

    /// Closes the office, and gives back its files: they hold its state, also after a crash. The
    /// fault is `Memory`, or `Device` if the disk failed or is full, or if a fault shut the
    /// connection before; the files are handed back then too, and a crash leaves no more than
    /// before (this project's own).
    pub fn try_close(self) -> Result<Files<D>, RefusedFiles<D>>
        ensures settled { IfOk result (λ files. AreClean D.Disk files.log files.db → (machine : Machine)
            → StandsAt machine self.is_closed self.known (file_state self.store)
            → AreSettledAt D.Disk files machine) }
        ensures either { IfOk result (λ files. AreClean D.Disk files.log files.db → (before after : Machine)
            → LeavesEither before after (file_state self.store)
            → AreSettledAt D.Disk files before ⊎ AreSettledAt D.Disk files after) }
        ensures clean { IfOk result (λ files. AreClean D.Disk files.log files.db → HasCleanDisk (file_state self.store)) }
        ensures usable { IfOk result (λ files. IsTrue (D.Disk.is_usable files.log) × IsTrue (D.Disk.is_usable files.db)) }
        ensures err { IfErr result (λ refused. AreUnclosed self.store refused.fault refused.files) }
    {
        self.store.try_close()
    }

    /// Closes the office as [`try_close`](Office::try_close) does, but drops files that are not
    /// closed (this project's own).
    pub fn close(self) -> Result<Files<D>, StoreFault>
        ensures settled { IfOk result (λ files. AreClean D.Disk files.log files.db → (machine : Machine)
            → StandsAt machine self.is_closed self.known (file_state self.store)
            → AreSettledAt D.Disk files machine) }
        ensures either { IfOk result (λ files. AreClean D.Disk files.log files.db → (before after : Machine)
            → LeavesEither before after (file_state self.store)
            → AreSettledAt D.Disk files before ⊎ AreSettledAt D.Disk files after) }
        ensures clean { IfOk result (λ files. AreClean D.Disk files.log files.db → HasCleanDisk (file_state self.store)) }
        ensures usable { IfOk result (λ files. IsTrue (D.Disk.is_usable files.log) × IsTrue (D.Disk.is_usable files.db)) }
        ensures err { IfErr result (IsFaultOfClosing self.store) }
    {
        match self.try_close() {
            Ok(files) => Ok(files),
            Err(refused) => Err(refused.fault),
        }
    }

    /// Gives the office up, as after a fault, and hands out its files. A crash leaves of them what
    /// it could leave of the office: its state, or, after a commit in doubt, the state before or
    /// after it (this project's own).
    pub fn surrender(self) -> Files<D>
        ensures left { AreClean D.Disk result.log result.db → LeaveOnly D.Disk result (file_state self.store).may_leave }
        ensures clean { AreClean D.Disk result.log result.db → HasCleanDisk (file_state self.store) }
        ensures stands { AreClean D.Disk result.log result.db → (machine : Machine)
            → StandsAt machine self.is_closed self.known (file_state self.store)
            → LeaveOnly D.Disk result (StandsForTrees machine) }
        ensures either { AreClean D.Disk result.log result.db → (before after : Machine)
            → LeavesOne before after self.is_closed (file_state self.store)
            → LeaveOnly D.Disk result (λ db. StandsForTrees before db ⊎ StandsForTrees after db) }
    {
        self.store.surrender()
    }
}

impl<S: Alter + Drop> CarryOut for Office<S> {
    ghost is_clean = { λ office. HasCleanDisk (state S.Store office.store) };

    ghost stands_at = { λ office machine. StandsAt machine office.is_closed office.known (state S.Store office.store) };

    ghost is_closed = { λ office. office.is_closed ≡ true };

    ghost leaves = { λ office before after fault. LeavesOne before after office.is_closed (state S.Store office.store)
        × HasFailed S.Store before fault office.store };

    ghost cannot_go_on = { λ office. CannotGoOn S.Store office.store };

    fn accepted_count(&self) -> u64 {
        self.known.counts.accepted
    }

    fn closed(&self) -> bool {
        Office::closed(self)
    }

    fn carry_out(&mut self, command: &Command) -> Result<Reply, Refusal> {
        self.apply(command)
    }

    fn ask(&mut self, query: &Query) -> Result<Answer, Refusal> {
        Office::ask(self, query)
    }

    fn holder_of(&mut self, take_number: u64) -> Result<Option<Text>, Refusal> {
        Office::holder_of(self, take_number)
    }

    // Nothing of the office depends on who asks.
    fn asked_by(&mut self, _name: Option<&Text>) {}

    ghost consistent = { λ office machine stands. stands.consistent };
}

impl<S: Alter + Drop> TellChanges for Office<S> {
    ghost told = { λ office. changes_told office.changes };

    fn changes(&self) -> &[ArchChanges] {
        Office::changes(self)
    }
}

impl<S: Alter + Drop> MergeFrom for Office<S> {
    fn merge_from<R: BufRead + Drop>(
        &mut self,
        sources: R,
        parts: Vec<ArchList<R>>,
    ) -> Result<Reply, Refusal> {
        Office::merge_from(self, sources, parts)
    }
}

/// Nothing that is noted yet, if something is to be noted. Takes no memory.
fn no_notes(alloc: Global, is_noting: bool) -> Option<Vec<ArchChanges>>
    ensures value { IfSome result (λ begun. begun.items ≡ []) }
    ensures noting { is_some result ≡ is_noting }
{
    if is_noting {
        return Some(Vec::new(alloc));
    }
    None
}

/// What is answered after a failure, and whether the office is closed then.
fn end<S: Alter + Drop>(store: &mut Store<S>, failure: Failure) -> (Refusal, bool)
    ensures ends { Ends S.Store failure store.old store.new result.0 result.1 }
{
    match failure {
        Failure::Refused(refusal) => {
            let is_closed = refusal.is_of_store();
            (refusal, is_closed)
        }
        Failure::Unread(fault) => end_with(store, fault),
        Failure::Uncommitted(failure) => end_uncommitted(store, failure),
    }
}

/// The same after a transaction that was not committed.
fn end_uncommitted<S: Alter + Drop>(store: &mut Store<S>, failure: CarryError) -> (Refusal, bool)
    ensures ends { Ends S.Store (Uncommitted failure) store.old store.new result.0 result.1 }
{
    match failure {
        CarryError::TakenBack(fault) => end_with(store, fault),
        CarryError::RollBackFailed(fault) => (refusal_for(fault), true),
        CarryError::InDoubt(fault) => (Refusal::Store { fault }, true),
    }
}

/// What is answered after this fault of a call that changed nothing: out of memory, the office goes
/// on if its connection can still be used, and otherwise it is closed.
fn end_with<S: Alter + Drop>(store: &mut Store<S>, fault: StoreFault) -> (Refusal, bool)
    ensures ends { EndsWith S.Store fault store.old store.new result.0 result.1 }
{
    match fault {
        StoreFault::Memory => (Refusal::Memory, !store.is_usable()),
        fault => (Refusal::Store { fault }, true),
    }
}

/// The refusal for a fault of the store.
fn refusal_for(fault: StoreFault) -> Refusal
    ensures value { result ≡ refusal_for fault }
{
    match fault {
        StoreFault::Memory => Refusal::Memory,
        fault => Refusal::Store { fault },
    }
}
