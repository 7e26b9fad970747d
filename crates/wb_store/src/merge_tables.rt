//! The tables of an office in a transaction, as those in which a merge runs: the rows of a merge,
//! and its savepoint.
//!
//! What stands in them is the state of the office with the rows of the merge, and, once the merge
//! set its savepoint, what stood in them then. Each call is one statement of the transaction, or
//! several that clear rows. A call on the rows of the lists or on the savepoint says by clauses of
//! its own what its statements do; those of the trait follow from them. Its fault is that of its
//! statement, with its table, and for the savepoint that of the office: `Damaged` with row 0 also
//! if the transaction is over; or `Memory`; or `Damaged` with row 0 of the records for a record
//! that was looked up, if its take number is above the limit. After a fault the caller takes the
//! transaction back (this project's own).
ghost use Rattle.std.specs.Prelude.{◌≡◌, ◌↔◌, ◌<◌, ◌^◌, false, true, IfErr, IfOk, IfSome, IsOk};
ghost use Rattle.std.specs.Prelude.{IsTrue, map as each};
ghost use Rattle.sqlite.specs.Held.{state};
ghost use Rattle.sqlite.specs.State.{HasCleanDisk};
ghost use Rattle.wb_sql.specs.Savepoints.{IsAny, IsSaved, GoesBack, Releases, Saves, back_text};
ghost use Rattle.wb_sql.specs.Savepoints.{release_text, save_text};
ghost use Rattle.wb_states.specs.declared.store_fault.Table.TheVariants.{ScratchBinary};
ghost use Rattle.wb_states.specs.declared.store_fault.Table.TheVariants.{SourceRecord};
ghost use Rattle.wb_archive.specs.Tables.{HasFittingTake};
ghost use Rattle.wb_store.specs.Faults.{unfit};
ghost use Rattle.wb_store.specs.MergeRuns.{FailsIn, HoldsTables, RunsOn};
ghost use Rattle.wb_store.specs.Merging as merge;
ghost use Rattle.wb_store.specs.Merging.{no_merge, without_binaries};
ghost use Rattle.wb_store.specs.Noted.{KeepsMerge, NotesPlace, NotesSavepoint};
ghost use Rattle.wb_store.specs.Queries as ask;
ghost use Rattle.wb_store.specs.Savepoints.{CallsPart};
ghost use Rattle.wb_store.specs.ScratchLookups.{LooksUpScratch};
ghost use Rattle.wb_store.specs.ScratchWrites as write;
ghost use Rattle.wb_store.specs.ScratchWrites.{ChangesScratch, ClearsScratch};
ghost use Rattle.std.proofs.Common.{refl, ◌∙◌};
ghost use Rattle.wb_store.specs.MergeLaws.{clean_before, fails_then, runs_itself, runs_then};

use crate::changes::{has_fitting_take, put};
use crate::fault::{answer_on, unfit};
use crate::merging::{clear_binaries, clear_sources};
use crate::packages::{binaries_in, distinct_names_in, sources_in, versions_in};
use crate::reading::rows_of;
use crate::writing::Writing;
use deb_text::Text;
use deb_version::Version;
use sqlite::{Alter, params};
use wb_archive::MergeTables;
use wb_rows::{binary_values, source_values};
use wb_sql::{insert, scratch};
use wb_states::{BinaryRow, KeyedRecord, Record, SourceRow, State, StoreFault, Table};

/// The greatest place that a row of a merge can have.
const GREATEST_PLACE: u64 = i64::MAX as u64;

/// The place, if a row can have it, or else the greatest that one can have.
fn within(place: u64) -> u64
    ensures fits { result < 2 ^ 63 }
{
    if place > GREATEST_PLACE {
        GREATEST_PLACE
    } else {
        place
    }
}

/// Whether the take number of the record that was looked up, if there are both, is at most the
/// limit.
fn fits(found: &Option<Record>) -> bool
    ensures value { IsTrue result ↔ IfSome found.now HasFittingTake }
{
    match found {
        Some(current) => has_fitting_take(current),
        None => true,
    }
}

/// The record that was looked up, if there is one, if its take number is at most the limit. The
/// fault is `Damaged` with row 0 of the records if it is not.
fn fitting(found: Option<Record>) -> Result<Option<Record>, StoreFault>
    ensures value { IfOk result (λ answered. (answered ≡ found) × IfSome answered HasFittingTake) }
    ensures fault { IfErr result (λ fault. (fault ≡ unfit SourceRecord) × ¬ IfSome found HasFittingTake) }
{
    if fits(&found) {
        Ok(found)
    } else {
        Err(unfit(Table::SourceRecord))
    }
}

// The prover follows a `&mut` only if it is a field of the struct that a function returns. A struct
// of a merge's own around a `&mut Writing` would be a second, of which nothing could be said after
// the call. So `Writing` itself is the tables of a merge, with two fields that other commands do
// not use.
//
// A merge needs only that each name comes once, and adds each row after all others: so the clauses
// of the trait say no more. Here the calls on rows and on the savepoint have clauses of their own,
// from which those of the trait follow: the names come in their order, a row may have any place
// that is free, and a fault is that of the statement that failed, with its table.
impl<S: Alter + Drop> MergeTables for Writing<'_, S> {
    type Fault = StoreFault;

    ghost is_clean = { λ it. HasCleanDisk (state S.Store it.store.now) };

    ghost holds = { λ it tables. HoldsTables it.is_saved tables (state S.Store it.store.now) };

    ghost follows = { λ old new. (new.store.ghost_name ≡ old.store.ghost_name)
        × RunsOn S.Store old.is_saved old.store.now new.is_saved new.store.now };

    ghost fails = { λ old new fault. (new.store.ghost_name ≡ old.store.ghost_name)
        × FailsIn S.Store old.is_saved old.store.now new.store.now fault };

    ghost follows_itself = { λ it. (refl, runs_itself _ it.is_saved it.store.now) };

    ghost follows_on = { λ first second third one two. (
      two.0 ∙ one.0,
      runs_then _ first.is_saved second.is_saved third.is_saved
          first.store.now second.store.now third.store.now one.1 two.1,
    ) };

    ghost fails_on = { λ first second third fault one two. (
      two.0 ∙ one.0,
      fails_then _ first.is_saved second.is_saved
          first.store.now second.store.now third.store.now fault one.1 two.1,
    ) };

    ghost clean = { λ first second one. clean_before _ first.is_saved second.is_saved first.store.now second.store.now one.1 };

    fn record(&mut self, arch: &Text, source: &Text) -> Result<Option<Record>, StoreFault> {
        let found = self.store.get(arch, source)?;
        fitting(found)
    }

    fn recorded_names(&mut self, arch: &Text) -> Result<Vec<Text>, StoreFault> {
        self.store.recorded_names(arch)
    }

    fn waiting(&mut self, arch: &Text) -> Result<Vec<KeyedRecord>, StoreFault> {
        self.store.in_state(arch, State::DepWait)
    }

    /// The names of the source packages of a merge, each once, by name. The faults are those of the
    /// query, on its table, `Memory` if memory runs out for the answer, and `Damaged` with row 0 if
    /// a row is not one of a merge; only a failed query may take the transaction back (this
    /// project's own).
    fn listed_names(&mut self) -> Result<Vec<Text>, StoreFault>
        ensures same_reference { self.new.store.ghost_name ≡ self.old.store.ghost_name }
        ensures same_merge { KeepsMerge self.old self.new }
        ensures looks_up { LooksUpScratch S.Store ask.SourceNames
            (λ kept found. merge.ListsNames kept.sources found.items)
            self.old.store.now self.new.store.now result }
    {
        let store = &mut *self.store;
        let rows = rows_of(
            &mut store.conn,
            Table::ScratchSource,
            scratch::source_names(),
            &[],
        )?;
        distinct_names_in(rows)
    }

    /// The source packages of a merge that have this name, by their place in the list. The faults
    /// are those of [`listed_names`](Writing::listed_names).
    fn sources_named(&mut self, name: &Text) -> Result<Vec<SourceRow>, StoreFault>
        ensures same_reference { self.new.store.ghost_name ≡ self.old.store.ghost_name }
        ensures same_merge { KeepsMerge self.old self.new }
        ensures looks_up { LooksUpScratch S.Store (ask.SourcesNamed name.now)
            (λ kept found. found.items ≡ merge.sources_named name.now kept)
            self.old.store.now self.new.store.now result }
    {
        let store = &mut *self.store;
        let rows = rows_of(
            &mut store.conn,
            Table::ScratchSource,
            scratch::sources_named(),
            params![name.as_str()],
        )?;
        sources_in(rows)
    }

    /// The binary packages of a merge that were built from this source package, by their place in
    /// the list. The faults are those of [`listed_names`](Writing::listed_names), on the table of
    /// the binary packages.
    fn binaries_of(&mut self, source: &Text) -> Result<Vec<BinaryRow>, StoreFault>
        ensures same_reference { self.new.store.ghost_name ≡ self.old.store.ghost_name }
        ensures same_merge { KeepsMerge self.old self.new }
        ensures looks_up { LooksUpScratch S.Store (ask.BinariesOf source.now)
            (λ kept found. found.items ≡ merge.binaries_of source.now kept)
            self.old.store.now self.new.store.now result }
    {
        let store = &mut *self.store;
        let rows = rows_of(
            &mut store.conn,
            Table::ScratchBinary,
            scratch::binaries_of_source(),
            params![source.as_str()],
        )?;
        binaries_in(rows)
    }

    /// The versions in which a merge has this name, as that of a package or as one that a package
    /// provides, by the place of the rows; none where it is provided without one. The faults are
    /// those of [`binaries_of`](Writing::binaries_of).
    fn versions_named(&mut self, name: &Text) -> Result<Vec<Option<Version>>, StoreFault>
        ensures same_reference { self.new.store.ghost_name ≡ self.old.store.ghost_name }
        ensures same_merge { KeepsMerge self.old self.new }
        ensures looks_up { LooksUpScratch S.Store (ask.BinariesNamed name.now)
            (λ kept found. found.items ≡ each (λ row. row.version) (merge.binaries_named name.now kept))
            self.old.store.now self.new.store.now result }
    {
        let store = &mut *self.store;
        let rows = rows_of(
            &mut store.conn,
            Table::ScratchBinary,
            scratch::binaries_named(),
            params![name.as_str()],
        )?;
        versions_in(rows)
    }

    /// Adds a source package of a merge, whose place is below 2^63 and has none yet; all else
    /// stays. A place that has one is a fault too.
    fn add_source(&mut self, row: &SourceRow) -> Result<(), StoreFault>
        requires fits { row.now.seq < 2 ^ 63 }
        ensures same_reference { self.new.store.ghost_name ≡ self.old.store.ghost_name }
        ensures kept { NotesPlace row.now.seq self.old self.new result }
        ensures changes { ChangesScratch S.Store (write.AddsSource row.now)
            self.old.store.now self.new.store.now result }
    {
        let store = &mut *self.store;
        let answered = insert(&mut store.conn, scratch::add_source(), &source_values(row));
        answer_on(answered, Table::ScratchSource)?;
        self.last_place = self.last_place.max(row.seq);
        Ok(())
    }

    /// Adds a binary package of a merge, whose place is below 2^63 and has none yet; all else
    /// stays. A place that has one is a fault too.
    fn add_binary(&mut self, row: &BinaryRow) -> Result<(), StoreFault>
        requires fits { row.now.seq < 2 ^ 63 }
        ensures same_reference { self.new.store.ghost_name ≡ self.old.store.ghost_name }
        ensures kept { NotesPlace row.now.seq self.old self.new result }
        ensures changes { ChangesScratch S.Store (write.AddsBinary row.now)
            self.old.store.now self.new.store.now result }
    {
        let store = &mut *self.store;
        let answered = insert(&mut store.conn, scratch::add_binary(), &binary_values(row));
        answer_on(answered, Table::ScratchBinary)?;
        self.last_place = self.last_place.max(row.seq);
        Ok(())
    }

    fn put(&mut self, arch: &Text, source: &Text, current: &Record) -> Result<(), StoreFault> {
        let store = &mut *self.store;
        put(&mut store.conn, arch, source, current)
    }

    fn remove(&mut self, arch: &Text, source: &Text) -> Result<(), StoreFault> {
        Writing::remove(self, arch, source)
    }

    // `save`, `back_to` and `release` have no premise on what was called before: a merge whose disk
    // is not clean could not show it. SQL would set a second savepoint of the name, or answer that
    // there is none. So the calls note whether it is set, and run a statement only if it is needed.
    /// Makes a savepoint, to which [`back_to`](Writing::back_to) goes back, and notes that it is
    /// set; nothing is written. One that is set stays where it is.
    fn save(&mut self) -> Result<(), StoreFault>
        ensures same_reference { self.new.store.ghost_name ≡ self.old.store.ghost_name }
        ensures kept { NotesSavepoint true self.old self.new result }
        ensures calls { self.old.is_saved ≡ false
            → CallsPart S.Store save_text IsAny Saves self.old.store.now self.new.store.now result }
        ensures stays { self.old.is_saved ≡ true
            → IsOk result × (self.new.store.now ≡ self.old.store.now) }
    {
        if self.is_saved {
            return Ok(());
        }
        let store = &mut *self.store;
        let answered = wb_sql::save(&mut store.conn);
        answer_on(answered, Table::Office)?;
        self.is_saved = true;
        Ok(())
    }

    /// Takes back what was written since the savepoint, rows of tables of others too, and keeps the
    /// savepoint. Without one there is nothing to go back to.
    fn back_to(&mut self) -> Result<(), StoreFault>
        ensures same_reference { self.new.store.ghost_name ≡ self.old.store.ghost_name }
        ensures same_merge { KeepsMerge self.old self.new }
        ensures calls { self.old.is_saved ≡ true
            → CallsPart S.Store back_text IsAny GoesBack self.old.store.now self.new.store.now result }
        ensures stays { self.old.is_saved ≡ false
            → IsOk result × (self.new.store.now ≡ self.old.store.now) }
    {
        if !self.is_saved {
            return Ok(());
        }
        let store = &mut *self.store;
        let answered = wb_sql::back_to(&mut store.conn);
        answer_on(answered, Table::Office)
    }

    /// Drops the savepoint, notes that it is dropped, and keeps what was written since. Without one
    /// there is none to drop.
    fn release(&mut self) -> Result<(), StoreFault>
        ensures same_reference { self.new.store.ghost_name ≡ self.old.store.ghost_name }
        ensures kept { NotesSavepoint false self.old self.new result }
        ensures calls { self.old.is_saved ≡ true
            → CallsPart S.Store release_text IsSaved Releases self.old.store.now self.new.store.now result }
        ensures stays { self.old.is_saved ≡ false
            → IsOk result × (self.new.store.now ≡ self.old.store.now) }
    {
        if !self.is_saved {
            return Ok(());
        }
        let store = &mut *self.store;
        let answered = wb_sql::release(&mut store.conn);
        answer_on(answered, Table::Office)?;
        self.is_saved = false;
        Ok(())
    }

    /// Removes all binary packages of a merge; all else stays. The fault is that of the statement
    /// that failed, on their table.
    fn clear_binaries(&mut self) -> Result<(), StoreFault>
        ensures same_reference { self.new.store.ghost_name ≡ self.old.store.ghost_name }
        ensures same_merge { KeepsMerge self.old self.new }
        ensures clears { ClearsScratch S.Store ScratchBinary without_binaries
            self.old.store.now self.new.store.now result }
    {
        let last = within(self.last_place);
        let store = &mut *self.store;
        clear_binaries(&mut store.conn, last)
    }

    /// Removes all binary packages and then all source packages of a merge; all else stays. The
    /// fault is that of the statement that failed, on its table.
    fn clear_scratch(&mut self) -> Result<(), StoreFault>
        ensures same_reference { self.new.store.ghost_name ≡ self.old.store.ghost_name }
        ensures same_merge { KeepsMerge self.old self.new }
        ensures clears { ClearsScratch S.Store ScratchBinary (λ _. no_merge)
            self.old.store.now self.new.store.now result }
    {
        let last = within(self.last_place);
        let store = &mut *self.store;
        clear_binaries(&mut store.conn, last)?;
        clear_sources(&mut store.conn, last)
    }
}
