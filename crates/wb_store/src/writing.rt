//! A transaction of the office: its changes and its two ends.
//!
//! Each change speaks of a store that stands for a state of the office, and makes it stand for the
//! state after the change. Its fault is that of its statement, with its table: `Damaged` with row 0
//! also if the transaction is over. After a fault the transaction is rolled back (this project's
//! own).

ghost use Rattle.std.specs.Prelude.{◌≡◌, ◌≤◌, ⊤, false, None, IfErr, IfSome, IsSome, OnErr, OnOk};
ghost use Rattle.std.specs.FinMap as map;
ghost use Rattle.std.specs.FinSet as set;
ghost use Rattle.sqlite.specs.Held.{state};
ghost use Rattle.sqlite.specs.State.{HasCleanDisk, Survives};
ghost use Rattle.wb_sql.specs.Transactions.{IsKeptOrUndone};
ghost use Rattle.wb_states.specs.Limits.{count_limit};
ghost use Rattle.wb_store.specs.Calls.{Changes};
ghost use Rattle.wb_store.specs.Ending.{IsEndedFrom, IsFaultOfCommit, IsFaultOfRollBack};
ghost use Rattle.wb_store.specs.Noted.{KeepsMerge};
ghost use Rattle.wb_store.specs.Settled.{SettlesBy, TakesBack};
ghost use Rattle.wb_store.specs.Writes as write;

use crate::changes::put;
use crate::ending::committed;
use crate::fault::answer_on;
use crate::store::Store;
use deb_text::Text;
use sqlite::{Alter, params};
use wb_rows::{arch_values, builder_values, record_values};
use wb_sql::{delete, insert, statements, update};
use wb_states::{Counts, OsCpu, Record, StoreFault, Table};

// It has no `Drop`, so the compiler refuses a path that ends neither by `commit` nor by
// `roll_back`. A guard that rolls back when it is dropped would have an end that no clause of the
// caller names.
/// A transaction under way. It is ended by [`commit`](Writing::commit) or
/// [`roll_back`](Writing::roll_back), and cannot be let go without one of the two. A failure of the
/// store or of memory ends it too, and takes back what it wrote; after that its changes are refused
/// (this project's own).
pub struct Writing<'store, S: Alter + Drop> {
    pub(crate) store: &'store mut Store<S>,
    /// Whether a savepoint was set and none was dropped since.
    pub(crate) is_saved: bool,
    /// The greatest place at which a merge added a row, or 0.
    pub(crate) last_place: u64,
}

impl<S: Alter + Drop> Writing<'_, S> {
    /// Sets both counts of the office, each at most [`wb_states::COUNT_LIMIT`]; all else stays.
    pub fn set_counts(&mut self, counts: Counts) -> Result<(), StoreFault>
        requires fits { (counts.handed ≤ count_limit) × (counts.accepted ≤ count_limit) }
        ensures same_reference { self.new.store.ghost_name ≡ self.old.store.ghost_name }
        ensures same_merge { KeepsMerge self.old self.new }
        ensures changes { Changes S.Store (write.SetsCounts counts.handed counts.accepted) (λ _. ⊤)
            (λ machine. record machine { handed = counts.handed; accepted = counts.accepted })
            self.old.store.now self.new.store.now result }
    {
        let store = &mut *self.store;
        let answered = update(
            &mut store.conn,
            statements::set_counts(),
            params![counts.handed as i64, counts.accepted as i64],
        );
        answer_on(answered, Table::Office)
    }

    /// Adds an architecture, which is not there yet, with its words; all else stays. A name that is
    /// there is a fault too.
    pub fn add_arch(&mut self, name: &Text, words: &OsCpu) -> Result<(), StoreFault>
        ensures same_reference { self.new.store.ghost_name ≡ self.old.store.ghost_name }
        ensures same_merge { KeepsMerge self.old self.new }
        ensures changes { Changes S.Store (write.AddsArch (name.now, words.now)) (λ machine. map.get machine.archs name.now ≡ None)
            (λ machine. record machine { archs = map.insert machine.archs name.now words.now })
            self.old.store.now self.new.store.now result }
    {
        let store = &mut *self.store;
        let values = arch_values(name, words);
        let answered = insert(&mut store.conn, statements::add_arch(), &values);
        answer_on(answered, Table::Arch)
    }

    /// Adds a builder for an architecture, for which it was not added yet; all else stays. A pair
    /// that is there is a fault too.
    pub fn add_builder(&mut self, builder: &Text, arch: &Text) -> Result<(), StoreFault>
        ensures same_reference { self.new.store.ghost_name ≡ self.old.store.ghost_name }
        ensures same_merge { KeepsMerge self.old self.new }
        ensures changes { Changes S.Store (write.AddsBuilder (builder.now, arch.now))
            (λ machine. set.contains machine.builders (builder.now, arch.now) ≡ false)
            (λ machine. record machine { builders = set.insert machine.builders (builder.now, arch.now) })
            self.old.store.now self.new.store.now result }
    {
        let store = &mut *self.store;
        let values = builder_values(builder, arch);
        let answered = insert(&mut store.conn, statements::add_builder(), &values);
        answer_on(answered, Table::Builder)
    }

    /// Takes out the architecture, if it is there; all else stays. One that has a pair of a builder
    /// or a record is a fault too, so these go before it.
    pub fn remove_arch(&mut self, name: &Text) -> Result<(), StoreFault>
        ensures same_reference { self.new.store.ghost_name ≡ self.old.store.ghost_name }
        ensures same_merge { KeepsMerge self.old self.new }
        ensures changes { Changes S.Store (write.RemovesArch name.now) (λ _. ⊤)
            (λ machine. record machine { archs = map.remove machine.archs name.now })
            self.old.store.now self.new.store.now result }
    {
        let store = &mut *self.store;
        let answered = delete(
            &mut store.conn,
            statements::remove_arch(),
            params![name.as_str()],
        );
        answer_on(answered, Table::Arch)
    }

    /// Takes the builder from the architecture, if it was added for it; all else stays.
    pub fn remove_builder(&mut self, builder: &Text, arch: &Text) -> Result<(), StoreFault>
        ensures same_reference { self.new.store.ghost_name ≡ self.old.store.ghost_name }
        ensures same_merge { KeepsMerge self.old self.new }
        ensures changes { Changes S.Store (write.RemovesBuilder (builder.now, arch.now)) (λ _. ⊤)
            (λ machine. record machine { builders = set.remove machine.builders (builder.now, arch.now) })
            self.old.store.now self.new.store.now result }
    {
        let store = &mut *self.store;
        let answered = delete(
            &mut store.conn,
            statements::remove_builder(),
            params![builder.as_str(), arch.as_str()],
        );
        answer_on(answered, Table::Builder)
    }

    /// Takes out the record of the source package `source` on the architecture `arch`, if there is
    /// one; all else stays.
    pub fn remove(&mut self, arch: &Text, source: &Text) -> Result<(), StoreFault>
        ensures same_reference { self.new.store.ghost_name ≡ self.old.store.ghost_name }
        ensures same_merge { KeepsMerge self.old self.new }
        ensures changes { Changes S.Store (write.RemovesRecord (arch.now, source.now)) (λ _. ⊤)
            (λ machine. record machine { records = map.remove machine.records (arch.now, source.now) })
            self.old.store.now self.new.store.now result }
    {
        let store = &mut *self.store;
        let answered = delete(
            &mut store.conn,
            statements::remove_record(),
            params![arch.as_str(), source.as_str()],
        );
        answer_on(answered, Table::SourceRecord)
    }

    /// Gives the source package `source` on the architecture `arch` the record `current`, in place
    /// of the one that it had, if any; all else stays. The take number, if there is one, is at most
    /// [`wb_states::COUNT_LIMIT`]. An architecture that is not there is a fault too.
    pub fn put(&mut self, arch: &Text, source: &Text, current: &Record) -> Result<(), StoreFault>
        requires given { IfSome current.now.take (λ take_number. take_number ≤ count_limit) }
        ensures same_reference { self.new.store.ghost_name ≡ self.old.store.ghost_name }
        ensures same_merge { KeepsMerge self.old self.new }
        ensures changes { Changes S.Store (write.PutsRecord ((arch.now, source.now), current.now)) (λ _. ⊤)
            (λ machine. record machine {
              records = map.insert machine.records (arch.now, source.now) current.now;
            })
            self.old.store.now self.new.store.now result }
    {
        let store = &mut *self.store;
        put(&mut store.conn, arch, source, current)
    }

    /// Gives the source package `source` on the architecture `arch` the record `current` in place
    /// of the one that it has; all else stays. It is quicker than [`put`](Writing::put). The take
    /// number, if there is one, is at most [`wb_states::COUNT_LIMIT`]. If there is no such record,
    /// nothing is promised.
    pub fn replace(
        &mut self,
        arch: &Text,
        source: &Text,
        current: &Record,
    ) -> Result<(), StoreFault>
        requires given { IfSome current.now.take (λ take_number. take_number ≤ count_limit) }
        ensures same_reference { self.new.store.ghost_name ≡ self.old.store.ghost_name }
        ensures same_merge { KeepsMerge self.old self.new }
        ensures changes { Changes S.Store (write.ReplacesRecord ((arch.now, source.now), current.now))
            (λ machine. IsSome (map.get machine.records (arch.now, source.now)))
            (λ machine. record machine {
              records = map.insert machine.records (arch.now, source.now) current.now;
            })
            self.old.store.now self.new.store.now result }
    {
        let store = &mut *self.store;
        let values = record_values(arch, source, current);
        let answered = update(&mut store.conn, statements::replace_record(), &values);
        answer_on(answered, Table::SourceRecord)
    }

    /// Ends the transaction, and makes its state permanent. The fault is `Memory` if memory ran out
    /// before anything was committed: a crash then leaves the state from which the transaction
    /// began, and [`Store::roll_back`] takes back what may still be under way. It is `Device`, or
    /// `Damaged` with row 0 of the table of the office, if the store failed or the transaction was
    /// over: a crash then leaves either state, whole (this project's own).
    pub fn commit(self) -> Result<(), StoreFault>
        ensures settles { SettlesBy S.Store self.entry.store.now self.exit.0.now result }
        ensures err { HasCleanDisk (state S.Store self.exit.0.now)
            → OnErr result (IsKeptOrUndone (state S.Store self.entry.store.now) (state S.Store self.exit.0.now)) }
        ensures cause { HasCleanDisk (state S.Store self.exit.0.now)
            → IfErr result (IsFaultOfCommit S.Store self.entry.store.now) }
        ensures survives { Survives (state S.Store self.entry.store.now) (state S.Store self.exit.0.now)
            (λ db. db ≡ (state S.Store self.entry.store.now).now.trees) }
    {
        let Writing {
            store,
            is_saved: _,
            last_place: _,
        } = self;
        let answered = wb_sql::commit(&mut store.conn);
        committed(answered)
    }

    /// Ends the transaction, and takes back what it wrote, so that the state from which it began
    /// stands again; a transaction that was taken back before is over, and this is no fault. The
    /// faults are `Memory`, `Device`, and `Damaged` with row 0 of the table of the office, if the
    /// store failed; a crash then leaves the state from which the transaction began (this project's
    /// own).
    pub fn roll_back(self) -> Result<(), StoreFault>
        ensures taken_back { TakesBack S.Store self.entry.store.now self.exit.0.now }
        ensures ok { HasCleanDisk (state S.Store self.exit.0.now)
            → OnOk result (IsEndedFrom (state S.Store self.entry.store.now) (state S.Store self.exit.0.now)) }
        ensures cause { HasCleanDisk (state S.Store self.exit.0.now)
            → IfErr result (IsFaultOfRollBack (state S.Store self.entry.store.now) (state S.Store self.exit.0.now)) }
        ensures survives { Survives (state S.Store self.entry.store.now) (state S.Store self.exit.0.now) (λ _. ⊥) }
    {
        let Writing {
            store,
            is_saved: _,
            last_place: _,
        } = self;
        store.roll_back()
    }
}
