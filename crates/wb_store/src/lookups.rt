//! What is looked up in a transaction of an office: what its store looks up, with what the transaction wrote.
//!
//! The faults of each look-up are those of its query, on the table that it asks, `Memory` if memory runs out for the
//! answer, and `Damaged` with row 0 if a row is not one of an office. The database stays as it is; only a failed query
//! may take a transaction back (this project's own).

// For a caller that reads in its transaction. These calls, and `rows` of `Writing`, are one call of
// the look-up of `Store` with the same name each, under the same clause. No program makes them,
// since a merge goes by `MergeTables`: they are read, and not tried. Of those of `Store` tests run
// all but `all_of`, with the office. Look-ups take the store and no transaction, since a command
// knows all that it changes before it changes anything.

ghost use Rattle.std.specs.Prelude.{◌≡◌, map as each};
ghost use Rattle.std.specs.FinMap as map;
ghost use Rattle.std.specs.Option.{option_map};
ghost use Rattle.wb_states.specs.Holds.{taken_as};
ghost use Rattle.wb_states.specs.Lookups.{counts_of, entry_of, rows_of};
ghost use Rattle.wb_states.specs.Machine.{IsConsistent, archs_of};
ghost use Rattle.wb_states.specs.Queue.{head_of, queue_of};
ghost use Rattle.wb_store.specs.Calls.{LooksUp};
ghost use Rattle.wb_store.specs.Lookups.{AreHeld};
ghost use Rattle.wb_store.specs.Noted.{KeepsMerge};
ghost use Rattle.wb_store.specs.Queries as ask;

use crate::writing::Writing;
use deb_text::Text;
use sqlite::Alter;
use wb_states::{Counts, KeyedRecord, OsCpu, Record, StateCounts, StoreFault};

impl<S: Alter + Drop> Writing<'_, S> {
    /// The words of the architecture, or none if it was never added. It sees what the transaction wrote.
    pub fn arch(&mut self, name: &Text) -> Result<Option<OsCpu>, StoreFault>
        ensures looks_up { LooksUp S.Store (ask.ArchNamed name.now) (λ machine found.
            found ≡ map.get machine.archs name.now) self.old.store.now self.new.store.now result }
        ensures same_reference { self.new.store.ghost_name ≡ self.old.store.ghost_name }
        ensures same_merge { KeepsMerge self.old self.new }
    {
        self.store.arch(name)
    }

    /// The architectures for which the builder was added, by name: none if it was never added. It sees what the
    /// transaction wrote.
    pub fn archs_of(&mut self, builder: &Text) -> Result<Vec<Text>, StoreFault>
        ensures looks_up { LooksUp S.Store (ask.PairsOf builder.now) (λ machine archs.
            IsConsistent machine → archs.items ≡ archs_of machine builder.now)
            self.old.store.now self.new.store.now result }
        ensures same_reference { self.new.store.ghost_name ≡ self.old.store.ghost_name }
        ensures same_merge { KeepsMerge self.old self.new }
    {
        self.store.archs_of(builder)
    }

    /// The two counts of the office: the greatest take number that was given, and how many commands were accepted.
    /// It sees what the transaction wrote.
    pub fn office_row(&mut self) -> Result<Counts, StoreFault>
        ensures looks_up { LooksUp S.Store ask.Office (λ machine counts.
            (counts.handed ≡ machine.handed) × (counts.accepted ≡ machine.accepted))
            self.old.store.now self.new.store.now result }
        ensures same_reference { self.new.store.ghost_name ≡ self.old.store.ghost_name }
        ensures same_merge { KeepsMerge self.old self.new }
    {
        self.store.office_row()
    }

    /// How many records of the architecture are in each state: none in any if it was never added. No record is read,
    /// only the index that has their states. It sees what the transaction wrote.
    pub fn counts(&mut self, arch: &Text) -> Result<StateCounts, StoreFault>
        ensures looks_up { LooksUp S.Store (ask.StatesOf arch.now) (λ machine counts.
            counts ≡ counts_of machine arch.now) self.old.store.now self.new.store.now result }
        ensures same_reference { self.new.store.ghost_name ≡ self.old.store.ghost_name }
        ensures same_merge { KeepsMerge self.old self.new }
    {
        self.store.counts(arch)
    }

    /// The record of the source package on the architecture, or none if it has no record there. It sees what the
    /// transaction wrote.
    pub fn get(&mut self, arch: &Text, source: &Text) -> Result<Option<Record>, StoreFault>
        ensures looks_up { LooksUp S.Store (ask.RecordAt (arch.now, source.now)) (λ machine found.
            found ≡ map.get machine.records (arch.now, source.now))
            self.old.store.now self.new.store.now result }
        ensures same_reference { self.new.store.ghost_name ≡ self.old.store.ghost_name }
        ensures same_merge { KeepsMerge self.old self.new }
    {
        self.store.get(arch, source)
    }

    /// The record that is held under the take number, or none if no record is, as for a number that was never
    /// given. It sees what the transaction wrote.
    pub fn by_take(&mut self, take_number: u64) -> Result<Option<KeyedRecord>, StoreFault>
        ensures looks_up { LooksUp S.Store (ask.TakenAs take_number) (λ machine found.
            IsConsistent machine → option_map entry_of found ≡ taken_as machine take_number)
            self.old.store.now self.new.store.now result }
        ensures same_reference { self.new.store.ghost_name ≡ self.old.store.ghost_name }
        ensures same_merge { KeepsMerge self.old self.new }
    {
        self.store.by_take(take_number)
    }

    /// The records of the architecture, by the names of their source packages: none if it was never added. It sees
    /// what the transaction wrote.
    pub fn all_of(&mut self, arch: &Text) -> Result<Vec<KeyedRecord>, StoreFault>
        ensures looks_up { LooksUp S.Store (ask.RecordsOf arch.now) (λ machine rows.
            each entry_of rows.items ≡ rows_of machine arch.now)
            self.old.store.now self.new.store.now result }
        ensures same_reference { self.new.store.ghost_name ≡ self.old.store.ghost_name }
        ensures same_merge { KeepsMerge self.old self.new }
    {
        self.store.all_of(arch)
    }

    /// The records that the builder holds, of all architectures, by take number: none if it was never added. It
    /// sees what the transaction wrote.
    pub fn held_by(&mut self, builder: &Text) -> Result<Vec<KeyedRecord>, StoreFault>
        ensures looks_up { LooksUp S.Store (ask.HeldBy builder.now) (λ machine rows.
            AreHeld machine builder.now (each entry_of rows.items))
            self.old.store.now self.new.store.now result }
        ensures same_reference { self.new.store.ghost_name ≡ self.old.store.ghost_name }
        ensures same_merge { KeepsMerge self.old self.new }
    {
        self.store.held_by(builder)
    }

    /// The head of the architecture's queue, which is built next, or none if no source package of the architecture
    /// waits for a builder (wanna-build's states page). It sees what the transaction wrote.
    pub fn head(&mut self, arch: &Text) -> Result<Option<KeyedRecord>, StoreFault>
        ensures looks_up { LooksUp S.Store (ask.HeadOf arch.now) (λ machine found.
            IsConsistent machine → option_map entry_of found ≡ head_of machine arch.now)
            self.old.store.now self.new.store.now result }
        ensures same_reference { self.new.store.ghost_name ≡ self.old.store.ghost_name }
        ensures same_merge { KeepsMerge self.old self.new }
    {
        self.store.head(arch)
    }

    /// The architecture's queue: its records that wait for a builder, in the order in which they are built (wanna-
    /// build's states page). It sees what the transaction wrote.
    pub fn queue_of(&mut self, arch: &Text) -> Result<Vec<KeyedRecord>, StoreFault>
        ensures looks_up { LooksUp S.Store (ask.QueueOf arch.now) (λ machine rows.
            IsConsistent machine → each entry_of rows.items ≡ queue_of machine arch.now)
            self.old.store.now self.new.store.now result }
        ensures same_reference { self.new.store.ghost_name ≡ self.old.store.ghost_name }
        ensures same_merge { KeepsMerge self.old self.new }
    {
        self.store.queue_of(arch)
    }
}
