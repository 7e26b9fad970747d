//! The counts and the records of the office, as the tables have them.
ghost use Rattle.std.specs.Prelude.{◌≡◌, map as each};
ghost use Rattle.std.specs.Option.{option_map};
ghost use Rattle.std.specs.FinMap as map;
ghost use Rattle.wb_states.specs.Machine.{IsConsistent};
ghost use Rattle.wb_states.specs.Holds.{taken_as};
ghost use Rattle.wb_states.specs.Lookups.{entry_of, rows_in, rows_of};
ghost use Rattle.wb_merge.specs.Merged.{recorded_names};
ghost use Rattle.wb_store.specs.Calls.{LooksUp};
ghost use Rattle.wb_store.specs.Queries as ask;

use crate::reading::{counts_in, current_in, first_in, names_in, records, rows_of, stored_number};
use crate::store::Store;
use deb_text::Text;
use sqlite::{Alter, params};
use wb_sql::statements;
use wb_states::{Counts, KeyedRecord, Record, State, StoreFault, Table};

impl<S: Alter + Drop> Store<S> {
    /// The two counts of the office: the greatest take number that was given, and how many commands
    /// were accepted.
    pub fn office_row(&mut self) -> Result<Counts, StoreFault>
        ensures looks_up { LooksUp S.Store ask.Office (λ machine counts.
            (counts.handed ≡ machine.handed) × (counts.accepted ≡ machine.accepted))
            self.old self.new result }
    {
        let rows = rows_of(
            &mut self.conn,
            Table::Office,
            statements::office_counts(),
            &[],
        )?;
        counts_in(&rows)
    }

    /// The record of the source package on the architecture, or none if it has no record there.
    pub fn get(&mut self, arch: &Text, source: &Text) -> Result<Option<Record>, StoreFault>
        ensures looks_up { LooksUp S.Store (ask.RecordAt (arch.now, source.now)) (λ machine found.
            found ≡ map.get machine.records (arch.now, source.now)) self.old self.new result }
    {
        let rows = records(
            &mut self.conn,
            statements::record(),
            params![arch.as_str(), source.as_str()],
        )?;
        Ok(current_in(rows))
    }

    /// The record that is held under the take number, or none if no record is, as for a number that
    /// was never given.
    pub fn by_take(&mut self, take_number: u64) -> Result<Option<KeyedRecord>, StoreFault>
        ensures looks_up { LooksUp S.Store (ask.TakenAs take_number) (λ machine found.
            IsConsistent machine → option_map entry_of found ≡ taken_as machine take_number)
            self.old self.new result }
    {
        let rows = records(
            &mut self.conn,
            statements::record_of_take(),
            params![stored_number(take_number)],
        )?;
        Ok(first_in(rows))
    }

    /// The records of the architecture, by the names of their source packages: none if it was never
    /// added.
    pub fn all_of(&mut self, arch: &Text) -> Result<Vec<KeyedRecord>, StoreFault>
        ensures looks_up { LooksUp S.Store (ask.RecordsOf arch.now) (λ machine rows.
            each entry_of rows.items ≡ rows_of machine arch.now) self.old self.new result }
    {
        records(
            &mut self.conn,
            statements::records_of_arch(),
            params![arch.as_str()],
        )
    }

    /// The source packages of the architecture that have a record, by name: none if it was never
    /// added. No record is read, only the index of their keys.
    pub fn recorded_names(&mut self, arch: &Text) -> Result<Vec<Text>, StoreFault>
        ensures looks_up { LooksUp S.Store (ask.NamesOf arch.now) (λ machine names.
            names.items ≡ recorded_names machine.records arch.now) self.old self.new result }
    {
        let rows = rows_of(
            &mut self.conn,
            Table::SourceRecord,
            statements::names_of_arch(),
            params![arch.as_str()],
        )?;
        names_in(Table::SourceRecord, rows)
    }

    /// The records of the architecture that are in the state, by the names of their source
    /// packages: none if it was never added.
    pub fn in_state(&mut self, arch: &Text, state: State) -> Result<Vec<KeyedRecord>, StoreFault>
        ensures looks_up { LooksUp S.Store (ask.InState arch.now state) (λ machine rows.
            each entry_of rows.items ≡ rows_in machine arch.now state) self.old self.new result }
    {
        let code = u32::from(state.code());
        records(
            &mut self.conn,
            statements::records_in_state(),
            params![arch.as_str(), code],
        )
    }
}
