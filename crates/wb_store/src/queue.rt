//! The queue of an architecture, as the tables have it.
ghost use Rattle.std.specs.Prelude.{◌≡◌, map as each};
ghost use Rattle.std.specs.Option.{option_map};
ghost use Rattle.wb_states.specs.Machine.{IsConsistent};
ghost use Rattle.wb_states.specs.Queue.{head_of, queue_of};
ghost use Rattle.wb_states.specs.Lookups.{entry_of};
ghost use Rattle.wb_store.specs.Calls.{LooksUp};
ghost use Rattle.wb_store.specs.Queries as ask;

use crate::reading::{first_in, records};
use crate::store::Store;
use deb_text::Text;
use sqlite::{Alter, params};
use wb_sql::statements;
use wb_states::{KeyedRecord, State, StoreFault};

impl<S: Alter + Drop> Store<S> {
    /// The head of the architecture's queue, which is built next, or none if no source package of the architecture
    /// waits for a builder (wanna-build's states page).
    pub fn head(&mut self, arch: &Text) -> Result<Option<KeyedRecord>, StoreFault>
        ensures looks_up { LooksUp S.Store (ask.HeadOf arch.now) (λ machine found.
            IsConsistent machine → option_map entry_of found ≡ head_of machine arch.now)
            self.old self.new result }
    {
        let waiting = u32::from(State::NeedsBuild.code());
        let rows = records(
            &mut self.conn,
            statements::head(),
            params![arch.as_str(), waiting],
        )?;
        Ok(first_in(rows))
    }

    /// The architecture's queue: its records that wait for a builder, in the order in which they are built (wanna-
    /// build's states page).
    pub fn queue_of(&mut self, arch: &Text) -> Result<Vec<KeyedRecord>, StoreFault>
        ensures looks_up { LooksUp S.Store (ask.QueueOf arch.now) (λ machine rows.
            IsConsistent machine → each entry_of rows.items ≡ queue_of machine arch.now)
            self.old self.new result }
    {
        let waiting = u32::from(State::NeedsBuild.code());
        records(
            &mut self.conn,
            statements::queue(),
            params![arch.as_str(), waiting],
        )
    }
}
