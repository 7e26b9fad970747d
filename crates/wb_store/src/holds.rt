//! The records that builders hold, as the tables have them.
ghost use Rattle.std.specs.Prelude.{map as each};
ghost use Rattle.wb_states.specs.Lookups.{entry_of};
ghost use Rattle.wb_store.specs.Calls.{LooksUp};
ghost use Rattle.wb_store.specs.Lookups.{AreHeld};
ghost use Rattle.wb_store.specs.Queries as ask;

use crate::reading::records;
use crate::store::Store;
use deb_text::Text;
use sqlite::{Alter, params};
use wb_sql::statements;
use wb_states::{KeyedRecord, StoreFault};

impl<S: Alter + Drop> Store<S> {
    // They are found by the index of the take numbers (`statements::held_by`), so a record with a
    // holder and no take number is left out. No consistent office has one (`FitsState`), and an
    // opening tests each row for that.
    /// The records that the builder holds, of all architectures, by take number: none if it was never added.
    pub fn held_by(&mut self, builder: &Text) -> Result<Vec<KeyedRecord>, StoreFault>
        ensures looks_up { LooksUp S.Store (ask.HeldBy builder.now) (λ machine rows.
            AreHeld machine builder.now (each entry_of rows.items))
            self.old self.new result }
    {
        let mut rows = records(
            &mut self.conn,
            statements::held_by(),
            params![builder.as_str()],
        )?;
        rows.sort_by_key(|row| row.current.take.unwrap_or(0))?;
        Ok(rows)
    }
}
