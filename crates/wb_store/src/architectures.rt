//! The architectures of the office, as the tables have them.
ghost use Rattle.std.specs.Prelude.{◌≡◌, IfOk, IfErr};
ghost use Rattle.std.specs.FinMap as map;
ghost use Rattle.std.specs.Option.{option_map};
ghost use Rattle.deb_text.specs.Lists.{first_of};
ghost use Rattle.wb_states.specs.declared.store_fault.Table.TheVariants.{Arch};
ghost use Rattle.wb_store.specs.Calls.{LooksUp};
ghost use Rattle.wb_store.specs.Faults.{IsUnfit};
ghost use Rattle.wb_store.specs.Lookups.{AreArchs, FirstWords};
ghost use Rattle.wb_store.specs.Queries as ask;

use crate::reading::{archs_in, rows_of};
use crate::store::Store;
use deb_text::Text;
use sqlite::{Alter, Row, params};
use wb_sql::statements;
use wb_states::{OsCpu, StoreFault, Table};

impl<S: Alter + Drop> Store<S> {
    /// The architectures of the office with their words, by name.
    pub fn archs(&mut self) -> Result<Vec<(Text, OsCpu)>, StoreFault>
        ensures looks_up { LooksUp S.Store ask.Archs (λ machine archs.
            archs.items ≡ map.entries machine.archs) self.old self.new result }
    {
        let rows = rows_of(&mut self.conn, Table::Arch, statements::all_archs(), &[])?;
        archs_in(rows)
    }

    /// The words of the architecture, or none if it was never added.
    pub fn arch(&mut self, name: &Text) -> Result<Option<OsCpu>, StoreFault>
        ensures looks_up { LooksUp S.Store (ask.ArchNamed name.now) (λ machine found.
            found ≡ map.get machine.archs name.now) self.old self.new result }
    {
        let rows = rows_of(
            &mut self.conn,
            Table::Arch,
            statements::arch_words(),
            params![name.as_str()],
        )?;
        words_in(rows)
    }
}

/// The words of the first of the architectures in these rows. The table is damaged if a row is no architecture.
fn words_in(rows: Vec<Row>) -> Result<Option<OsCpu>, StoreFault>
    ensures value { IfOk result (λ found. FirstWords rows.items found) }
    ensures err { IfErr result (IsUnfit Arch (AreArchs rows.items)) }
{
    let archs = archs_in(rows)?;
    Ok(first_words(archs))
}

/// The words of the first of these architectures.
fn first_words(archs: Vec<(Text, OsCpu)>) -> Option<OsCpu>
    ensures { result ≡ option_map (λ arch. arch.1) (first_of archs.items) }
{
    let (_, words) = archs.into_iter().next()?;
    Some(words)
}
