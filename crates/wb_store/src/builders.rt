//! The builders of the office, as the tables have them.
ghost use Rattle.std.specs.Prelude.{◌≡◌, IfOk, IfErr, map as each};
ghost use Rattle.std.specs.FinSet as set;
ghost use Rattle.wb_rows.specs.Cells.{builder_cells};
ghost use Rattle.wb_states.specs.declared.store_fault.Table.TheVariants.{Builder};
ghost use Rattle.wb_states.specs.Machine.{IsConsistent, archs_of, builder_pairs};
ghost use Rattle.wb_store.specs.Calls.{LooksUp};
ghost use Rattle.wb_store.specs.Faults.{IsUnfit};
ghost use Rattle.wb_store.specs.Lookups.{ArePairs, HasPair, HaveArchs};
ghost use Rattle.wb_store.specs.Queries as ask;

use crate::fault::unfit;
use crate::reading::rows_of;
use crate::store::Store;
use deb_text::Text;
use sqlite::{Alter, Row, params};
use wb_rows::builder_of;
use wb_sql::statements;
use wb_states::{StoreFault, Table};

impl<S: Alter + Drop> Store<S> {
    /// Each builder of the office with each architecture for which it was added, by builder and
    /// then by architecture.
    pub fn builders(&mut self) -> Result<Vec<(Text, Text)>, StoreFault>
        ensures looks_up { LooksUp S.Store ask.Builders (λ machine pairs.
            pairs.items ≡ builder_pairs machine) self.old self.new result }
    {
        let listed = rows_of(
            &mut self.conn,
            Table::Builder,
            statements::all_builders(),
            &[],
        )?;
        pairs_in(listed)
    }

    /// Whether the builder was added for the architecture.
    pub fn has_builder(&mut self, builder: &Text, arch: &Text) -> Result<bool, StoreFault>
        ensures looks_up { LooksUp S.Store (ask.Pair (builder.now, arch.now)) (λ machine is_there.
            is_there ≡ set.contains machine.builders (builder.now, arch.now))
            self.old self.new result }
    {
        let pairs = rows_of(
            &mut self.conn,
            Table::Builder,
            statements::builder_pair(),
            params![builder.as_str(), arch.as_str()],
        )?;
        Ok(!pairs.is_empty())
    }

    /// The architectures for which the builder was added, by name: none if it was never added.
    pub fn archs_of(&mut self, builder: &Text) -> Result<Vec<Text>, StoreFault>
        ensures looks_up { LooksUp S.Store (ask.PairsOf builder.now) (λ machine archs.
            IsConsistent machine → archs.items ≡ archs_of machine builder.now)
            self.old self.new result }
    {
        let rows = rows_of(
            &mut self.conn,
            Table::Builder,
            statements::builder_pairs(),
            params![builder.as_str()],
        )?;
        arch_names_in(rows)
    }
}

/// The builders and the architectures in these rows. The table is damaged if a row is no builder.
fn pairs_in(rows: Vec<Row>) -> Result<Vec<(Text, Text)>, StoreFault>
    ensures value { IfOk result (λ made. rows.items ≡ each builder_cells made.items) }
    ensures err { IfErr result (IsUnfit Builder (ArePairs rows.items)) }
{
    let mut made = Vec::new(*rows.allocator());
    for row in rows {
        made.push(pair_in(&row)?)?;
    }
    Ok(made)
}

/// The architectures in these rows of builders. The table is damaged if a row is no builder.
fn arch_names_in(rows: Vec<Row>) -> Result<Vec<Text>, StoreFault>
    ensures value { IfOk result (λ made. HaveArchs rows.items made.items) }
    ensures err { IfErr result (IsUnfit Builder (ArePairs rows.items)) }
{
    let mut made = Vec::new(*rows.allocator());
    for row in rows {
        let (_, arch) = pair_in(&row)?;
        made.push(arch)?;
    }
    Ok(made)
}

/// The builder and the architecture in a row. The table is damaged if the row is no builder.
fn pair_in(row: &Row) -> Result<(Text, Text), StoreFault>
    ensures value { IfOk result (λ made. row.now ≡ builder_cells made) }
    ensures err { IfErr result (IsUnfit Builder (HasPair row.now)) }
{
    builder_of(row)?.ok_or(unfit(Table::Builder))
}
