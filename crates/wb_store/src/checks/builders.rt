//! What an opening tests of the builders.
ghost use Rattle.std.specs.Prelude.{◌≡◌, ◌↔◌, IfOk, IfErr, IsTrue};
ghost use Rattle.std.specs.FinMap as map;
ghost use Rattle.wb_states.specs.declared.store_fault.Table.TheVariants.{Builder};
ghost use Rattle.wb_rows.specs.Cells.{builder_cells};
ghost use Rattle.wb_states.specs.Machine.{builder_pairs};
ghost use Rattle.wb_store.specs.Stands.{HasBuildersOf};
ghost use Rattle.wb_store.specs.Faults.{IsBadRow};
ghost use Rattle.wb_store.specs.Checks.{AreBadRows, HoldsBuilders, IsFormedBuilder, IsRowOf, PassesWith, Tests, has_arch};
ghost use Rattle.wb_store.specs.Queries as ask;

use crate::reading::rows_of;
use deb_text::Text;
use sqlite::{Alter, Connection, Row};
use wb_rows::builder_of;
use wb_sql::statements;
use wb_states::{OsCpu, StoreFault, Table, is_arch, is_builder};

/// The builders of the office, each with an architecture for which it was added, if each row is that of a builder
/// whose name has its form and of one of these architectures. The faults are `Damaged` with the number of the first
/// bad row, counted from 1 in the order of the builders and then of the architectures, `Memory`, and those of
/// the query. The database stays as it is, but for a transaction that a failure of the query takes back (this
/// project's own).
pub fn check_builders<S: Alter>(
    conn: &mut Connection<S>,
    archs: &[(Text, OsCpu)],
) -> Result<Vec<(Text, Text)>, StoreFault>
    ensures tests { Tests S.Store ask.Builders (λ rows pairs. HoldsBuilders archs.now rows pairs.items)
        (AreBadRows Builder builder_cells (IsFormedBuilder archs.now)) conn.old conn.new result }
    ensures passes { PassesWith S.Store ask.Builders HasBuildersOf (λ machine. archs.now ≡ map.entries machine.archs)
        (λ machine pairs. pairs.items ≡ builder_pairs machine) conn.old conn.new result }
{
    let rows = rows_of(conn, Table::Builder, statements::all_builders(), &[])?;
    builders_in(rows, archs)
}

/// The builders in these rows, or the first that is no builder with its form for one of these architectures.
fn builders_in(rows: Vec<Row>, archs: &[(Text, OsCpu)]) -> Result<Vec<(Text, Text)>, StoreFault>
    ensures value { IfOk result (λ made. HoldsBuilders archs.now rows.items made.items) }
    ensures err { IfErr result (AreBadRows Builder builder_cells (IsFormedBuilder archs.now) rows.items) }
{
    let mut made = Vec::new(*rows.allocator());
    for row in rows {
        let before = made.len() as u64;
        made.push(builder_in(&row, before + 1, archs)?)?;
    }
    Ok(made)
}

/// The builder in the row of this number, if it has its form and was added for one of these architectures.
fn builder_in(row: &Row, number: u64, archs: &[(Text, OsCpu)]) -> Result<(Text, Text), StoreFault>
    ensures value { IfOk result (λ made. IsFormedBuilder archs.now made × (row.now ≡ builder_cells made)) }
    ensures err { IfErr result (IsBadRow Builder number (IsRowOf builder_cells (IsFormedBuilder archs.now) row.now)) }
{
    let damaged = StoreFault::Damaged {
        table: Table::Builder,
        row: number,
    };
    let Some((name, arch)) = builder_of(row)? else {
        return Err(damaged);
    };
    if is_builder_formed(&name, &arch, archs) {
        Ok((name, arch))
    } else {
        Err(damaged)
    }
}

/// Whether the name of a builder has its form, and the architecture is one of these.
fn is_builder_formed(name: &Text, arch: &Text, archs: &[(Text, OsCpu)]) -> bool
    ensures { IsTrue result ↔ IsFormedBuilder archs.now (name.now, arch.now) }
{
    is_builder(name.as_str()) && is_arch(arch.as_str()) && is_known(arch, archs)
}

/// Whether the architecture is one of these.
fn is_known(name: &Text, archs: &[(Text, OsCpu)]) -> bool
    ensures { result ≡ has_arch archs.now name.now }
{
    archs.iter().any(|(arch, _)| *arch == *name)
}
