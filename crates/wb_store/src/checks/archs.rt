//! What an opening tests of the architectures.
ghost use Rattle.std.specs.Prelude.{◌≡◌, ◌↔◌, ◌+◌, IsTrue, IfOk, IfErr};
ghost use Rattle.std.specs.FinMap as map;
ghost use Rattle.wb_states.specs.Machine.{IsArch};
ghost use Rattle.wb_states.specs.declared.store_fault.Table.TheVariants.{Arch};
ghost use Rattle.wb_rows.specs.Cells.{arch_cells};
ghost use Rattle.wb_store.specs.Faults.{IsBadRow};
ghost use Rattle.wb_store.specs.Stands.{HasArchsOf};
ghost use Rattle.wb_store.specs.Checks.{AreBadRows, HoldsArchs, IsFormedArch, IsRowOf, Passes, Tests};
ghost use Rattle.wb_store.specs.Queries as ask;

use crate::reading::rows_of;
use deb_text::Text;
use sqlite::{Alter, Connection, Row};
use wb_rows::arch_of;
use wb_sql::statements;
use wb_states::{OsCpu, StoreFault, Table, is_arch, is_os_cpu};

/// The architectures of the office with their words, by name, if each row is that of an architecture whose name and
/// words have their forms. The faults are `Damaged` with the number of the first bad row, counted from 1 in
/// the order of the names, `Memory`, and those of the query. The database stays as it is, but for a transaction that a
/// failure of the query takes back (this project's own).
pub fn check_archs<S: Alter>(conn: &mut Connection<S>) -> Result<Vec<(Text, OsCpu)>, StoreFault>
    ensures tests { Tests S.Store ask.Archs (λ rows archs. HoldsArchs rows archs.items)
        (AreBadRows Arch arch_cells IsFormedArch) conn.old conn.new result }
    ensures passes { Passes S.Store ask.Archs HasArchsOf (λ machine archs.
        archs.items ≡ map.entries machine.archs) conn.old conn.new result }
{
    tested_archs(rows_of(conn, Table::Arch, statements::all_archs(), &[])?)
}

/// The architectures in these rows, or the first that is no architecture with its forms.
fn tested_archs(rows: Vec<Row>) -> Result<Vec<(Text, OsCpu)>, StoreFault>
    ensures value { IfOk result (λ made. HoldsArchs rows.items made.items) }
    ensures err { IfErr result (AreBadRows Arch arch_cells IsFormedArch rows.items) }
{
    let mut made = Vec::new(*rows.allocator());
    for row in rows {
        let before = made.len() as u64;
        made.push(arch_in(&row, before + 1)?)?;
    }
    Ok(made)
}

/// The architecture in the row of this number, if it has its forms.
fn arch_in(row: &Row, number: u64) -> Result<(Text, OsCpu), StoreFault>
    ensures value { IfOk result (λ made. IsFormedArch made × (row.now ≡ arch_cells made)) }
    ensures err { IfErr result (IsBadRow Arch number (IsRowOf arch_cells IsFormedArch row.now)) }
{
    let damaged = StoreFault::Damaged {
        table: Table::Arch,
        row: number,
    };
    let Some((name, words)) = arch_of(row)? else {
        return Err(damaged);
    };
    if is_arch_formed(&name, &words) {
        Ok((name, words))
    } else {
        Err(damaged)
    }
}

/// Whether the name of an architecture and its words have their forms.
fn is_arch_formed(name: &Text, words: &OsCpu) -> bool
    ensures { IsTrue result ↔ IsArch name.now words.now }
{
    is_arch(name.as_str()) && is_os_cpu(words.os.as_str()) && is_os_cpu(words.cpu.as_str())
}
