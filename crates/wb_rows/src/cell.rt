//! A row of the office's tables as cells, for one who compares whole tables.
ghost use Rattle.std.specs.Prelude.{◌≡◌, ◌<◌, length, IfOk, IfErr, IfSome, IfNone};
ghost use Rattle.sqlite.specs.Order.{column};
ghost use Rattle.wb_rows.specs.declared.fault.RowFault.TheVariants.{Malformed};
ghost use Rattle.wb_rows.specs.Reading.{HoldsNone};
ghost use Rattle.wb_rows.specs.Shown.{HasNoCells, IsReadableCell, value_of, values_of};

use crate::columns::text_at;
use crate::fault::RowFault;
use deb_text::{Items, Text};
use sqlite::Row;
use sqlite::types::ValueRef;
use std::alloc::{AllocError, Global};
use wb_states::Table;

/// One column of a row (this project's own).
#[derive(Debug, Drop)]
pub enum Cell {
    /// A whole number.
    Whole(i64),
    /// A text in UTF-8.
    Text(Text),
    /// NULL.
    Null,
}

/// A row of one of the office's tables: the table, which has its [name](Table::name), and the row's columns, in the order
/// of the table (this project's own).
#[derive(Debug, Drop)]
pub struct TableRow {
    /// The table.
    pub table: Table,
    /// The columns.
    pub cells: Items<Cell>,
}

/// The columns of a row as cells. None if a column is neither a whole number nor a text in UTF-8 nor NULL; nothing is
/// repaired. The only error is that memory ran out (this project's own).
pub fn cells_of(alloc: Global, row: &Row) -> Result<Option<Items<Cell>>, AllocError>
    ensures value { IfOk result (λ found. IfSome found (λ cells. row.now ≡ values_of cells)) }
    ensures none { IfOk result (λ found. IfNone found (HasNoCells row.now)) }
{
    match read_cells(alloc, row) {
        Ok(cells) => Ok(Some(Items::from(cells))),
        Err(RowFault::Malformed) => Ok(None),
        Err(RowFault::Memory) => Err(AllocError),
    }
}

fn read_cells(alloc: Global, row: &Row) -> Result<Vec<Cell>, RowFault>
    ensures value { IfOk result (λ cells. row.now ≡ values_of cells.items) }
    ensures refused { IfErr result (λ fault. fault ≡ Malformed → HasNoCells row.now) }
{
    let mut cells = Vec::new(alloc);
    for at in 0..row.column_count() {
        let cell = cell_at(row, at)?;
        cells.push(cell)?;
    }
    Ok(cells)
}

/// The column at a place, counted from 0.
fn cell_at(row: &Row, at: usize) -> Result<Cell, RowFault>
    requires { at < length row.now }
    ensures value { IfOk result (λ cell. column row.now at ≡ value_of cell) }
    ensures refused { IfErr result (λ fault. fault ≡ Malformed
        → HoldsNone value_of IsReadableCell (column row.now at)) }
{
    match row.get_ref(at) {
        Ok(ValueRef::Null) => Ok(Cell::Null),
        Ok(ValueRef::Int(number)) => Ok(Cell::Whole(number)),
        Ok(ValueRef::Text(_)) => Ok(Cell::Text(text_at(row, at)?)),
        _ => Err(RowFault::Malformed),
    }
}
