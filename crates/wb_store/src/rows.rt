//! All rows of the office's tables, as cells.
ghost use Rattle.std.specs.Prelude.{◌≡◌, ◌++◌, map as each, IfOk, IfErr, OnOk};
ghost use Rattle.std.specs.List.{AllByRecursion};
ghost use Rattle.wb_rows.specs.Shown.{AreReadableCells, row_of, values_of};
ghost use Rattle.wb_store.specs.Faults.{IsUnfit};
ghost use Rattle.wb_store.specs.Lookups.{AreRowsOf};
ghost use Rattle.wb_store.specs.Noted.{KeepsMerge};
ghost use Rattle.wb_store.specs.Queries.{IsCurrent, IsTextOfQuery};
ghost use Rattle.wb_store.specs.TableRows.{HasCells, ShowsAll, ShowsRows, ShowsTable, query_of_table, with_table};

use crate::fault::unfit;
use crate::reading::rows_of;
use crate::store::Store;
use crate::writing::Writing;
use deb_text::Items;
use sqlite::{Alter, Connection, Row};
use std::alloc::Global;
use wb_rows::{TableRow, cells_of};
use wb_sql::{first_schema, scratch, statements};
use wb_states::{StoreFault, Table};

impl<S: Alter + Drop> Store<S> {
    // The columns as the table has them, with the id of the office's row and the places of a
    // merge's rows, so that a row can be compared with what `sqlite3` prints.
    /// Each row of the office's tables, once: those of `office`, `arch`, `builder`, `source_record`, `scratch_source` and
    /// `scratch_binary`, in this order, and of a table by its key. A row has the columns of its table, in their order. The
    /// faults are those of the queries, each on its table, `Memory` if memory runs out for the rows, and `Damaged` with
    /// row 0 if a row is not one of an office. The database stays as it is; only a failed query may take a transaction back
    /// (this project's own).
    pub fn rows(&mut self, alloc: Global) -> Result<Items<TableRow>, StoreFault>
        ensures shows { ShowsAll S.Store self.old self.new result }
    {
        let mut made = Items::new(alloc);
        let tables = [
            Table::Office,
            Table::Arch,
            Table::Builder,
            Table::SourceRecord,
            Table::ScratchSource,
            Table::ScratchBinary,
        ];
        add_tables(alloc, &mut self.conn, &tables, &mut made)?;
        Ok(made)
    }
}

impl<S: Alter + Drop> Writing<'_, S> {
    /// Each row of the office's tables, once, as [`Store::rows`] has them. It sees what the transaction wrote.
    pub fn rows(&mut self, alloc: Global) -> Result<Items<TableRow>, StoreFault>
        ensures shows { ShowsAll S.Store self.old.store.now self.new.store.now result }
        ensures same_reference { self.new.store.ghost_name ≡ self.old.store.ghost_name }
        ensures same_merge { KeepsMerge self.old self.new }
    {
        self.store.rows(alloc)
    }
}

/// Adds the rows of these tables of the second schema, one table after another.
fn add_tables<S: Alter>(
    alloc: Global,
    conn: &mut Connection<S>,
    tables: &[Table],
    made: &mut Items<TableRow>,
) -> Result<(), StoreFault>
    ensures shows { AllByRecursion IsCurrent tables.now
        → ShowsRows S.Store tables.now (each row_of made.old) (each row_of made.new) conn.old conn.new result }
{
    for table in tables {
        add_table(alloc, conn, *table, made)?;
    }
    Ok(())
}

/// Adds the rows of a table of the second schema, by its key.
fn add_table<S: Alter>(
    alloc: Global,
    conn: &mut Connection<S>,
    table: Table,
    made: &mut Items<TableRow>,
) -> Result<(), StoreFault>
    ensures shows { IsCurrent table
        → ShowsTable S.Store table (each row_of made.old) (each row_of made.new) conn.old conn.new result }
{
    let found = rows_of(conn, table, rows_query(table), &[])?;
    add_rows(alloc, table, found, made)
}

/// The query for all rows of a table, by its key.
fn rows_query(table: Table) -> &'static str
    ensures text { IsTextOfQuery (query_of_table table) result.now }
{
    match table {
        Table::Office => statements::office_row(),
        Table::Arch => statements::all_archs(),
        Table::Builder => statements::all_builders(),
        Table::SourceRecord => statements::all_records(),
        Table::ScratchSource => scratch::all_sources(),
        Table::ScratchBinary => scratch::all_binaries(),
        Table::SourceState => first_schema::all_states(),
    }
}

/// Adds these rows of a table. The table is damaged if a row has a column that no cell shows.
fn add_rows(
    alloc: Global,
    table: Table,
    found: Vec<Row>,
    made: &mut Items<TableRow>,
) -> Result<(), StoreFault>
    ensures value { OnOk result (each row_of made.new ≡ each row_of made.old ++ with_table table found.items) }
    ensures err { IfErr result (IsUnfit table (AreRowsOf values_of AreReadableCells found.items)) }
{
    for row in found {
        let shown = shown_row(alloc, table, &row)?;
        made.push(shown)?;
    }
    Ok(())
}

/// A row of a table. The table is damaged if the row has a column that no cell shows.
fn shown_row(alloc: Global, table: Table, row: &Row) -> Result<TableRow, StoreFault>
    ensures value { IfOk result (λ made. row_of made ≡ (table, row.now)) }
    ensures err { IfErr result (IsUnfit table (HasCells row.now)) }
{
    let cells = cells_of(alloc, row)?.ok_or(unfit(table))?;
    Ok(TableRow { table, cells })
}
