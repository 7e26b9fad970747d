//! What the format alone tells of a database that has not the tables of an office.
ghost use Rattle.std.specs.Prelude.{◌≡◌, ◌≢◌, ℕ, [], ◌∷◌, IfSome, IfNone};
ghost use Rattle.wb_rows.specs.Cells.{number};
ghost use Rattle.wb_store.specs.Formats.{IsFaultOfFormats, TellsOther};

use crate::checks::counts::{NEWEST, number_at};
use crate::reading::rows_of;
use sqlite::{Alter, Connection, Row};
use wb_sql::{has_format_column, statements};
use wb_states::{StoreFault, Table};

/// Why a database that neither has the office's tables nor lacks them is refused: `NewerSchema` if it has a table `office`
/// with one row, in whose column `format` a number above 2 stands, whatever its other columns and tables are, and else
/// `NotOffice`, or the fault of the query for the format. The database stays as it is, but for a transaction that a failure
/// of the query takes back (this project's own).
pub(crate) fn other_fault<S: Alter>(conn: &mut Connection<S>) -> StoreFault
    ensures tells { TellsOther S.Store conn.old conn.new result }
{
    if !has_format_column(conn.schema()) {
        return StoreFault::NotOffice;
    }
    match rows_of(conn, Table::Office, statements::office_format(), &[]) {
        Ok(rows) => fault_of_formats(&rows),
        Err(fault) => fault,
    }
}

/// The fault of a table `office` with these formats.
fn fault_of_formats(rows: &[Row]) -> StoreFault
    ensures value { IsFaultOfFormats rows.now result }
{
    match rows {
        [row] => fault_of_format(row),
        _ => StoreFault::NotOffice,
    }
}

/// The fault of a table `office` with this format alone.
fn fault_of_format(row: &Row) -> StoreFault
    ensures value { IsFaultOfFormats (row.now ∷ []) result }
{
    match format_alone(row) {
        Some(format) if format > NEWEST => StoreFault::NewerSchema,
        _ => StoreFault::NotOffice,
    }
}

/// The format in a row of one column, if a number from 0 stands in it.
fn format_alone(row: &Row) -> Option<u64>
    ensures value { IfSome result (λ format. row.now ≡ number format ∷ []) }
    ensures none { IfNone result ((format : ℕ) → row.now ≢ number format ∷ []) }
{
    if row.column_count() == 1 {
        number_at(row, 0)
    } else {
        None
    }
}
