//! What an opening tests of the format and the counts.
ghost use Rattle.std.specs.Prelude.{◌≡◌, ◌≢◌, ℕ, ◌<◌, ◌≤◌, length, IfOk, IfErr, IfSome, IfNone};
ghost use Rattle.sqlite.specs.Order.{column};
ghost use Rattle.wb_states.specs.declared.store_fault.Table.TheVariants.{Office};
ghost use Rattle.wb_states.specs.Limits.{count_limit};
ghost use Rattle.wb_rows.specs.Cells.{number};
ghost use Rattle.wb_store.specs.Stands.{HasCountsOf};
ghost use Rattle.wb_store.specs.Checks.{AreBadCounts, HasFormat, HoldsCounts, IsDamagedOffice, IsOfficeRow, Passes, Tests};
ghost use Rattle.wb_store.specs.Queries as ask;
ghost use Rattle.wb_store.specs.Schemas.{number_of};

use crate::format::Format;
use crate::reading::rows_of;
use sqlite::types::ValueRef;
use sqlite::{Alter, Connection, Row};
use wb_sql::statements;
use wb_states::{COUNT_LIMIT, Counts, StoreFault, Table};

/// The number of the newest format that this program knows.
pub(crate) const NEWEST: u64 = 2;

/// The two counts of the office, if its table has one row, of this format, and each count is at most [`COUNT_LIMIT`]. The
/// faults are `NotOffice` if there is no row, or more than one, or it is of another format up to 2, `NewerSchema` if its
/// format is above 2, `Damaged` with row 1 if a count is below 0 or above its limit, and those of
/// the query. The database stays as it is, but for a transaction that a failure of the query takes back (this
/// project's own).
pub fn check_counts<S: Alter>(
    conn: &mut Connection<S>,
    format: Format,
) -> Result<Counts, StoreFault>
    ensures tests { Tests S.Store ask.Office (HoldsCounts format) (AreBadCounts format) conn.old conn.new result }
    ensures passes { Passes S.Store ask.Office (HasCountsOf format) (λ machine counts. (counts.handed ≡ machine.handed)
        × (counts.accepted ≡ machine.accepted)) conn.old conn.new result }
{
    let rows = rows_of(conn, Table::Office, statements::office_counts(), &[])?;
    tested_counts(&rows, format)
}

/// The counts in these rows, or why they are not those of an office of this format.
fn tested_counts(rows: &[Row], wanted: Format) -> Result<Counts, StoreFault>
    ensures value { IfOk result (λ counts. HoldsCounts wanted rows.now counts) }
    ensures err { IfErr result (λ fault. AreBadCounts wanted rows.now fault) }
{
    let [row] = rows else {
        return Err(StoreFault::NotOffice);
    };
    let Some(format) = format_in(row) else {
        return Err(StoreFault::NotOffice);
    };
    if format > NEWEST {
        return Err(StoreFault::NewerSchema);
    }
    if format != wanted.number() {
        return Err(StoreFault::NotOffice);
    }
    counts_of_row(row, wanted)
}

/// The format in the row of an office, which has three columns.
fn format_in(row: &Row) -> Option<u64>
    ensures value { IfSome result (λ format. HasFormat format row.now) }
    ensures none { IfNone result ((format : ℕ) → ¬ HasFormat format row.now) }
{
    if row.column_count() == 3 {
        number_at(row, 0)
    } else {
        None
    }
}

/// The counts in the row of an office of this format.
fn counts_of_row(row: &Row, format: Format) -> Result<Counts, StoreFault>
    requires { HasFormat (number_of format) row.now }
    ensures value { IfOk result (λ counts. IsOfficeRow format row.now counts) }
    ensures err { IfErr result (λ fault. IsDamagedOffice format row.now fault) }
{
    match (count_at(row, 1), count_at(row, 2)) {
        (Some(handed), Some(accepted)) => Ok(Counts { handed, accepted }),
        _ => Err(StoreFault::Damaged {
            table: Table::Office,
            row: 1,
        }),
    }
}

/// The count in a column, if there is one and it is within its limit.
fn count_at(row: &Row, at: usize) -> Option<u64>
    requires { at < length row.now }
    ensures value { IfSome result (λ n. (column row.now at ≡ number n) × (n ≤ count_limit)) }
    ensures none { IfNone result ((n : ℕ) → n ≤ count_limit → column row.now at ≢ number n) }
{
    number_at(row, at).filter(|count| *count <= COUNT_LIMIT)
}

/// The number from 0 in a column, if it has one. Columns are counted from 0.
pub(crate) fn number_at(row: &Row, at: usize) -> Option<u64>
    requires { at < length row.now }
    ensures value { IfSome result (λ n. column row.now at ≡ number n) }
    ensures none { IfNone result ((n : ℕ) → column row.now at ≢ number n) }
{
    match row.get_ref(at) {
        Ok(ValueRef::Int(value)) => u64::try_from(value).ok(),
        _ => None,
    }
}
