//! What an opening tests of the tables of an office, in one call.
ghost use Rattle.wb_store.specs.Opening.{Checks, ChecksFirst, ChecksLeft, ChecksRows, ChecksScratch, ChecksStates};

use crate::scratch::has_first_states;
use crate::{
    Format, check_archs, check_builders, check_counts, check_records, has_scratch_binaries,
    has_scratch_sources,
};
use sqlite::{Alter, Connection};
use wb_sql::has_states;
use wb_states::{Counts, StoreFault, Table};

/// The two counts of the office, if the rows of its tables are good, those of each table beside those of the others,
/// no merge left a row in the scratch tables, and an upgrade none in the table of the records of the first schema. The
/// faults are those of `check_counts`, `check_archs`, `check_builders` and `check_records`, in this order, and then those
/// of the scratch table of source packages, of that of binary packages, and of the table of the first schema: `Damaged`
/// with row 1 of the table if it has a row, and the fault of its query. The database stays as it is, but for a
/// transaction that a failure of a query takes back (this project's own).
pub(crate) fn check<S: Alter>(conn: &mut Connection<S>) -> Result<Counts, StoreFault>
    ensures checks { Checks S.Store conn.old conn.new result }
{
    let counts = check_rows(conn, Format::Two)?;
    check_left(conn)?;
    Ok(counts)
}

/// The two counts of an office of the first schema, if the rows of its tables are good, those of each table beside those of
/// the others, and no merge left a row in the scratch tables. The faults are those of `check_counts`, `check_archs` and
/// `check_builders`, in this order, then those of the scratch table of source packages and of that of binary packages, and
/// last those of `check_records`. The database stays as it is, but for a transaction that a failure of a query takes back
/// (this project's own).
pub(crate) fn check_first<S: Alter>(conn: &mut Connection<S>) -> Result<Counts, StoreFault>
    ensures checks { ChecksFirst S.Store conn.old conn.new result }
{
    let counts = check_counts(conn, Format::One)?;
    let archs = check_archs(conn)?;
    let builders = check_builders(conn, &archs)?;
    check_scratch(conn, Format::One)?;
    check_records(
        *archs.allocator(),
        conn,
        Format::One,
        &archs,
        &builders,
        counts.handed,
    )?;
    Ok(counts)
}

/// The two counts of the office, if the rows of its tables are good in this format.
fn check_rows<S: Alter>(conn: &mut Connection<S>, format: Format) -> Result<Counts, StoreFault>
    ensures checks { ChecksRows S.Store format conn.old conn.new result }
{
    let counts = check_counts(conn, format)?;
    let archs = check_archs(conn)?;
    let builders = check_builders(conn, &archs)?;
    check_records(
        *archs.allocator(),
        conn,
        format,
        &archs,
        &builders,
        counts.handed,
    )?;
    Ok(counts)
}

/// Tests that no row is left in the scratch tables of a merge, nor in the table of the records of the first schema.
fn check_left<S: Alter>(conn: &mut Connection<S>) -> Result<(), StoreFault>
    ensures checks { ChecksLeft S.Store conn.old conn.new result }
{
    check_scratch(conn, Format::Two)?;
    check_states(conn)
}

/// Tests that the scratch tables of a merge have no row, in this format.
fn check_scratch<S: Alter>(conn: &mut Connection<S>, format: Format) -> Result<(), StoreFault>
    ensures checks { ChecksScratch S.Store format conn.old conn.new result }
{
    if has_scratch_sources(conn)? {
        return Err(StoreFault::Damaged {
            table: Table::ScratchSource,
            row: 1,
        });
    }
    if has_scratch_binaries(conn)? {
        return Err(StoreFault::Damaged {
            table: Table::ScratchBinary,
            row: 1,
        });
    }
    Ok(())
}

/// Tests that the table of the records of the first schema, if there is one, has no row.
fn check_states<S: Alter>(conn: &mut Connection<S>) -> Result<(), StoreFault>
    ensures checks { ChecksStates S.Store conn.old conn.new result }
{
    if !has_states(conn.schema()) {
        return Ok(());
    }
    if has_first_states(conn)? {
        return Err(StoreFault::Damaged {
            table: Table::SourceState,
            row: 1,
        });
    }
    Ok(())
}
