//! Whether the tables that have no row in an office at rest have one.
ghost use Rattle.std.specs.Prelude.{◌≡◌};
ghost use Rattle.wb_store.specs.Queries as ask;
ghost use Rattle.wb_store.specs.Scratch.{TestsForRows};

use crate::reading::rows_of;
use sqlite::{Alter, Connection};
use wb_sql::{first_schema, statements};
use wb_states::{StoreFault, Table};

/// Whether the scratch table of source packages has a row, which a merge that was cut off may have left. The faults are
/// those of the query on the table. The database stays as it is, but for a transaction that a failure of the query takes
/// back (this project's own).
pub fn has_scratch_sources<S: Alter>(conn: &mut Connection<S>) -> Result<bool, StoreFault>
    ensures tests { TestsForRows S.Store ask.OneSource conn.old conn.new result }
{
    has_row(
        conn,
        Table::ScratchSource,
        statements::first_scratch_source(),
    )
}

/// Whether the scratch table of binary packages has a row, which a merge that was cut off may have left. The faults are
/// those of the query on the table. The database stays as it is, but for a transaction that a failure of the query takes
/// back (this project's own).
pub fn has_scratch_binaries<S: Alter>(conn: &mut Connection<S>) -> Result<bool, StoreFault>
    ensures tests { TestsForRows S.Store ask.OneBinary conn.old conn.new result }
{
    has_row(
        conn,
        Table::ScratchBinary,
        statements::first_scratch_binary(),
    )
}

/// Whether the table of the records of the first schema has a row. An office that was upgraded keeps that table, without a
/// row. The faults are those of the query on the table. The database stays as it is, but for a transaction that a failure
/// of the query takes back (this project's own).
pub(crate) fn has_first_states<S: Alter>(conn: &mut Connection<S>) -> Result<bool, StoreFault>
    ensures tests { TestsForRows S.Store ask.OneState conn.old conn.new result }
{
    has_row(conn, Table::SourceState, first_schema::first_state())
}

/// Whether the query for one row of the table answers one.
fn has_row<S: Alter>(conn: &mut Connection<S>, table: Table, sql: &str) -> Result<bool, StoreFault>
    ensures tests { (asked : ask.OfficeQuery) → ask.IsForOne asked → table ≡ ask.table_asked asked
        → ask.IsTextOfQuery asked sql.now → TestsForRows S.Store asked conn.old conn.new result }
{
    let rows = rows_of(conn, table, sql, &[])?;
    Ok(!rows.is_empty())
}
