ghost use Rattle.std.specs.Prelude.{◌≡◌};
ghost use Rattle.sqlite.specs.Values.{bound};
ghost use Rattle.wb_sql.specs.Calls.{RunsQuery};

use sqlite::types::ValueRef;
use sqlite::{Alter, Connection, Error, Row};

/// Runs one query, and answers all its rows in the query's order. The database stays as it is, also if the call fails
/// for a reason of the query. A failure of the store or of memory takes back a transaction that is under way.
pub fn read<S: Alter>(
    conn: &mut Connection<S>,
    sql: &str,
    params: &[ValueRef<'_>],
) -> Result<Vec<Row>, Error>
    ensures runs { RunsQuery S.Store sql.now (bound params.now) conn.old conn.new result }
{
    conn.query_all(sql, params)
}
