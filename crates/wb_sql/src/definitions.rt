//! Tables and indexes that are made in a transaction. Each call fails as `execute` does.

ghost use Rattle.std.specs.Prelude.{◌≡◌, [], OnOk};
ghost use Rattle.sqlite.specs.Held.{state};
ghost use Rattle.sqlite.specs.State.{HasCleanDisk};
ghost use Rattle.wb_sql.specs.Calls.{RunsStatement};
ghost use Rattle.wb_sql.specs.Definitions.{CreatesTable, CreatesIndex};

use crate::transaction::run;
use sqlite::{Alter, Connection, Error};

/// Makes a table, which has no row (CREATE TABLE).
pub fn create_table<S: Alter>(conn: &mut Connection<S>, sql: &str) -> Result<(), Error>
    ensures runs { RunsStatement S.Store sql.now [] conn.old conn.new result }
    ensures ok { HasCleanDisk (state S.Store conn.new)
        → OnOk result (CreatesTable sql.now (state S.Store conn.old) (state S.Store conn.new)) }
{
    run(conn, sql, &[])
}

/// Makes an index of a table (CREATE INDEX).
pub fn create_index<S: Alter>(conn: &mut Connection<S>, sql: &str) -> Result<(), Error>
    ensures runs { RunsStatement S.Store sql.now [] conn.old conn.new result }
    ensures ok { HasCleanDisk (state S.Store conn.new)
        → OnOk result (CreatesIndex sql.now (state S.Store conn.old) (state S.Store conn.new)) }
{
    run(conn, sql, &[])
}
