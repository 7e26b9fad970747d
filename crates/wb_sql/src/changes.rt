//! Statements on the rows of one table, in a transaction. Each fails as `execute` does.

// What a statement does is said of each table whose statement the text is, and what a crash leaves
// is said unless the text is another. So no call requires the schema to be known, which it is only
// if the disk is clean: no second call in a transaction could meet that.

ghost use Rattle.std.specs.Prelude.{◌≡◌, OnOk};
ghost use Rattle.sqlite.specs.Held.{state};
ghost use Rattle.sqlite.specs.State.{HasCleanDisk};
ghost use Rattle.sqlite.specs.Values.{bound};
ghost use Rattle.wb_sql.specs.Calls.{RunsStatement};
ghost use Rattle.wb_sql.specs.Changes.{Replaces, Inserts, Upserts, Updates, Deletes};

use crate::transaction::run;
use sqlite::types::ValueRef;
use sqlite::{Alter, Connection, Error};

/// Puts one row in place of those that have its rowid or its key under a unique index (INSERT OR REPLACE).
pub fn replace<S: Alter>(
    conn: &mut Connection<S>,
    sql: &str,
    params: &[ValueRef<'_>],
) -> Result<(), Error>
    ensures runs { RunsStatement S.Store sql.now (bound params.now) conn.old conn.new result }
    ensures ok { HasCleanDisk (state S.Store conn.new) → OnOk result (Replaces sql.now (bound params.now)
        (state S.Store conn.old) (state S.Store conn.new)) }
{
    run(conn, sql, params)
}

/// Puts one row in beside the others (INSERT). A row whose rowid or key is taken is refused.
pub fn insert<S: Alter>(
    conn: &mut Connection<S>,
    sql: &str,
    params: &[ValueRef<'_>],
) -> Result<(), Error>
    ensures runs { RunsStatement S.Store sql.now (bound params.now) conn.old conn.new result }
    ensures ok { HasCleanDisk (state S.Store conn.new) → OnOk result (Inserts sql.now (bound params.now)
        (state S.Store conn.old) (state S.Store conn.new)) }
{
    run(conn, sql, params)
}

/// Puts one row in, or writes it over the row that has its key (INSERT ON CONFLICT of the key DO UPDATE), which keeps its
/// rowid. A row that meets another in any other way is refused.
pub fn upsert<S: Alter>(
    conn: &mut Connection<S>,
    sql: &str,
    params: &[ValueRef<'_>],
) -> Result<(), Error>
    ensures runs { RunsStatement S.Store sql.now (bound params.now) conn.old conn.new result }
    ensures ok { HasCleanDisk (state S.Store conn.new) → OnOk result (Upserts sql.now (bound params.now)
        (state S.Store conn.old) (state S.Store conn.new)) }
{
    run(conn, sql, params)
}

/// Sets columns of the one row that passes the tests of the statement (UPDATE), which keeps its rowid.
pub fn update<S: Alter>(
    conn: &mut Connection<S>,
    sql: &str,
    params: &[ValueRef<'_>],
) -> Result<(), Error>
    ensures runs { RunsStatement S.Store sql.now (bound params.now) conn.old conn.new result }
    ensures ok { HasCleanDisk (state S.Store conn.new) → OnOk result (Updates sql.now (bound params.now)
        (state S.Store conn.old) (state S.Store conn.new)) }
{
    run(conn, sql, params)
}

/// Takes out the rows that pass the tests of the statement (DELETE).
pub fn delete<S: Alter>(
    conn: &mut Connection<S>,
    sql: &str,
    params: &[ValueRef<'_>],
) -> Result<(), Error>
    ensures runs { RunsStatement S.Store sql.now (bound params.now) conn.old conn.new result }
    ensures ok { HasCleanDisk (state S.Store conn.new) → OnOk result (Deletes sql.now (bound params.now)
        (state S.Store conn.old) (state S.Store conn.new)) }
{
    run(conn, sql, params)
}
