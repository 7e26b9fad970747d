//! The savepoint of a transaction, which is named `part`. Of several the newest counts.

// Three texts that name no table, so their meaning is that of any schema. Nothing has to be known
// of savepoints that a connection may have already. The kit's own type of a savepoint borrows the
// connection, which `Writing` of `wb_store` holds by a reference.

ghost use Rattle.std.specs.Prelude.{◌≡◌, false, [], IsTrue, IfErr, OnOk};
ghost use Rattle.sqlite.specs.State.{HasCleanDisk, Survives, Executes, CommitsBy};
ghost use Rattle.sqlite.specs.Held.{state};
ghost use Rattle.wb_sql.specs.Calls.{RanInside};
ghost use Rattle.wb_sql.specs.Transactions.{IsKeptOrUndone};
ghost use Rattle.wb_sql.specs.Savepoints.{save_text, back_text, release_text, IsAny, IsSaved, Saves, GoesBack, Releases, RunsOnPart};

use sqlite::{Alter, Connection, Error, ErrorCode};

/// Makes a savepoint, to which [`back_to`] goes back. Nothing is written. It fails as [`crate::execute`] does.
pub fn save<S: Alter>(conn: &mut Connection<S>) -> Result<(), Error>
    ensures runs { RunsOnPart S.Store save_text IsAny Saves conn.old conn.new result }
{
    run_on_part(conn, "SAVEPOINT part")
}

/// Takes back what was written since the newest savepoint, which stays, so that one can go back to it again. Without a
/// savepoint it fails. It fails as [`crate::execute`] does, too.
pub fn back_to<S: Alter>(conn: &mut Connection<S>) -> Result<(), Error>
    ensures runs { RunsOnPart S.Store back_text IsAny GoesBack conn.old conn.new result }
{
    run_on_part(conn, "ROLLBACK TO part")
}

/// Drops the newest savepoint, and keeps what was written since. Without a savepoint it fails. It fails as
/// [`crate::execute`] does, too.
pub fn release<S: Alter>(conn: &mut Connection<S>) -> Result<(), Error>
    ensures runs { RunsOnPart S.Store release_text IsSaved Releases conn.old conn.new result }
{
    run_on_part(conn, "RELEASE part")
}

/// Runs one statement on the savepoint. A transaction that is over refuses it.
fn run_on_part<S: Alter>(conn: &mut Connection<S>, sql: &str) -> Result<(), Error>
    ensures ran { HasCleanDisk (state S.Store conn.new)
        → OnOk result (RanInside sql.now [] (state S.Store conn.old) (state S.Store conn.new)) }
    ensures err { HasCleanDisk (state S.Store conn.new) → IsTrue conn.old.in_transaction
        → IfErr result (λ e. Executes sql.now [] (state S.Store conn.old) (state S.Store conn.new) (Err e)
        × IsKeptOrUndone (state S.Store conn.old) (state S.Store conn.new)) }
    ensures ended { conn.old.in_transaction ≡ false
        → (result ≡ Err (Error.SqliteFailure ErrorCode.TransactionState)) × (conn.new ≡ conn.old) }
    ensures survives { Survives (state S.Store conn.old) (state S.Store conn.new)
        (λ db. IsTrue conn.old.in_transaction × CommitsBy sql.now [] (state S.Store conn.old) db) }
{
    if conn.is_autocommit() {
        return Err(Error::SqliteFailure(ErrorCode::TransactionState));
    }
    conn.execute(sql, &[])?;
    Ok(())
}
