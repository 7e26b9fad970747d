ghost use Rattle.std.specs.Prelude.{◌≡◌, true, false, [], IsTrue, IfErr, OnOk, OnErr};
ghost use Rattle.sqlite.specs.State.{HasCleanDisk, IsLive, IsUnchanged, IsRolledBack, Shows, Survives, Executes};
ghost use Rattle.sqlite.specs.Values.{bound};
ghost use Rattle.sqlite.specs.Held.{state};
ghost use Rattle.wb_sql.specs.Calls.{RunsStatement};
ghost use Rattle.wb_sql.specs.Statements.{IsWriting};
ghost use Rattle.wb_sql.specs.Transactions.{rollback_text, cause_of, FailsToCommit, FailsToRun};
ghost use Rattle.wb_sql.specs.Transactions.{IsKeptOrUndone, IsTakenBack, Commits, LeavesAlone, LeavesNoMore};

use sqlite::types::ValueRef;
use sqlite::{Alter, Connection, Error, ErrorCode};
use std::mem::ManuallyDrop;

/// Why a commit is not known to be made.
#[derive(Debug, Drop, thiserror::Error)]
pub enum CommitError {
    /// COMMIT failed, since memory ran out. Nothing is committed: the transaction is as it was before the call, or it is
    /// taken back, and a crash leaves no more than before.
    #[error("nothing is committed: out of memory")]
    Memory,
    /// COMMIT failed with this error. The transaction is as it was before the call, or it is taken back, and a connection
    /// that is still open keeps the commit that it had. But a crash may leave what the transaction wrote, or what it
    /// could leave before.
    #[error("whether it is committed is not known: {0}")]
    InDoubt(Error),
}

/// Begins a transaction, with no guard that would end it: `commit` or `roll_back` does. It writes nothing, and cannot
/// fail. A failure of the store or of memory ends it too, and takes back what it wrote; after that its writes are refused.
pub fn begin<S: Alter>(conn: &mut Connection<S>)
    requires { conn.old.in_transaction ≡ false }
    ensures begun { conn.new ≡ record conn.old { in_transaction = true } }
    ensures settled { IsTrue (state S.Store conn.old).is_open
        → (state S.Store conn.old).now ≡ (state S.Store conn.old).committed }
{
    let _settled = conn.is_autocommit();
    // The guard is forgotten on purpose, since dropping it would roll back.
    let _forgotten = ManuallyDrop::new(conn.transaction());
}

// A flag of the office's own would not do, since nothing would hold it to the connection.
/// Whether the connection can still be used: the empty text runs if its store is open and memory suffices. Nothing
/// is written. A transaction may be taken back only if the connection cannot be used.
pub fn is_usable<S: Alter>(conn: &mut Connection<S>) -> bool
    ensures open { HasCleanDisk (state S.Store conn.new) → IsTrue result
        → IsUnchanged (state S.Store conn.old) (state S.Store conn.new) }
    ensures shut { HasCleanDisk (state S.Store conn.new) → result ≡ false
        → FailsToRun [] (state S.Store conn.old) (state S.Store conn.new) }
    ensures unchanged { HasCleanDisk (state S.Store conn.new)
        → IsKeptOrUndone (state S.Store conn.old) (state S.Store conn.new) }
    ensures survives { Survives (state S.Store conn.old) (state S.Store conn.new) (λ _. ⊥) }
{
    conn.execute("", &[]).is_ok()
}

/// Runs one statement that writes. A transaction that is over refuses it.
pub fn execute<S: Alter>(
    conn: &mut Connection<S>,
    sql: &str,
    params: &[ValueRef<'_>],
) -> Result<usize, Error>
    ensures ended { (state S.Store conn.old).in_transaction ≡ false
        → (result ≡ Err (Error.SqliteFailure ErrorCode.TransactionState))
        × (conn.new ≡ conn.old) }
    ensures runs { HasCleanDisk (state S.Store conn.new)
        → IsTrue (state S.Store conn.old).in_transaction
        → Executes sql.now (bound params.now) (state S.Store conn.old) (state S.Store conn.new)
        result }
    ensures err { HasCleanDisk (state S.Store conn.new)
        → IsTrue (state S.Store conn.old).in_transaction
        → OnErr result (IsKeptOrUndone (state S.Store conn.old) (state S.Store conn.new)) }
    ensures survives { Survives (state S.Store conn.old) (state S.Store conn.new)
        (λ _. ¬ IsWriting (state S.Store conn.old).now.schema sql.now) }
{
    if conn.is_autocommit() {
        return Err(Error::SqliteFailure(ErrorCode::TransactionState));
    }
    conn.execute(sql, params)
}

/// Runs one statement that writes, without the number of its rows. It fails as `execute` does.
pub(crate) fn run<S: Alter>(
    conn: &mut Connection<S>,
    sql: &str,
    params: &[ValueRef<'_>],
) -> Result<(), Error>
    ensures runs { RunsStatement S.Store sql.now (bound params.now) conn.old conn.new result }
{
    execute(conn, sql, params)?;
    Ok(())
}

// ROLLBACK and COMMIT are run as texts, since a struct around the kit's `Transaction` is not
// covered by the borrow checker.
/// Ends the transaction, and takes back what it wrote.
pub fn roll_back<S: Alter>(conn: &mut Connection<S>) -> Result<(), Error>
    ensures ok { HasCleanDisk (state S.Store conn.new)
        → OnOk result (IsRolledBack (state S.Store conn.old) (state S.Store conn.new)) }
    ensures err { HasCleanDisk (state S.Store conn.new)
        → OnErr result (IsTakenBack (state S.Store conn.old) (state S.Store conn.new)) }
    ensures cause { HasCleanDisk (state S.Store conn.new) → IfErr result (λ e. Executes rollback_text []
        (state S.Store conn.old) (state S.Store conn.new) (Err e)) }
    ensures survives { Survives (state S.Store conn.old) (state S.Store conn.new) (λ _. ⊥) }
{
    conn.execute("ROLLBACK", &[])?;
    Ok(())
}

// After a COMMIT that ran out of memory the connection is asked: only if it can be used was nothing
// committed. The kit's store may answer that memory ran out together with a store that is shut, of
// which nobody knows whether it committed.
/// Ends the transaction, and makes what it wrote permanent. [`CommitError`] says what holds if it fails.
pub fn commit<S: Alter>(conn: &mut Connection<S>) -> Result<(), CommitError>
    ensures ok { HasCleanDisk (state S.Store conn.new)
        → OnOk result (Commits (state S.Store conn.old) (state S.Store conn.new)) }
    ensures alone { HasCleanDisk (state S.Store conn.new)
        → OnOk result (LeavesAlone (state S.Store conn.new) (state S.Store conn.old).now.trees) }
    ensures memory { HasCleanDisk (state S.Store conn.new) → result ≡ Err CommitError.Memory
        → LeavesNoMore (state S.Store conn.old) (state S.Store conn.new) }
    ensures err { HasCleanDisk (state S.Store conn.new)
        → OnErr result (IsKeptOrUndone (state S.Store conn.old) (state S.Store conn.new)) }
    ensures cause { HasCleanDisk (state S.Store conn.new)
        → IfErr result (λ e. FailsToCommit S.Store conn.old (cause_of e)) }
    ensures sound { IsLive (state S.Store conn.old) }
    ensures crash { Survives (state S.Store conn.old) (state S.Store conn.new)
        (λ db. db ≡ (state S.Store conn.old).now.trees) }
{
    let _sound = conn.schema();
    let Err(error) = conn.execute("COMMIT", &[]) else {
        return Ok(());
    };
    if error == Error::SqliteFailure(ErrorCode::OutOfMemory) && is_usable(conn) {
        return Err(CommitError::Memory);
    }
    Err(CommitError::InDoubt(error))
}
