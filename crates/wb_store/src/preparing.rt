//! The tables of an office in a database that lacks them.
ghost use Rattle.std.specs.Prelude.{◌≡◌, false};
ghost use Rattle.wb_sql.specs.Transactions.{cause_of};
ghost use Rattle.wb_store.specs.Preparing.{MakesEmptyOffice};

use sqlite::{Alter, Connection, Error, ErrorCode};
use wb_sql::{CommitError, begin, commit, make_empty_office, roll_back};

/// Makes the tables of an empty office in a database that lacks them, in one transaction; the tables of others keep their
/// rows. The error is that of the statement or of the commit that failed; the database is then as it was, or, if the
/// commit failed, it may be that of the empty office. No transaction is under way after any answer (this project's own).
pub(crate) fn make_office<S: Alter>(conn: &mut Connection<S>) -> Result<(), Error>
    requires idle { conn.old.in_transaction ≡ false }
    ensures makes { MakesEmptyOffice S.Store conn.old conn.new result }
{
    begin(conn);
    if let Err(error) = make_empty_office(conn) {
        let _ = roll_back(conn);
        return Err(error);
    }
    match commit(conn) {
        Ok(()) => Ok(()),
        Err(why) => {
            let _ = roll_back(conn);
            Err(cause_of(why))
        }
    }
}

/// The error of `sqlite` for which a commit is not known to be made.
pub(crate) fn cause_of(why: CommitError) -> Error
    ensures value { result ≡ cause_of why }
{
    match why {
        CommitError::Memory => Error::SqliteFailure(ErrorCode::OutOfMemory),
        CommitError::InDoubt(error) => error,
    }
}
