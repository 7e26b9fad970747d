//! How a transaction of the office ends: by a roll-back that follows a commit, and what COMMIT and ROLLBACK answer.

ghost use Rattle.std.specs.Prelude.{◌≡◌, IfErr, OnOk};
ghost use Rattle.sqlite.specs.Held.{state};
ghost use Rattle.sqlite.specs.State.{HasCleanDisk, Survives};
ghost use Rattle.wb_store.specs.Ending.{IsEndedFrom, IsFaultOfRollBack, committed, rolled_back};
ghost use Rattle.wb_store.specs.Settled.{TakesBack};

use crate::fault::fault_of;
use crate::store::Store;
use sqlite::{Alter, Error, ErrorCode};
use wb_sql::CommitError;
use wb_states::{StoreFault, Table};

impl<S: Alter + Drop> Store<S> {
    /// Takes back what was written by a transaction that is still under way, as it may be after a commit for which memory
    /// ran out; if none is under way, it was taken back before, and this is no fault. The faults are those of
    /// [`Writing::roll_back`] (this project's own).
    pub fn roll_back(&mut self) -> Result<(), StoreFault>
        ensures taken_back { TakesBack S.Store self.old self.new }
        ensures ok { HasCleanDisk (state S.Store self.new)
            → OnOk result (IsEndedFrom (state S.Store self.old) (state S.Store self.new)) }
        ensures cause { HasCleanDisk (state S.Store self.new)
            → IfErr result (IsFaultOfRollBack (state S.Store self.old) (state S.Store self.new)) }
        ensures survives { Survives (state S.Store self.old) (state S.Store self.new) (λ _. ⊥) }
    {
        let answered = wb_sql::roll_back(&mut self.conn);
        rolled_back(answered)
    }
}

/// What COMMIT answered, with the fault of the store in place of an error. The fault is that of the table of the office,
/// since COMMIT names none; if the commit is in doubt, it is not `Memory`.
pub(crate) fn committed(answered: Result<(), CommitError>) -> Result<(), StoreFault>
    ensures value { result ≡ committed answered }
{
    match answered {
        Ok(()) => Ok(()),
        Err(CommitError::Memory) => Err(StoreFault::Memory),
        Err(CommitError::InDoubt(error)) => match fault_of(error, Table::Office) {
            StoreFault::Memory => Err(StoreFault::Device),
            fault => Err(fault),
        },
    }
}

/// What ROLLBACK answered, with the fault of the store in place of an error. That no transaction is under way is none:
/// then it was taken back before.
fn rolled_back(answered: Result<(), Error>) -> Result<(), StoreFault>
    ensures value { result ≡ rolled_back answered }
{
    match answered {
        Ok(()) => Ok(()),
        Err(Error::SqliteFailure(ErrorCode::TransactionState)) => Ok(()),
        Err(error) => Err(fault_of(error, Table::Office)),
    }
}
