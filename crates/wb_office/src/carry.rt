//! The transaction of an accepted command, over a store in which none is under way: begun, written,
//! and ended.

ghost use Rattle.std.specs.Prelude.{◌≡◌, false};
ghost use Rattle.wb_office.specs.Carried.{CarriesOut, failure_of};

use crate::change::write_change;
use deb_text::Text;
use sqlite::Alter;
use wb_states::{Command, StoreFault};
use wb_step::OfficePart;
use wb_store::Store;

/// Why the transaction of a command was not committed (this project's own).
#[derive(Debug, Drop)]
pub(crate) enum CarryError {
    /// It failed with this fault, and was taken back. The store can be used on, unless a fault shut
    /// it.
    TakenBack(StoreFault),
    /// It failed with this fault, and taking it back failed too. Nothing of it was committed.
    RollBackFailed(StoreFault),
    /// The commit failed with this fault, which is not `Memory`. Whether it was made is not known.
    InDoubt(StoreFault),
}

/// Writes the change of an accepted command in a transaction of its own, and commits it. `after` is
/// the part of the office in which the command was carried out, and `key` is that of the record
/// that it put. The errors are those of [`CarryError`], with the fault of `write_change` or of the
/// commit; after each but `InDoubt` the office is as it was (this project's own).
pub(crate) fn carry<S: Alter + Drop>(
    store: &mut Store<S>,
    command: &Command,
    key: &Option<(Text, Text)>,
    after: &OfficePart,
) -> Result<(), CarryError>
    requires idle { store.old.in_transaction ≡ false }
    ensures carries { CarriesOut S.Store command.now key.now after.now store.old store.new result }
{
    let mut writing = store.begin();
    if let Err(fault) = write_change(&mut writing, command, key, after) {
        let ended = writing.roll_back();
        return Err(failure(fault, ended));
    }
    match writing.commit() {
        Ok(()) => Ok(()),
        Err(StoreFault::Memory) => {
            let ended = store.roll_back();
            Err(failure(StoreFault::Memory, ended))
        }
        Err(fault) => Err(CarryError::InDoubt(fault)),
    }
}

/// The failure of a transaction that failed with this fault, after the call that was to take it
/// back.
pub(crate) fn failure(fault: StoreFault, ended: Result<(), StoreFault>) -> CarryError
    ensures value { result ≡ failure_of fault ended }
{
    match ended {
        Ok(()) => CarryError::TakenBack(fault),
        Err(_) => CarryError::RollBackFailed(fault),
    }
}
