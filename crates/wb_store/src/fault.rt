//! What a refusal of the database, an error of an opening, and a row that is none of an office are to the store of the
//! office.
ghost use Rattle.std.specs.Prelude.{◌≡◌};
ghost use Rattle.wb_store.specs.Faults.{answer_on, fault_of, unfit};
ghost use Rattle.wb_store.specs.Files.{opening_fault};

use sqlite::{Error, ErrorCode};
use wb_states::{StoreFault, Table};

/// The fault of the store if `sqlite` answers this error for a statement on the table: `Memory` if memory ran out,
/// `Device` if the disk failed or is full, a file would be too big, or an earlier failure closed the database,
/// and for every other error `Damaged` with row 0 of the table. Takes no memory (this project's own).
pub fn fault_of(error: Error, table: Table) -> StoreFault
    ensures value { result ≡ fault_of error table }
{
    match error {
        Error::SqliteFailure(ErrorCode::OutOfMemory) => StoreFault::Memory,
        Error::SqliteFailure(
            ErrorCode::SystemIoFailure
            | ErrorCode::DiskFull
            | ErrorCode::TooBig
            | ErrorCode::Closed,
        ) => StoreFault::Device,
        _ => unfit(table),
    }
}

/// What a statement on the table answered, with the fault of the store in place of an error.
pub(crate) fn answer_on<T: Drop>(answered: Result<T, Error>, table: Table) -> Result<T, StoreFault>
    ensures value { result ≡ answer_on answered table }
{
    match answered {
        Ok(value) => Ok(value),
        Err(error) => Err(fault_of(error, table)),
    }
}

// Only an opening counts rows; a look-up that meets a row of no office, and a number above its
// limit that is to be written, have row 0. A clause says that no database which stands for a
// consistent state gives such a row.
/// The fault of a table if what is read of it, or is to be written to it, is not what an office keeps: `Damaged`, with
/// row 0, since no row of it is blamed. Takes no memory (this project's own).
pub fn unfit(table: Table) -> StoreFault
    ensures { result ≡ unfit table }
{
    StoreFault::Damaged { table, row: 0 }
}

/// The fault of the store if `sqlite` answers this error for files that it was to open: `Memory` if memory ran out,
/// `Device` if a file cannot be opened or is in use, if the disk failed or is full, or if a file would be too big, and
/// for every other error `NotOffice`, because what the files hold is no database, or none that can be read.
/// Takes no memory (this project's own).
pub fn opening_fault(error: Error) -> StoreFault
    ensures value { result ≡ opening_fault error }
{
    match error {
        Error::SqliteFailure(ErrorCode::OutOfMemory) => StoreFault::Memory,
        Error::SqliteFailure(
            ErrorCode::CannotOpen
            | ErrorCode::DatabaseBusy
            | ErrorCode::SystemIoFailure
            | ErrorCode::DiskFull
            | ErrorCode::TooBig
            | ErrorCode::Closed,
        ) => StoreFault::Device,
        _ => StoreFault::NotOffice,
    }
}
