//! Why a row is not read.
ghost use Rattle.std.specs.Prelude.{◌≡◌, ◌≢◌};
ghost use Rattle.sqlite.specs.declared.error.ErrorCode.TheVariants.{OutOfMemory};
ghost use Rattle.wb_rows.specs.declared.fault.RowFault.TheVariants.{Malformed};

use deb_version::VersionFault;
use sqlite::{Error, ErrorCode};
use std::alloc::AllocFailed;

/// Why a row is not read as what an office keeps.
#[derive(Clone, Copy, Debug, PartialEq, Eq)]
pub(crate) enum RowFault {
    /// It is not a row that an office writes.
    Malformed,
    /// Memory ran out.
    Memory,
}

impl From<Error> for RowFault {
    ghost use Rattle.sqlite.specs.declared.error.Error.TheVariants.{SqliteFailure};

    ghost from_gives = { λ error fault. fault ≡ Malformed → error ≢ SqliteFailure OutOfMemory };

    fn from(error: Error) -> RowFault {
        match error {
            Error::SqliteFailure(code) => fault_of(code),
            _ => RowFault::Malformed,
        }
    }
}

fn fault_of(code: ErrorCode) -> RowFault
    ensures { result ≡ Malformed → code ≢ OutOfMemory }
{
    match code {
        ErrorCode::OutOfMemory => RowFault::Memory,
        _ => RowFault::Malformed,
    }
}

impl From<VersionFault> for RowFault {
    ghost use Rattle.deb_version.specs.declared.fault.VersionFault.TheVariants.{Memory as NoMemory};

    ghost from_gives = { λ given fault. fault ≡ Malformed → given ≢ NoMemory };

    fn from(given: VersionFault) -> RowFault {
        match given {
            VersionFault::Memory => RowFault::Memory,
            _ => RowFault::Malformed,
        }
    }
}

impl<T: Drop> From<AllocFailed<T>> for RowFault {
    ghost use Rattle.wb_rows.specs.declared.fault.RowFault.TheVariants.{Memory};

    ghost from_gives = { λ _ fault. fault ≡ Memory };

    fn from(_refused: AllocFailed<T>) -> RowFault {
        RowFault::Memory
    }
}
