//! Why a text is no version.

ghost use Rattle.std.specs.Prelude.{◌≡◌};
ghost use Rattle.deb_version.specs.Faults.{fault_name};
ghost use Rattle.deb_version.specs.declared.fault.VersionFault.TheVariants.{Memory};

use std::alloc::{AllocError, AllocFailed};
use thiserror::Error;

/// What is wrong with the text of a version: the first fault in the order of the checks
/// (`Empty`, `TooLong`, the epoch, the upstream version, the revision). A place is the
/// byte offset of the first bad byte, counted from 0 at the start of the whole text.
/// Source: Debian Policy 5.6.12; the two limits are this project's own.
#[derive(Clone, Copy, PartialEq, Eq, Debug, Error)]
pub enum VersionFault {
    /// There is no text.
    #[error("the version is empty")]
    Empty,
    /// Nothing stands before the first colon.
    #[error("the epoch before the colon is empty")]
    EpochEmpty,
    /// A character other than a digit stands before the first colon.
    #[error("the epoch is no number")]
    EpochNotNumber,
    /// The epoch is above 2147483647.
    #[error("the epoch is above 2147483647")]
    EpochTooLarge,
    /// Nothing stands between the epoch and the revision.
    #[error("the upstream version is empty")]
    UpstreamEmpty,
    /// The byte at this place may not stand in an upstream version.
    #[error("byte {0} may not stand in an upstream version")]
    UpstreamBad(usize),
    /// Nothing follows the last hyphen.
    #[error("the revision after the hyphen is empty")]
    RevisionEmpty,
    /// The byte at this place may not stand in a revision.
    #[error("byte {0} may not stand in a revision")]
    RevisionBad(usize),
    /// The text has more than 1000 bytes.
    #[error("the version has more than 1000 bytes")]
    TooLong,
    /// Memory ran out.
    #[error("out of memory")]
    Memory,
}

impl VersionFault {
    /// The name of the fault, as the enum writes it, without the place.
    /// Source: this project's own.
    pub fn name(&self) -> &'static str
        ensures { result.now ≡ fault_name self.now }
    {
        match self {
            VersionFault::Empty => "Empty",
            VersionFault::EpochEmpty => "EpochEmpty",
            VersionFault::EpochNotNumber => "EpochNotNumber",
            VersionFault::EpochTooLarge => "EpochTooLarge",
            VersionFault::UpstreamEmpty => "UpstreamEmpty",
            VersionFault::UpstreamBad(_) => "UpstreamBad",
            VersionFault::RevisionEmpty => "RevisionEmpty",
            VersionFault::RevisionBad(_) => "RevisionBad",
            VersionFault::TooLong => "TooLong",
            VersionFault::Memory => "Memory",
        }
    }
}

impl From<AllocError> for VersionFault {
    ghost from_gives = { λ _ fault. fault ≡ Memory };

    fn from(_refused: AllocError) -> VersionFault {
        VersionFault::Memory
    }
}

impl<T: Drop> From<AllocFailed<T>> for VersionFault {
    ghost from_gives = { λ _ fault. fault ≡ Memory };

    fn from(_refused: AllocFailed<T>) -> VersionFault {
        VersionFault::Memory
    }
}
