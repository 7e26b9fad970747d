//! Why a text is no relations.

ghost use Rattle.std.specs.Prelude.{◌≡◌};
ghost use Rattle.deb_relations.specs.Faults.{fault_name};
ghost use Rattle.deb_relations.specs.declared.fault.RelationFault.TheVariants.{Memory};

use deb_version::VersionFault;
use std::alloc::{AllocError, AllocFailed};
use thiserror::Error;

/// What is wrong with the text of relations: `TooLong` before all else, then the first fault from the left,
/// but for a bracket that is not closed in its alternative, only that is reported. The place of `Stray` is a byte
/// offset, counted from 0 at the start of the whole text; a place in the fault of a version, from the version's start.
/// Source: Debian Policy 7.1; the limit is this project's own.
#[derive(Clone, Copy, PartialEq, Eq, Debug, Error)]
pub enum RelationFault {
    /// No name stands where one should: of a package, a qualifier, an architecture or a build profile.
    #[error("a name is missing or bad")]
    BadName,
    /// No operator stands at the front of a pair of parentheses.
    #[error("an operator is missing or bad")]
    BadOperator,
    /// What follows the operator, up to white space or the closing parenthesis, is no version.
    #[error(transparent)]
    BadVersion(VersionFault),
    /// A list of architectures has both plain and negated words.
    #[error("some architectures of a list are negated")]
    Mixed,
    /// A bracket is not closed before the next bar or comma, or the end.
    #[error("a bracket is not closed")]
    Unclosed,
    /// Nothing stands before, between or after the bars of a group.
    #[error("an alternative is empty")]
    EmptyAlternative,
    /// What stands at this place belongs to no part of an alternative.
    #[error("byte {0} belongs to no alternative")]
    Stray(usize),
    /// The text has more than 65536 bytes.
    #[error("the relations have more than 65536 bytes")]
    TooLong,
    /// Memory ran out.
    #[error("out of memory")]
    Memory,
}

impl RelationFault {
    /// The name of the fault, as the enum writes it, without what it carries.
    /// Source: this project's own.
    pub fn name(&self) -> &'static str
        ensures { result.now ≡ fault_name self.now }
    {
        match self {
            RelationFault::BadName => "BadName",
            RelationFault::BadOperator => "BadOperator",
            RelationFault::BadVersion(_) => "BadVersion",
            RelationFault::Mixed => "Mixed",
            RelationFault::Unclosed => "Unclosed",
            RelationFault::EmptyAlternative => "EmptyAlternative",
            RelationFault::Stray(_) => "Stray",
            RelationFault::TooLong => "TooLong",
            RelationFault::Memory => "Memory",
        }
    }
}

impl From<AllocError> for RelationFault {
    ghost from_gives = { λ _ fault. fault ≡ Memory };

    fn from(_refused: AllocError) -> RelationFault {
        RelationFault::Memory
    }
}

impl<T: Drop> From<AllocFailed<T>> for RelationFault {
    ghost from_gives = { λ _ fault. fault ≡ Memory };

    fn from(_refused: AllocFailed<T>) -> RelationFault {
        RelationFault::Memory
    }
}
