//! The faults of control data.
ghost use Rattle.std.specs.Prelude.{◌≡◌};
ghost use Rattle.deb_control.specs.declared.fault.ControlFaultKind.TheVariants.{Memory};

use std::alloc::{AllocError, AllocFailed};
use thiserror::Error;

/// What is wrong with a paragraph, or why none was read. A paragraph has the
/// first fault of `TooLarge`, `NotUtf8`, and the fault of its first bad line.
/// Of a line the faults come in the order `Orphan`, `NoColon`, `BadName`,
/// `Duplicate`. The order is this project's own.
#[derive(Clone, Copy, Debug, PartialEq, Eq, Error)]
#[error("{}", self.name())]
pub enum ControlFaultKind {
    /// The paragraph has more than 4194304 bytes, line feeds included.
    TooLarge,
    /// The paragraph is not UTF-8.
    NotUtf8,
    /// A line continues a field, and there is no field before it.
    Orphan,
    /// A line that continues no field has no colon.
    NoColon,
    /// What stands before the first colon is not the name of a field.
    BadName,
    /// A name stands twice in the paragraph, without regard to case.
    Duplicate,
    /// A read of the paragraph failed, or the reader has more bytes than a feed reads.
    Read,
    /// Memory ran out.
    Memory,
    /// A call before this one was refused.
    Ended,
}

impl ControlFaultKind {
    ghost use Rattle.deb_control.specs.Faults.{fault_name};

    /// The name of the fault, as in `Duplicate` (this project's own).
    pub fn name(self) -> &'static str
        ensures { result.now ≡ fault_name self }
    {
        match self {
            ControlFaultKind::TooLarge => "TooLarge",
            ControlFaultKind::NotUtf8 => "NotUtf8",
            ControlFaultKind::Orphan => "Orphan",
            ControlFaultKind::NoColon => "NoColon",
            ControlFaultKind::BadName => "BadName",
            ControlFaultKind::Duplicate => "Duplicate",
            ControlFaultKind::Read => "Read",
            ControlFaultKind::Memory => "Memory",
            ControlFaultKind::Ended => "Ended",
        }
    }
}

impl From<AllocError> for ControlFaultKind {
    ghost from_gives = { λ _ kind. kind ≡ Memory };

    fn from(_error: AllocError) -> ControlFaultKind {
        ControlFaultKind::Memory
    }
}

impl<T: Drop> From<AllocFailed<T>> for ControlFaultKind {
    ghost from_gives = { λ _ kind. kind ≡ Memory };

    fn from(_error: AllocFailed<T>) -> ControlFaultKind {
        ControlFaultKind::Memory
    }
}

/// A fault and the paragraph in which it stands.
#[derive(Clone, Copy, Debug, PartialEq, Eq, Error)]
#[error("{kind} in paragraph {paragraph}")]
pub struct ControlFault {
    /// The number of the paragraph, counted from 1; at `Ended` the number
    /// that the fault before it had.
    pub paragraph: u64,
    /// What is wrong.
    pub kind: ControlFaultKind,
}

impl ControlFault {
    ghost use Rattle.deb_control.specs.Faults.{fault_name};

    /// The name of the fault, as in `Duplicate` (this project's own).
    pub fn name(self) -> &'static str
        ensures { result.now ≡ fault_name self.kind }
    {
        self.kind.name()
    }
}
