//! Why the office refuses a command.
ghost use Rattle.std.specs.Prelude.{◌≡◌};
ghost use Rattle.wb_states.specs.Refusals.{code_of_refusal, is_of_store, name_of_refusal};
ghost use Rattle.wb_states.specs.Refusals.{name_of_list, name_of_field, name_of_listing_fault};

use crate::{State, StoreFault};
use deb_control::ControlFaultKind;
use deb_relations::RelationFault;
use deb_text::Text;
use deb_version::VersionFault;
use std::alloc::{AllocError, AllocFailed};
use std::fmt;
use thiserror::Error;

/// Which of the archive's lists a fault is in.
#[derive(Clone, Copy, Debug, PartialEq, Eq)]
pub enum ListKind {
    /// The list of source packages.
    Sources,
    /// The list of the binary packages of one architecture.
    Packages,
}

impl ListKind {
    /// The list's name in the archive. Takes no memory.
    pub fn name(self) -> &'static str
        ensures value { result.now ≡ name_of_list self }
    {
        match self {
            ListKind::Sources => "Sources",
            ListKind::Packages => "Packages",
        }
    }
}

/// A field of a list that a merge reads (Debian Policy 5.6).
#[derive(Clone, Copy, Debug, PartialEq, Eq)]
pub enum ListField {
    /// The name of a binary package (Debian Policy 5.6.7), or in Sources of a source package.
    Package,
    /// The version of the package (Debian Policy 5.6.12).
    Version,
    /// The architectures of the package (Debian Policy 5.6.8).
    Architecture,
    /// The priority of the package (Debian Policy 5.6.6).
    Priority,
    /// The section of the package (Debian Policy 5.6.5).
    Section,
    /// The source package of a binary package, perhaps with its version (Debian Policy 5.6.1).
    Source,
}

impl ListField {
    /// The field's name as a list writes it. Takes no memory.
    pub fn name(self) -> &'static str
        ensures value { result.now ≡ name_of_field self }
    {
        match self {
            ListField::Package => "Package",
            ListField::Version => "Version",
            ListField::Architecture => "Architecture",
            ListField::Priority => "Priority",
            ListField::Section => "Section",
            ListField::Source => "Source",
        }
    }
}

/// What is wrong with a paragraph of a list.
#[derive(Clone, Copy, Debug, PartialEq, Eq, Error)]
#[error("{}", self.name())]
pub enum ListingFault {
    /// The paragraph is no control data (Debian Policy 5.1).
    Control { kind: ControlFaultKind },
    /// The paragraph lacks this field.
    Missing { field: ListField },
    /// The value of the field is malformed.
    BadValue { field: ListField },
}

impl ListingFault {
    /// The fault's name: that of the control data's fault, `Missing` or `BadValue`. Takes no
    /// memory.
    pub fn name(self) -> &'static str
        ensures value { result.now ≡ name_of_listing_fault self }
    {
        match self {
            ListingFault::Control { kind } => kind.name(),
            ListingFault::Missing { .. } => "Missing",
            ListingFault::BadValue { .. } => "BadValue",
        }
    }
}

/// Why a command was refused. After a refusal the office is as it was.
///
/// If several apply to a command, the first is answered, in this order. `Closed`. The forms of its
/// texts: `BadName`, `BadVersion`, `BadRelations` for relations that cannot be read, `BadNumber`
/// for a number that no rebuild and no build priority has, `TextTooLong`, `BadReport`,
/// `RepeatedArch`. Then what the office has: `UnknownArch`, `BadListing`, `UnknownBuilder`,
/// `WrongArch`, `AfterAhead`, `NotHeld`, `UnknownSource`, `OtherVersion`, `WrongState`,
/// `QueueEmpty`, `AlreadyThere`, `BadRelations` for waits that reduce to nothing or to too much,
/// `BadNumber` for a number that is not above the record's, `StillHeld`, `Spent`. `Memory` and,
/// after the texts, `Store` may come at any point. The order, the numbers and the names are this
/// project's own.
#[derive(Debug, Drop, Error)]
pub enum Refusal {
    /// The architecture was never added, or a merge has no part.
    #[error("the architecture was never added")]
    UnknownArch,
    /// The builder was added for no architecture.
    #[error("the builder was never added")]
    UnknownBuilder,
    /// The builder was added for other architectures alone.
    #[error("the builder was added for other architectures")]
    WrongArch,
    /// The source package has no record on the architecture.
    #[error("the source package has no record")]
    UnknownSource,
    /// The record is of this version, which is not the command's in the order of versions.
    #[error("the record is of version {have}")]
    OtherVersion {
        have: Text,
    },
    /// The record is in this state, from which the command does not move it.
    #[error("the source package is in the state {}", .state.name())]
    WrongState {
        state: State,
    },
    /// No source package of the architecture waits for a builder.
    #[error("no source package waits for a builder")]
    QueueEmpty,
    /// No record is held under the take number: the hold ended, or there never was one.
    #[error("nothing is held under the take number")]
    NotHeld,
    /// The take number after which the builder asks was not given yet: the last was `handed`.
    #[error("the last take number is {handed}")]
    AfterAhead {
        handed: u64,
    },
    /// The architecture, the builder on the architecture, or the record is there already.
    #[error("it is there already")]
    AlreadyThere,
    /// A name, a word, a priority or a section is malformed.
    #[error("a name, a word, a priority or a section is malformed")]
    BadName,
    /// The version has this fault.
    #[error("the version is malformed: {fault}")]
    BadVersion {
        fault: VersionFault,
    },
    /// The relations have this fault, or, if there is none, nothing of them is left for the
    /// architecture.
    #[error(fmt = print_refused_relations)]
    BadRelations {
        fault: Option<RelationFault>,
    },
    /// The number of the rebuild is 0, above 999, or not above the record's; or the build priority
    /// is out of its range.
    #[error("the number is out of range, or the rebuild number is not above the current one")]
    BadNumber,
    /// A list has this fault in the paragraph of this number, counted from 1.
    #[error("{fault} in paragraph {paragraph} of {}", .which.name())]
    BadListing {
        which: ListKind,
        paragraph: u64,
        fault: ListingFault,
    },
    /// The line of this number, counted from 1, of a report is malformed, or it names a source
    /// package again.
    #[error("line {line} is malformed, or names a source package again")]
    BadReport {
        line: u64,
    },
    /// A note, a reason or a message has more than 1000 bytes.
    #[error("a note, a reason or a message has more than 1000 bytes")]
    TextTooLong,
    /// There is no count left: a count of the office is at its limit of 10^12.
    #[error("a count of the office is at its limit")]
    Spent,
    /// Two parts of the merge are for one architecture.
    #[error("two parts are for one architecture")]
    RepeatedArch,
    /// A builder holds the record, or one of the records, that would go or lose its builder.
    #[error("a builder holds it, or a record of it")]
    StillHeld,
    /// The store failed before, and the office answers nothing until it is opened again.
    #[error("the office is closed until it is opened again")]
    Closed,
    /// The store has this fault, other than being out of memory.
    #[error("the store failed: {fault}")]
    Store {
        fault: StoreFault,
    },
    /// It is out of memory now.
    #[error("out of memory")]
    Memory,
}

/// Prints that relations are refused: for their fault, or since nothing of them is left.
fn print_refused_relations<W: fmt::Write>(
    fault: &Option<RelationFault>,
    f: &mut fmt::Formatter<W>,
) -> fmt::Result {
    match fault {
        Some(fault) => write!(f, "the relations are refused: {fault}"),
        None => f.write_str("nothing of the relations is left for the architecture"),
    }
}

impl Refusal {
    /// Whether the office is closed after it: its store failed, or it was closed before. Takes no
    /// memory (this project's own).
    pub fn is_of_store(&self) -> bool
        ensures value { result ≡ is_of_store self.now }
    {
        matches!(self, Refusal::Closed | Refusal::Store { .. })
    }

    /// The refusal's number, which never changes. Takes no memory.
    pub fn code(&self) -> u8
        ensures value { result ≡ code_of_refusal self.now }
    {
        match self {
            Refusal::UnknownArch => 1,
            Refusal::UnknownBuilder => 2,
            Refusal::WrongArch => 3,
            Refusal::UnknownSource => 4,
            Refusal::OtherVersion { .. } => 5,
            Refusal::WrongState { .. } => 6,
            Refusal::QueueEmpty => 7,
            Refusal::NotHeld => 8,
            Refusal::AfterAhead { .. } => 9,
            Refusal::AlreadyThere => 10,
            Refusal::BadName => 11,
            Refusal::BadVersion { .. } => 12,
            Refusal::BadRelations { .. } => 13,
            Refusal::BadNumber => 14,
            Refusal::BadListing { .. } => 15,
            Refusal::BadReport { .. } => 16,
            Refusal::TextTooLong => 17,
            Refusal::Spent => 18,
            Refusal::Closed => 19,
            Refusal::Memory => 20,
            Refusal::Store { .. } => 21,
            Refusal::RepeatedArch => 22,
            Refusal::StillHeld => 23,
        }
    }

    /// The refusal's name, as it is written here. Takes no memory.
    pub fn name(&self) -> &'static str
        ensures value { result.now ≡ name_of_refusal self.now }
    {
        match self {
            Refusal::UnknownArch => "UnknownArch",
            Refusal::UnknownBuilder => "UnknownBuilder",
            Refusal::WrongArch => "WrongArch",
            Refusal::UnknownSource => "UnknownSource",
            Refusal::OtherVersion { .. } => "OtherVersion",
            Refusal::WrongState { .. } => "WrongState",
            Refusal::QueueEmpty => "QueueEmpty",
            Refusal::NotHeld => "NotHeld",
            Refusal::AfterAhead { .. } => "AfterAhead",
            Refusal::AlreadyThere => "AlreadyThere",
            Refusal::BadName => "BadName",
            Refusal::BadVersion { .. } => "BadVersion",
            Refusal::BadRelations { .. } => "BadRelations",
            Refusal::BadNumber => "BadNumber",
            Refusal::BadListing { .. } => "BadListing",
            Refusal::BadReport { .. } => "BadReport",
            Refusal::TextTooLong => "TextTooLong",
            Refusal::Spent => "Spent",
            Refusal::Closed => "Closed",
            Refusal::Memory => "Memory",
            Refusal::Store { .. } => "Store",
            Refusal::RepeatedArch => "RepeatedArch",
            Refusal::StillHeld => "StillHeld",
        }
    }
}

impl From<AllocError> for Refusal {
    ghost use Rattle.wb_states.specs.declared.refusal.Refusal.TheVariants.{Memory};

    ghost from_gives = { λ _ refusal. refusal ≡ Memory };

    fn from(_refused: AllocError) -> Refusal {
        Refusal::Memory
    }
}

impl<T: Drop> From<AllocFailed<T>> for Refusal {
    ghost use Rattle.wb_states.specs.declared.refusal.Refusal.TheVariants.{Memory};

    ghost from_gives = { λ _ refusal. refusal ≡ Memory };

    fn from(_refused: AllocFailed<T>) -> Refusal {
        Refusal::Memory
    }
}

impl From<StoreFault> for Refusal {
    ghost use Rattle.wb_states.specs.Refusals.{IsOfStore};

    ghost from_gives = { IsOfStore };

    fn from(fault: StoreFault) -> Refusal {
        match fault {
            StoreFault::Memory => Refusal::Memory,
            _ => Refusal::Store { fault },
        }
    }
}
