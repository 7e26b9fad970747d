//! What the office answers to a command that it accepts.
use crate::Refusal;
use deb_text::{Items, Text};

// An accepted `next` or `take` is a hand-out, and what the builder gets by it is an assignment,
// which other commands can answer too. A retry repeats the assignment, and is no hand-out. `Job` is
// the name of the reply's variant alone.
/// What a builder is handed: one source package on one architecture, which it holds until the hold
/// ends.
#[derive(Debug, Drop)]
pub struct Assignment {
    /// The architecture to build for.
    pub arch: Text,
    /// The source package.
    pub source: Text,
    /// The source version.
    pub version: Text,
    /// The version of the binaries: the source version, followed by `+bN` for a binary-only rebuild
    /// N.
    pub build: Text,
    /// The number of the binary-only rebuild, 0 for none.
    pub number: u16,
    /// Why it is rebuilt.
    pub message: Text,
    /// The take number, a fencing token: at least 1, and each is given once.
    pub take: u64,
}

/// What a merge did to the records of an architecture (this project's own).
#[derive(Clone, Copy, Debug, PartialEq, Eq)]
pub struct MergeCounts {
    /// How many source packages have a record and had none.
    pub added: u64,
    /// How many records differ in some field from what they were.
    pub changed: u64,
    /// How many records are as they were.
    pub kept: u64,
    /// How many source packages have no record any more.
    pub removed: u64,
}

/// The end of a part of a merge.
#[derive(Debug, Drop)]
pub enum PartEnd {
    /// The part is merged.
    Merged { counts: MergeCounts },
    /// The part is refused, and changed nothing.
    Refused { refusal: Refusal },
}

/// What became of a part of a merge.
#[derive(Debug, Drop)]
pub struct PartReply {
    /// The architecture of the part.
    pub arch: Text,
    /// How the part ended.
    pub end: PartEnd,
}

/// The answer to an accepted command. `accepted` counts the accepted commands, this one included.
#[derive(Debug, Drop)]
pub enum Reply {
    /// It is done.
    Done {
        accepted: u64,
    },
    /// The builder has this assignment from now on.
    Job {
        accepted: u64,
        assignment: Assignment,
    },
    /// The builder has this assignment already. Nothing changed: the command does not count, and
    /// `accepted` is as it was.
    Again {
        accepted: u64,
        assignment: Assignment,
    },
    /// The records are as the report says; `changed` of them differ in some field from what they
    /// were.
    Reported {
        accepted: u64,
        changed: u64,
    },
    /// At least one part is merged; this is the end of each, in their order.
    Merged {
        accepted: u64,
        parts: Items<PartReply>,
    },
}
