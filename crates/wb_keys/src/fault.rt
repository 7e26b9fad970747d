//! What may be wrong with a line of a key file.

use thiserror::Error;

/// Why a line of a key file is malformed (this project's own).
#[derive(Clone, Copy, Debug, PartialEq, Eq, Error)]
pub enum LineFault {
    /// It is not UTF-8.
    #[error("the line is not UTF-8")]
    NotText,
    /// Its name is malformed.
    #[error("the name is malformed: 1 to 64 of A-Z a-z 0-9 . _ -, first a letter or a digit")]
    BadName,
    /// It does not end with a hash, or not in its form.
    #[error("the line does not end with a hash of 64 lower-case hexadecimal digits")]
    BadHash,
    /// It has no right.
    #[error("the line has no right: a right is read, build=BUILDER, port=ARCH or operate")]
    NoRight,
    /// It has a word that is no right.
    #[error("a right is unknown: it is read, build=BUILDER, port=ARCH or operate")]
    UnknownRight,
    /// The name of a builder in a right is malformed.
    #[error("the name of a builder in a right is malformed")]
    BadBuilder,
    /// The name of an architecture in a right is malformed.
    #[error("the name of an architecture in a right is malformed")]
    BadArch,
    /// There were as many lines with a key before it as there may be.
    #[error("there are more than 1000 lines with a key")]
    TooMany,
    /// Its name stands on a line before it.
    #[error("the name stands on an earlier line")]
    NameTwice,
    /// Its hash stands on a line before it.
    #[error("the hash stands on an earlier line")]
    HashTwice,
    /// It is for requests without a key and has a hash.
    #[error("the line '*' has a hash: it is for requests without a key")]
    AnyoneWithHash,
    /// It is for requests without a key, as is a line before it.
    #[error("there is an earlier line '*'")]
    AnyoneTwice,
}

/// The first malformed line of a key file (this project's own).
#[derive(Clone, Copy, Debug, PartialEq, Eq, Error)]
#[error("line {line}: {fault}")]
pub struct BadLine {
    /// Its number, counted from 1. Blank lines and lines that are skipped are counted too.
    pub line: u64,
    /// What is wrong with it.
    pub fault: LineFault,
}
