//! What a run reports to a person, which its answers do not say.
use std::{fmt, io};

/// Why a run stops before its input ends.
#[derive(Clone, Copy, Debug, PartialEq, Eq)]
pub enum Cause {
    /// A read of the input failed.
    Read,
    /// A write of an answer failed, or took no byte.
    Write,
    /// There is no memory for the reply to an accepted command.
    Reply,
    /// The store failed, or the office is closed.
    Store,
    /// More follows the last line that a run reads.
    Lines,
    /// There is no memory for the room that holds a line.
    Room,
}

impl fmt::Display for Cause {
    fn fmt<W: fmt::Write>(&self, f: &mut fmt::Formatter<W>) -> fmt::Result {
        f.write_str(match self {
            Cause::Read => "the input cannot be read",
            Cause::Write => "an answer cannot be written",
            Cause::Reply => "out of memory for the reply to an accepted command",
            Cause::Store => "the store failed, or is closed",
            Cause::Lines => "there are more lines than a run answers",
            Cause::Room => "out of memory for the room that holds a line",
        })
    }
}

/// A message for a person (this project's own). Its text is no part of the answers.
#[derive(Clone, Copy)]
pub enum Message<'a> {
    /// The line of this number, the first being 1, is a line fault for this reason.
    LineFault { line: u64, reason: &'a str },
    /// The words of a single command are a line fault for this reason.
    WordsFault { reason: &'a str },
    /// The file of this name cannot be opened, or a read of it failed.
    ListFailed { name: &'a str, error: &'a io::Error },
    /// The file of this name, which is to be a report, is longer than a report may be.
    ListTooLong { name: &'a str },
    /// The file of this name, which is to be a report, is not UTF-8.
    ListNotText { name: &'a str },
    /// The run stopped.
    Stopped { cause: Cause },
}

impl<'a> fmt::Display for Message<'a> {
    fn fmt<W: fmt::Write>(&self, f: &mut fmt::Formatter<W>) -> fmt::Result {
        match self {
            Message::LineFault { line, reason } => write!(f, "line {line}: {}", reason.trim_end()),
            Message::WordsFault { reason } => f.write_str(reason.trim_end()),
            Message::ListFailed { name, error } => write!(f, "{name}: {error}"),
            Message::ListTooLong { name } => write!(f, "{name}: a file is at most 2 GiB long"),
            Message::ListNotText { name } => write!(f, "{name}: it is not UTF-8"),
            Message::Stopped { cause } => write!(f, "stopped: {cause}"),
        }
    }
}
