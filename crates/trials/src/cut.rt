//! How what a reader gives and a writer takes is cut into pieces, and which call fails.

use std::io::{self, ErrorKind};

/// How a call fails.
#[derive(Clone, Copy)]
pub(crate) enum Failure {
    /// It is interrupted.
    Interrupted,
    /// The device has a fault.
    Device,
    /// A write takes no byte; a read is interrupted.
    TakesNone,
}

impl Failure {
    /// The error that says so.
    pub(crate) fn error(self) -> io::Error {
        match self {
            Failure::Device => io::Error::from(ErrorKind::Other),
            Failure::Interrupted | Failure::TakesNone => io::Error::from(ErrorKind::Interrupted),
        }
    }
}

/// At most `step` bytes a call; and one call fails, once, after so many `calls`.
#[derive(Clone, Copy)]
pub(crate) struct Cut {
    pub(crate) step: usize,
    pub(crate) calls: usize,
    pub(crate) failure: Failure,
}

impl Cut {
    /// Counts a call, and says how it fails if it is the one that does.
    pub(crate) fn fails(&mut self) -> Option<Failure> {
        if self.calls == 0 {
            self.calls = usize::MAX;
            return Some(self.failure);
        }
        self.calls -= 1;
        None
    }
}
