//! A writer that takes pieces, and fails.

use crate::cut::{Cut, Failure};
use std::alloc::Global;
use std::io::{self, Write};

/// A writer that takes bytes cut in this way.
#[derive(Drop)]
pub(crate) struct CutWriter {
    taken: Vec<u8>,
    cut: Cut,
}

impl CutWriter {
    /// A writer that has taken nothing.
    pub(crate) fn new(alloc: Global, cut: Cut) -> CutWriter {
        CutWriter {
            taken: Vec::new(alloc),
            cut,
        }
    }

    /// The bytes that were taken.
    pub(crate) fn taken(self) -> Vec<u8> {
        self.taken
    }
}

impl Write for CutWriter {
    fn write(&mut self, buf: &[u8]) -> io::Result<usize> {
        match self.cut.fails() {
            Some(Failure::TakesNone) => return Ok(0),
            Some(failure) => return Err(failure.error()),
            None => {}
        }
        let count = buf.len().min(self.cut.step);
        self.taken.extend_from_slice(&buf[..count])?;
        Ok(count)
    }

    fn flush(&mut self) -> io::Result<()> {
        Ok(())
    }
}
