//! A reader that gives pieces, and fails.

use crate::cut::Cut;
use std::io::{self, Read};

/// A reader that gives its bytes cut in this way.
pub(crate) struct CutReader<'a> {
    left: &'a [u8],
    cut: Cut,
}

impl<'a> CutReader<'a> {
    /// The reader of these bytes.
    pub(crate) fn new(bytes: &'a [u8], cut: Cut) -> CutReader<'a> {
        CutReader { left: bytes, cut }
    }
}

impl<'a> Drop for CutReader<'a> {
    fn drop(self) {
        let CutReader { left: _, cut: _ } = self;
    }
}

impl<'a> Read for CutReader<'a> {
    fn read(&mut self, buf: &mut [u8]) -> io::Result<usize> {
        if let Some(failure) = self.cut.fails() {
            return Err(failure.error());
        }
        let count = buf.len().min(self.cut.step);
        self.left.read(&mut buf[..count])
    }
}
