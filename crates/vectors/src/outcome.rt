//! What came of cases.

use std::alloc::{AllocError, Global};
use std::fmt;

/// How many cases there were and how many differ, with a line of text for each that does. It prints
/// as `3 cases, 1 differ` and those lines.
#[derive(Debug, Drop)]
pub(crate) struct Outcome {
    cases: u64,
    differ: u64,
    lines: String,
}

impl Outcome {
    /// No cases yet.
    pub(crate) fn new(alloc: Global) -> Outcome {
        Outcome {
            cases: 0,
            differ: 0,
            lines: String::new(alloc),
        }
    }

    /// Adds the case at this place of a text, which differs if what came out is not what was
    /// wanted. The only error is that there is no memory for its line; the counts then stay as they
    /// were.
    pub(crate) fn add(
        &mut self,
        alloc: Global,
        place: u64,
        wanted: &str,
        found: &str,
    ) -> Result<(), AllocError> {
        if found != wanted {
            let line = format!(in alloc; "\n{place}: wanted {wanted:?}, found {found:?}")?;
            self.lines.push_str(line.as_str())?;
            self.differ = self.differ.saturating_add(1);
        }
        self.cases = self.cases.saturating_add(1);
        Ok(())
    }

    /// Adds the case at this place of a text only if it differs: it is another way to try what was
    /// counted already.
    pub(crate) fn compare(
        &mut self,
        alloc: Global,
        place: u64,
        wanted: &str,
        found: &str,
    ) -> Result<(), AllocError> {
        if found != wanted {
            self.add(alloc, place, wanted, found)?;
        }
        Ok(())
    }
}

impl fmt::Display for Outcome {
    fn fmt<W: fmt::Write>(&self, f: &mut fmt::Formatter<W>) -> fmt::Result {
        let lines = self.lines.as_str();
        write!(f, "{} cases, {} differ{lines}", self.cases, self.differ)
    }
}
