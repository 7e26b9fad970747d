//! The lists of a merge, by the names of their files.
use deb_text::{Items, Text};

/// A part of a merge, as a line or a request names it.
#[derive(Debug, Drop)]
pub struct PartNames {
    /// The architecture.
    pub arch: Text,
    /// The name of the file that has its Packages list.
    pub packages: Text,
}

/// A merge, as a request names it.
#[derive(Debug, Drop)]
pub struct MergeNames {
    /// The name of the file that has the Sources list.
    pub sources: Text,
    /// Its parts.
    pub parts: Items<PartNames>,
}
