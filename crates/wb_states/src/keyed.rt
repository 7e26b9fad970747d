//! A record with its key.

use crate::Record;
use deb_text::Text;

/// A record with its architecture and its source package (this project's own).
#[derive(Debug, Drop)]
pub struct KeyedRecord {
    /// The architecture.
    pub arch: Text,
    /// The source package.
    pub source: Text,
    /// Its record there.
    pub current: Record,
}
