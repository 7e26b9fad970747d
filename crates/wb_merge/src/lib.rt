//! What the archive lists for an architecture and what a report says, and what a merge and a report
//! make of the records by it.
#![tactic(auto)]

mod changes;
mod fields;
mod found;
pub mod laws;
mod listing;
mod merge;
mod offers;
mod reader;
mod record;
mod report;
mod report_line;
mod report_moves;
mod rows;
mod scratch;
mod source;

pub use changes::{ArchChanges, RecordChange, no_changes, note_change, note_changes};
pub use found::{after_found, is_listed_for};
pub use listing::{Built, Listed, Listing};
pub use merge::{Change, counted};
pub use record::{after, blank_record};
pub use report::{ReportFault, ReportLine, ReportLines};
pub use report_moves::{after_report, changed_by_report};
pub use scratch::{binary_rows, source_row};
