//! The merge of an archive's lists, paragraph by paragraph, into tables that a trait describes.
#![tactic(auto)]

mod deciding;
mod fault;
mod fill;
pub mod laws;
mod merge;
mod merge_from;
mod paragraphs;
mod part;
mod rows;
mod tables;
mod tell_changes;
mod waited;
mod waits;

pub use deciding::decide;
pub use fault::{BadList, MergeFault};
pub use fill::{fill_binaries, fill_sources};
pub use merge::{PartList, merge_lists};
pub use merge_from::{ArchList, MergeFrom, check_archs};
pub use paragraphs::ReadParagraphs;
pub use part::merge_part;
pub use tables::MergeTables;
pub use tell_changes::TellChanges;
