//! The lists that a merge names: where their files are, and which of them were opened.
#![tactic(auto)]

mod lists;
mod names;
mod none;

pub use lists::{Lists, MergeLists, lists_of};
pub use names::{MergeNames, PartNames};
pub use none::NoLists;
