//! The state of the office in the tables of a database: how it is found or made there, its changes, and what is looked up
//! in it.
#![tactic(auto)]

mod architectures;
mod builders;
mod changes;
mod checks;
mod counts;
mod ending;
mod fault;
mod format;
mod holds;
pub mod laws;
mod lookups;
mod merge_tables;
mod merging;
mod opening;
mod packages;
mod preparing;
mod queue;
mod reading;
mod records;
mod refused;
mod rows;
mod scratch;
mod store;
mod upgrading;
mod writing;

pub use changes::has_fitting_take;
pub use checks::{check_archs, check_builders, check_counts, check_records};
pub use fault::{fault_of, opening_fault, unfit};
pub use format::Format;
pub use refused::{RefusedConnection, RefusedFiles};
pub use scratch::{has_scratch_binaries, has_scratch_sources};
pub use store::Store;
pub use writing::Writing;
