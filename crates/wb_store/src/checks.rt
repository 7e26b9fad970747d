//! What an opening tests of the rows of the office's tables.

mod archs;
mod builders;
mod counts;
mod format;
mod forms;
mod records;

pub use archs::check_archs;
pub use builders::check_builders;
pub use counts::check_counts;
pub(crate) use format::other_fault;
pub use records::check_records;
