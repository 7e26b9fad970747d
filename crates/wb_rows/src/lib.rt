//! The rows of the office's tables: what is kept, as the values of a row, and a row, as what it stands for.
#![tactic(auto)]

mod cell;
mod columns;
mod fault;
mod fields;
mod form;
pub mod laws;
mod read;
mod scratch;
mod write;

pub use cell::{Cell, TableRow, cells_of};
pub use form::is_well_formed;
pub use read::{arch_of, builder_of, first_record_of, record_of, state_of};
pub use scratch::{binary_of, binary_values, name_of, source_of, source_values};
pub use write::{arch_values, builder_values, record_values};
