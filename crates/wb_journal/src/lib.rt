//! The journal of an office: a line for each accepted command, with its time and who gave it; and
//! the layer around any office that writes it. Nothing that an office promises rests on it.
#![tactic(auto)]

mod asker;
mod changes;
mod command;
mod entry;
mod journal;
pub mod laws;

pub use asker::{Asker, NAME_LIMIT};
pub use entry::{entry_line, merge_entry_line};
pub use journal::{Journal, Journaled};
