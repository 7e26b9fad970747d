//! The run over the lines of an input, each of which is answered with one line of JSON; and that of a single command.
#![tactic(auto)]

mod answer;
pub mod laws;
mod lists;
mod message;
mod read;
mod report;
mod run;
mod single;
pub mod status;

pub use lists::RunLists;
pub use message::{Cause, Message};
pub use run::run_lines;
pub use single::run_words;
