//! The office over tables: it is opened and closed, and each command is one transaction, which
//! stands whole or not at all after any stop; and its lives, each an opening, commands and a stop,
//! after which the files are what a crash may leave.
#![tactic(auto)]

mod answer;
mod batch;
mod carry;
mod change;
mod checks;
mod commands;
mod history;
mod known;
pub mod laws;
mod life;
mod lists;
mod merge_lists;
mod merging;
mod named;
mod office;
mod part_lists;
mod power;
mod query;
mod removing;
mod reporting;
mod rows;

pub use commands::Outcome;
pub use history::{Found, LivesEnd, lives};
pub use life::{SessionEnd, session};
pub use office::Office;
pub use power::{Crashes, Power, cut_power};
