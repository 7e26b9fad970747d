//! The words of a line read with `clap`: the subcommands of the office with their arguments, and
//! what a line asks for.

// A crate of its own: its check takes much memory and time and grows with every subcommand, and no
// other code should be checked again for it.

#![tactic(auto)]

mod argument;
mod builder;
mod escape;
mod fault;
pub mod laws;
mod lists;
mod message;
mod operator;
mod query;
mod service;
mod start;
mod tree;
mod usage;
mod words;

pub use fault::WordsFault;
pub use start::{HELP, Start, start_of};
pub use words::{Invocation, fault_of, invocation_of};
