//! Versions of packages: their text, their three parts, their order and the comparisons of relations, after Debian Policy 5.6.12.
#![tactic(auto)]

mod fault;
pub mod laws;
mod operator;
mod order;
mod parse;
mod version;

pub use fault::VersionFault;
pub use operator::{Op, meets};
pub use order::{ByOrder, compare};
pub use version::Version;
