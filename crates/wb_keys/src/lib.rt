//! Keys: what a file of them means, which line a key has, and what its rights allow.
#![tactic(auto)]

mod access;
mod allowed;
mod fault;
mod key;
mod key_file;
mod keys;
pub mod laws;
mod lines;
mod right;

pub use access::{Access, Shown};
pub use allowed::{holder_needed, may, may_ask, take_number_of};
pub use fault::{BadLine, LineFault};
pub use key::{hash_of_key, is_key_form};
pub use key_file::KEY_LIMIT;
pub use keys::{KeyLine, Keys};
pub use lines::Lines;
pub use right::{Kind, Right, Rights};
