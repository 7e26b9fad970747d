//! Relations between packages: their reading, printing and reduction for an architecture, and
//! whether they are satisfied by what is available, after Debian Policy 7.1 and 11.1.1.
#![tactic(auto)]

mod arch;
mod available;
mod fault;
pub mod laws;
mod named;
mod names;
mod parse;
mod print;
mod provided;
mod reduce;
mod relations;
mod scanner;

pub use arch::{ArchWords, arch_matches};
pub use available::Available;
pub use fault::RelationFault;
pub use names::{is_arch_word, is_package_name};
pub use provided::Provided;
pub use relations::{RELATIONS_LIMIT, Relations};
