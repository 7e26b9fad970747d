//! Control data: paragraphs of fields, as Debian's package indices and
//! `debian/control` files hold them, after Debian Policy 5.1.
//! Text is read where it lies: names and values are slices of the input.
#![tactic(auto)]

mod fault;
mod feed;
mod field;
mod fields;
pub mod laws;
mod lines;
mod owned;
mod paragraph;
mod paragraphs;
mod source;

pub use fault::{ControlFault, ControlFaultKind};
pub use feed::Feed;
pub use field::{Field, Lines};
pub use fields::Fields;
pub use owned::{OwnedFields, OwnedParagraph};
pub use paragraph::Paragraph;
pub use paragraphs::Paragraphs;
