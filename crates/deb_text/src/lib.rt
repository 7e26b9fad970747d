//! What is general: texts and lists that are kept, their orders, lines, words, and small tests.
#![tactic(auto)]

mod items;
mod lines;
mod text;

pub use items::Items;
pub use lines::is_blank_line;
pub use text::Text;
