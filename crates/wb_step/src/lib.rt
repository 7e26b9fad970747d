//! One command is one step of the office's state: it is carried out in memory on what it names,
//! answered and kept whole, or refused and nothing is changed.
#![tactic(auto)]

mod again;
mod builder;
mod carry;
mod changes;
mod checks;
mod forms;
mod holder;
mod holds;
mod keyed;
pub mod laws;
mod lookups;
mod named;
mod office_part;
mod operator;
mod priority;
mod queue;
mod removal;
mod step;
mod text_check;
mod texts;
mod transition;

pub use carry::CarryOut;
pub use office_part::OfficePart;
pub use step::carry_out;
pub use text_check::check_texts;
