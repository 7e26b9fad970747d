//! The states of source packages, the records that the office keeps of them, the commands that move
//! them, the order in which they are built, and what the office is asked.
#![tactic(auto)]

mod arch;
pub mod command;
mod counts;
mod keyed;
pub mod laws;
mod limits;
mod moves;
mod names;
mod query;
mod queue;
mod record;
mod refusal;
mod reply;
mod scratch;
mod state;
mod store_fault;
mod subject;

pub use arch::OsCpu;
pub use command::{Command, Part};
pub use counts::{Counts, StateCounts};
pub use keyed::KeyedRecord;
pub use limits::{BUILD_PRIORITY_LIMIT, COUNT_LIMIT, NOTE_LIMIT, REBUILD_LIMIT};
pub use moves::{Move, build_text, move_record};
pub use names::{is_arch, is_builder, is_label, is_os_cpu, is_source};
pub use query::{Answer, Query};
pub use queue::{QueueKey, rank};
pub use record::Record;
pub use refusal::{ListField, ListKind, ListingFault, Refusal};
pub use reply::{Assignment, MergeCounts, PartEnd, PartReply, Reply};
pub use scratch::{BinaryRow, SourceRow};
pub use state::State;
pub use store_fault::{StoreFault, Table};
pub use subject::Subject;
