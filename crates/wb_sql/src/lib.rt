//! What SQL statements mean over the kit's `sqlite`, with transactions and crashes; and the office's tables: the texts that
//! make them, and what each text means over them.
#![tactic(auto)]

mod beside;
mod changes;
mod columns;
mod comparison;
mod create;
mod definitions;
mod files;
pub mod first_schema;
mod format;
mod id_check;
mod making;
mod reading;
mod recognition;
mod savepoints;
pub mod scratch;
pub mod statements;
mod transaction;
mod upgrading;

pub use changes::{delete, insert, replace, update, upsert};
pub use files::{close, open, surrender};
pub use first_schema::{has_first_tables, has_states};
pub use format::has_format_column;
pub use making::{make_empty_office, make_tables};
pub use reading::read;
pub use recognition::{has_office_tables, lacks_office};
pub use savepoints::{back_to, release, save};
pub use transaction::{CommitError, begin, commit, execute, is_usable, roll_back};
pub use upgrading::{has_first_office_tables, make_second_tables};
