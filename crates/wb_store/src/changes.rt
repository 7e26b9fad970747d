//! The put of a record, in a transaction of the office or of an upgrade. It speaks of a database that stands for a state of
//! the office, and makes it stand for the state after it. The fault is that of its statement, with its table: `Damaged` with
//! row 0 also if the transaction is over. The caller then rolls back.

ghost use Rattle.std.specs.Prelude.{◌≡◌, ◌↔◌, ◌≤◌, ⊤, IsTrue, IfSome};
ghost use Rattle.std.specs.FinMap as map;
ghost use Rattle.wb_states.specs.Limits.{count_limit};
ghost use Rattle.wb_archive.specs.Tables.{HasFittingTake};
ghost use Rattle.wb_store.specs.Calls.{Changes};
ghost use Rattle.wb_store.specs.Writes as write;

use crate::fault::answer_on;
use deb_text::Text;
use sqlite::{Alter, Connection};
use wb_rows::record_values;
use wb_sql::{statements, upsert};
use wb_states::{COUNT_LIMIT, Record, StoreFault, Table};

/// Whether the take number of the record, if it has one, is at most [`wb_states::COUNT_LIMIT`], as
/// [`put`](crate::Writing::put) and [`replace`](crate::Writing::replace) ask of it. Takes no memory (this project's own).
pub fn has_fitting_take(current: &Record) -> bool
    ensures value { IsTrue result ↔ HasFittingTake current.now }
{
    match current.take {
        Some(take_number) => take_number <= COUNT_LIMIT,
        None => true,
    }
}

/// Gives the source package `source` on the architecture `arch` the record `current`, in place of the one that it had,
/// if any; all else stays. The take number, if there is one, is at most [`wb_states::COUNT_LIMIT`]. The fault is
/// that of the statement on the table of the records, also for an architecture that is not there (this project's own).
pub(crate) fn put<S: Alter>(
    conn: &mut Connection<S>,
    arch: &Text,
    source: &Text,
    current: &Record,
) -> Result<(), StoreFault>
    requires given { IfSome current.now.take (λ take_number. take_number ≤ count_limit) }
    ensures changes { Changes S.Store (write.PutsRecord ((arch.now, source.now), current.now)) (λ _. ⊤)
        (λ machine. record machine {
          records = map.insert machine.records (arch.now, source.now) current.now;
        })
        conn.old conn.new result }
{
    let answered = upsert(
        conn,
        statements::put_record(),
        &record_values(arch, source, current),
    );
    answer_on(answered, Table::SourceRecord)
}
