//! What an opening tests of the records.
ghost use Rattle.std.specs.Prelude.{◌≡◌, ◌↔◌, ◌||◌, ℕ, false, IfOk, IfErr, IfSome, IsTrue, OnOk, nat_eq};
ghost use Rattle.std.specs.BTreeSet.{contains};
ghost use Rattle.std.specs.Ordering.{nat_cmp};
ghost use Rattle.deb_text.specs.Options.{has_value};
ghost use Rattle.wb_states.specs.declared.store_fault.StoreFault.TheVariants.{Damaged};
ghost use Rattle.wb_states.specs.Lookups.{entry_of};
ghost use Rattle.wb_store.specs.Faults.{IsBadRow};
ghost use Rattle.wb_store.specs.Stands.{HasRecordsOf};
ghost use Rattle.wb_store.specs.Checks.{AreBadRecords, AreKept, FitsBeside, HasGoodRecords, HoldsRecords, IsFormedRecord, IsRowOf, IsTestedRow, PassesWith, Tests};
ghost use Rattle.wb_store.specs.Schemas.{AreKeptIn, cells_in, query_of_records, table_of_records};

use super::forms::{Kept, is_record_formed};
use crate::fault::fault_of;
use crate::format::Format;
use deb_text::Text;
use sqlite::{Alter, Connection, Row};
use std::alloc::{AllocFailed, Global};
use std::collections::BTreeSet;
use wb_states::{KeyedRecord, OsCpu, StoreFault};

/// Tests each row of the records in this format, as it is read, beside these architectures with their words, these builders with
/// their architectures, and the greatest take number that was given. A row is good if it is that of a record: its names
/// and its fields have their forms and are such as the format can keep, its rank is that of the record, its architecture is one of these, its holder is one
/// of the builders, for this architecture, its waits can be read and are reduced for the architecture, its take number
/// is from 1 to `handed`, and no row before it has this take number. Of the rows before it only their take numbers are
/// kept. The faults are `Damaged` with the number of the first row that is not good, counted from 1 in the order of
/// the architectures and then of the source packages, `Memory`, also if there are 2^64 - 1 rows or more, and those of
/// the query. The database stays as it is, but for a transaction that a failure of the query takes back (this
/// project's own).
pub fn check_records<S: Alter>(
    alloc: Global,
    conn: &mut Connection<S>,
    format: Format,
    archs: &[(Text, OsCpu)],
    builders: &[(Text, Text)],
    handed: u64,
) -> Result<(), StoreFault>
    ensures tests { Tests S.Store (query_of_records format)
        (λ rows done. HoldsRecords format archs.now builders.now handed rows)
        (AreBadRecords format archs.now builders.now handed) conn.old conn.new result }
    ensures passes { PassesWith S.Store (query_of_records format) (λ machine db. HasRecordsOf format machine db
        × AreKeptIn format machine) (AreKept archs.now builders.now handed)
        (λ machine done. AreKept archs.now builders.now handed machine → HasGoodRecords machine)
        conn.old conn.new result }
{
    let kept = Kept {
        alloc,
        format,
        archs,
        builders,
        handed,
    };
    test_rows(conn, &kept)
}

// A row is let go before the next one is asked for, so memory grows with the take numbers alone:
// all rows at once took 257 MB for 350,000 records, and this takes 139 MB, most of it for the tests
// of `sqlite` itself. Parts by LIMIT and OFFSET would each read the rows before them again. A bad
// row is the first of the whole answer, since the rows that were read begin it.
/// Tests the rows of the records, each as it is read.
fn test_rows<S: Alter>(conn: &mut Connection<S>, kept: &Kept<'_>) -> Result<(), StoreFault>
    ensures tests { Tests S.Store (query_of_records kept.now.format)
        (λ rows done. HoldsRecords kept.now.format kept.now.archs.now kept.now.builders.now kept.now.handed rows)
        (AreBadRecords kept.now.format kept.now.archs.now kept.now.builders.now kept.now.handed) conn.old conn.new result }
{
    let mut takes = BTreeSet::new(kept.alloc);
    let table = kept.format.table_of_records();
    let mut rows = match conn.query(kept.format.all_records(), &[]) {
        Ok(rows) => rows,
        Err(error) => return Err(fault_of(error, table)),
    };
    'rows: for before in 0..u64::MAX {
        match rows.next() {
            Ok(Some(row)) => test_row(row, before + 1, kept, &mut takes)?,
            Ok(None) => return Ok(()),
            Err(error) => return Err(fault_of(error, table)),
        }
    }
    // There is no number for another row.
    Err(StoreFault::Memory)
}

/// Tests the row of this number beside the take numbers of the rows before it, and adds its own to them.
fn test_row(
    row: &Row,
    number: u64,
    kept: &Kept<'_>,
    takes: &mut BTreeSet<u64>,
) -> Result<(), StoreFault>
    ensures value { IfOk result (λ done.
        IsTestedRow kept.now.format kept.now.archs.now kept.now.builders.now kept.now.handed
        (contains nat_cmp takes.old) (contains nat_cmp takes.new) row.now) }
    ensures err { IfErr result (IsBadRow (table_of_records kept.now.format) number (IsRowOf (cells_in kept.now.format)
        (FitsBeside kept.now.format kept.now.archs.now kept.now.builders.now kept.now.handed (contains nat_cmp takes.old)) row.now)) }
{
    let read = record_in(row, number, kept)?;
    if is_own(takes, read.current.take)? {
        Ok(())
    } else {
        Err(damaged(kept.format, number))
    }
}

/// The record in the row of this number, if it has its form.
fn record_in(row: &Row, number: u64, kept: &Kept<'_>) -> Result<KeyedRecord, StoreFault>
    ensures value { IfOk result (λ read. (row.now ≡ cells_in kept.now.format (entry_of read))
        × IsFormedRecord kept.now.format kept.now.archs.now kept.now.builders.now kept.now.handed (entry_of read)) }
    ensures err { IfErr result (IsBadRow (table_of_records kept.now.format) number (IsRowOf (cells_in kept.now.format)
        (IsFormedRecord kept.now.format kept.now.archs.now kept.now.builders.now kept.now.handed) row.now)) }
{
    let Some(read) = kept.format.record_in(row)? else {
        return Err(damaged(kept.format, number));
    };
    if is_record_formed(&read, kept)? {
        Ok(read)
    } else {
        Err(damaged(kept.format, number))
    }
}

/// Whether the take number, if there is one, is not among these; it is then added to them.
fn is_own(takes: &mut BTreeSet<u64>, take: Option<u64>) -> Result<bool, AllocFailed<u64>>
    ensures value { IfOk result (λ own. IsTrue own
        ↔ IfSome take (λ take_number. contains nat_cmp takes.old take_number ≡ false)) }
    ensures among { OnOk result ((n : ℕ) → contains nat_cmp takes.new n
        ≡ (contains nat_cmp takes.old n || has_value (nat_eq n) take)) }
{
    match take {
        Some(take_number) => takes.insert(take_number),
        None => Ok(true),
    }
}

/// The fault of a record's row.
fn damaged(format: Format, row: u64) -> StoreFault
    ensures { result ≡ Damaged (table_of_records format) row }
{
    StoreFault::Damaged {
        table: format.table_of_records(),
        row,
    }
}
