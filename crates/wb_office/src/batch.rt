//! Many changes of the tables, those of a report or of an architecture that is taken away: they are
//! written in one transaction, with the counts.
ghost use Rattle.std.specs.Prelude.{◌≡◌, false, IfErr, OnOk};
ghost use Rattle.wb_states.specs.declared.command.Command.{Command as AnyCommand};
ghost use Rattle.wb_states.specs.declared.store_fault.Table.TheVariants.{Office};
ghost use Rattle.wb_store.specs.Faults.{IsUnfit};
ghost use Rattle.wb_office.specs.Answers.{KeepsBatch};
ghost use Rattle.wb_office.specs.Batches.{CannotChange, CarriesBatch, HaveFit, IsChangeOf};
ghost use Rattle.wb_office.specs.Batches.{WritesBatch};
ghost use Rattle.wb_office.specs.Batches.{batch_changed, batch_of};
ghost use Rattle.wb_office.specs.Turns.{ChangesInTurn};

use crate::answer::Failure;
use crate::carry::{CarryError, failure};
use crate::rows::{put_all, remove_all};
use deb_text::Text;
use sqlite::Alter;
use wb_states::{COUNT_LIMIT, Counts, KeyedRecord, StoreFault, Table};
use wb_store::{Store, Writing, unfit};

/// What is changed beside the counts.
#[derive(Drop)]
pub(crate) enum Batch<'a> {
    /// These records are put at their keys.
    Puts(&'a [KeyedRecord]),
    /// An architecture goes, with its records of these source packages, and with those of these
    /// pairs of a builder and an architecture that are of it.
    Removes(&'a Text, &'a [Text], &'a [(Text, Text)]),
}

/// Tests that both counts fit.
fn check_counts(counts: Counts) -> Result<(), StoreFault>
    ensures ok { OnOk result (HaveFit counts) }
    ensures err { IfErr result (IsUnfit Office (HaveFit counts)) }
{
    if counts.handed > COUNT_LIMIT || counts.accepted > COUNT_LIMIT {
        return Err(unfit(Table::Office));
    }
    Ok(())
}

/// Makes these changes, one after another; all else stays. The fault is that of the statement that
/// failed, or `Damaged` with row 0 of the records at one that is put whose take number is above the
/// limit.
fn write_changes<S: Alter + Drop>(
    writing: &mut Writing<'_, S>,
    batch: &Batch<'_>,
) -> Result<(), StoreFault>
    ensures same_reference { writing.new.store.ghost_name ≡ writing.old.store.ghost_name }
    ensures changes { ChangesInTurn S.Store (IsChangeOf (batch_of batch.now)) (CannotChange (batch_of batch.now))
        (batch_changed (batch_of batch.now)) writing.old.store.now writing.new.store.now result }
{
    match *batch {
        Batch::Puts(rows) => put_all(writing, rows),
        Batch::Removes(arch, names, pairs) => remove_all(writing, arch, names, pairs),
    }
}

/// Writes these changes and counts in a transaction that is under way. The fault is that of the
/// statement that failed, or `Damaged` with row 0 of the office or of the records if a count or a
/// take number is above [`COUNT_LIMIT`]; the caller then takes the transaction back (this project's
/// own).
fn write_batch<S: Alter + Drop>(
    writing: &mut Writing<'_, S>,
    batch: &Batch<'_>,
    counts: Counts,
) -> Result<(), StoreFault>
    ensures same_reference { writing.new.store.ghost_name ≡ writing.old.store.ghost_name }
    ensures writes { WritesBatch S.Store (batch_of batch.now) counts writing.old.store.now writing.new.store.now result }
{
    check_counts(counts)?;
    write_changes(writing, batch)?;
    writing.set_counts(counts)
}

/// Writes these changes and counts in a transaction of its own, and commits it. The errors are
/// those of [`CarryError`], with the fault of `write_batch` or of the commit; after each but
/// `InDoubt` the office is as it was (this project's own).
fn carry_batch<S: Alter + Drop>(
    store: &mut Store<S>,
    batch: &Batch<'_>,
    counts: Counts,
) -> Result<(), CarryError>
    requires idle { store.old.in_transaction ≡ false }
    ensures carries { CarriesBatch S.Store (batch_of batch.now) counts store.old store.new result }
{
    let mut writing = store.begin();
    if let Err(fault) = write_batch(&mut writing, batch, counts) {
        let ended = writing.roll_back();
        return Err(failure(fault, ended));
    }
    match writing.commit() {
        Ok(()) => Ok(()),
        Err(StoreFault::Memory) => {
            let ended = store.roll_back();
            Err(failure(StoreFault::Memory, ended))
        }
        Err(fault) => Err(CarryError::InDoubt(fault)),
    }
}

/// Writes what a command changed to the tables.
pub(crate) fn keep_batch<S: Alter + Drop>(
    store: &mut Store<S>,
    batch: &Batch<'_>,
    counts: Counts,
) -> Result<(), Failure>
    ensures keeps { (command : AnyCommand) → KeepsBatch S.Store command (batch_of batch.now) counts store.old store.new result }
{
    if !store.is_idle() {
        return Err(Failure::Unread(unfit(Table::Office)));
    }
    match carry_batch(store, batch, counts) {
        Ok(()) => Ok(()),
        Err(failure) => Err(Failure::Uncommitted(failure)),
    }
}
