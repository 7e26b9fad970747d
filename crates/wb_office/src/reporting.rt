//! What the office answers to a report over its tables: the records that its lines name are read,
//! and those that differ are written in one transaction. The lines were read when the texts of the
//! command were tested.
ghost use Rattle.std.specs.Prelude.{◌≡◌, ◌++◌, bytes_eq, nat_le, false, None, Some, map as each};
ghost use Rattle.std.specs.Prelude.{option_and_then, option_map, IfOk, IfErr, OnOk};
ghost use Rattle.std.specs.FinMap as finite;
ghost use Rattle.std.specs.Map.Iter.{deref};
ghost use Rattle.std.specs.Str.{IsUtf8};
ghost use Rattle.sqlite.specs.Held.{state};
ghost use Rattle.sqlite.specs.State.{HasCleanDisk};
ghost use Rattle.wb_states.specs.declared.command.Command.TheVariants as of;
ghost use Rattle.wb_states.specs.declared.store_fault.StoreFault.TheVariants.{Memory};
ghost use Rattle.wb_states.specs.Limits.{count_limit};
ghost use Rattle.wb_states.specs.Lookups.{entry_of};
ghost use Rattle.wb_states.specs.Machine.{IsConsistent, Machine};
ghost use Rattle.wb_states.specs.Refusals.{IsOfMachine, is_of_store};
ghost use Rattle.wb_merge.specs.Changes.{NotesBetween, NotesChanges};
ghost use Rattle.wb_merge.specs.Reported.{changed_by_line, records_reported, row_reported};
ghost use Rattle.wb_merge.specs.Reported.{rows_reported};
ghost use Rattle.wb_step.specs.Checks.{first_refusal, text_refusal};
ghost use Rattle.wb_step.specs.Named.{listed};
ghost use Rattle.wb_step.specs.Step.{lines_said, step};
ghost use Rattle.wb_store.specs.Finds.{Finds};
ghost use Rattle.wb_store.specs.Settled.{IsSettled};
ghost use Rattle.wb_office.specs.Answers.{AreOf, Answers};
ghost use Rattle.wb_office.specs.Rows.{IsAccepted, NotesRow, row_from};

use crate::answer::{Answered, Failure};
use crate::batch::{Batch, keep_batch};
use crate::checks::{has_arch, is_spent};
use crate::named::keyed;
use deb_text::Text;
use sqlite::Alter;
use std::alloc::{AllocError, Global};
use std::collections::BTreeMap;
use wb_merge::{
    ArchChanges, RecordChange, ReportLine, ReportLines, changed_by_report, no_changes, note_change,
    note_changes,
};
use wb_states::command::Report;
use wb_states::{Counts, KeyedRecord, OsCpu, Record, Refusal, Reply, StoreFault};
use wb_store::Store;

/// Tests a report whose texts are not refused against the counts and the architectures of an
/// office.
fn check_report(counts: Counts, archs: &[(Text, OsCpu)], report: &Report) -> Result<(), Refusal>
    requires texts { text_refusal (of.Report report.now) ≡ None }
    ensures good { OnOk result ((machine : Machine) → AreOf counts archs.now machine
        → first_refusal machine (of.Report report.now) ≡ None) }
    ensures room { OnOk result (nat_le count_limit counts.accepted ≡ false) }
    ensures refused { IfErr result (λ refusal. (machine : Machine) → AreOf counts archs.now machine
        → first_refusal machine (of.Report report.now) ≡ Some refusal) }
    ensures kind { IfErr result (λ refusal. IsOfMachine refusal × (is_of_store refusal ≡ false)) }
{
    if !has_arch(archs, &report.arch) {
        return Err(Refusal::UnknownArch);
    }
    if is_spent(counts) {
        return Err(Refusal::Spent);
    }
    Ok(())
}

/// The record of the source package after the line of the report that names it, with its key, if a
/// field of it differs. The faults are those of the look-up, and `Memory`. The database stays as it
/// is; only a failed query may take a transaction back.
fn find_row<S: Alter + Drop>(
    alloc: Global,
    store: &mut Store<S>,
    arch: &Text,
    lines: &ReportLines,
    source: &Text,
    changes: &mut Option<BTreeMap<Text, RecordChange>>,
) -> Result<Option<KeyedRecord>, StoreFault>
    ensures finds { Finds S.Store (λ machine found.
        (option_map entry_of found ≡ row_reported machine.records arch.now lines.now source.now)
        × NotesRow changes.old changes.new source.now (finite.get machine.records (arch.now, source.now))
        (option_map (λ row. row.current) found)) store.old store.new result }
{
    let found = store.get(arch, source)?;
    row_found(alloc, arch, lines, source, found, changes)
}

/// The record that was found, after the line of the report that names it, if a field of it differs.
/// The only fault is `Memory`.
fn changed_if_found(
    alloc: Global,
    found: Option<&Record>,
    line: &ReportLine,
) -> Result<Option<Record>, StoreFault>
    ensures value { IfOk result (λ new.
        new ≡ option_and_then (changed_by_line (Some line.now)) (option_map deref found.entry)) }
    ensures fault { IfErr result (λ fault. fault ≡ Memory) }
{
    match found {
        Some(current) => { changed_by_report(alloc, current, line).or(Err(StoreFault::Memory)) }
        None => Ok(None),
    }
}

/// Notes what becomes of the record that was found of a source package, if it changes.
fn note_row(
    changes: &mut Option<BTreeMap<Text, RecordChange>>,
    source: &Text,
    found: Option<&Record>,
    changed: Option<&Record>,
)
    ensures value { NotesRow changes.old changes.new source.now (option_map deref found.entry)
        (option_map deref changed.entry) }
{
    if let Some(changed) = changed {
        note_change(changes, source, found, Some(changed));
    }
}

/// The same of the record that was found. The only fault is `Memory`.
fn row_found(
    alloc: Global,
    arch: &Text,
    lines: &ReportLines,
    source: &Text,
    found: Option<Record>,
    changes: &mut Option<BTreeMap<Text, RecordChange>>,
) -> Result<Option<KeyedRecord>, StoreFault>
    ensures value { IfOk result (λ row. option_map entry_of row ≡ row_from arch.now lines.now source.now found) }
    ensures noted { IfOk result (λ row. NotesRow changes.old changes.new source.now found
        (option_map (λ row. row.current) row)) }
    ensures fault { IfErr result (λ fault. fault ≡ Memory) }
{
    let Some(line) = lines.line(source) else {
        return Ok(None);
    };
    let changed = changed_if_found(alloc, found.as_ref(), line)?;
    note_row(changes, source, found.as_ref(), changed.as_ref());
    Ok(keyed(arch, source, changed)?)
}

/// Adds the row after the others, if one was found. The only error is that there is no memory for
/// it.
fn push_found(rows: &mut Vec<KeyedRecord>, found: Option<KeyedRecord>) -> Result<(), AllocError>
    ensures ok { OnOk result (rows.new.items ≡ rows.old.items ++ listed found) }
{
    if let Some(row) = found {
        rows.push(row)?;
    }
    Ok(())
}

/// The records that differ after the report, with their keys. The faults are those of the look-ups,
/// and `Memory`. The database stays as it is; only a failed query may take a transaction back.
fn find_rows<S: Alter + Drop>(
    alloc: Global,
    store: &mut Store<S>,
    arch: &Text,
    lines: &ReportLines,
    changes: &mut Option<BTreeMap<Text, RecordChange>>,
) -> Result<Vec<KeyedRecord>, StoreFault>
    ensures finds { Finds S.Store (λ machine rows.
        (each entry_of rows.items ≡ rows_reported machine.records arch.now lines.now)
        × NotesBetween changes.old changes.new machine.records
        (records_reported machine.records arch.now lines.now) arch.now) store.old store.new result }
{
    let sources = lines.sources()?;
    let mut rows = Vec::new(alloc);
    for source in &sources {
        let found = find_row(alloc, store, arch, lines, source, changes)?;
        push_found(&mut rows, found)?;
    }
    Ok(rows)
}

/// Carries out a report with these lines, which the office does not refuse, and notes what it
/// changes.
fn answer_lines<S: Alter + Drop>(
    alloc: Global,
    store: &mut Store<S>,
    counts: Counts,
    report: &Report,
    lines: &ReportLines,
    notes: &mut Option<Vec<ArchChanges>>,
) -> Result<Answered, Failure>
    requires lines { lines.now ≡ lines_said report.now.text }
    requires room { nat_le count_limit counts.accepted ≡ false }
    requires utf8 { IsUtf8 report.now.text }
    ensures answers { Answers S.Store (IsAccepted counts report.now) (of.Report report.now) store.old store.new result }
    ensures noted { HasCleanDisk (state S.Store store.new) → (machine : Machine) → IsConsistent machine
        → IsSettled machine (state S.Store store.old) → IsAccepted counts report.now machine
        → OnOk result (NotesChanges notes.old notes.new machine.records (step machine (of.Report report.now)).1.records) }
{
    let mut changes = no_changes(alloc, notes);
    let rows = match find_rows(alloc, store, &report.arch, lines, &mut changes) {
        Ok(rows) => rows,
        Err(fault) => return Err(Failure::Unread(fault)),
    };
    let counts = Counts {
        handed: counts.handed,
        accepted: counts.accepted + 1,
    };
    let changed = rows.len() as u64;
    match keep_batch(store, &Batch::Puts(&rows), counts) {
        Ok(()) => {
            note_changes(notes, &report.arch, changes);
            Ok(Answered {
                reply: Reply::Reported {
                    accepted: counts.accepted,
                    changed,
                },
                counts,
            })
        }
        Err(failure) => Err(failure),
    }
}

/// Carries out a report with these lines, whose texts are not refused: of the records only those
/// that the lines name are read, and of these only those that differ afterwards are written. What
/// becomes of these is noted.
pub(crate) fn answer_report<S: Alter + Drop>(
    alloc: Global,
    store: &mut Store<S>,
    counts: Counts,
    archs: &[(Text, OsCpu)],
    report: &Report,
    lines: &ReportLines,
    notes: &mut Option<Vec<ArchChanges>>,
) -> Result<Answered, Failure>
    requires texts { text_refusal (of.Report report.now) ≡ None }
    requires lines { lines.now ≡ lines_said report.now.text }
    requires utf8 { IsUtf8 report.now.text }
    ensures answers { Answers S.Store (AreOf counts archs.now) (of.Report report.now) store.old store.new result }
    ensures noted { HasCleanDisk (state S.Store store.new) → (machine : Machine) → IsConsistent machine
        → IsSettled machine (state S.Store store.old) → AreOf counts archs.now machine
        → OnOk result (NotesChanges notes.old notes.new machine.records (step machine (of.Report report.now)).1.records) }
{
    match check_report(counts, archs, report) {
        Ok(()) => answer_lines(alloc, store, counts, report, lines, notes),
        Err(refusal) => Err(Failure::Refused(refusal)),
    }
}
