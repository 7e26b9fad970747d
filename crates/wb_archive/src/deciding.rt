//! The records of an architecture, brought in line with what the tables have of the archive's lists.
ghost use Rattle.std.specs.Prelude.{◌≡◌, ◌++◌, ℕ, not, filter, List, Some, None, IfOk, IfSome, OnOk};
ghost use Rattle.std.specs.FinMap as finite;
ghost use Rattle.std.specs.BTreeSet.{contains};
ghost use Rattle.std.specs.Option.{option_map};
ghost use Rattle.std.specs.Map.Iter.{deref};
ghost use Rattle.deb_relations.specs.Satisfaction.{is_among};
ghost use Rattle.deb_text.specs.Text.{text_cmp};
ghost use Rattle.wb_merge.specs.Changes.{NotesBetween, NotesChange, record_change};
ghost use Rattle.wb_merge.specs.Merged.{change_of, merge_counts, merged};
ghost use Rattle.wb_merge.specs.Steps.{record_at};
ghost use Rattle.wb_archive.specs.Decides.{AreNamesToDecide, listing_at, record_decided, set_record};
ghost use Rattle.wb_archive.specs.Faults.{Advances, StopsAs};
ghost use Rattle.wb_archive.specs.Tables.{HasFittingTake, Tables, with_records};

use crate::MergeTables;
use crate::fault::{MergeFault, asked};
use crate::waited::add_names;
use crate::waits::is_met;
use deb_relations::ArchWords;
use deb_text::Text;
use std::alloc::{AllocError, Global};
use std::collections::{BTreeMap, BTreeSet};
use wb_merge::{Change, RecordChange, after_found, counted, note_change};
use wb_states::{MergeCounts, Record};

/// The record of the source package on the architecture, if it has one.
fn record_of<T: MergeTables>(
    tables: &mut T,
    arch: &Text,
    name: &Text,
) -> Result<Option<Record>, MergeFault<T::Fault>>
    ensures value { (at : Tables) → T.is_clean tables.new → T.holds tables.old at
        → IfOk result (λ found. found ≡ record_at at.now.machine.records (arch.now, name.now)) }
    ensures given { IfOk result (λ found. IfSome found HasFittingTake) }
    ensures same { (at : Tables) → T.is_clean tables.new → T.holds tables.old at → OnOk result (T.holds tables.new at) }
    ensures calls { Advances T.follows (StopsAs T.follows T.fails) tables.old tables.new result }
{
    asked(tables.record(arch, name))
}

/// Exactly these names, as a set.
fn name_set(alloc: Global, names: &[Text]) -> Result<BTreeSet<Text>, AllocError>
    ensures value { IfOk result (λ known. (name : List ℕ) → contains text_cmp known name ≡ is_among name names.now) }
{
    let mut known = BTreeSet::new(alloc);
    add_names(&mut known, names)?;
    Ok(known)
}

/// Adds copies of the names that are not in the set, in their order.
fn add_others(
    names: &mut Vec<Text>,
    known: &BTreeSet<Text>,
    listed: &[Text],
) -> Result<(), AllocError>
    ensures value { OnOk result (names.new.items
        ≡ names.old.items ++ filter (λ name. not (contains text_cmp known.now name)) listed.now) }
{
    for name in listed {
        if !known.contains(name) {
            names.push(name.clone()?)?;
        }
    }
    Ok(())
}

/// The source packages of the architecture that have a record, then those of which there are rows and no record.
fn names_to_decide<T: MergeTables>(
    alloc: Global,
    tables: &mut T,
    arch: &Text,
) -> Result<Vec<Text>, MergeFault<T::Fault>>
    ensures value { (at : Tables) → T.is_clean tables.new → T.holds tables.old at
        → IfOk result (λ names. AreNamesToDecide at.now arch.now names.items) }
    ensures same { (at : Tables) → T.is_clean tables.new → T.holds tables.old at → OnOk result (T.holds tables.new at) }
    ensures calls { Advances T.follows (StopsAs T.follows T.fails) tables.old tables.new result }
{
    let mut names = asked(tables.recorded_names(arch))?;
    let listed = asked(tables.listed_names())?;
    let recorded = name_set(alloc, &names)?;
    add_others(&mut names, &recorded, &listed)?;
    Ok(names)
}

/// The record of a source package after the merge, given the one that it had.
fn found<T: MergeTables>(
    alloc: Global,
    tables: &mut T,
    arch: &ArchWords,
    name: &Text,
    old: Option<&Record>,
) -> Result<Option<Record>, MergeFault<T::Fault>>
    requires given { IfSome (option_map deref old) HasFittingTake }
    ensures value { (at : Tables) → T.is_clean tables.new → T.holds tables.old at
        → option_map deref old.entry ≡ record_at at.now.machine.records (arch.now.name, name.now)
        → IfOk result (λ new. new ≡ record_decided arch.now at.now name.now) }
    ensures given { IfOk result (λ new. IfSome new HasFittingTake) }
    ensures same { (at : Tables) → T.is_clean tables.new → T.holds tables.old at → OnOk result (T.holds tables.new at) }
    ensures calls { Advances T.follows (StopsAs T.follows T.fails) tables.old tables.new result }
{
    let is_met = is_met(alloc, tables, old)?;
    let sources = asked(tables.sources_named(name))?;
    let binaries = asked(tables.binaries_of(name))?;
    match after_found(alloc, old, name, &sources, &binaries, is_met, arch) {
        Ok(new) => Ok(new),
        Err(_) => Err(MergeFault::Memory),
    }
}

/// Gives the source package this record, unless the change is that it keeps its own.
fn put_new<T: MergeTables>(
    tables: &mut T,
    arch: &Text,
    name: &Text,
    new: &Record,
    change: Change,
) -> Result<(), MergeFault<T::Fault>>
    requires given { HasFittingTake new.now }
    ensures value { (at : Tables) → T.is_clean tables.new → T.holds tables.old at
        → change ≡ change_of (record_at at.now.machine.records (arch.now, name.now)) (Some new.now)
        → OnOk result (T.holds tables.new
        (with_records (set_record at.now.machine.records (arch.now, name.now) (Some new.now)) at)) }
    ensures calls { Advances T.follows (StopsAs T.follows T.fails) tables.old tables.new result }
{
    if let Change::Kept = change {
        return Ok(());
    }
    asked(tables.put(arch, name, new))
}

/// Takes the record of the source package out, unless the change is that there was none.
fn take_out<T: MergeTables>(
    tables: &mut T,
    arch: &Text,
    name: &Text,
    change: Change,
) -> Result<(), MergeFault<T::Fault>>
    ensures value { (at : Tables) → T.is_clean tables.new → T.holds tables.old at
        → change ≡ change_of (record_at at.now.machine.records (arch.now, name.now)) None
        → OnOk result (T.holds tables.new
        (with_records (set_record at.now.machine.records (arch.now, name.now) None) at)) }
    ensures calls { Advances T.follows (StopsAs T.follows T.fails) tables.old tables.new result }
{
    if let Change::Absent = change {
        return Ok(());
    }
    asked(tables.remove(arch, name))
}

/// Gives the source package this record, or none, in place of the one that it had, if they differ: nothing is written for
/// one that stays.
fn keep_record<T: MergeTables>(
    tables: &mut T,
    arch: &Text,
    name: &Text,
    old: Option<&Record>,
    new: Option<Record>,
) -> Result<Change, MergeFault<T::Fault>>
    requires given { IfSome new HasFittingTake }
    ensures value { (at : Tables) → T.is_clean tables.new → T.holds tables.old at
        → option_map deref old.entry ≡ record_at at.now.machine.records (arch.now, name.now)
        → OnOk result (T.holds tables.new (with_records (set_record at.now.machine.records (arch.now, name.now) new) at)) }
    ensures change { IfOk result (λ change. change ≡ change_of (option_map deref old.entry) new) }
    ensures calls { Advances T.follows (StopsAs T.follows T.fails) tables.old tables.new result }
{
    let change = Change::of(old, new.as_ref());
    match new {
        Some(new) => put_new(tables, arch, name, &new, change)?,
        None => take_out(tables, arch, name, change)?,
    }
    Ok(change)
}

/// Brings the record of one source package in line with what the tables have of the lists, and notes what becomes of it.
fn decide_one<T: MergeTables>(
    alloc: Global,
    tables: &mut T,
    arch: &ArchWords,
    name: &Text,
    changes: &mut Option<BTreeMap<Text, RecordChange>>,
) -> Result<Change, MergeFault<T::Fault>>
    ensures value { (at : Tables) → T.is_clean tables.new → T.holds tables.old at
        → OnOk result (T.holds tables.new (with_records (set_record at.now.machine.records (arch.now.name, name.now)
        (record_decided arch.now at.now name.now)) at)) }
    ensures change { (at : Tables) → T.is_clean tables.new → T.holds tables.old at
        → IfOk result (λ change. change ≡ change_of (record_at at.now.machine.records (arch.now.name, name.now))
        (record_decided arch.now at.now name.now)) }
    ensures noted { (at : Tables) → T.is_clean tables.new → T.holds tables.old at
        → OnOk result (NotesChange changes.old changes.new name.now
        (record_change (record_at at.now.machine.records (arch.now.name, name.now))
        (record_decided arch.now at.now name.now))) }
    ensures calls { Advances T.follows (StopsAs T.follows T.fails) tables.old tables.new result }
{
    let old = record_of(tables, &arch.name, name)?;
    let known = old.as_ref();
    let new = found(alloc, tables, arch, name, known)?;
    note_change(changes, name, known, new.as_ref());
    keep_record(tables, &arch.name, name, known, new)
}

// `wb_merge` says what the record of one source package becomes; here the names in the tables are
// gone through. `step` says the same of whole lists, which no program holds in memory.
/// Brings the records of the architecture in line with what the tables have of the archive's lists, source package by source
/// package, each from its own rows, and counts what it did: a record is written if it is new or a field of it differs, and
/// taken out if its source package is not listed. All else stays. What becomes of each record is noted in `changes`, if
/// these are noted (this project's own).
pub fn decide<T: MergeTables>(
    alloc: Global,
    tables: &mut T,
    arch: &ArchWords,
    changes: &mut Option<BTreeMap<Text, RecordChange>>,
) -> Result<MergeCounts, MergeFault<T::Fault>>
    ensures value { (at : Tables) → T.is_clean tables.new → T.holds tables.old at
        → OnOk result (T.holds tables.new
        (with_records (merged at.now.machine.records arch.now.name (listing_at arch.now at.now)) at)) }
    ensures counts { (at : Tables) → T.is_clean tables.new → T.holds tables.old at
        → IfOk result (λ counts. counts ≡ merge_counts at.now.machine.records arch.now.name (listing_at arch.now at.now)) }
    ensures noted { (at : Tables) → T.is_clean tables.new → T.holds tables.old at
        → OnOk result (NotesBetween changes.old changes.new at.now.machine.records
        (merged at.now.machine.records arch.now.name (listing_at arch.now at.now)) arch.now.name) }
    ensures calls { Advances T.follows (StopsAs T.follows T.fails) tables.old tables.new result }
{
    let names = names_to_decide(alloc, tables, &arch.name)?;
    let mut counts = MergeCounts {
        added: 0,
        changed: 0,
        kept: 0,
        removed: 0,
    };
    for name in &names {
        counts = counted(counts, decide_one(alloc, tables, arch, name, changes)?);
    }
    Ok(counts)
}
