//! One part of a merge: the Packages list of an architecture, merged into the tables or taken back.
ghost use Rattle.std.specs.Prelude.{◌≡◌, ◌≢◌, List, [], None, Some, IfOk, OnOk};
ghost use Rattle.deb_relations.specs.declared.arch.ArchWords.{ArchWords};
ghost use Rattle.deb_text.specs.Lists.{IsIn};
ghost use Rattle.wb_states.specs.declared.reply.PartEnd.TheVariants.{Merged, Refused};
ghost use Rattle.wb_states.specs.declared.scratch.SourceRow.{SourceRow};
ghost use Rattle.wb_merge.specs.Changes.{NotesChanges};
ghost use Rattle.wb_merge.specs.Merged.{merge_counts, merged};
ghost use Rattle.wb_archive.specs.Decides.{listing_at};
ghost use Rattle.wb_archive.specs.Faults.{Advances, StopsAs, refusal_of};
ghost use Rattle.wb_archive.specs.Fills.{sources_wanted};
ghost use Rattle.wb_archive.specs.Parts.{IsListing, IsPartDone, IsPartEnd};
ghost use Rattle.wb_archive.specs.Reads.{MayStandWhere};
ghost use Rattle.wb_archive.specs.Tables.{Contents, Tables, back_at, with_binaries, with_records, with_savepoint, without_savepoint};

use crate::deciding::decide;
use crate::fault::{BadList, MergeFault, asked};
use crate::fill::fill_binaries;
use crate::waited::waited_names;
use crate::{MergeTables, ReadParagraphs};
use deb_relations::ArchWords;
use std::alloc::Global;
use wb_merge::{ArchChanges, no_changes, note_changes};
use wb_states::PartEnd;

/// Sets the savepoint of a part.
fn save<T: MergeTables>(tables: &mut T) -> Result<(), MergeFault<T::Fault>>
    ensures value { (at : Tables) → T.is_clean tables.new → T.holds tables.old at → at.saved ≡ None
        → OnOk result (T.holds tables.new (with_savepoint at)) }
    ensures calls { Advances T.follows (StopsAs T.follows T.fails) tables.old tables.new result }
{
    asked(tables.save())
}

/// Goes back to the savepoint.
fn back<T: MergeTables>(tables: &mut T) -> Result<(), MergeFault<T::Fault>>
    ensures value { (at : Tables) (saved : Contents) → T.is_clean tables.new → T.holds tables.old at → at.saved ≡ Some saved
        → OnOk result (T.holds tables.new (back_at saved at)) }
    ensures calls { Advances T.follows (StopsAs T.follows T.fails) tables.old tables.new result }
{
    asked(tables.back_to())
}

/// Gives up the savepoint.
fn release<T: MergeTables>(tables: &mut T) -> Result<(), MergeFault<T::Fault>>
    ensures value { (at : Tables) → T.is_clean tables.new → T.holds tables.old at → at.saved ≢ None
        → OnOk result (T.holds tables.new (without_savepoint at)) }
    ensures calls { Advances T.follows (StopsAs T.follows T.fails) tables.old tables.new result }
{
    asked(tables.release())
}

/// Takes out the rows of the part.
fn clear<T: MergeTables>(tables: &mut T) -> Result<(), MergeFault<T::Fault>>
    ensures value { (at : Tables) → T.is_clean tables.new → T.holds tables.old at
        → OnOk result (T.holds tables.new (with_binaries [] at)) }
    ensures calls { Advances T.follows (StopsAs T.follows T.fails) tables.old tables.new result }
{
    asked(tables.clear_binaries())
}

/// Takes back what a refused part put into the tables.
fn take_back<T: MergeTables>(tables: &mut T, bad: BadList) -> Result<PartEnd, MergeFault<T::Fault>>
    ensures value { (at : Tables) (saved : Contents) → T.is_clean tables.new → T.holds tables.old at → at.saved ≡ Some saved
        → OnOk result (T.holds tables.new (without_savepoint (back_at saved at))) }
    ensures end { IfOk result (λ end. end ≡ Refused (refusal_of bad)) }
    ensures kind { IfOk result IsPartEnd }
    ensures calls { Advances T.follows (StopsAs T.follows T.fails) tables.old tables.new result }
{
    back(tables)?;
    release(tables)?;
    Ok(PartEnd::Refused {
        refusal: bad.refusal(),
    })
}

/// Merges what a part put into the tables, of which no row is left then, and notes what that changes.
fn keep<T: MergeTables>(
    alloc: Global,
    tables: &mut T,
    arch: &ArchWords,
    notes: &mut Option<Vec<ArchChanges>>,
) -> Result<PartEnd, MergeFault<T::Fault>>
    ensures value { (at : Tables) → T.is_clean tables.new → T.holds tables.old at → at.saved ≢ None
        → OnOk result (T.holds tables.new (without_savepoint (with_binaries []
        (with_records (merged at.now.machine.records arch.now.name (listing_at arch.now at.now)) at)))) }
    ensures end { (at : Tables) → T.is_clean tables.new → T.holds tables.old at
        → IfOk result (λ end. end ≡ Merged (merge_counts at.now.machine.records arch.now.name (listing_at arch.now at.now))) }
    ensures noted { (at : Tables) → T.is_clean tables.new → T.holds tables.old at
        → OnOk result (NotesChanges notes.old notes.new at.now.machine.records
        (merged at.now.machine.records arch.now.name (listing_at arch.now at.now))) }
    ensures kind { IfOk result IsPartEnd }
    ensures calls { Advances T.follows (StopsAs T.follows T.fails) tables.old tables.new result }
{
    let mut changes = no_changes(alloc, notes);
    let counts = decide(alloc, tables, arch, &mut changes)?;
    clear(tables)?;
    release(tables)?;
    note_changes(notes, &arch.name, changes);
    Ok(PartEnd::Merged { counts })
}

/// Merges one part: its Packages list, of which no paragraph was read before, is read into its table, the records of its
/// architecture are brought in line with both lists, and its rows are taken out. A part whose list is refused changes
/// nothing. `archs` are the architectures for which the rows of Sources in the tables were chosen, this one among them. What
/// a part that is not refused changes is noted after what `notes` has, if changes are noted (this project's own).
pub fn merge_part<T: MergeTables, R: ReadParagraphs>(
    alloc: Global,
    tables: &mut T,
    arch: &ArchWords,
    packages: &mut R,
    notes: &mut Option<Vec<ArchChanges>>,
) -> Result<PartEnd, MergeFault<T::Fault>>
    ensures value { (at : Tables) (archs : List ArchWords) (rows : List SourceRow)
        → T.is_clean tables.new → T.holds tables.old at → R.passed packages.old ≡ 0
        → at.saved ≡ None → at.now.binaries ≡ [] → at.now.sources ≡ sources_wanted archs rows → IsIn arch.now archs
        → IfOk result (λ end. MayStandWhere R.may_stand_at packages.old (λ place.
        IsPartDone (IsListing (R.breaks packages.old) arch.now rows place)
        (λ records. T.holds tables.new (with_records records at)
        × NotesChanges notes.old notes.new at.now.machine.records records) at.now.machine.records arch.now.name end)) }
    ensures kind { IfOk result IsPartEnd }
    ensures calls { Advances T.follows (StopsAs T.follows T.fails) tables.old tables.new result }
{
    save(tables)?;
    let waited = waited_names(alloc, tables, &arch.name)?;
    match fill_binaries(alloc, tables, arch, &waited, packages)? {
        Some(bad) => take_back(tables, bad),
        None => keep(alloc, tables, arch, notes),
    }
}
