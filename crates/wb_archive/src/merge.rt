//! The merge of an archive's lists: Sources is read once, and then each part in its order.
ghost use Rattle.std.specs.Prelude.{◌≡◌, ◌++◌, ℕ, List, [], ◌∷◌, None, Some, IfOk, OnOk};
ghost use Rattle.std.specs.List.{AllByRecursion};
ghost use Rattle.deb_relations.specs.declared.arch.ArchWords.{ArchWords};
ghost use Rattle.wb_merge.specs.Changes.{NotesChanges};
ghost use Rattle.wb_states.specs.Machine.{Machine};
ghost use Rattle.wb_states.specs.declared.reply.PartEnd.TheVariants.{Refused};
ghost use Rattle.wb_archive.specs.Faults.{Advances, StopsAs, refusal_of};
ghost use Rattle.wb_archive.specs.Merges.{BreaksFor, IsGiven, IsMergeOfLists, IsMergeOfParts, IsPartMerged, IsPartUnread, IsUnread, arch_of, archs_of_parts};
ghost use Rattle.wb_archive.specs.Parts.{IsPartEnd};
ghost use Rattle.wb_archive.specs.Sources.{AreAllKnown, AreKnown, HasSources};
ghost use Rattle.wb_archive.specs.Tables.{Tables, with_binaries, with_records, with_sources};

use crate::fault::{BadList, MergeFault, asked};
use crate::fill::fill_sources;
use crate::part::merge_part;
use crate::{MergeTables, ReadParagraphs};
use deb_relations::ArchWords;
use deb_text::Text;
use std::alloc::{AllocError, Global};
use wb_merge::ArchChanges;
use wb_states::{OsCpu, PartEnd, PartReply, Refusal};

/// A part of a merge: an architecture, and the reader of its Packages list.
#[derive(Drop)]
pub struct PartList<R: Drop> {
    /// The architecture.
    pub arch: Text,
    /// Its words, if it was added to the office.
    pub words: Option<OsCpu>,
    /// Its Packages list.
    pub packages: R,
}

/// Adds the architecture of a part, if it was added to the office.
fn add_arch(
    alloc: Global,
    archs: &mut Vec<ArchWords>,
    arch: &Text,
    words: &Option<OsCpu>,
) -> Result<(), AllocError>
    ensures value { OnOk result (archs.new.items ≡ archs.old.items ++ arch_of arch.now words.now) }
{
    if let Some(words) = words {
        let arch = ArchWords::new(alloc, arch.as_str(), words.os.as_str(), words.cpu.as_str())?;
        archs.push(arch)?;
    }
    Ok(())
}

/// The architectures of the parts, of those that were added to the office.
fn archs_of_parts<R: ReadParagraphs>(
    alloc: Global,
    parts: &[PartList<R>],
) -> Result<Vec<ArchWords>, AllocError>
    ensures value { IfOk result (λ archs. archs.items ≡ archs_of_parts parts.now) }
{
    let mut archs = Vec::new(alloc);
    for part in parts {
        add_arch(alloc, &mut archs, &part.arch, &part.words)?;
    }
    Ok(archs)
}

/// Refuses a part for the fault of a list.
fn refused(bad: BadList) -> PartEnd
    ensures value { result ≡ Refused (refusal_of bad) }
    ensures kind { IsPartEnd result }
{
    PartEnd::Refused {
        refusal: bad.refusal(),
    }
}

/// Merges a part, given the fault for which Sources is refused, if it is. The list of a part whose architecture was never added
/// is not read.
fn merge_known<T: MergeTables, R: ReadParagraphs>(
    alloc: Global,
    tables: &mut T,
    bad: Option<BadList>,
    name: &Text,
    words: &Option<OsCpu>,
    packages: &mut R,
    notes: &mut Option<Vec<ArchChanges>>,
) -> Result<PartEnd, MergeFault<T::Fault>>
    ensures value { (at : Tables) (machine : Machine) (text : List ℕ) (archs : List ArchWords)
        → T.is_clean tables.new → T.holds tables.old at → at.saved ≡ None → at.now.binaries ≡ []
        → IsPartUnread R.may_stand_at machine (record { arch = name.now; words = words.now; packages = packages.old })
        → HasSources text archs at.now.sources bad → AreKnown archs name.now words.now
        → IfOk result (IsPartMerged R.may_stand_at machine (IsGiven (λ _. R.breaks packages.old) machine text bad)
        (λ records. T.holds tables.new (with_records records at)
        × NotesChanges notes.old notes.new at.now.machine.records records)
        (record { arch = name.now; words = words.now; packages = packages.old }) at.now.machine.records) }
    ensures unread { words.now ≡ None → packages.new ≡ packages.old }
    ensures kind { IfOk result IsPartEnd }
    ensures calls { Advances T.follows (StopsAs T.follows T.fails) tables.old tables.new result }
{
    let Some(words) = words else {
        return Ok(PartEnd::Refused {
            refusal: Refusal::UnknownArch,
        });
    };
    if let Some(bad) = bad {
        return Ok(refused(bad));
    }
    let (os, cpu) = (words.os.as_str(), words.cpu.as_str());
    let arch = ArchWords::new(alloc, name.as_str(), os, cpu)?;
    merge_part(alloc, tables, &arch, packages, notes)
}

/// Merges a part, and says of which architecture it is.
fn reply_to<T: MergeTables, R: ReadParagraphs>(
    alloc: Global,
    tables: &mut T,
    bad: Option<BadList>,
    part: PartList<R>,
    notes: &mut Option<Vec<ArchChanges>>,
) -> Result<PartReply, MergeFault<T::Fault>>
    ensures value { (at : Tables) (machine : Machine) (text : List ℕ) (archs : List ArchWords)
        → T.is_clean tables.new → T.holds tables.old at → at.saved ≡ None → at.now.binaries ≡ []
        → IsPartUnread R.may_stand_at machine part → HasSources text archs at.now.sources bad
        → AreKnown archs part.arch part.words
        → IfOk result (λ reply. (reply.arch ≡ part.arch) × IsPartMerged R.may_stand_at machine
        (IsGiven (λ _. R.breaks part.packages) machine text bad)
        (λ records. T.holds tables.new (with_records records at)
        × NotesChanges notes.old notes.new at.now.machine.records records)
        part at.now.machine.records reply.end) }
    ensures kind { IfOk result (λ reply. IsPartEnd reply.end) }
    ensures calls { Advances T.follows (StopsAs T.follows T.fails) tables.old tables.new result }
{
    let PartList {
        arch,
        words,
        mut packages,
    } = part;
    let end = merge_known(alloc, tables, bad, &arch, &words, &mut packages, notes)?;
    Ok(PartReply { arch, end })
}

/// Adds a reply after the others.
fn add_reply(replies: &mut Vec<PartReply>, reply: PartReply) -> Result<(), AllocError>
    ensures value { OnOk result (replies.new.items ≡ replies.old.items ++ reply ∷ []) }
{
    replies.push(reply)?;
    Ok(())
}

/// Merges the parts in their order, and notes what each changes.
fn merge_parts<T: MergeTables, R: ReadParagraphs>(
    alloc: Global,
    tables: &mut T,
    bad: Option<BadList>,
    parts: Vec<PartList<R>>,
    notes: &mut Option<Vec<ArchChanges>>,
) -> Result<Vec<PartReply>, MergeFault<T::Fault>>
    ensures value { (at : Tables) (machine : Machine) (text : List ℕ) (archs : List ArchWords)
        → T.is_clean tables.new → T.holds tables.old at → at.saved ≡ None → at.now.binaries ≡ []
        → AllByRecursion (IsPartUnread R.may_stand_at machine) parts.items
        → HasSources text archs at.now.sources bad → AreAllKnown archs parts.items
        → IfOk result (λ replies. IsMergeOfParts R.may_stand_at machine
        (IsGiven (BreaksFor R.breaks parts.items) machine text bad)
        (λ records. T.holds tables.new (with_records records at)
        × NotesChanges notes.old notes.new at.now.machine.records records)
        parts.items at.now.machine.records replies.items) }
    ensures kinds { IfOk result (λ replies. AllByRecursion (λ reply. IsPartEnd reply.end) replies.items) }
    ensures calls { Advances T.follows (StopsAs T.follows T.fails) tables.old tables.new result }
{
    let mut replies = Vec::new(alloc);
    for part in parts {
        let reply = reply_to(alloc, tables, bad, part, notes)?;
        add_reply(&mut replies, reply)?;
    }
    Ok(replies)
}

/// Takes out all rows of the merge.
fn clear_all<T: MergeTables>(tables: &mut T) -> Result<(), MergeFault<T::Fault>>
    ensures value { (at : Tables) → T.is_clean tables.new → T.holds tables.old at
        → OnOk result (T.holds tables.new (with_sources [] (with_binaries [] at))) }
    ensures calls { Advances T.follows (StopsAs T.follows T.fails) tables.old tables.new result }
{
    asked(tables.clear_scratch())
}

/// Merges an archive's lists, of which no paragraph was read before, into the records of the tables, paragraph by
/// paragraph: Sources is read once, into its table, and then each part in its order, within a savepoint of its own. A
/// part whose architecture was never added is not read and is refused with `UnknownArch`; one whose list is refused, or
/// each other if Sources is, changes nothing and says why. In the end no row of the lists is left and no savepoint. What each
/// part that is merged changes is noted after what `notes` has, if changes are noted: nothing else rests on it. The errors
/// are `Memory` if memory ran out, or if a list has 2^63 - 1 paragraphs or more, which cannot all be numbered, and else
/// the first fault of the tables; the caller then takes its transaction back (this project's own).
pub fn merge_lists<T: MergeTables, R: ReadParagraphs>(
    alloc: Global,
    tables: &mut T,
    sources: &mut R,
    parts: Vec<PartList<R>>,
    notes: &mut Option<Vec<ArchChanges>>,
) -> Result<Vec<PartReply>, MergeFault<T::Fault>>
    ensures value { (at : Tables) (machine : Machine) → T.is_clean tables.new → T.holds tables.old at
        → at.saved ≡ None → at.now.sources ≡ [] → at.now.binaries ≡ []
        → IsUnread R.may_stand_at sources.old → AllByRecursion (IsPartUnread R.may_stand_at machine) parts.items
        → IfOk result (λ replies. IsMergeOfLists R.may_stand_at R.breaks machine
        (λ records. T.holds tables.new (with_records records at)
        × NotesChanges notes.old notes.new at.now.machine.records records) sources.old parts.items at.now.machine.records replies.items) }
    ensures kinds { IfOk result (λ replies. AllByRecursion (λ reply. IsPartEnd reply.end) replies.items) }
    ensures calls { Advances T.follows (StopsAs T.follows T.fails) tables.old tables.new result }
{
    let archs = archs_of_parts(alloc, &parts)?;
    let bad = fill_sources(alloc, tables, &archs, sources)?;
    let replies = merge_parts(alloc, tables, bad, parts, notes)?;
    clear_all(tables)?;
    Ok(replies)
}
