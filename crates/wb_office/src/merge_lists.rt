//! A merge of an archive's lists in a transaction of the office that is under way.
ghost use Rattle.std.specs.Prelude.{◌≡◌, ◌≤◌, None, Some, false, nat_le, true, IfErr, IfOk, OnOk};
ghost use Rattle.std.specs.List.{list_any};
ghost use Rattle.wb_states.specs.declared.refusal.Refusal.TheVariants.{Spent};
ghost use Rattle.wb_states.specs.declared.store_fault.Table.TheVariants.{Office};
ghost use Rattle.wb_states.specs.Limits.{count_limit};
ghost use Rattle.wb_step.specs.Parts.{is_merged};
ghost use Rattle.wb_archive.specs.Readers.{refusal_by};
ghost use Rattle.wb_store.specs.Faults.{IsUnfit};
ghost use Rattle.wb_office.specs.MergeLists.{AreListsNoted, AreListsToRead, IfFailed, IfRefused};
ghost use Rattle.wb_office.specs.MergeLists.{MergesLists};
ghost use Rattle.wb_office.specs.MergeLists.{counted, fault_in};

use sqlite::Alter;
use std::alloc::Global;
use wb_archive::{MergeFault, PartList, ReadParagraphs, merge_lists};
use wb_merge::ArchChanges;
use wb_states::{COUNT_LIMIT, Counts, PartEnd, PartReply, Refusal, StoreFault, Table};
use wb_store::{Writing, unfit};

/// Why a merge is not made.
#[derive(Drop)]
pub(crate) enum Stop {
    /// It is refused.
    Refused(Refusal),
    /// Memory ran out, or a call of it failed with this fault.
    Failed(StoreFault),
}

/// The fault of the store for which a merge stopped.
fn fault_in(fault: MergeFault<StoreFault>) -> StoreFault
    ensures value { result ≡ fault_in fault }
{
    match fault {
        MergeFault::Memory => StoreFault::Memory,
        MergeFault::Tables(fault) => fault,
    }
}

/// Whether one of the parts was merged.
fn is_any_merged(replies: &[PartReply]) -> bool
    ensures value { result ≡ list_any (λ reply. is_merged reply.end) replies.now }
{
    replies
        .iter()
        .any(|reply| matches!(reply.end, PartEnd::Merged { .. }))
}

// Each part's end is made once, so no list is read a second time, and the refusal takes no memory.
/// The replies to a merge if a part was merged, or else why the first was not.
fn unless_refused(replies: Vec<PartReply>) -> Result<Vec<PartReply>, Refusal>
    ensures ok { IfOk result (λ told. (told.items ≡ replies.items) × (refusal_by replies.items ≡ None)) }
    ensures refused { IfErr result (λ refusal. refusal_by replies.items ≡ Some refusal) }
{
    if is_any_merged(replies.as_slice()) {
        return Ok(replies);
    }
    let Some(first) = replies.into_iter().next() else {
        return Err(Refusal::UnknownArch);
    };
    let PartReply { arch: _, end } = first;
    match end {
        PartEnd::Merged { .. } => Err(Refusal::UnknownArch),
        PartEnd::Refused { refusal } => Err(refusal),
    }
}

/// The counts after a merge, which stops if no more command can be counted, or if a count does not
/// fit.
fn counted(counts: Counts) -> Result<Counts, Stop>
    ensures value { IfOk result (λ after. after ≡ counted counts) }
    ensures room { OnOk result (nat_le count_limit counts.accepted ≡ false) }
    ensures fits { OnOk result (counts.handed ≤ count_limit) }
    ensures refused { IfErr result (IfRefused (λ refusal. (refusal ≡ Spent) × (nat_le count_limit counts.accepted ≡ true))) }
    ensures failed { IfErr result (IfFailed (IsUnfit Office (counts.handed ≤ count_limit))) }
{
    if COUNT_LIMIT <= counts.accepted {
        return Err(Stop::Refused(Refusal::Spent));
    }
    if counts.handed > COUNT_LIMIT {
        return Err(Stop::Failed(unfit(Table::Office)));
    }
    Ok(Counts {
        handed: counts.handed,
        accepted: counts.accepted + 1,
    })
}

/// Merges lists in a transaction that is under way, counts the merge, and notes what it changes.
/// The caller takes the transaction back if the merge stops.
pub(crate) fn merge_in<S: Alter + Drop, R: ReadParagraphs>(
    alloc: Global,
    writing: &mut Writing<'_, S>,
    counts: Counts,
    sources: &mut R,
    parts: Vec<PartList<R>>,
    notes: &mut Option<Vec<ArchChanges>>,
) -> Result<Vec<PartReply>, Stop>
    requires unsaved { writing.now.is_saved ≡ false }
    ensures same_reference { writing.new.store.ghost_name ≡ writing.old.store.ghost_name }
    ensures merges { MergesLists S.Store (AreListsToRead R.may_stand_at sources.old parts.items)
        (AreListsNoted R.may_stand_at R.breaks sources.old parts.items notes.old notes.new) counts
        writing.old.store.now writing.new.store.now result }
{
    let replies = match merge_lists(alloc, writing, sources, parts, notes) {
        Ok(replies) => replies,
        Err(fault) => return Err(Stop::Failed(fault_in(fault))),
    };
    let replies = match unless_refused(replies) {
        Ok(replies) => replies,
        Err(refusal) => return Err(Stop::Refused(refusal)),
    };
    let after = counted(counts)?;
    match writing.set_counts(after) {
        Ok(()) => Ok(replies),
        Err(fault) => Err(Stop::Failed(fault)),
    }
}
