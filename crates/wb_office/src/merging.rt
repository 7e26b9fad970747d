//! What the office answers to a merge over its tables: the lists are read paragraph by paragraph
//! into the tables, and the records that they change are written, in one transaction.
ghost use Rattle.std.specs.Prelude.{◌≡◌, None, OnOk, false, nat_le};
ghost use Rattle.sqlite.specs.Held.{state};
ghost use Rattle.sqlite.specs.State.{HasCleanDisk, Survives};
ghost use Rattle.wb_states.specs.declared.command.Command.TheVariants as of;
ghost use Rattle.wb_states.specs.Limits.{count_limit};
ghost use Rattle.wb_states.specs.Machine.{IsConsistent, Machine};
ghost use Rattle.wb_merge.specs.Changes.{NotesChanges};
ghost use Rattle.wb_step.specs.Checks.{text_refusal};
ghost use Rattle.wb_step.specs.Step.{step};
ghost use Rattle.wb_store.specs.Settled.{IsSettled};
ghost use Rattle.wb_office.specs.Answers.{Answers, AreOf, merged_answer};
ghost use Rattle.wb_office.specs.MergeCarried.{CarriesLists, EndsStopped};
ghost use Rattle.wb_office.specs.MergeLists.{AreListsNoted, AreListsToRead};

use crate::answer::{Answered, Failure};
use crate::carry::{CarryError, failure};
use crate::merge_lists::{Stop, merge_in};
use crate::part_lists::part_lists;
use deb_control::Paragraphs;
use deb_text::{Items, Text};
use sqlite::Alter;
use std::alloc::Global;
use wb_archive::{PartList, ReadParagraphs};
use wb_merge::ArchChanges;
use wb_states::command::Merge;
use wb_states::{Counts, OsCpu, PartReply, Refusal, Reply, StoreFault, Table};
use wb_store::{Store, unfit};

// A refusal says that the office stands as before and is open, so the store is asked first. The
// refusal all the same would leave the next command to find the store shut.
/// How a merge that stopped failed, after the call that was to take its transaction back. A refused
/// merge leaves the office as it was if its transaction was taken back and the store can still be
/// used; otherwise it is a failure of the store.
fn stopped<S: Alter + Drop>(
    store: &mut Store<S>,
    stop: Stop,
    ended: Result<(), StoreFault>,
) -> Failure
    ensures ends { EndsStopped S.Store stop ended store.old store.new result }
    ensures survives { Survives (state S.Store store.old) (state S.Store store.new) (λ _. ⊥) }
{
    match stop {
        Stop::Failed(fault) => Failure::Uncommitted(failure(fault, ended)),
        Stop::Refused(refusal) => match ended {
            Ok(()) if store.is_usable() => Failure::Refused(refusal),
            Ok(()) => Failure::Uncommitted(CarryError::RollBackFailed(StoreFault::Device)),
            Err(fault) => Failure::Uncommitted(CarryError::RollBackFailed(fault)),
        },
    }
}

/// Merges lists in a transaction of its own, commits it, and notes what it changes. If it fails, the
/// office is as it was, unless the commit is in doubt (this project's own).
pub(crate) fn carry_lists<S: Alter + Drop, R: ReadParagraphs>(
    alloc: Global,
    store: &mut Store<S>,
    counts: Counts,
    sources: &mut R,
    parts: Vec<PartList<R>>,
    notes: &mut Option<Vec<ArchChanges>>,
) -> Result<Vec<PartReply>, Failure>
    requires idle { store.old.in_transaction ≡ false }
    ensures carries { CarriesLists S.Store (AreListsToRead R.may_stand_at sources.old parts.items)
        (AreListsNoted R.may_stand_at R.breaks sources.old parts.items notes.old notes.new) counts
        store.old store.new result }
{
    let mut writing = store.begin();
    let replies = match merge_in(alloc, &mut writing, counts, sources, parts, notes) {
        Ok(replies) => replies,
        Err(stop) => {
            let ended = writing.roll_back();
            return Err(stopped(store, stop, ended));
        }
    };
    match writing.commit() {
        Ok(()) => Ok(replies),
        Err(StoreFault::Memory) => {
            let ended = store.roll_back();
            Err(Failure::Uncommitted(failure(StoreFault::Memory, ended)))
        }
        Err(fault) => Err(Failure::Uncommitted(CarryError::InDoubt(fault))),
    }
}

/// The answer to a merge that was carried out, with these counts before it and these replies.
pub(crate) fn merged(counts: Counts, replies: Vec<PartReply>) -> Answered
    requires room { nat_le count_limit counts.accepted ≡ false }
    ensures value { result ≡ merged_answer counts replies.items }
{
    let accepted = counts.accepted + 1;
    Answered {
        reply: Reply::Merged {
            accepted,
            parts: Items::from(replies),
        },
        counts: Counts {
            handed: counts.handed,
            accepted,
        },
    }
}

/// Carries out a merge whose lists are in memory, and notes what it changes.
pub(crate) fn answer_merge<S: Alter + Drop>(
    alloc: Global,
    store: &mut Store<S>,
    counts: Counts,
    archs: &[(Text, OsCpu)],
    merge: &Merge,
    notes: &mut Option<Vec<ArchChanges>>,
) -> Result<Answered, Failure>
    requires texts { text_refusal (of.Merge merge.now) ≡ None }
    ensures answers { Answers S.Store (AreOf counts archs.now) (of.Merge merge.now) store.old store.new result }
    ensures noted { HasCleanDisk (state S.Store store.new) → (machine : Machine) → IsConsistent machine
        → IsSettled machine (state S.Store store.old) → AreOf counts archs.now machine
        → OnOk result (NotesChanges notes.old notes.new machine.records (step machine (of.Merge merge.now)).1.records) }
{
    if !store.is_idle() {
        return Err(Failure::Unread(unfit(Table::Office)));
    }
    let Ok(parts) = part_lists(alloc, archs, merge.parts.as_slice()) else {
        return Err(Failure::Refused(Refusal::Memory));
    };
    let mut sources = Paragraphs::of(merge.sources.as_slice());
    let replies = carry_lists(alloc, store, counts, &mut sources, parts, notes)?;
    Ok(merged(counts, replies))
}
