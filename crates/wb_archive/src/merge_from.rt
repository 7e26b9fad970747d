//! An office that merges an archive's lists as readers give them.
ghost use Rattle.std.specs.Prelude.{◌≡◌, None, Some, Ok, Err, IfErr, IfOk, OnOk, bytes_eq, false};
ghost use Rattle.std.specs.List.{list_any};
ghost use Rattle.wb_states.specs.declared.refusal.Refusal.{Refusal as AnyRefusal};
ghost use Rattle.wb_states.specs.declared.refusal.Refusal.TheVariants.{Closed, Memory, Store as OfStore};
ghost use Rattle.wb_states.specs.declared.store_fault.StoreFault.{StoreFault};
ghost use Rattle.wb_states.specs.Machine.{Machine};
ghost use Rattle.wb_states.specs.Refusals.{IsOfMachine, is_of_store};
ghost use Rattle.wb_step.specs.Offices.{StandsOn};
ghost use Rattle.wb_archive.specs.Readers.{IsMergeOf, MayLeave, archs_refusal, has_bad_arch, has_repeated_arch};

use deb_text::Text;
use std::io::BufRead;
use wb_states::{Refusal, Reply, is_arch};
use wb_step::CarryOut;

/// A Packages list that is to be merged, as its reader gives it.
#[derive(Drop)]
pub struct ArchList<R: Drop> {
    /// The architecture.
    pub arch: Text,
    /// A reader of its Packages list, of which nothing was read.
    pub packages: R,
}

/// Whether the name of an architecture is malformed.
fn has_bad_arch<R: Drop>(lists: &[ArchList<R>]) -> bool
    ensures { result ≡ has_bad_arch lists.now }
{
    lists.iter().any(|list| !is_arch(list.arch.as_str()))
}

/// Whether one of the lists is for the architecture.
fn is_list_for<R: Drop>(lists: &[ArchList<R>], arch: &Text) -> bool
    ensures { result ≡ list_any (λ other. bytes_eq arch.now other.arch) lists.now }
{
    lists.iter().any(|list| arch == &list.arch)
}

/// Whether two lists are for one architecture.
fn has_repeated_arch<R: Drop>(lists: &[ArchList<R>]) -> bool
    ensures { result ≡ has_repeated_arch lists.now }
{
    for place in 0..lists.len() {
        if is_list_for(&lists[place + 1..], &lists[place].arch) {
            return true;
        }
    }
    false
}

/// Tests the names of the architectures that are to be merged; no list is read. The refusals are `BadName` if one is
/// malformed, and else `RepeatedArch` if two are the same. Takes no memory.
pub fn check_archs<R: Drop>(lists: &[ArchList<R>]) -> Result<(), Refusal>
    ensures ok { OnOk result (archs_refusal lists.now ≡ None) }
    ensures refused { IfErr result (λ refusal. archs_refusal lists.now ≡ Some refusal) }
{
    if has_bad_arch(lists) {
        return Err(Refusal::BadName);
    }
    if has_repeated_arch(lists) {
        return Err(Refusal::RepeatedArch);
    }
    Ok(())
}

// A trait beside `CarryOut`, so that an office that is asked over HTTP alone needs no readers, and
// `wb_step` none of this crate. Lists have no place in a `Command`, which would have the type of
// its readers, and so would all that speaks of commands. Bytes that are known before they are read
// are the list; of others there are some that are (`IsMergeOf`).
/// An office that merges an archive's lists as readers give them, so that none of them is held in memory.
pub trait MergeFrom: CarryOut {
    // A refusal with `Read` asks for a feed of the list that it names whose flag is set, or that
    // read as much as it may while more follows (`IsFeedBreak`). The readers are not handed back,
    // so nobody gets that feed: that no body makes one up is found by tests
    // (`tools/tests/test_merges.py`). What is left is as of a command with a list that is no field
    // (`unread_list`), so runs are replays of commands.
    /// Merges a Sources list and a Packages list of each of some architectures, whole or not at all, and answers as
    /// [`carry_out`](CarryOut::carry_out) answers a merge of the bytes that the readers give.
    ///
    /// The names of the architectures are tested before anything is read: `BadName` comes if one is malformed, and
    /// `RepeatedArch` if two are the same. Sources is read once, before the others. A part whose architecture was never
    /// added is refused with `UnknownArch`, and its list is not read. A list of which a read fails, an interrupted one too,
    /// or that has more than 2147483648 bytes is refused with `BadListing` and the fault `Read`, unless a paragraph before
    /// that is at fault; a refused Sources list refuses each other part, with the same fault. `Memory` comes if there is
    /// no memory for a part or a paragraph; the office is then as it was, and is closed only if its store cannot be used on.
    /// `Store` comes if the store failed: the office is closed, and a crash leaves the state before the merge or the one
    /// after it, whole. A closed office, and no other, answers `Closed` (this project's own).
    fn merge_from<R: BufRead + Drop>(
        &mut self,
        sources: R,
        parts: Vec<ArchList<R>>,
    ) -> Result<Reply, Refusal>
        // whatever the store gives back
        ensures shut { Self.is_closed self.old → (result ≡ Err Closed) × Self.is_closed self.new }
        ensures told { result ≡ Err Closed → Self.is_closed self.old }
        ensures stands { ¬ Self.is_closed self.old → StandsOn (Self.is_closed self.new) result }
        ensures names { ¬ Self.is_closed self.old → (refusal : AnyRefusal) → archs_refusal parts.items ≡ Some refusal
            → result ≡ Err refusal }
        // at each state at which it stands
        ensures clean { Self.is_clean self.new → Self.is_clean self.old }
        ensures reply { (machine : Machine) → Self.is_clean self.new → Self.stands_at self.old machine
            → IfOk result (λ reply. (after : Machine)
            × (IsMergeOf R.remaining sources parts.items machine (Ok reply, after) × Self.stands_at self.new after)) }
        ensures refused { (machine : Machine) → Self.is_clean self.new → Self.stands_at self.old machine
            → IfErr result (λ refusal. IsOfMachine refusal → is_of_store refusal ≡ false
            → IsMergeOf R.remaining sources parts.items machine (Err refusal, machine)
            × Self.stands_at self.new machine) }
        ensures memory { (machine : Machine) → Self.is_clean self.new → Self.stands_at self.old machine
            → result ≡ Err Memory → Self.stands_at self.new machine }
        ensures cause { (machine : Machine) → Self.is_clean self.new → Self.stands_at self.old machine
            → ¬ Self.is_closed self.old → result ≡ Err Memory → Self.is_closed self.new → Self.cannot_go_on self.new }
        ensures closed { (machine : Machine) → Self.is_clean self.new → Self.stands_at self.old machine
            → result ≡ Err Closed → Self.is_closed self.new × Self.stands_at self.new machine }
        ensures store { (machine : Machine) → Self.is_clean self.new → Self.stands_at self.old machine
            → (fault : StoreFault) → result ≡ Err (OfStore fault) → (after : Machine)
            × (MayLeave R.remaining sources parts.items machine after × Self.leaves self.new machine after fault) };
}
