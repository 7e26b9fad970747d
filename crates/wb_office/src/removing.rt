//! What the office answers where an architecture is taken away, over its tables: the names of its
//! records and the pairs of the builders are read, and it goes with what it has in one transaction.
ghost use Rattle.std.specs.Prelude.{◌≡◌, nat_le, false, None, Some, IfErr, OnOk};
ghost use Rattle.wb_states.specs.declared.command.Command.TheVariants as of;
ghost use Rattle.wb_states.specs.Limits.{count_limit};
ghost use Rattle.wb_states.specs.Machine.{Machine};
ghost use Rattle.wb_states.specs.Refusals.{IsOfMachine, is_of_store};
ghost use Rattle.wb_step.specs.Arguments.{OfArch};
ghost use Rattle.wb_step.specs.Checks.{first_refusal, is_held, text_refusal};
ghost use Rattle.wb_store.specs.Finds.{Finds};
ghost use Rattle.wb_office.specs.Answers.{AreOf, Answers};
ghost use Rattle.wb_office.specs.Removing.{AreWithArch, IsToGo, has_held};

use crate::answer::{Answered, Failure};
use crate::batch::{Batch, keep_batch};
use crate::checks::{has_arch, is_spent};
use deb_text::Text;
use sqlite::Alter;
use wb_states::command::RemoveArch;
use wb_states::{Counts, OsCpu, Refusal, Reply, StateCounts, StoreFault};
use wb_store::Store;

/// Whether a record is held of an architecture that has so many in each state.
fn has_held(counts: &StateCounts) -> bool
    ensures value { result ≡ has_held counts.now }
{
    counts.building > 0 || counts.built > 0 || counts.uploaded > 0
}

/// Whether a builder holds a record of the architecture: none if it was never added. The faults are
/// those of the look-up, which reads no record.
fn find_held<S: Alter + Drop>(
    store: &mut Store<S>,
    removal: &RemoveArch,
) -> Result<bool, StoreFault>
    ensures finds { Finds S.Store (λ machine is_one_held. is_one_held ≡ is_held machine (OfArch removal.now))
        store.old store.new result }
{
    let counts = store.counts(&removal.name)?;
    Ok(has_held(&counts))
}

/// The source packages of the architecture that have a record, and all pairs of a builder and an
/// architecture. The faults are those of the look-ups.
fn find_parts<S: Alter + Drop>(
    store: &mut Store<S>,
    arch: &Text,
) -> Result<(Vec<Text>, Vec<(Text, Text)>), StoreFault>
    ensures finds { Finds S.Store (λ machine found. AreWithArch arch.now found.0.items found.1.items machine)
        store.old store.new result }
{
    let names = store.recorded_names(arch)?;
    let pairs = store.builders()?;
    Ok((names, pairs))
}

/// Tests whether an architecture may go of which a record is held or none is, against the counts
/// and the architectures of an office. The name is not refused.
fn check_removal(
    counts: Counts,
    archs: &[(Text, OsCpu)],
    removal: &RemoveArch,
    is_one_held: bool,
) -> Result<(), Refusal>
    requires texts { text_refusal (of.RemoveArch removal.now) ≡ None }
    ensures good { OnOk result ((machine : Machine) → AreOf counts archs.now machine
        → is_one_held ≡ is_held machine (OfArch removal.now)
        → first_refusal machine (of.RemoveArch removal.now) ≡ None) }
    ensures room { OnOk result (nat_le count_limit counts.accepted ≡ false) }
    ensures refused { IfErr result (λ refusal. (machine : Machine) → AreOf counts archs.now machine
        → is_one_held ≡ is_held machine (OfArch removal.now)
        → first_refusal machine (of.RemoveArch removal.now) ≡ Some refusal) }
    ensures kind { IfErr result (λ refusal. IsOfMachine refusal × (is_of_store refusal ≡ false)) }
{
    if !has_arch(archs, &removal.name) {
        return Err(Refusal::UnknownArch);
    }
    if is_one_held {
        return Err(Refusal::StillHeld);
    }
    if is_spent(counts) {
        return Err(Refusal::Spent);
    }
    Ok(())
}

/// Takes an architecture away of which no record is held, with its records and the pairs of the
/// builders that are of it.
fn take_away<S: Alter + Drop>(
    store: &mut Store<S>,
    counts: Counts,
    removal: &RemoveArch,
) -> Result<Answered, Failure>
    requires room { nat_le count_limit counts.accepted ≡ false }
    ensures answers { Answers S.Store (IsToGo counts removal.now) (of.RemoveArch removal.now)
        store.old store.new result }
{
    let (names, pairs) = match find_parts(store, &removal.name) {
        Ok(parts) => parts,
        Err(fault) => return Err(Failure::Unread(fault)),
    };
    let counts = Counts {
        handed: counts.handed,
        accepted: counts.accepted + 1,
    };
    match keep_batch(
        store,
        &Batch::Removes(&removal.name, &names, &pairs),
        counts,
    ) {
        Ok(()) => Ok(Answered {
            reply: Reply::Done {
                accepted: counts.accepted,
            },
            counts,
        }),
        Err(failure) => Err(failure),
    }
}

/// Takes an architecture away whose name is not refused, with its records and the pairs of the
/// builders that are of it, unless it was never added or one of the records is held.
pub(crate) fn answer_removal<S: Alter + Drop>(
    store: &mut Store<S>,
    counts: Counts,
    archs: &[(Text, OsCpu)],
    removal: &RemoveArch,
) -> Result<Answered, Failure>
    requires texts { text_refusal (of.RemoveArch removal.now) ≡ None }
    ensures answers { Answers S.Store (AreOf counts archs.now) (of.RemoveArch removal.now) store.old store.new result }
{
    let is_one_held = match find_held(store, removal) {
        Ok(is_one_held) => is_one_held,
        Err(fault) => return Err(Failure::Unread(fault)),
    };
    match check_removal(counts, archs, removal, is_one_held) {
        Ok(()) => take_away(store, counts, removal),
        Err(refusal) => Err(Failure::Refused(refusal)),
    }
}
