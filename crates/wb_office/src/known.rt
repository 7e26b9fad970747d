//! What an open office knows of its tables, so that no command has to ask for it.
ghost use Rattle.std.specs.Prelude.{◌≡◌, IfOk, IfErr};
ghost use Rattle.std.specs.FinMap as map;
ghost use Rattle.wb_step.specs.Step.{step};
ghost use Rattle.wb_states.specs.Lookups.{counts_of};
ghost use Rattle.wb_states.specs.Machine.{Machine};
ghost use Rattle.wb_store.specs.Finds.{Finds};
ghost use Rattle.wb_store.specs.Opening.{AreCountsOf};
ghost use Rattle.wb_office.specs.Standing.{AreSummaries, Knows, KnowsCounts};

use deb_text::Text;
use sqlite::Alter;
use std::alloc::{AllocError, Global};
use std::collections::BTreeMap;
use wb_states::{Command, Counts, OsCpu, StateCounts, StoreFault, Subject};
use wb_store::Store;

// Each command needs these, and two statements a command are some 30 of 250 microseconds. No other
// program changes them while the office is open. The counts are taken over once a command is
// committed; the architectures are read by the first command after an opening and after one that
// adds or removes one, and a merge changes none. To count the records of an architecture in each
// state takes 7 milliseconds for 16,000, which monitors and pages ask for again and again: the
// numbers are kept until a command may have changed them. That all this is so at the state is part
// of what it means that an office stands at it (`Knows`). The records too would take the memory of
// the whole office.
/// What an office knows of its tables.
#[derive(Drop)]
pub(crate) struct Known {
    /// The two counts of the office.
    pub(crate) counts: Counts,
    /// All its architectures by name, or none if they have to be read.
    pub(crate) archs: Option<Vec<(Text, OsCpu)>>,
    /// How many records of an architecture are in each state, for those architectures of which it
    /// was asked since a command may have changed it.
    pub(crate) summaries: BTreeMap<Text, StateCounts>,
}

impl Known {
    /// What is known of an office that was just opened: its counts alone. Takes no memory.
    pub(crate) fn new(alloc: Global, counts: Counts) -> Known
        ensures value { KnowsCounts result counts }
    {
        Known {
            counts,
            archs: None,
            summaries: BTreeMap::new(alloc),
        }
    }
}

/// A copy of the architectures. The only error is that there is no memory for it.
pub(crate) fn copied(
    alloc: Global,
    archs: &[(Text, OsCpu)],
) -> Result<Vec<(Text, OsCpu)>, AllocError>
    ensures value { IfOk result (λ copy. copy.items ≡ archs.now) }
{
    let mut copy = Vec::new(alloc);
    for (name, words) in archs {
        copy.push((name.clone()?, words.clone()?))?;
    }
    Ok(copy)
}

/// All architectures of the office, by name. They are read if they are not known, and are known
/// then. The faults are those of the look-up, and `Memory`.
pub(crate) fn find_archs<S: Alter + Drop>(
    alloc: Global,
    store: &mut Store<S>,
    known: &mut Known,
) -> Result<Vec<(Text, OsCpu)>, StoreFault>
    ensures finds { Finds S.Store (λ machine archs. Knows machine known.old
        → (archs.items ≡ map.entries machine.archs) × Knows machine known.new) store.old store.new result }
    ensures counts { known.new.counts ≡ known.old.counts }
    ensures err { IfErr result (λ _. known.new ≡ known.old) }
{
    if let Some(archs) = &known.archs {
        return Ok(copied(alloc, archs)?);
    }
    let found = store.archs()?;
    let archs = copied(alloc, &found)?;
    known.archs = Some(found);
    Ok(archs)
}

/// How many records of the architecture are in each state. They are counted if that is not known,
/// and it is known then. The faults are those of the look-up, and `Memory`.
pub(crate) fn find_counts<S: Alter + Drop>(
    store: &mut Store<S>,
    known: &mut Known,
    arch: &Text,
) -> Result<StateCounts, StoreFault>
    ensures finds { Finds S.Store (λ machine counts. Knows machine known.old
        → (counts ≡ counts_of machine arch.now) × Knows machine known.new)
        store.old store.new result }
    ensures err { IfErr result (λ _. (machine : Machine)
        → Knows machine known.old → Knows machine known.new) }
{
    if let Some(counts) = known.summaries.get(arch) {
        return Ok(*counts);
    }
    let counts = store.counts(arch)?;
    let name = arch.clone()?;
    known.summaries.insert(name, counts)?;
    Ok(counts)
}

/// Forgets how many records are in each state, where an accepted command may have changed it: for
/// the architecture that it names, or for all if it names none.
fn forget_changed(summaries: &mut BTreeMap<Text, StateCounts>, command: &Command)
    ensures stay { (machine : Machine) → AreSummaries machine summaries.old
        → AreSummaries (step machine command.now).1 summaries.new }
{
    match command.names() {
        Subject::Source(arch, _) => {
            summaries.remove(arch);
        }
        Subject::Head(next) => {
            summaries.remove(&next.arch);
        }
        Subject::Nothing | Subject::Taken(_) | Subject::Held(_) => summaries.clear(),
    }
}

/// Takes over that the command was accepted, and that these are the counts then.
pub(crate) fn learn(known: &mut Known, command: &Command, counts: Counts)
    ensures knows { (machine : Machine) → Knows machine known.old
        → AreCountsOf (step machine command.now).1 counts → Knows (step machine command.now).1 known.new }
{
    forget_changed(&mut known.summaries, command);
    known.counts = counts;
    if let Command::AddArch(_) | Command::RemoveArch(_) = command {
        known.archs = None;
    }
}

/// Takes over that lists were merged, and that these are the counts then.
pub(crate) fn learn_merged(known: &mut Known, counts: Counts)
    ensures knows { (machine after : Machine) → Knows machine known.old
        → after.archs ≡ machine.archs → AreCountsOf after counts → Knows after known.new }
{
    known.counts = counts;
    known.summaries.clear();
}
