//! What a command names, as it is found in the tables.
ghost use Rattle.std.specs.Prelude.{◌≡◌, [], ◌∷◌, IfOk, cond, map as each};
ghost use Rattle.std.specs.FinSet as set;
ghost use Rattle.std.specs.Option.{option_map};
ghost use Rattle.wb_states.specs.Machine.{archs_of};
ghost use Rattle.wb_states.specs.Lookups.{entry_of};
ghost use Rattle.wb_step.specs.Named.{pairs_named};
ghost use Rattle.wb_step.specs.Targets.{record_named};
ghost use Rattle.wb_office.specs.Answers.{AreOf};
ghost use Rattle.wb_store.specs.Finds.{Finds};
ghost use Rattle.wb_office.specs.Sought.{HasFound, first_named, others_named};

use crate::named::names::Subject;
use deb_text::Text;
use sqlite::Alter;
use std::alloc::{AllocError, Global};
use wb_states::{Command, Counts, KeyedRecord, OsCpu, Record, StoreFault, command};
use wb_store::Store;

/// What a command names of an office, as it is known or was found in the tables.
#[derive(Drop)]
pub(crate) struct FoundPart {
    /// The two counts of the office.
    pub(crate) counts: Counts,
    /// All its architectures.
    pub(crate) archs: Vec<(Text, OsCpu)>,
    /// The first record that is named.
    pub(crate) first: Option<KeyedRecord>,
    /// The other records that are named.
    pub(crate) others: Vec<KeyedRecord>,
    /// The pairs of a builder and an architecture that are named.
    pub(crate) pairs: Vec<(Text, Text)>,
}

/// The record that was found, with its key. The only error is that there is no memory for it.
pub(crate) fn keyed(
    arch: &Text,
    source: &Text,
    found: Option<Record>,
) -> Result<Option<KeyedRecord>, AllocError>
    ensures value { IfOk result (λ row. option_map entry_of row
        ≡ option_map (λ current. ((arch.now, source.now), current)) found) }
    ensures record { IfOk result (λ row. option_map (λ row. row.current) row ≡ found) }
{
    match found {
        None => Ok(None),
        Some(current) => Ok(Some(KeyedRecord {
            arch: arch.clone()?,
            source: source.clone()?,
            current,
        })),
    }
}

/// The record of the source package on the architecture, with its key, or none if it has no record
/// there. The faults are those of the look-up, and `Memory`.
fn find_source<S: Alter + Drop>(
    store: &mut Store<S>,
    arch: &Text,
    source: &Text,
) -> Result<Option<KeyedRecord>, StoreFault>
    ensures finds { Finds S.Store (λ machine row. option_map entry_of row
        ≡ record_named machine arch.now source.now) store.old store.new result }
{
    let found = store.get(arch, source)?;
    Ok(keyed(arch, source, found)?)
}

/// The first record that is named, or none if there is no such record. The faults are those of the
/// look-up, and `Memory`.
fn find_first<S: Alter + Drop>(
    store: &mut Store<S>,
    names: &Subject<'_>,
) -> Result<Option<KeyedRecord>, StoreFault>
    ensures finds { Finds S.Store (λ machine row. option_map entry_of row
        ≡ first_named machine names.now) store.old store.new result }
{
    match *names {
        Subject::Nothing | Subject::Held(_) => Ok(None),
        Subject::Source(arch, source) => find_source(store, arch, source),
        Subject::Taken(take_number) => store.by_take(take_number),
        Subject::Head(next) => store.head(&next.arch),
    }
}

/// The other records that are named, by take number: what a builder holds that asks again, or that
/// is taken from an architecture. The faults are those of the look-up.
fn find_others<S: Alter + Drop>(
    alloc: Global,
    store: &mut Store<S>,
    names: &Subject<'_>,
) -> Result<Vec<KeyedRecord>, StoreFault>
    ensures finds { Finds S.Store (λ machine rows. each entry_of rows.items
        ≡ others_named machine names.now) store.old store.new result }
{
    match *names {
        Subject::Head(next) if next.after.is_some() => store.held_by(&next.builder),
        Subject::Held(builder) => store.held_by(builder),
        _ => Ok(Vec::new(alloc)),
    }
}

/// The builder with each of these architectures. The only error is that there is no memory for it.
fn pairs_with(
    alloc: Global,
    builder: &Text,
    archs: Vec<Text>,
) -> Result<Vec<(Text, Text)>, AllocError>
    ensures value { IfOk result (λ pairs. pairs.items
        ≡ each (λ arch. (builder.now, arch)) archs.items) }
{
    let mut pairs = Vec::new(alloc);
    for arch in archs {
        pairs.push((builder.clone()?, arch))?;
    }
    Ok(pairs)
}

/// The builder with each architecture for which it was added. The faults are those of the look-up,
/// and `Memory`.
fn find_pairs_of<S: Alter + Drop>(
    alloc: Global,
    store: &mut Store<S>,
    builder: &Text,
) -> Result<Vec<(Text, Text)>, StoreFault>
    ensures finds { Finds S.Store (λ machine pairs. pairs.items
        ≡ each (λ arch. (builder.now, arch)) (archs_of machine builder.now)) store.old store.new result }
{
    let archs = store.archs_of(builder)?;
    Ok(pairs_with(alloc, builder, archs)?)
}

/// The pair of the builder and the architecture, if it is there. The only error is that there is no
/// memory for it.
fn pair_if(
    alloc: Global,
    is_there: bool,
    adds: &command::AddBuilder,
) -> Result<Vec<(Text, Text)>, AllocError>
    ensures value { IfOk result (λ pairs. pairs.items
        ≡ cond is_there ((adds.now.name, adds.now.arch) ∷ []) []) }
{
    let mut pairs = Vec::new(alloc);
    if is_there {
        pairs.push((adds.name.clone()?, adds.arch.clone()?))?;
    }
    Ok(pairs)
}

/// The pair of the builder and the architecture, if it was added. The faults are those of the
/// look-up, and `Memory`.
fn find_pair<S: Alter + Drop>(
    alloc: Global,
    store: &mut Store<S>,
    adds: &command::AddBuilder,
) -> Result<Vec<(Text, Text)>, StoreFault>
    ensures finds { Finds S.Store (λ machine pairs. pairs.items
        ≡ cond (set.contains machine.builders (adds.now.name, adds.now.arch))
        ((adds.now.name, adds.now.arch) ∷ []) []) store.old store.new result }
{
    let is_there = store.has_builder(&adds.name, &adds.arch)?;
    Ok(pair_if(alloc, is_there, adds)?)
}

/// The pairs of a builder and an architecture that the command names. The faults are those of the
/// look-up, and `Memory`.
fn find_pairs<S: Alter + Drop>(
    alloc: Global,
    store: &mut Store<S>,
    command: &Command,
) -> Result<Vec<(Text, Text)>, StoreFault>
    ensures finds { Finds S.Store (λ machine pairs. pairs.items
        ≡ pairs_named machine command.now) store.old store.new result }
{
    match command {
        Command::AddBuilder(adds) => find_pair(alloc, store, adds),
        Command::RemoveBuilder(removes) => find_pairs_of(alloc, store, &removes.name),
        Command::Next(next) => find_pairs_of(alloc, store, &next.builder),
        Command::Take(take) => find_pairs_of(alloc, store, &take.builder),
        _ => Ok(Vec::new(alloc)),
    }
}

/// What a command that names these records names of an office that has these counts and
/// architectures. The faults are those of the look-ups, and `Memory`. The database stays as it is;
/// only a failed query may take a transaction back.
pub(crate) fn find<S: Alter + Drop>(
    alloc: Global,
    store: &mut Store<S>,
    counts: Counts,
    archs: Vec<(Text, OsCpu)>,
    command: &Command,
    names: &Subject<'_>,
) -> Result<FoundPart, StoreFault>
    ensures finds { Finds S.Store (λ machine found. AreOf counts archs.items machine
        → HasFound machine command.now names.now found) store.old store.new result }
{
    let first = find_first(store, names)?;
    let others = find_others(alloc, store, names)?;
    let pairs = find_pairs(alloc, store, command)?;
    Ok(FoundPart {
        counts,
        archs,
        first,
        others,
        pairs,
    })
}
