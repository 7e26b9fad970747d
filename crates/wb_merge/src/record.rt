//! What a merge makes of the record of one source package.
ghost use Rattle.std.specs.Prelude.{◌≡◌, IsSome, IsTrue, IfOk, IfErr, OnErr};
ghost use Rattle.std.specs.Option.{option_map, option_copied};
ghost use Rattle.std.specs.Map.Iter.{deref};
ghost use Rattle.std.specs.FinMap as map;
ghost use Rattle.wb_states.specs.declared.refusal.Refusal.TheVariants.{Memory};
ghost use Rattle.wb_states.specs.Moves.{note_after};
ghost use Rattle.wb_states.specs.State.{is_dep_wait};
ghost use Rattle.wb_merge.specs.Merge.{record_after, covers, built_number, are_waits_met, relisted, blank_record, new_state, new_number, new_record, newer_state, newer_number, newer_record, same_state_given, same_number, same_record_given, listed_record_given, SaysWaitsMet};

use crate::{Built, Listed, Listing};
use deb_relations::{Available, RelationFault, Relations};
use deb_text::Text;
use deb_version::{Version, compare};
use std::alloc::Global;
use std::cmp::Ordering;
use wb_states::{Record, Refusal, State};

/// Whether what was built covers the version and the number.
fn covers(built: Option<&Built>, version: &Version, number: u16) -> bool
    ensures { result ≡ covers (option_copied built.entry) version.now number }
{
    let Some(built) = built else {
        return false;
    };
    match compare(&built.version, version) {
        Ordering::Less => false,
        Ordering::Equal => number <= built.number,
        Ordering::Greater => true,
    }
}

/// The number of what was built, if it is of the version, else the other one.
fn built_number(built: Option<&Built>, version: &Version, other: u16) -> u16
    ensures { result ≡ built_number (option_copied built.entry) version.now other }
{
    match built {
        Some(built) if compare(&built.version, version).is_eq() => built.number,
        _ => other,
    }
}

/// Whether all that a record waits for is available.
#[tactic(auto, unfolding(crate::specs::Merge::are_waits_met))]
fn are_waits_met(alloc: Global, available: &Available, waits: &Text) -> Result<bool, Refusal>
    ensures value { IfOk result (λ is_met. is_met ≡ are_waits_met available.now waits.now) }
    ensures refused { IfErr result (λ refusal. refusal ≡ Memory) }
{
    match Relations::parse(alloc, waits.as_str()) {
        Ok(relations) => Ok(relations.satisfied(available)),
        Err(RelationFault::Memory) => Err(Refusal::Memory),
        Err(_) => Ok(false),
    }
}

/// Empties the note if the state of the record is another one.
fn note_in_state(alloc: Global, current: &mut Record, state: State)
    ensures { current.new ≡ record current.old { note = note_after None state current.old } }
{
    if current.state != state {
        current.note = Text::new(alloc);
    }
}

/// Brings the record in line with its listing, in the state and with the number.
#[tactic(auto, unfolding(crate::specs::Merge::relisted))]
fn relist(
    alloc: Global,
    mut current: Record,
    state: State,
    number: u16,
    listed: &Listed,
    built: Option<&Built>,
) -> Result<Record, Refusal>
    ensures value { IfOk result (λ after.
        after ≡ relisted state number listed.now (option_copied built.entry) current) }
    ensures refused { IfErr result (λ refusal. refusal ≡ Memory) }
{
    note_in_state(alloc, &mut current, state);
    current.enter_state(alloc, state);
    current.number = number;
    current.earlier = current.earlier || built.is_some() || matches!(state, State::Installed);
    current.priority = listed.priority.clone()?;
    current.section = listed.section.clone()?;
    current.depends = listed.depends.clone()?;
    Ok(current)
}

/// A copy of the record.
pub(crate) fn copied(current: &Record) -> Result<Record, Refusal>
    ensures value { IfOk result (λ copy. copy ≡ current.now) }
    ensures refused { IfErr result (λ refusal. refusal ≡ Memory) }
{
    Ok(current.clone()?)
}

/// A record of which nothing is known yet but its version: it waits for its first build, with build priority 0.
/// Takes no memory; the allocator is kept for its texts (this project's own).
pub fn blank_record(alloc: Global, version: Version) -> Record
    ensures value { result ≡ blank_record version }
{
    Record {
        state: State::NeedsBuild,
        version,
        priority: Text::new(alloc),
        section: Text::new(alloc),
        earlier: false,
        number: 0,
        holder: None,
        take: None,
        waits: Text::new(alloc),
        depends: None,
        note: Text::new(alloc),
        message: Text::new(alloc),
        build_priority: 0,
    }
}

fn new_state(listed: &Listed, built: Option<&Built>) -> State
    ensures { result ≡ new_state listed.now (option_copied built.entry) }
{
    if covers(built, &listed.version, 0) {
        State::Installed
    } else {
        State::NeedsBuild
    }
}

fn new_number(listed: &Listed, built: Option<&Built>) -> u16
    ensures { result ≡ new_number listed.now (option_copied built.entry) }
{
    if covers(built, &listed.version, 0) {
        built_number(built, &listed.version, 0)
    } else {
        0
    }
}

/// The record of a source package that had none.
#[tactic(auto, unfolding(crate::specs::Merge::new_record))]
pub(crate) fn new_record(
    alloc: Global,
    listed: &Listed,
    built: Option<&Built>,
) -> Result<Record, Refusal>
    ensures value { IfOk result (λ new. new ≡ new_record listed.now (option_copied built.entry)) }
    ensures refused { IfErr result (λ refusal. refusal ≡ Memory) }
{
    let blank = blank_record(alloc, listed.version.clone()?);
    let state = new_state(listed, built);
    relist(
        alloc,
        blank,
        state,
        new_number(listed, built),
        listed,
        built,
    )
}

/// A record of an earlier version than the listed one, after a merge.
#[tactic(auto, unfolding(crate::specs::Merge::newer_record))]
fn newer_record(
    alloc: Global,
    current: &Record,
    listed: &Listed,
    built: Option<&Built>,
) -> Result<Record, Refusal>
    ensures value { IfOk result (λ new.
        new ≡ newer_record listed.now (option_copied built.entry) current.now) }
    ensures refused { IfErr result (λ refusal. refusal ≡ Memory) }
{
    let mut newer = copied(current)?;
    newer.version = listed.version.clone()?;
    newer.message = Text::new(alloc);
    newer.holder = None;
    newer.take = None;
    if matches!(current.state, State::NotForUs) {
        return relist(alloc, newer, State::NotForUs, 0, listed, built);
    }
    let state = new_state(listed, built);
    relist(
        alloc,
        newer,
        state,
        new_number(listed, built),
        listed,
        built,
    )
}

/// Whether all that a record in Dep-Wait waits for is available; of another record it plays no part.
fn says_waits_met(alloc: Global, current: &Record, available: &Available) -> Result<bool, Refusal>
    ensures value { IfOk result (λ is_met. SaysWaitsMet available.now is_met current.now) }
    ensures refused { IfErr result (λ refusal. refusal ≡ Memory) }
    ensures memory { OnErr result (IsTrue (is_dep_wait current.now.state)) }
{
    match current.state {
        State::DepWait => are_waits_met(alloc, available, &current.waits),
        _ => Ok(false),
    }
}

/// The state of a record of the version that is listed.
fn same_state(current: &Record, listed: &Listed, built: Option<&Built>, is_met: bool) -> State
    ensures { result
        ≡ same_state_given listed.now (option_copied built.entry) is_met current.now }
{
    if matches!(current.state, State::NotForUs) {
        return State::NotForUs;
    }
    if covers(built, &listed.version, current.number) {
        return State::Installed;
    }
    match current.state {
        State::Installed => State::NeedsBuild,
        State::DepWait if is_met => State::NeedsBuild,
        state => state,
    }
}

fn same_number(current: &Record, listed: &Listed, built: Option<&Built>) -> u16
    ensures { result ≡ same_number listed.now (option_copied built.entry) current.now }
{
    if !matches!(current.state, State::NotForUs) && covers(built, &listed.version, current.number) {
        return built_number(built, &listed.version, current.number);
    }
    current.number
}

/// A record of the version that is listed, after a merge.
fn same_record(
    alloc: Global,
    current: &Record,
    listed: &Listed,
    built: Option<&Built>,
    is_met: bool,
) -> Result<Record, Refusal>
    ensures value { IfOk result (λ new.
        new ≡ same_record_given listed.now (option_copied built.entry) is_met current.now) }
    ensures refused { IfErr result (λ refusal. refusal ≡ Memory) }
{
    let state = same_state(current, listed, built, is_met);
    let number = same_number(current, listed, built);
    relist(alloc, copied(current)?, state, number, listed, built)
}

/// A record whose source package is listed, after a merge.
pub(crate) fn listed_record(
    alloc: Global,
    current: &Record,
    listed: &Listed,
    built: Option<&Built>,
    is_met: bool,
) -> Result<Record, Refusal>
    ensures value { IfOk result (λ new.
        new ≡ listed_record_given listed.now (option_copied built.entry) is_met current.now) }
    ensures refused { IfErr result (λ refusal. refusal ≡ Memory) }
{
    match compare(&current.version, &listed.version) {
        Ordering::Less => newer_record(alloc, current, listed, built),
        Ordering::Equal => same_record(alloc, current, listed, built, is_met),
        Ordering::Greater => copied(current),
    }
}

/// The record of the source package `name` after a merge of the listing, given the one that it had, if any;
/// none if the archive lists the source package no more, which takes no memory. The only error is `Memory`.
///
/// A new source package is Installed if the archive has it built, else Needs-Build; so is one of a later
/// version than the record's, but Not-For-Us stays. A record of a later version than is listed stays as it
/// is. At an equal version Not-For-Us stays; any other is Installed if it is built with at least its number,
/// Needs-Build if it was Installed and is built no more or if all that it waits for is available, and else
/// stays in its state. A record that was there keeps its build priority, and a new one has 0. The cases are
/// this project's own, in wanna-build's terms.
pub fn after(
    alloc: Global,
    current: Option<&Record>,
    name: &Text,
    listing: &Listing,
) -> Result<Option<Record>, Refusal>
    ensures value { IfOk result (λ new. new ≡ record_after (option_map deref current.entry)
        (map.get listing.now.listed name.now) (map.get listing.now.built name.now)
        listing.now.available) }
    ensures refused { IfErr result (λ refusal. refusal ≡ Memory) }
    ensures memory { IfErr result (λ refusal. IsSome (map.get listing.now.listed name.now)) }
{
    let Some(listed) = listing.listed(name) else {
        return Ok(None);
    };
    let built = listing.built(name);
    let made = match current {
        Some(current) => {
            let is_met = says_waits_met(alloc, current, listing.available())?;
            listed_record(alloc, current, listed, built, is_met)?
        }
        None => new_record(alloc, listed, built)?,
    };
    Ok(Some(made))
}
