//! What a merge or a report changed on an architecture, by the names of the source packages.
ghost use Rattle.std.specs.Prelude.{◌≡◌, ◌++◌, ◌∷◌, [], IfOk, IfSome, IsSomeAnd, OnOk};
ghost use Rattle.std.specs.FinMap as map;
ghost use Rattle.std.specs.Map.Iter.{deref};
ghost use Rattle.std.specs.Option.{option_map};
ghost use Rattle.deb_text.specs.Text.{text_cmp};
ghost use Rattle.wb_merge.specs.Changes.{NotesChange, record_change, with_change};

use crate::Change;
use deb_text::Text;
use deb_version::Version;
use std::alloc::{AllocError, Global};
use std::collections::BTreeMap;
use wb_states::{Record, State};

/// What became of the record of a source package of which a field differs.
/// Source: this project's own.
#[derive(Debug, Drop)]
pub struct RecordChange {
    /// Its state before, or none if there was no record.
    pub before: Option<State>,
    /// Its state after, or none if there is no record any more.
    pub after: Option<State>,
    /// Its version after, or none if there is no record any more.
    pub version: Option<Version>,
}

/// What was changed on an architecture.
/// Source: this project's own.
#[derive(Drop)]
pub struct ArchChanges {
    /// The architecture.
    pub arch: Text,
    /// What became of each record that was changed, by the name of its source package.
    pub records: BTreeMap<Text, RecordChange>,
}

/// The version of the record, or none if there is none.
fn version_of(current: Option<&Record>) -> Result<Option<Version>, AllocError>
    ensures value { IfOk result (λ version.
        version ≡ option_map (λ found. found.version) (option_map deref current.entry)) }
{
    match current {
        Some(current) => Ok(Some(current.version.clone()?)),
        None => Ok(None),
    }
}

impl RecordChange {
    /// What became of the record of a source package that had the one and has the other, if any;
    /// none if no field of it differs. The only error is that there is no memory for its version.
    /// Source: this project's own.
    pub fn of(
        old: Option<&Record>,
        new: Option<&Record>,
    ) -> Result<Option<RecordChange>, AllocError>
        ensures value { IfOk result (λ change.
            change ≡ record_change (option_map deref old.entry) (option_map deref new.entry)) }
    {
        match Change::of(old, new) {
            Change::Absent | Change::Kept => Ok(None),
            Change::Added | Change::Changed | Change::Removed => Ok(Some(RecordChange {
                before: old.map(|old| old.state),
                after: new.map(|new| new.state),
                version: version_of(new)?,
            })),
        }
    }
}

/// Adds what became of the record of a source package to the changes of its architecture, if a
/// field of it differs.
fn add_change(
    changes: &mut BTreeMap<Text, RecordChange>,
    name: &Text,
    old: Option<&Record>,
    new: Option<&Record>,
) -> Result<(), AllocError>
    ensures value { OnOk result (map.from_entries {R = text_cmp} changes.new.entries
        ≡ with_change (map.from_entries changes.old.entries) name.now
        (record_change (option_map deref old.entry) (option_map deref new.entry))) }
{
    if let Some(change) = RecordChange::of(old, new)? {
        changes.insert(name.clone()?, change)?;
    }
    Ok(())
}

/// Notes what became of the record of a source package that had the one and has the other, if any,
/// in the changes of its architecture, if these are noted. If there is no memory for it, they are
/// noted no longer: nothing else rests on them.
/// Source: this project's own.
pub fn note_change(
    changes: &mut Option<BTreeMap<Text, RecordChange>>,
    name: &Text,
    old: Option<&Record>,
    new: Option<&Record>,
)
    ensures value { NotesChange changes.old changes.new name.now
        (record_change (option_map deref old.entry) (option_map deref new.entry)) }
{
    let Some(mut noted) = changes.take() else {
        return;
    };
    if add_change(&mut noted, name, old, new).is_ok() {
        *changes = Some(noted);
    }
}

/// The changes of an architecture before the first of them, if changes are noted. Takes no memory.
/// Source: this project's own.
pub fn no_changes(
    alloc: Global,
    notes: &Option<Vec<ArchChanges>>,
) -> Option<BTreeMap<Text, RecordChange>>
    ensures value { IfSome result (λ changes.
        map.from_entries {R = text_cmp} changes.entries ≡ map.empty) }
{
    match notes {
        Some(_) => Some(BTreeMap::new(alloc)),
        None => None,
    }
}

/// Adds the changes of an architecture after those of others.
fn add_arch(
    noted: &mut Vec<ArchChanges>,
    arch: &Text,
    records: BTreeMap<Text, RecordChange>,
) -> Result<(), AllocError>
    ensures value { OnOk result (noted.new.items
        ≡ noted.old.items ++ record { arch = arch.now; records = records } ∷ []) }
{
    let arch = arch.clone()?;
    noted.push(ArchChanges { arch, records })?;
    Ok(())
}

/// Notes the changes of an architecture after those of others, if changes are noted. If they are
/// not known, or there is no memory for them, nothing is noted any longer: nothing else rests on
/// it.
/// Source: this project's own.
pub fn note_changes(
    notes: &mut Option<Vec<ArchChanges>>,
    arch: &Text,
    changes: Option<BTreeMap<Text, RecordChange>>,
)
    ensures value { IfSome notes.new (λ noted. IsSomeAnd notes.old (λ start.
        IsSomeAnd changes (λ records.
        noted.items ≡ start.items ++ record { arch = arch.now; records = records } ∷ []))) }
{
    let (Some(mut noted), Some(records)) = (notes.take(), changes) else {
        return;
    };
    if add_arch(&mut noted, arch, records).is_ok() {
        *notes = Some(noted);
    }
}
