//! What a merge did to the record of a source package, and how that is counted.
ghost use Rattle.std.specs.Prelude.{◌≡◌, ◌-◌, ◌^◌, Some};
ghost use Rattle.std.specs.Option.{option_map};
ghost use Rattle.std.specs.Map.Iter.{deref};
ghost use Rattle.wb_merge.specs.Merged.{has_same_source, has_same_place, has_same_texts, is_same_record, change_of};
ghost use Rattle.wb_merge.specs.Steps.{AreWithin, counted};

use wb_states::{MergeCounts, Record};

/// What became of the record of a source package.
#[derive(Clone, Copy, Debug)]
pub enum Change {
    /// There was none, and there is none.
    Absent,
    /// There was none.
    Added,
    /// A field of it differs.
    Changed,
    /// It is as it was.
    Kept,
    /// There is none any more.
    Removed,
}

#[tactic(auto, unfolding(crate::specs::Merged::has_same_source))]
fn has_same_source(one: &Record, other: &Record) -> bool
    ensures { result ≡ has_same_source one.now other.now }
{
    one.version == other.version
        && (one.priority == other.priority
            && (one.section == other.section
                && (one.earlier == other.earlier && one.number == other.number)))
}

#[tactic(auto, unfolding(crate::specs::Merged::has_same_place))]
fn has_same_place(one: &Record, other: &Record) -> bool
    ensures { result ≡ has_same_place one.now other.now }
{
    one.state == other.state
        && (one.holder == other.holder
            && (one.take == other.take && one.build_priority == other.build_priority))
}

#[tactic(auto, unfolding(crate::specs::Merged::has_same_texts))]
fn has_same_texts(one: &Record, other: &Record) -> bool
    ensures { result ≡ has_same_texts one.now other.now }
{
    one.waits == other.waits
        && (one.depends == other.depends
            && (one.note == other.note && one.message == other.message))
}

/// Whether two records are equal in all fields.
#[tactic(auto, unfolding(crate::specs::Merged::is_same_record))]
pub(crate) fn is_same_record(one: &Record, other: &Record) -> bool
    ensures { result ≡ is_same_record one.now other.now }
{
    has_same_source(one, other) && (has_same_place(one, other) && has_same_texts(one, other))
}

fn change_between(old: &Record, new: &Record) -> Change
    ensures { result ≡ change_of (Some old.now) (Some new.now) }
{
    if is_same_record(old, new) {
        Change::Kept
    } else {
        Change::Changed
    }
}

impl Change {
    /// What became of the record of a source package that had the one and has the other, if any. Takes no
    /// memory (this project's own).
    pub fn of(old: Option<&Record>, new: Option<&Record>) -> Change
        ensures value { result
            ≡ change_of (option_map deref old.entry) (option_map deref new.entry) }
    {
        match (old, new) {
            (None, None) => Change::Absent,
            (None, Some(_)) => Change::Added,
            (Some(_), None) => Change::Removed,
            (Some(old), Some(new)) => change_between(old, new),
        }
    }
}

/// The counts with a change more. Takes no memory (this project's own).
pub fn counted(counts: MergeCounts, change: Change) -> MergeCounts
    requires { AreWithin (2 ^ 64 - 2) counts }
    ensures value { result ≡ counted counts change }
{
    let mut counts = counts;
    match change {
        Change::Absent => {}
        Change::Added => counts.added += 1,
        Change::Changed => counts.changed += 1,
        Change::Kept => counts.kept += 1,
        Change::Removed => counts.removed += 1,
    }
    counts
}
