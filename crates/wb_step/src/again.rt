//! What a builder gets again.
ghost use Rattle.std.specs.Prelude.{◌≡◌, [], map as each, IfOk, option_and_then};
ghost use Rattle.std.specs.List.{find};
ghost use Rattle.std.specs.Map.Iter.{deref_pair};
ghost use Rattle.std.specs.Option.{option_map};
ghost use Rattle.wb_states.specs.Holds.{building_after, is_building_after};
ghost use Rattle.wb_step.specs.Outcomes.{held_assignment};

use crate::OfficePart;
use crate::builder::assignment;
use deb_text::Text;
use std::alloc::{AllocError, Global};
use wb_states::{Assignment, Record, State};

/// Whether the record is being built on the architecture under a take number after this one.
fn is_later(of: &Text, current: &Record, arch: &Text, after: u64) -> bool
    ensures value { result ≡ is_building_after arch.now after ((of.now, []), current.now) }
{
    of.as_str() == arch.as_str()
        && (matches!(current.state, State::Building) && after < current.take.unwrap_or(0))
}

/// The first of the rows that is being built on the architecture under a take number after this
/// one.
fn first_later<'a>(
    rows: Vec<(&'a (Text, Text), &'a Record)>,
    arch: &Text,
    after: u64,
) -> Option<(&'a (Text, Text), &'a Record)>
    ensures value { option_map deref_pair result
        ≡ find (is_building_after arch.now after) (each deref_pair rows.entry.items) }
{
    for (key, current) in rows {
        if is_later(&key.0, current, arch, after) {
            return Some((key, current));
        }
    }
    None
}

/// What the builder builds on the architecture under the least take number after this one. The only
/// error is that memory ran out.
fn assignment_after(
    alloc: Global,
    office: &OfficePart,
    arch: &Text,
    builder: &Text,
    after: u64,
) -> Result<Option<Assignment>, AllocError>
    ensures value { IfOk result (λ found. found
        ≡ option_map held_assignment (building_after office.now arch.now builder.now after)) }
{
    let held = office.held_by(builder)?;
    match first_later(held, arch, after) {
        None => Ok(None),
        Some((key, current)) => {
            let take_number = current.take.unwrap_or(0);
            let made = assignment(alloc, &key.0, &key.1, current, take_number)?;
            Ok(Some(made))
        }
    }
}

/// What is reported to the builder again, if it asks after a take number and builds under a later
/// one. The only error is that memory ran out.
pub(crate) fn assignment_again(
    alloc: Global,
    office: &OfficePart,
    arch: &Text,
    builder: &Text,
    after: Option<u64>,
) -> Result<Option<Assignment>, AllocError>
    ensures value { IfOk result (λ found. found ≡ option_map held_assignment
        (option_and_then (building_after office.now arch.now builder.now) after)) }
{
    match after {
        None => Ok(None),
        Some(after) => assignment_after(alloc, office, arch, builder, after),
    }
}
