//! The records that builders hold.
ghost use Rattle.std.specs.Prelude.{◌≡◌, IfOk, bytes_eq, map as each};
ghost use Rattle.std.specs.List.{list_any};
ghost use Rattle.std.specs.Option.{option_map};
ghost use Rattle.std.specs.FinMap as map;
ghost use Rattle.std.specs.Map.Iter.{deref_pair};
ghost use Rattle.wb_states.specs.Holds.{taken_as, held_of};
ghost use Rattle.deb_text.specs.Options.{has_value};
ghost use Rattle.wb_step.specs.Checks.{is_held_on};

use crate::OfficePart;
use deb_text::Text;
use std::alloc::AllocError;
use wb_states::Record;

impl OfficePart {
    /// The record that is held under the take number, with its key, or none: if several were, the
    /// first by architecture and source package. Takes no memory (this project's own).
    #[tactic(auto, unfolding(wb_states::specs::Holds::taken_as))]
    pub fn by_take(&self, take_number: u64) -> Option<(&(Text, Text), &Record)>
        ensures value { option_map deref_pair result ≡ taken_as self.now take_number }
    {
        for (key, current) in self.records.iter() {
            if current.take == Some(take_number) {
                return Some((key, current));
            }
        }
        None
    }

    /// The records that the builder holds, of all architectures, with their keys, by take number.
    /// The only error is that memory ran out for the list (this project's own).
    pub fn held_by(&self, builder: &Text) -> Result<Vec<(&(Text, Text), &Record)>, AllocError>
        ensures value { IfOk result (λ rows.
            each deref_pair rows.items ≡ held_of self.now builder.now) }
    {
        let mut held = Vec::new(self.alloc);
        for (key, current) in self.records.iter() {
            if is_holder(current, builder) {
                held.push((key, current))?;
            }
        }
        held.sort_by_key(|row| row.1.take.unwrap_or(0))?;
        Ok(held)
    }
}

impl OfficePart {
    /// Whether the builder holds a record of the architecture. Takes no memory (this project's
    /// own).
    pub fn holds_on(&self, builder: &Text, arch: &Text) -> bool
        ensures value { result ≡ list_any (is_held_on arch.now builder.now) (map.entries self.now.records) }
    {
        for (key, current) in self.records.iter() {
            if key.0 == *arch && is_holder(current, builder) {
                return true;
            }
        }
        false
    }
}

fn is_holder(current: &Record, builder: &Text) -> bool
    ensures { result ≡ has_value (bytes_eq builder.now) current.now.holder }
{
    match &current.holder {
        None => false,
        Some(holder) => builder.as_str() == holder.as_str(),
    }
}
