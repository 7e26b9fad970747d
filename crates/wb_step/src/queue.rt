//! The head of an architecture's queue.
ghost use Rattle.std.specs.Prelude.{◌≡◌, IfSome, Some};
ghost use Rattle.std.specs.Option.{option_map};
ghost use Rattle.std.specs.Map.Iter.{deref_pair};
ghost use Rattle.std.specs.FinMap as map;
ghost use Rattle.wb_states.specs.declared.state.State.TheVariants.{NeedsBuild};
ghost use Rattle.wb_states.specs.Queue.{head_of};

use crate::OfficePart;
use deb_text::Text;
use wb_states::{QueueKey, Record, State};

impl OfficePart {
    // It goes through the records, as `by_take` does: a part has few of them. An index over maps
    // would be one more invariant to prove; the tables have indexes for both.
    /// The head of the architecture's queue, which is built next, with its key, or none if no
    /// source package of the architecture waits for a builder. Takes no memory (wanna-build's
    /// states page).
    pub fn head(&self, arch: &Text) -> Option<(&(Text, Text), &Record)>
        ensures value { option_map deref_pair result ≡ head_of self.now arch.now }
        ensures first { IfSome (option_map deref_pair result) (λ entry. (entry.0.0 ≡ arch.now)
            × ((entry.1.state ≡ NeedsBuild)
            × (map.get self.now.records (arch.now, entry.0.1) ≡ Some entry.1))) }
    {
        let mut best: Option<(&(Text, Text), &Record)> = None;
        for (key, current) in self.records.iter() {
            if key.0 == *arch && current.state == State::NeedsBuild {
                let is_first = match best {
                    None => true,
                    Some((first, record)) => {
                        QueueKey::of(current, key.1.as_str())
                            < QueueKey::of(record, first.1.as_str())
                    }
                };
                if is_first {
                    best = Some((key, current));
                }
            }
        }
        best
    }
}
