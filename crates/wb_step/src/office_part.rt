//! The part of the office that a command names, in memory.
ghost use Rattle.std.specs.Prelude.{◌≡◌};
ghost use Rattle.wb_states.specs.Machine.{empty_office};

use deb_text::Text;
use std::alloc::Global;
use std::collections::{BTreeMap, BTreeSet};
use std::marker::Model;
use wb_states::{Counts, OsCpu, Record};

// Only calls that make it larger, make a list or need a key of two texts can run out of memory, and
// they answer an `AllocError`; all others answer the plain value. A look-up lends the record, and
// only a command that changes it makes another one. No call gives the refusals `Closed` and
// `Store`. The map of pairs has no look-up that takes no memory.
/// The part of the office that a command names, in memory: records, by architecture and source
/// package, the words of architectures, pairs of a builder and an architecture for which it builds,
/// and the two counts. A call that makes it larger can answer that memory ran out. Clauses see it
/// as a state of an office (this project's own).
#[derive(Drop)]
pub struct OfficePart {
    pub(crate) alloc: Global,
    pub(crate) records: BTreeMap<(Text, Text), Record>,
    pub(crate) archs: BTreeMap<Text, OsCpu>,
    pub(crate) builders: BTreeSet<(Text, Text)>,
    pub(crate) counts: Counts,
}

impl Model for OfficePart {
    ghost use Rattle.std.specs.FinMap as map;
    ghost use Rattle.std.specs.FinSet as set;
    ghost use Rattle.wb_states.specs.Machine.{Machine};
    ghost use Rattle.wb_step.specs.Coded.{coded_machine};

    ghost Value = { Machine };

    ghost coded = { coded_machine };

    ghost view = { λ part. record {
      records = map.from_entries part.records.entries;
      archs = map.from_entries part.archs.entries;
      builders = set.from_list part.builders.keys;
      handed = part.counts.handed;
      accepted = part.counts.accepted;
    } };
}

impl OfficePart {
    /// The empty office, with both counts 0. Takes no memory; the allocator is kept for the calls
    /// that follow (this project's own).
    pub fn new(alloc: Global) -> OfficePart
        ensures value { result ≡ empty_office }
    {
        OfficePart {
            alloc,
            records: BTreeMap::new(alloc),
            archs: BTreeMap::new(alloc),
            builders: BTreeSet::new(alloc),
            counts: Counts {
                handed: 0,
                accepted: 0,
            },
        }
    }

    /// The two counts of the office. Takes no memory (this project's own).
    pub fn counts(&self) -> Counts
        ensures value { result
            ≡ record { handed = self.now.handed; accepted = self.now.accepted } }
    {
        self.counts
    }

    /// Sets both counts of the office; all else stays. Takes no memory (this project's own).
    pub fn set_counts(&mut self, counts: Counts)
        ensures ok { self.new
            ≡ record self.old { handed = counts.handed; accepted = counts.accepted } }
    {
        self.counts = counts;
    }
}
