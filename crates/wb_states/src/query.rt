//! What the office is asked that changes nothing, and what it answers.
ghost use Rattle.std.specs.Prelude.{◌≡◌};
ghost use Rattle.wb_states.specs.Queries.{has_malformed_name};

use crate::names::{is_arch, is_builder, is_source};
use crate::{KeyedRecord, OsCpu, State, StateCounts};
use deb_text::{Items, Text};

// A query is a value, as a command is: what is answered is a definition over the state
// (`answer_of`), and an office has one call for all queries. So a new query is an arm in a few
// tables, and no method of the office with clauses of its own.
/// What is asked of the office and changes nothing. Its texts are taken as they came: the office
/// tests their forms (this project's own).
#[derive(Debug, Drop)]
pub enum Query {
    /// The queue of an architecture.
    Queue {
        /// The architecture.
        arch: Text,
    },
    /// The records of an architecture that are in a state.
    ByState {
        /// The architecture.
        arch: Text,
        /// The state's name, such as `Needs-Build`.
        state: Text,
    },
    /// The record of a source package on an architecture.
    Item {
        /// The architecture.
        arch: Text,
        /// The source package.
        source: Text,
    },
    /// What a builder holds, on all architectures.
    Mine {
        /// The builder.
        builder: Text,
    },
    /// What a source package needs to be built on an architecture.
    Depends {
        /// The architecture.
        arch: Text,
        /// The source package.
        source: Text,
    },
    /// How many records of an architecture are in each state.
    Summary {
        /// The architecture.
        arch: Text,
    },
    /// How many commands the office accepted, and the last take number that it gave.
    Office,
    /// The architectures of the office.
    Archs,
    /// The builders of the office.
    Builders,
}

impl Query {
    /// Whether a name in it is malformed, for which it is refused as `BadName`; so is a state's
    /// name that no state has. Takes no memory (this project's own).
    pub fn has_malformed_name(&self) -> bool
        ensures value { result ≡ has_malformed_name self.now }
    {
        match self {
            Query::Queue { arch } | Query::Summary { arch } => !is_arch(arch.as_str()),
            Query::ByState { arch, state } => {
                !is_arch(arch.as_str()) || State::of_name(state.as_str()).is_none()
            }
            Query::Item { arch, source } | Query::Depends { arch, source } => {
                !(is_arch(arch.as_str()) && is_source(source.as_str()))
            }
            Query::Mine { builder } => !is_builder(builder.as_str()),
            Query::Office | Query::Archs | Query::Builders => false,
        }
    }
}

/// The answer to a query (this project's own).
#[derive(Debug, Drop)]
pub enum Answer {
    /// The queue of an architecture.
    Queue {
        /// The architecture.
        arch: Text,
        /// The records that wait for a builder, the first to be built first.
        records: Items<KeyedRecord>,
    },
    /// The records of an architecture that are in a state.
    ByState {
        /// The architecture.
        arch: Text,
        /// The state.
        state: State,
        /// The records, by the names of their source packages.
        records: Items<KeyedRecord>,
    },
    /// The record of a source package on an architecture.
    Item(KeyedRecord),
    /// What a builder holds.
    Mine {
        /// The builder.
        builder: Text,
        /// The records that it holds, of all architectures, by take number.
        records: Items<KeyedRecord>,
    },
    /// What a source package needs to be built on an architecture (Debian Policy 7.7).
    Depends {
        /// The architecture.
        arch: Text,
        /// The source package.
        source: Text,
        /// The relations, reduced for the architecture and printed; none if they could not be read.
        depends: Option<Text>,
    },
    /// How many records of an architecture are in each state.
    Summary {
        /// How many commands the office accepted.
        accepted: u64,
        /// The architecture.
        arch: Text,
        /// The numbers of records.
        counts: StateCounts,
    },
    /// The two counts of the office.
    Office {
        /// How many commands the office accepted.
        accepted: u64,
        /// The last take number that it gave, 0 if it gave none.
        handed: u64,
    },
    /// The architectures of the office.
    Archs {
        /// How many commands the office accepted.
        accepted: u64,
        /// Each architecture with its words, by name.
        archs: Items<(Text, OsCpu)>,
    },
    /// The builders of the office.
    Builders {
        /// How many commands the office accepted.
        accepted: u64,
        /// Each builder with an architecture for which it was added, by builder and then by
        /// architecture.
        pairs: Items<(Text, Text)>,
    },
}
