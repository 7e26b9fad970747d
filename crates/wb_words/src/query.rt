//! The subcommands that ask the office.
ghost use Rattle.std.specs.Prelude.{◌≡◌};
ghost use Rattle.clap.specs.Words.{found_of, rows_of};
ghost use Rattle.wb_words.specs.Faults.{Reads};
ghost use Rattle.wb_words.specs.Usages.{is_query};
ghost use Rattle.wb_words.specs.Words.{query_named};

use crate::WordsFault;
use crate::argument::word;
use crate::tree::arguments_among;
use crate::usage::ArgumentKind;
use clap::ArgMatches;
use std::alloc::Global;
use wb_states::Query;

/// The subcommands with their arguments.
pub static USAGES: [(&str, &[(&str, ArgumentKind)]); 9] = [
    ("queue", &[("arch", ArgumentKind::Word)]),
    ("summary", &[("arch", ArgumentKind::Word)]),
    (
        "by-state",
        &[("arch", ArgumentKind::Word), ("state", ArgumentKind::Word)],
    ),
    (
        "item",
        &[("arch", ArgumentKind::Word), ("source", ArgumentKind::Word)],
    ),
    (
        "depends",
        &[("arch", ArgumentKind::Word), ("source", ArgumentKind::Word)],
    ),
    ("mine", &[("builder", ArgumentKind::Word)]),
    ("office", &[]),
    ("archs", &[]),
    ("builders", &[]),
];

/// Whether a subcommand of this name asks the office.
pub(crate) fn is_query(name: &str) -> bool
    ensures value { result ≡ is_query name.now }
{
    arguments_among(USAGES.as_slice(), name).is_some()
}

/// The query `name` with these arguments. The errors are `NoCommand` if `name` is no subcommand
/// that asks the office, or an argument was not given; and `Memory` if there is no memory for its
/// texts.
#[tactic(auto, unfolding(crate::specs::Words::query_named))]
pub(crate) fn query_named(
    alloc: Global,
    name: &str,
    arguments: &ArgMatches<'_>,
) -> Result<Query, WordsFault>
    ensures value { Reads (query_named name.now (rows_of (found_of arguments.now))) result }
{
    match name {
        "queue" => Ok(Query::Queue {
            arch: word(alloc, arguments, "arch")?,
        }),
        "summary" => Ok(Query::Summary {
            arch: word(alloc, arguments, "arch")?,
        }),
        "by-state" => Ok(Query::ByState {
            arch: word(alloc, arguments, "arch")?,
            state: word(alloc, arguments, "state")?,
        }),
        "item" => Ok(Query::Item {
            arch: word(alloc, arguments, "arch")?,
            source: word(alloc, arguments, "source")?,
        }),
        "depends" => Ok(Query::Depends {
            arch: word(alloc, arguments, "arch")?,
            source: word(alloc, arguments, "source")?,
        }),
        "mine" => Ok(Query::Mine {
            builder: word(alloc, arguments, "builder")?,
        }),
        "office" => Ok(Query::Office),
        "archs" => Ok(Query::Archs),
        "builders" => Ok(Query::Builders),
        _ => Err(WordsFault::NoCommand),
    }
}
