//! The subcommands that read files: lists of the archive, and a report.
ghost use Rattle.std.specs.Prelude.{map};
ghost use Rattle.clap.specs.Words.{found_of, rows_of};
ghost use Rattle.wb_words.specs.Arguments.{part_in, parts_in, parts_of};
ghost use Rattle.wb_words.specs.Faults.{Reads};
ghost use Rattle.wb_words.specs.Words.{list_invocation, merge_of, report_of};

use crate::WordsFault;
use crate::argument::word;
use crate::usage::ArgumentKind;
use crate::words::Invocation;
use clap::ArgMatches;
use deb_text::{Items, Text};
use std::alloc::Global;
use wb_lists::PartNames;

/// The subcommands with their arguments.
pub static USAGES: [(&str, &[(&str, ArgumentKind)]); 2] = [
    (
        "merge",
        &[
            ("sources", ArgumentKind::Word),
            ("parts", ArgumentKind::SomeWords),
        ],
    ),
    (
        "report",
        &[("arch", ArgumentKind::Word), ("file", ArgumentKind::Word)],
    ),
];

/// What the subcommand `name` asks for with these arguments. The errors are `NoCommand` if `name`
/// is no subcommand that reads files, an argument was not given, or a word names no part; and
/// `Memory` if there is no memory for the names.
#[tactic(auto, unfolding(crate::specs::Words::list_invocation))]
pub(crate) fn list_invocation(
    alloc: Global,
    name: &str,
    arguments: &ArgMatches<'_>,
) -> Result<Invocation, WordsFault>
    ensures value { Reads (list_invocation name.now (rows_of (found_of arguments.now))) result }
{
    match name {
        "merge" => merge(alloc, arguments),
        "report" => report(alloc, arguments),
        _ => Err(WordsFault::NoCommand),
    }
}

#[tactic(auto, unfolding(crate::specs::Words::merge_of))]
fn merge(alloc: Global, arguments: &ArgMatches<'_>) -> Result<Invocation, WordsFault>
    ensures value { Reads (merge_of (rows_of (found_of arguments.now))) result }
{
    Ok(Invocation::Merge {
        sources: word(alloc, arguments, "sources")?,
        parts: parts(alloc, arguments, "parts")?,
    })
}

#[tactic(auto, unfolding(crate::specs::Words::report_of))]
fn report(alloc: Global, arguments: &ArgMatches<'_>) -> Result<Invocation, WordsFault>
    ensures value { Reads (report_of (rows_of (found_of arguments.now))) result }
{
    Ok(Invocation::Report {
        arch: word(alloc, arguments, "arch")?,
        file: word(alloc, arguments, "file")?,
    })
}

/// The parts that were given for the argument `id`. The errors are `NoCommand` if a word names no
/// part, and `Memory` if there is no memory for the names.
#[tactic(auto, using(crate::proofs::RowLemmas::row_laws), unfolding(crate::specs::Arguments::parts_of))]
fn parts(
    alloc: Global,
    arguments: &ArgMatches<'_>,
    id: &str,
) -> Result<Items<PartNames>, WordsFault>
    ensures value { Reads (parts_of id.now (rows_of (found_of arguments.now))) result }
{
    match arguments.get_strs(id) {
        Some(words) => parts_in(alloc, words),
        None => Ok(Items::new(alloc)),
    }
}

/// The parts that the words name, in their order. The errors are `NoCommand` if one of them names
/// no part, and `Memory` if there is no memory for the names.
fn parts_in(alloc: Global, words: &[&str]) -> Result<Items<PartNames>, WordsFault>
    ensures value { Reads (parts_in (map (λ word. word.now) words.now)) result }
{
    let mut parts = Items::new(alloc);
    for word in words {
        parts.push(part_in(alloc, word)?)?;
    }
    Ok(parts)
}

/// The part that a word names, cut at its first `=`. The errors are `NoCommand` if it has none, and
/// `Memory` if there is no memory for the names.
#[tactic(auto, unfolding(crate::specs::Arguments::part_in))]
fn part_in(alloc: Global, word: &str) -> Result<PartNames, WordsFault>
    ensures value { Reads (part_in word.now) result }
{
    let (arch, packages) = word.split_once('=').ok_or(WordsFault::NoCommand)?;
    Ok(PartNames {
        arch: Text::copied(alloc, arch)?,
        packages: Text::copied(alloc, packages)?,
    })
}
