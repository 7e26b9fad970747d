//! The subcommands of builders.
ghost use Rattle.clap.specs.Words.{found_of, rows_of};
ghost use Rattle.wb_words.specs.Faults.{Reads};
ghost use Rattle.wb_words.specs.Words.{attempted_of, builder_command, built_of, next_of, put_back_of};
ghost use Rattle.wb_words.specs.Words.{take_of, uploaded_of, waits_of};

use crate::WordsFault;
use crate::argument::{number, optional_number, read_named_source, word, words};
use crate::usage::ArgumentKind;
use clap::ArgMatches;
use std::alloc::Global;
use wb_states::{Command, command};

/// The subcommands with their arguments.
pub static USAGES: [(&str, &[(&str, ArgumentKind)]); 7] = [
    (
        "next",
        &[
            ("arch", ArgumentKind::Word),
            ("builder", ArgumentKind::Word),
            ("after", ArgumentKind::NamedWord),
        ],
    ),
    (
        "take",
        &[
            ("arch", ArgumentKind::Word),
            ("builder", ArgumentKind::Word),
            ("source", ArgumentKind::Word),
            ("version", ArgumentKind::Word),
        ],
    ),
    ("built", &[("take", ArgumentKind::Word)]),
    ("uploaded", &[("take", ArgumentKind::Word)]),
    ("put-back", &[("take", ArgumentKind::Word)]),
    (
        "waits",
        &[
            ("take", ArgumentKind::Word),
            ("relations", ArgumentKind::SomeWords),
        ],
    ),
    (
        "attempted",
        &[
            ("take", ArgumentKind::Word),
            ("reason", ArgumentKind::AnyWords),
        ],
    ),
];

/// The builder's command `name` with these arguments. The errors are `NoCommand` if `name` is no
/// subcommand of builders, an argument was not given, or a take number is no number; and `Memory`
/// if there is no memory for its texts.
#[tactic(auto, unfolding(crate::specs::Words::builder_command))]
pub(crate) fn builder_command(
    alloc: Global,
    name: &str,
    arguments: &ArgMatches<'_>,
) -> Result<Command, WordsFault>
    ensures value { Reads (builder_command name.now (rows_of (found_of arguments.now))) result }
{
    match name {
        "next" => next(alloc, arguments),
        "take" => take(alloc, arguments),
        "built" => built(arguments),
        "uploaded" => uploaded(arguments),
        "put-back" => put_back(arguments),
        "waits" => waits(alloc, arguments),
        "attempted" => attempted(alloc, arguments),
        _ => Err(WordsFault::NoCommand),
    }
}

#[tactic(auto, unfolding(crate::specs::Words::next_of))]
fn next(alloc: Global, arguments: &ArgMatches<'_>) -> Result<Command, WordsFault>
    ensures value { Reads (next_of (rows_of (found_of arguments.now))) result }
{
    Ok(Command::Next(command::Next {
        arch: word(alloc, arguments, "arch")?,
        builder: word(alloc, arguments, "builder")?,
        after: optional_number(arguments, "after")?,
    }))
}

#[tactic(auto, unfolding(crate::specs::Words::take_of))]
fn take(alloc: Global, arguments: &ArgMatches<'_>) -> Result<Command, WordsFault>
    ensures value { Reads (take_of (rows_of (found_of arguments.now))) result }
{
    let subject = read_named_source(alloc, arguments)?;
    Ok(Command::Take(command::Take {
        arch: subject.arch,
        builder: word(alloc, arguments, "builder")?,
        source: subject.source,
        version: subject.version,
    }))
}

#[tactic(auto, unfolding(crate::specs::Words::built_of))]
fn built(arguments: &ArgMatches<'_>) -> Result<Command, WordsFault>
    ensures value { Reads (built_of (rows_of (found_of arguments.now))) result }
{
    let take_number = number(arguments, "take")?;
    Ok(Command::Built(command::Held { take_number }))
}

#[tactic(auto, unfolding(crate::specs::Words::uploaded_of))]
fn uploaded(arguments: &ArgMatches<'_>) -> Result<Command, WordsFault>
    ensures value { Reads (uploaded_of (rows_of (found_of arguments.now))) result }
{
    let take_number = number(arguments, "take")?;
    Ok(Command::Uploaded(command::Held { take_number }))
}

#[tactic(auto, unfolding(crate::specs::Words::put_back_of))]
fn put_back(arguments: &ArgMatches<'_>) -> Result<Command, WordsFault>
    ensures value { Reads (put_back_of (rows_of (found_of arguments.now))) result }
{
    let take_number = number(arguments, "take")?;
    Ok(Command::PutBack(command::Held { take_number }))
}

#[tactic(auto, unfolding(crate::specs::Words::waits_of))]
fn waits(alloc: Global, arguments: &ArgMatches<'_>) -> Result<Command, WordsFault>
    ensures value { Reads (waits_of (rows_of (found_of arguments.now))) result }
{
    Ok(Command::Waits(command::Waits {
        take_number: number(arguments, "take")?,
        relations: words(alloc, arguments, "relations")?,
    }))
}

#[tactic(auto, unfolding(crate::specs::Words::attempted_of))]
fn attempted(alloc: Global, arguments: &ArgMatches<'_>) -> Result<Command, WordsFault>
    ensures value { Reads (attempted_of (rows_of (found_of arguments.now))) result }
{
    Ok(Command::Attempted(command::Attempted {
        take_number: number(arguments, "take")?,
        reason: words(alloc, arguments, "reason")?,
    }))
}
