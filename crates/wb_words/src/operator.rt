//! The subcommands of operators.
ghost use Rattle.clap.specs.Words.{found_of, rows_of};
ghost use Rattle.wb_words.specs.Faults.{Reads};
ghost use Rattle.wb_words.specs.Words.{add_arch_of, add_builder_of, build_priority_of, dep_wait_of};
ghost use Rattle.wb_words.specs.Words.{enter_of, fail_of, forget_of, give_back_of, not_for_us_of};
ghost use Rattle.wb_words.specs.Words.{operator_command, rebuild_of, remove_arch_of};
ghost use Rattle.wb_words.specs.Words.{remove_builder_of};

use crate::WordsFault;
use crate::argument::{integer, number, read_named_source, word, words};
use crate::usage::ArgumentKind;
use clap::ArgMatches;
use std::alloc::Global;
use wb_states::{Command, command};

/// The subcommands with their arguments.
pub static USAGES: [(&str, &[(&str, ArgumentKind)]); 12] = [
    (
        "add-arch",
        &[
            ("name", ArgumentKind::Word),
            ("os", ArgumentKind::Word),
            ("cpu", ArgumentKind::Word),
        ],
    ),
    (
        "add-builder",
        &[("name", ArgumentKind::Word), ("arch", ArgumentKind::Word)],
    ),
    ("remove-arch", &[("name", ArgumentKind::Word)]),
    (
        "remove-builder",
        &[("name", ArgumentKind::Word), ("arch", ArgumentKind::Word)],
    ),
    (
        "enter",
        &[
            ("arch", ArgumentKind::Word),
            ("source", ArgumentKind::Word),
            ("version", ArgumentKind::Word),
            ("priority", ArgumentKind::Word),
            ("section", ArgumentKind::Word),
        ],
    ),
    (
        "give-back",
        &[
            ("arch", ArgumentKind::Word),
            ("source", ArgumentKind::Word),
            ("version", ArgumentKind::Word),
        ],
    ),
    (
        "dep-wait",
        &[
            ("arch", ArgumentKind::Word),
            ("source", ArgumentKind::Word),
            ("version", ArgumentKind::Word),
            ("relations", ArgumentKind::SomeWords),
        ],
    ),
    (
        "fail",
        &[
            ("arch", ArgumentKind::Word),
            ("source", ArgumentKind::Word),
            ("version", ArgumentKind::Word),
            ("note", ArgumentKind::AnyWords),
        ],
    ),
    (
        "not-for-us",
        &[
            ("arch", ArgumentKind::Word),
            ("source", ArgumentKind::Word),
            ("version", ArgumentKind::Word),
            ("note", ArgumentKind::AnyWords),
        ],
    ),
    (
        "rebuild",
        &[
            ("arch", ArgumentKind::Word),
            ("source", ArgumentKind::Word),
            ("version", ArgumentKind::Word),
            ("number", ArgumentKind::Word),
            ("message", ArgumentKind::AnyWords),
        ],
    ),
    (
        "build-priority",
        &[
            ("arch", ArgumentKind::Word),
            ("source", ArgumentKind::Word),
            ("version", ArgumentKind::Word),
            ("value", ArgumentKind::Word),
        ],
    ),
    (
        "forget",
        &[
            ("arch", ArgumentKind::Word),
            ("source", ArgumentKind::Word),
            ("version", ArgumentKind::Word),
        ],
    ),
];

/// The operator's command `name` with these arguments. The errors are `NoCommand` if `name` is no
/// subcommand of operators, an argument was not given, the number of a rebuild is no number, or the
/// value of a build priority is no integer; and `Memory` if there is no memory for its texts.
#[tactic(auto, unfolding(crate::specs::Words::operator_command))]
pub(crate) fn operator_command(
    alloc: Global,
    name: &str,
    arguments: &ArgMatches<'_>,
) -> Result<Command, WordsFault>
    ensures value { Reads (operator_command name.now (rows_of (found_of arguments.now))) result }
{
    match name {
        "add-arch" => add_arch(alloc, arguments),
        "add-builder" => add_builder(alloc, arguments),
        "remove-arch" => remove_arch(alloc, arguments),
        "remove-builder" => remove_builder(alloc, arguments),
        "enter" => enter(alloc, arguments),
        "give-back" => give_back(alloc, arguments),
        "dep-wait" => dep_wait(alloc, arguments),
        "fail" => fail(alloc, arguments),
        "not-for-us" => not_for_us(alloc, arguments),
        "rebuild" => rebuild(alloc, arguments),
        "build-priority" => build_priority(alloc, arguments),
        "forget" => forget(alloc, arguments),
        _ => Err(WordsFault::NoCommand),
    }
}

#[tactic(auto, unfolding(crate::specs::Words::add_arch_of))]
fn add_arch(alloc: Global, arguments: &ArgMatches<'_>) -> Result<Command, WordsFault>
    ensures value { Reads (add_arch_of (rows_of (found_of arguments.now))) result }
{
    Ok(Command::AddArch(command::AddArch {
        name: word(alloc, arguments, "name")?,
        os: word(alloc, arguments, "os")?,
        cpu: word(alloc, arguments, "cpu")?,
    }))
}

#[tactic(auto, unfolding(crate::specs::Words::add_builder_of))]
fn add_builder(alloc: Global, arguments: &ArgMatches<'_>) -> Result<Command, WordsFault>
    ensures value { Reads (add_builder_of (rows_of (found_of arguments.now))) result }
{
    Ok(Command::AddBuilder(command::AddBuilder {
        name: word(alloc, arguments, "name")?,
        arch: word(alloc, arguments, "arch")?,
    }))
}

#[tactic(auto, unfolding(crate::specs::Words::remove_arch_of))]
fn remove_arch(alloc: Global, arguments: &ArgMatches<'_>) -> Result<Command, WordsFault>
    ensures value { Reads (remove_arch_of (rows_of (found_of arguments.now))) result }
{
    Ok(Command::RemoveArch(command::RemoveArch {
        name: word(alloc, arguments, "name")?,
    }))
}

#[tactic(auto, unfolding(crate::specs::Words::remove_builder_of))]
fn remove_builder(alloc: Global, arguments: &ArgMatches<'_>) -> Result<Command, WordsFault>
    ensures value { Reads (remove_builder_of (rows_of (found_of arguments.now))) result }
{
    Ok(Command::RemoveBuilder(command::RemoveBuilder {
        name: word(alloc, arguments, "name")?,
        arch: word(alloc, arguments, "arch")?,
    }))
}

#[tactic(auto, unfolding(crate::specs::Words::enter_of))]
fn enter(alloc: Global, arguments: &ArgMatches<'_>) -> Result<Command, WordsFault>
    ensures value { Reads (enter_of (rows_of (found_of arguments.now))) result }
{
    let subject = read_named_source(alloc, arguments)?;
    Ok(Command::Enter(command::Enter {
        arch: subject.arch,
        source: subject.source,
        version: subject.version,
        priority: word(alloc, arguments, "priority")?,
        section: word(alloc, arguments, "section")?,
    }))
}

#[tactic(auto, unfolding(crate::specs::Words::give_back_of))]
fn give_back(alloc: Global, arguments: &ArgMatches<'_>) -> Result<Command, WordsFault>
    ensures value { Reads (give_back_of (rows_of (found_of arguments.now))) result }
{
    let subject = read_named_source(alloc, arguments)?;
    Ok(Command::GiveBack(command::GiveBack {
        arch: subject.arch,
        source: subject.source,
        version: subject.version,
    }))
}

#[tactic(auto, unfolding(crate::specs::Words::dep_wait_of))]
fn dep_wait(alloc: Global, arguments: &ArgMatches<'_>) -> Result<Command, WordsFault>
    ensures value { Reads (dep_wait_of (rows_of (found_of arguments.now))) result }
{
    let subject = read_named_source(alloc, arguments)?;
    Ok(Command::DepWait(command::DepWait {
        arch: subject.arch,
        source: subject.source,
        version: subject.version,
        relations: words(alloc, arguments, "relations")?,
    }))
}

#[tactic(auto, unfolding(crate::specs::Words::fail_of))]
fn fail(alloc: Global, arguments: &ArgMatches<'_>) -> Result<Command, WordsFault>
    ensures value { Reads (fail_of (rows_of (found_of arguments.now))) result }
{
    let subject = read_named_source(alloc, arguments)?;
    Ok(Command::Fail(command::SetAside {
        arch: subject.arch,
        source: subject.source,
        version: subject.version,
        note: words(alloc, arguments, "note")?,
    }))
}

#[tactic(auto, unfolding(crate::specs::Words::not_for_us_of))]
fn not_for_us(alloc: Global, arguments: &ArgMatches<'_>) -> Result<Command, WordsFault>
    ensures value { Reads (not_for_us_of (rows_of (found_of arguments.now))) result }
{
    let subject = read_named_source(alloc, arguments)?;
    Ok(Command::NotForUs(command::SetAside {
        arch: subject.arch,
        source: subject.source,
        version: subject.version,
        note: words(alloc, arguments, "note")?,
    }))
}

#[tactic(auto, unfolding(crate::specs::Words::rebuild_of))]
fn rebuild(alloc: Global, arguments: &ArgMatches<'_>) -> Result<Command, WordsFault>
    ensures value { Reads (rebuild_of (rows_of (found_of arguments.now))) result }
{
    let subject = read_named_source(alloc, arguments)?;
    Ok(Command::Rebuild(command::Rebuild {
        arch: subject.arch,
        source: subject.source,
        version: subject.version,
        number: number(arguments, "number")?,
        message: words(alloc, arguments, "message")?,
    }))
}

#[tactic(auto, unfolding(crate::specs::Words::build_priority_of))]
fn build_priority(alloc: Global, arguments: &ArgMatches<'_>) -> Result<Command, WordsFault>
    ensures value { Reads (build_priority_of (rows_of (found_of arguments.now))) result }
{
    let subject = read_named_source(alloc, arguments)?;
    Ok(Command::BuildPriority(command::BuildPriority {
        arch: subject.arch,
        source: subject.source,
        version: subject.version,
        value: integer(arguments, "value")?,
    }))
}

#[tactic(auto, unfolding(crate::specs::Words::forget_of))]
fn forget(alloc: Global, arguments: &ArgMatches<'_>) -> Result<Command, WordsFault>
    ensures value { Reads (forget_of (rows_of (found_of arguments.now))) result }
{
    let subject = read_named_source(alloc, arguments)?;
    Ok(Command::Forget(command::Forget {
        arch: subject.arch,
        source: subject.source,
        version: subject.version,
    }))
}
