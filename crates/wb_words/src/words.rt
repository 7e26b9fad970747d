//! What the words of a line ask for.
ghost use Rattle.std.specs.Prelude.{◌≡◌, ◌≢◌, None, Some, map, IfErr, IfOk};
ghost use Rattle.clap.specs.Words.{found_of, rows_of};
ghost use Rattle.wb_words.specs.declared.fault.WordsFault.TheVariants.{Memory};
ghost use Rattle.wb_words.specs.Escapes.{escaped};
ghost use Rattle.wb_words.specs.Faults.{Reads};
ghost use Rattle.wb_words.specs.Words.{command_named, invocation_in, invocation_named, invocation_read};
ghost use Rattle.wb_words.specs.Words.{other_invocation};

use crate::escape::{escaped, has_negative_value};
use crate::message::malformed_text;
use crate::tree::{arguments_of, subcommand_app, wb_app};
use crate::{WordsFault, builder, lists, operator, query};
use clap::ArgMatches;
use deb_text::{Items, Text};
use std::alloc::{AllocError, Global};
use wb_lists::PartNames;
use wb_states::{Command, Query};

/// What the words of a line ask for.
#[derive(Debug, Drop)]
pub enum Invocation {
    /// A command with all its arguments.
    Command {
        command: Command,
    },
    /// A query with all its arguments.
    Query {
        query: Query,
    },
    /// A merge of the lists in these files.
    Merge {
        sources: Text,
        parts: Items<PartNames>,
    },
    /// A report of an architecture, in the file of this name.
    Report {
        arch: Text,
        file: Text,
    },
}

/// The command `name` with these arguments. The errors are `NoCommand` if `name` is no subcommand
/// of operators or builders, or an argument was not given or is no number; and `Memory` if there is
/// no memory for its texts.
#[tactic(auto, unfolding(crate::specs::Words::command_named))]
fn command_named(
    alloc: Global,
    name: &str,
    arguments: &ArgMatches<'_>,
) -> Result<Command, WordsFault>
    ensures value { Reads (command_named name.now (rows_of (found_of arguments.now))) result }
{
    match operator::operator_command(alloc, name, arguments) {
        Err(WordsFault::NoCommand) => builder::builder_command(alloc, name, arguments),
        read => read,
    }
}

/// What the subcommand `name`, which is no command, asks for with these arguments. The errors are
/// `NoCommand` if it asks for nothing, or an argument was not given or is malformed; and `Memory`
/// if there is no memory for its texts.
#[tactic(auto, unfolding(crate::specs::Words::other_invocation))]
fn other_invocation(
    alloc: Global,
    name: &str,
    arguments: &ArgMatches<'_>,
) -> Result<Invocation, WordsFault>
    ensures value { Reads (other_invocation name.now (rows_of (found_of arguments.now))) result }
{
    match query::query_named(alloc, name, arguments) {
        Ok(query) => Ok(Invocation::Query { query }),
        Err(WordsFault::NoCommand) => lists::list_invocation(alloc, name, arguments),
        Err(memory) => Err(memory),
    }
}

/// What the subcommand `name` asks for with these arguments. The errors are `NoCommand` if `name`
/// is no subcommand, or an argument was not given or is malformed; and `Memory` if there is no
/// memory for its texts.
#[tactic(auto, unfolding(crate::specs::Words::invocation_named))]
fn invocation_named(
    alloc: Global,
    name: &str,
    arguments: &ArgMatches<'_>,
) -> Result<Invocation, WordsFault>
    ensures value { Reads (invocation_named (name.now, rows_of (found_of arguments.now))) result }
{
    match command_named(alloc, name, arguments) {
        Ok(command) => Ok(Invocation::Command { command }),
        Err(WordsFault::NoCommand) => other_invocation(alloc, name, arguments),
        Err(memory) => Err(memory),
    }
}

// The definition is over the tree of all subcommands, `wb_app`. This builds only the one that the
// first word names, which costs a quarter of that; lemmas prove that `clap` reads the same of both.
// The whole tree is built for the message alone (`fault_read`). It is not made once for a run,
// since the words that `clap` reads must live as long as the command that reads them.
/// What the words of one line ask for, of which the first is the subcommand, as `clap` reads them.
/// The errors are `NoCommand` if the words are no command, and `Memory`, which may come at any
/// words.
fn invocation_read<'a>(alloc: Global, words: &'a [&'a str]) -> Result<Invocation, WordsFault>
    ensures value { IfOk result (λ invocation.
        invocation_read (map (λ word. word.now) words.entry.now) ≡ Some invocation) }
    ensures refused { IfErr result (λ fault. fault ≢ Memory
        → invocation_read (map (λ word. word.now) words.entry.now) ≡ None) }
{
    let [name, given @ ..] = words else {
        return Err(WordsFault::NoCommand);
    };
    let wanted = arguments_of(name).ok_or(WordsFault::NoCommand)?;
    let arguments = subcommand_app(alloc, name, wanted)?.try_get_matches_from(given)?;
    invocation_named(alloc, name, &arguments)
}

/// What the words of one line ask for, as if `--` stood before the last of them. The errors are
/// those of `invocation_read`.
fn invocation_escaped(alloc: Global, words: &[&str]) -> Result<Invocation, WordsFault>
    ensures value { IfOk result (λ invocation.
        invocation_read (escaped (map (λ word. word.now) words.now)) ≡ Some invocation) }
    ensures refused { IfErr result (λ fault. fault ≢ Memory
        → invocation_read (escaped (map (λ word. word.now) words.now)) ≡ None) }
{
    let read = escaped(alloc, words)?;
    invocation_read(alloc, &read)
}

/// Reads the words of one line, of which the first is the subcommand.
///
/// Each word is one argument, whatever bytes it has. One space joins the words of a last argument,
/// but each part of a merge is an argument of its own. A word of two or more bytes that begins with
/// a hyphen is an option, unless the word `--` came before it. The only option is `--after` of
/// `next`. Numbers are whole, from 0 to 2^64 - 1, in decimal digits, after at most one plus sign. A
/// build priority is from -2^63 to 2^63 - 1, after at most one plus or minus sign; one with a minus
/// sign may stand without `--`, as the last word. The errors are `NoCommand` if the words are no
/// command, and `Memory`, which may come at any words. The grammar is this project's own.
#[tactic(auto, unfolding(crate::specs::Words::invocation_in))]
pub fn invocation_of<'a>(alloc: Global, words: &'a [&'a str]) -> Result<Invocation, WordsFault>
    ensures value { IfOk result (λ invocation.
        invocation_in (map (λ word. word.now) words.entry.now) ≡ Some invocation) }
    ensures refused { IfErr result (λ fault. fault ≢ Memory
        → invocation_in (map (λ word. word.now) words.entry.now) ≡ None) }
{
    if has_negative_value(words) {
        invocation_escaped(alloc, words)
    } else {
        invocation_read(alloc, words)
    }
}

/// Why words are no command, as `clap` reads them: what it says of them, or which argument is
/// malformed, and what it has to be. The error is that there is no memory for the text.
fn fault_read<'a>(alloc: Global, words: &'a [&'a str]) -> Result<String, AllocError> {
    match wb_app(alloc)?.try_get_matches_from(words) {
        Ok(matches) => malformed_text(alloc, &matches),
        Err(error) => format!(in alloc; "{error}"),
    }
}

/// Why words are no command, for a person: what `clap` says of them, or which argument is
/// malformed, and what it has to be. The error is that there is no memory for the text.
pub fn fault_of<'a>(alloc: Global, words: &'a [&'a str]) -> Result<String, AllocError> {
    if has_negative_value(words) {
        let read = escaped(alloc, words)?;
        fault_read(alloc, &read)
    } else {
        fault_read(alloc, words)
    }
}
