//! What the program is started for.
ghost use Rattle.std.specs.Prelude.{◌≡◌, ◌≢◌, false, if◌then◌else◌, codes, map, option_map, IfErr};
ghost use Rattle.std.specs.Prelude.{IfNone, IfOk, IfSome};
ghost use Rattle.clap.specs.Words.{app_of, first_of, found_of, kind_of, new_app, rows_of};
ghost use Rattle.clap.specs.Words.{subcommand_rows_of, with_subcommand};
ghost use Rattle.clap.specs.declared.builder.command.Command.TheViews.{out-Command};
ghost use Rattle.clap.specs.declared.error.kind.ErrorKind.TheVariants.{OutOfMemory};
ghost use Rattle.wb_words.specs.Arguments.{word_of};
ghost use Rattle.wb_words.specs.Service.{serve_app};
ghost use Rattle.wb_words.specs.Start.{Asks, AsksNone, IsNoStart, Names, NamesNone, Starts};
ghost use Rattle.wb_words.specs.Start.{begin_with_query, begins_with_help, single_words, start_app};
ghost use Rattle.wb_words.specs.Start.{start_words, store_words, with_journal, with_service_paths};
ghost use Rattle.wb_words.specs.declared.start.Start.TheVariants.{Ask, CarryOut};

use crate::escape::{escaped, has_negative_value};
use crate::query::is_query;
use crate::service::{serve_command, service_of};
use crate::tree::{with_arguments, with_line_subcommands};
use crate::usage::ArgumentKind;
use clap::error::{Error, ErrorKind};
use clap::{ArgMatches, Command};
use std::alloc::{AllocError, Global};

/// What the words after the program's name ask for.
#[derive(Clone, Copy, Debug, PartialEq, Eq)]
pub enum Start<'a> {
    /// To answer the lines of the input.
    Run {
        /// The file that keeps the records; without one they end with the program.
        store: Option<&'a str>,
        /// The file to which a line for each accepted command is appended, if one is kept.
        journal: Option<&'a str>,
    },
    /// To answer requests of builders over HTTP.
    Serve {
        /// The file that keeps the records; without one they end with the program.
        store: Option<&'a str>,
        /// The port of TCP on 127.0.0.1, at least 1.
        port: u16,
        /// How many connections are served, from 1 to 1000000; without it, all until the program is
        /// ended.
        requests: Option<u32>,
        /// The file to which a line for each accepted command is appended, if one is kept.
        journal: Option<&'a str>,
        /// The folder of the lists that a request may merge; without it none can merge lists.
        lists: Option<&'a str>,
        /// The file of keys, which says who may ask for what; without it everybody may ask for
        /// everything.
        keys: Option<&'a str>,
    },
    /// To have the office answer a query, which leaves it as it is.
    Ask {
        /// The file that keeps the records; without one there are none.
        store: Option<&'a str>,
        /// The words of the query, of which the first is the subcommand.
        words: &'a [&'a str],
    },
    /// To have the office carry out a single command.
    CarryOut {
        /// The file that keeps the records; without one they end with the program.
        store: Option<&'a str>,
        /// The words of the command, of which the first is the subcommand.
        words: &'a [&'a str],
    },
    /// To show how the program is used.
    Help,
}

/// How the program is used, as text for a terminal.
pub const HELP: &str = "\
The central office of an autobuilder network.

Usage:
  wb [--store FILE] run [--journal FILE]
                           Answers the commands of its input
  wb [--store FILE] COMMAND ARGUMENTS..
                           Answers one command
  wb [--store FILE] serve --port P [--requests N] [--journal FILE]
                          [--lists FOLDER] [--keys FILE]
                           Answers HTTP requests of builders on this machine
  wb help                  Prints this text
  wb --version             Prints the version

`wb run` reads one command from each line of its input. It answers each command
with one line of JSON. With --store the records are kept in FILE, which is made
if it is not there, and each answer is written only once its command is stored.
Without it the records end with the program.

`wb COMMAND` answers one command as `wb run` does. Each word is an argument as
it is, also with spaces. A command that changes nothing leaves FILE as it is.

`wb serve` listens on port P of 127.0.0.1 and serves connections, one after
another, until it is ended. With --requests it serves N of them, and ends. P is
from 1 to 65535, and N from 1 to 1000000. Each connection carries one request.
--store keeps the records as with `wb run`. With --lists a request can merge
lists of the archive that lie in FOLDER. Without it no request can. With --keys
a request may ask for what the line of its key in FILE allows. Without it every
request may ask for everything.

With --journal a line of JSON is appended to FILE for each accepted command once
it is stored: when it was accepted, what it was, and its answer. A journal that
cannot be written is reported, and stops nothing.

The commands are:

  add-arch NAME OS CPU
          Adds an architecture
          Example: add-arch amd64 linux amd64
  add-builder NAME ARCH
          Lets a builder build for an architecture
          Example: add-builder b1 amd64
  remove-arch NAME
          Removes an architecture and all its records, if no builder holds one
          Example: remove-arch amd64
  remove-builder NAME ARCH
          Lets a builder no longer build for an architecture, if it holds none of
          its source packages
          Example: remove-builder b1 amd64
  enter ARCH SOURCE VERSION PRIORITY SECTION
          Puts a new source package into the queue of an architecture
          Example: enter amd64 hello 1.0-1 optional devel
  next ARCH BUILDER [--after N]
          Gives a builder the first source package of the queue. With --after,
          if the builder still builds under a take number above N, repeats the
          answer with the smallest of them
          Example: next amd64 b1 --after 0
  take ARCH BUILDER SOURCE VERSION
          Gives a builder this source package of the queue
          Example: take amd64 b1 hello 1.0-1
  built TAKE
          Reports that the builder built the source package
          Example: built 17
  uploaded TAKE
          Reports that the builder uploaded what it built
          Example: uploaded 17
  waits TAKE RELATIONS..
          Reports that the source package waits for these relations
          Example: waits 17 libfoo-dev (>= 2)
  attempted TAKE [REASON..]
          Reports that the builder's build failed
          Example: attempted 17 a test failed
  put-back TAKE
          Puts the source package back into the queue
          Example: put-back 17
  give-back ARCH SOURCE VERSION
          Puts a source package back into the queue
          Example: give-back amd64 hello 1.0-1
  dep-wait ARCH SOURCE VERSION RELATIONS..
          Lets a source package wait for these relations
          Example: dep-wait amd64 hello 1.0-1 libfoo-dev (>= 2), bar | baz
  fail ARCH SOURCE VERSION [NOTE..]
          Says that the build fails, as a person who looked at it found
          Example: fail amd64 hello 1.0-1 needs a newer compiler
  not-for-us ARCH SOURCE VERSION [NOTE..]
          Says that the source package is not built on this architecture
          Example: not-for-us amd64 hello 1.0-1 needs x86 hardware
  rebuild ARCH SOURCE VERSION NUMBER [MESSAGE..]
          Builds an installed source package again, under this number
          Example: rebuild amd64 hello 1.0-1 1 rebuild against libfoo2
  build-priority ARCH SOURCE VERSION VALUE
          Gives a source package another build priority, from -1000 to 1000. The
          greatest is built first
          Example: build-priority amd64 hello 1.0-1 -50
  forget ARCH SOURCE VERSION
          Removes the record of a source package, if no builder holds it
          Example: forget amd64 hello 1.0-1
  merge SOURCESFILE PART..
          Brings the records in line with the lists of the archive. A PART is
          ARCH=PACKAGESFILE. Give one for each architecture
          Example: merge Sources-0412 amd64=Packages-amd64-0412
  report ARCH FILE
          Brings the records of an architecture in line with a report of which
          build dependencies can be installed
          Example: report amd64 report-0412

and these, which change nothing:

  queue ARCH
          Shows the queue of an architecture, in the order of building
          Example: queue amd64
  summary ARCH
          Shows how many source packages are in each state
          Example: summary amd64
  by-state ARCH STATE
          Shows the source packages in a state, such as Needs-Build
          Example: by-state amd64 Build-Attempted
  item ARCH SOURCE
          Shows a source package
          Example: item amd64 hello
  depends ARCH SOURCE
          Shows what a source package needs to be built
          Example: depends amd64 hello
  mine BUILDER
          Shows what a builder holds
          Example: mine b1
  office
          Shows how many commands were accepted, and the last take number
          Example: office
  archs
          Shows the architectures, each with its two words
          Example: archs
  builders
          Shows the builders, each with its architectures
          Example: builders

TAKE is the take number in the answer to next or take. An argument in brackets
may be left out. An argument that ends in .. takes several words.

Spaces and tabs separate the words of a line, and there are no quotes. A word of
two or more bytes that begins with a hyphen is an option, but for a negative
VALUE of build-priority. After the word -- it is an argument.
";

/// Whether the first word is `help`.
fn begins_with_help(words: &[&str]) -> bool
    ensures value { result ≡ begins_with_help (map (λ word. word.now) words.now) }
{
    match words {
        [first, ..] => *first == "help",
        [] => false,
    }
}

/// The options before the subcommand.
const OPTIONS: [(&str, ArgumentKind); 1] = [("store", ArgumentKind::NamedWord)];

/// The option of the subcommands that go on with an office.
const JOURNAL: [(&str, ArgumentKind); 1] = [("journal", ArgumentKind::NamedWord)];

/// The options of the subcommand that serves which name a folder and a file.
const SERVICE_PATHS: [(&str, ArgumentKind); 2] = [
    ("lists", ArgumentKind::NamedWord),
    ("keys", ArgumentKind::NamedWord),
];

/// The program's command line: the option `--store`, the subcommands `run` and `serve` and those of
/// a line, and help.
#[tactic(auto, unfolding(crate::specs::Start::start_app))]
fn start_app<'a>(alloc: Global) -> Result<Command<'a>, AllocError>
    ensures value { IfOk result (λ command. app_of command ≡ start_app) }
{
    let bare = Command::new(alloc, "wb")
        .no_binary_name(true)
        .disable_help_subcommand(true)
        .subcommand_required(true);
    let optional = with_arguments(alloc, bare, OPTIONS.as_slice())?;
    let run = with_run(alloc, optional)?;
    let served = with_service(alloc, run)?;
    with_line_subcommands(alloc, served)
}

/// The command with the subcommand `run`.
fn with_run<'a>(alloc: Global, command: Command<'a>) -> Result<Command<'a>, AllocError>
    requires { (out-Command command).has_globals ≡ false }
    ensures value { IfOk result (λ made. app_of made
        ≡ with_subcommand (app_of command.entry) (with_journal (new_app (codes "run"))).top) }
    ensures local { IfOk result (λ made. (out-Command made).has_globals ≡ false) }
{
    let run = with_journal(alloc, Command::new(alloc, "run"))?;
    command.subcommand(run)
}

/// The command with the subcommand `serve`.
fn with_service<'a>(alloc: Global, command: Command<'a>) -> Result<Command<'a>, AllocError>
    requires { (out-Command command).has_globals ≡ false }
    ensures value { IfOk result (λ made. app_of made
        ≡ with_subcommand (app_of command.entry) (with_service_paths (with_journal serve_app)).top) }
    ensures local { IfOk result (λ made. (out-Command made).has_globals ≡ false) }
{
    let kept = with_journal(alloc, serve_command(alloc)?)?;
    let serve = with_service_paths(alloc, kept)?;
    command.subcommand(serve)
}

/// The subcommand with the option `--journal`.
#[tactic(auto, unfolding(crate::specs::Start::with_journal))]
fn with_journal<'a>(alloc: Global, subcommand: Command<'a>) -> Result<Command<'a>, AllocError>
    requires { (out-Command subcommand).has_globals ≡ false }
    ensures value { IfOk result (λ made. app_of made ≡ with_journal (app_of subcommand.entry)) }
    ensures local { IfOk result (λ made. (out-Command made).has_globals ≡ false) }
{
    with_arguments(alloc, subcommand, JOURNAL.as_slice())
}

/// The subcommand with the options `--lists` and `--keys`.
#[tactic(auto, unfolding(crate::specs::Start::with_service_paths))]
fn with_service_paths<'a>(alloc: Global, subcommand: Command<'a>) -> Result<Command<'a>, AllocError>
    requires { (out-Command subcommand).has_globals ≡ false }
    ensures value { IfOk result (λ made. app_of made ≡ with_service_paths (app_of subcommand.entry)) }
    ensures local { IfOk result (λ made. (out-Command made).has_globals ≡ false) }
{
    with_arguments(alloc, subcommand, SERVICE_PATHS.as_slice())
}

/// The file or the folder that the subcommand's arguments name under `id`, if they name one.
#[tactic(auto, using(crate::proofs::RowLemmas::row_laws), unfolding(crate::specs::Arguments::word_of))]
fn path_of<'a>(arguments: &ArgMatches<'a>, id: &str) -> Option<&'a str>
    ensures value { option_map (λ path. path.now) result
        ≡ word_of id.now (rows_of (found_of arguments.now)) }
{
    arguments.get_str(id)
}

/// How many words before the subcommand name the file that keeps the records.
fn store_words(words: &[&str]) -> usize
    ensures value { result ≡ store_words (map (λ word. word.now) words.now) }
{
    match words {
        [first, ..] if *first == "--store" => 2,
        [first, ..] if first.as_bytes().starts_with(b"--store=") => 1,
        _ => 0,
    }
}

/// The words of a single command: those from the subcommand on.
fn single_words<'a>(words: &'a [&'a str]) -> &'a [&'a str]
    ensures value { map (λ word. word.now) result.now ≡ single_words (map (λ word. word.now) words.entry.now) }
{
    let at = store_words(words).min(words.len());
    &words[at..]
}

/// The words as they are read. Those of a negative build priority are kept until the program ends,
/// since what they ask for is read of them. The only error is that there is no memory for them.
fn start_words<'a>(alloc: Global, words: &'a [&'a str]) -> Result<&'a [&'a str], AllocError>
    ensures value { IfOk result (λ read. map (λ word. word.now) read.now
        ≡ start_words (map (λ word. word.now) words.entry.now)) }
{
    if has_negative_value(single_words(words)) {
        Ok(escaped(alloc, words)?.leak())
    } else {
        Ok(words)
    }
}

/// Whether the first of the words is a subcommand that asks the office.
fn begin_with_query(words: &[&str]) -> bool
    ensures value { result ≡ begin_with_query (map (λ word. word.now) words.now) }
{
    match words {
        [first, ..] => is_query(first),
        [] => false,
    }
}

/// What the subcommand `name` of these words, with these arguments, asks for; none if it serves and
/// one of its numbers is missing or out of range.
fn start_named<'a>(
    words: &'a [&'a str],
    store: Option<&'a str>,
    name: &str,
    arguments: &ArgMatches<'a>,
) -> Option<Start<'a>>
    ensures some { IfSome result (Names (map (λ word. word.now) words.entry.now)
        (option_map (λ file. file.now) store.entry) (name.now, rows_of (found_of arguments.now))) }
    ensures none { IfNone result (NamesNone (name.now, rows_of (found_of arguments.now))) }
{
    match name {
        "run" => {
            let journal = path_of(arguments, "journal");
            Some(Start::Run { store, journal })
        }
        "serve" => {
            let (port, requests) = service_of(arguments)?;
            let journal = path_of(arguments, "journal");
            let lists = path_of(arguments, "lists");
            let keys = path_of(arguments, "keys");
            Some(Start::Serve {
                store,
                port,
                requests,
                journal,
                lists,
                keys,
            })
        }
        _ => Some(single_start(store, single_words(words))),
    }
}

/// What the words of a single command ask for: a query or a command.
fn single_start<'a>(store: Option<&'a str>, words: &'a [&'a str]) -> Start<'a>
    ensures value { result ≡ (if begin_with_query (map (λ word. word.now) words.entry.now)
        then Ask store.entry words.entry else CarryOut store.entry words.entry) }
{
    if begin_with_query(words) {
        Start::Ask { store, words }
    } else {
        Start::CarryOut { store, words }
    }
}

/// What the words that were read ask for; none if their subcommand asks for nothing.
fn start_in<'a>(words: &'a [&'a str], matches: &ArgMatches<'a>) -> Option<Start<'a>>
    ensures some { IfSome result (Asks (map (λ word. word.now) words.entry.now)
        (first_of (codes "store") (rows_of (found_of matches.now))) (subcommand_rows_of matches.now)) }
    ensures none { IfNone result (AsksNone (subcommand_rows_of matches.now)) }
{
    let store = matches.get_str("store");
    let (name, arguments) = matches.subcommand()?;
    start_named(words, store, name, arguments)
}

/// The fault of words whose subcommand asks for nothing, as `clap` words it.
fn asks_nothing(alloc: Global) -> Result<Error, AllocError> {
    start_app(alloc)?.error(
        ErrorKind::MissingRequiredArgument,
        "a subcommand lacks what it needs",
    )
}

/// What the words that were read ask for. The error is that their subcommand asks for nothing, or
/// that there is no memory to say so.
fn started<'a>(
    alloc: Global,
    words: &'a [&'a str],
    matches: &ArgMatches<'a>,
) -> Result<Start<'a>, Error>
    ensures value { IfOk result (Asks (map (λ word. word.now) words.entry.now)
        (first_of (codes "store") (rows_of (found_of matches.now))) (subcommand_rows_of matches.now)) }
    ensures refused { IfErr result (λ error. kind_of error ≢ OutOfMemory
        → AsksNone (subcommand_rows_of matches.now)) }
{
    match start_in(words, matches) {
        Some(start) => Ok(start),
        None => Err(asks_nothing(alloc)?),
    }
}

/// Reads the words after the program's name.
///
/// `help` as the first word asks for help, whatever follows; `--help` and `-h` do if no word before
/// them is at fault or is `--`. `--store FILE` or `--store=FILE` before the subcommand names the
/// file that keeps the records. `serve` wants `--port` with a number from 1 to 65535, and takes
/// `--requests` with one from 1 to 1000000, each in decimal digits after at most one plus sign.
/// `--journal FILE`, after `run` or `serve`, names the file to which a line for each accepted
/// command is appended. `--lists FOLDER`, after `serve`, names the folder of the lists that a
/// request may merge, and `--keys FILE` the file of keys, which says who may ask for what. Each
/// subcommand of a line is one here too, with its arguments: what `clap` does not test of them,
/// numbers and the parts of a merge, is read when the command is carried out. A negative build
/// priority may stand without `--`, as the last word. The error is that of `clap`, with a text for
/// the terminal: the words ask for nothing, or there is no memory to read them, which may come at
/// any words. The grammar is this project's own.
pub fn start_of<'a>(alloc: Global, words: &'a [&'a str]) -> Result<Start<'a>, Error>
    ensures value { IfOk result (Starts (map (λ word. word.now) words.entry.now)) }
    ensures refused { IfErr result (λ error. kind_of error ≢ OutOfMemory
        → IsNoStart (map (λ word. word.now) words.entry.now)) }
{
    if begins_with_help(words) {
        return Ok(Start::Help);
    }
    let read = start_words(alloc, words)?;
    match start_app(alloc)?.try_get_matches_from(read) {
        Ok(matches) => started(alloc, words, &matches),
        Err(error) => match error.kind() {
            ErrorKind::DisplayHelp => Ok(Start::Help),
            _ => Err(error),
        },
    }
}
