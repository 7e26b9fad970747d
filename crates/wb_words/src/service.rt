//! The subcommand `serve` of the program's command line.
ghost use Rattle.std.specs.Prelude.{◌≡◌, ◌≤◌, false, IfOk, IfSome};
ghost use Rattle.clap.specs.Walk.{rule_of};
ghost use Rattle.clap.specs.Words.{app_of, found_of, rows_of};
ghost use Rattle.clap.specs.declared.builder.command.Command.TheViews.{out-Command};
ghost use Rattle.wb_words.specs.Service.{limited, limited_number_of, optional_limited_number_of, port_rule, requests_rule};
ghost use Rattle.wb_words.specs.Service.{serve_app, service_of};

use crate::argument::{number, number_in};
use clap::{Arg, ArgAction, ArgMatches, Command, value_parser};
use std::alloc::{AllocError, Global};

/// The greatest port of TCP (RFC 9293, section 3.1).
const PORT_LIMIT: u64 = 65_535;

/// The greatest number of connections that one call may be told to serve.
const REQUESTS_LIMIT: u64 = 1_000_000;

/// The option `--port`, which takes a port of TCP.
fn port_argument<'a>(alloc: Global) -> Arg<'a>
    ensures value { rule_of result ≡ port_rule }
    ensures local { result.global ≡ false }
{
    Arg::new(alloc, "port")
        .long("port")
        .required(true)
        .action(ArgAction::Set)
        .value_parser(value_parser!(u64).range(1..=65_535))
}

/// The option `--requests`, which takes how many connections are served, and may be left out.
fn requests_argument<'a>(alloc: Global) -> Arg<'a>
    ensures value { rule_of result ≡ requests_rule }
    ensures local { result.global ≡ false }
{
    Arg::new(alloc, "requests")
        .long("requests")
        .action(ArgAction::Set)
        .value_parser(value_parser!(u64).range(1..=1_000_000))
}

/// The subcommand `serve` with its options.
pub(crate) fn serve_command<'a>(alloc: Global) -> Result<Command<'a>, AllocError>
    ensures value { IfOk result (λ command. app_of command ≡ serve_app) }
    ensures local { IfOk result (λ command. (out-Command command).has_globals ≡ false) }
{
    Command::new(alloc, "serve")
        .arg(port_argument(alloc))?
        .arg(requests_argument(alloc))
}

/// The number, or none if it is 0 or above the limit.
fn limited(number: u64, limit: u64) -> Option<u64>
    ensures value { result ≡ limited limit number }
    ensures within { IfSome result (λ n. n ≤ limit) }
{
    if number == 0 || number > limit {
        return None;
    }
    Some(number)
}

/// The number from 1 to the limit that was given for the argument `id`, if one was.
#[tactic(auto, unfolding(crate::specs::Service::limited_number_of))]
fn limited_number(arguments: &ArgMatches<'_>, id: &str, limit: u64) -> Option<u64>
    ensures value { result
        ≡ limited_number_of limit id.now (rows_of (found_of arguments.now)) }
    ensures within { IfSome result (λ n. n ≤ limit) }
{
    limited(number(arguments, id).ok()?, limit)
}

/// The number from 1 to the limit that was given for the argument `id`; `None` in it if no word was
/// given, and `None` if the word is no such number.
#[tactic(auto, using(crate::proofs::RowLemmas::row_laws), unfolding(crate::specs::Arguments::word_of, crate::specs::Service::optional_limited_number_of))]
fn optional_limited_number(arguments: &ArgMatches<'_>, id: &str, limit: u64) -> Option<Option<u64>>
    ensures value { result
        ≡ optional_limited_number_of limit id.now (rows_of (found_of arguments.now)) }
    ensures within { IfSome result (λ given. IfSome given (λ n. n ≤ limit)) }
{
    match arguments.get_str(id) {
        Some(word) => Some(Some(limited(number_in(word)?, limit)?)),
        None => Some(None),
    }
}

/// The port, and how many connections are served, or that no number of them was given; `None` if
/// the port is missing, or a number is out of range.
#[tactic(auto, unfolding(crate::specs::Service::service_of))]
pub(crate) fn service_of(arguments: &ArgMatches<'_>) -> Option<(u16, Option<u32>)>
    ensures value { result ≡ service_of (rows_of (found_of arguments.now)) }
{
    let port = limited_number(arguments, "port", PORT_LIMIT)?;
    match optional_limited_number(arguments, "requests", REQUESTS_LIMIT)? {
        Some(requests) => Some((port as u16, Some(requests as u32))),
        None => Some((port as u16, None)),
    }
}
