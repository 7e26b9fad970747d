//! The command line as `clap` knows it: the subcommands with their arguments.
ghost use Rattle.std.specs.Prelude.{◌≡◌, false, map, option_map, IfOk};
ghost use Rattle.clap.specs.Walk.{rule_of};
ghost use Rattle.clap.specs.Words.{app_of, new_app, with_subcommand};
ghost use Rattle.clap.specs.declared.builder.command.Command.TheViews.{out-Command};
ghost use Rattle.wb_words.specs.Usages.{arguments_in, arguments_named, rule_for, subcommand_app};
ghost use Rattle.wb_words.specs.Usages.{usages_in, wb_app, wb_usages, with_arguments, with_usages, with_wb_usages};

use crate::usage::ArgumentKind;
use crate::{builder, lists, operator, query};
use clap::{Arg, ArgAction, Command};
use std::alloc::{AllocError, Global};

/// The argument `id`, which takes its words as its kind says.
fn argument<'a>(alloc: Global, id: &'a str, kind: ArgumentKind) -> Arg<'a>
    ensures value { rule_of result ≡ rule_for id.entry.now kind }
    ensures local { result.global ≡ false }
{
    let bare = Arg::new(alloc, id);
    match kind {
        ArgumentKind::Word => bare.required(true).action(ArgAction::Set),
        ArgumentKind::NamedWord => bare.long(id).action(ArgAction::Set),
        ArgumentKind::SomeWords => bare.required(true).num_args(1..).action(ArgAction::Append),
        ArgumentKind::AnyWords => bare.num_args(0..).action(ArgAction::Append),
    }
}

/// The command with these arguments, in their order.
pub(crate) fn with_arguments<'a>(
    alloc: Global,
    command: Command<'a>,
    arguments: &'a [(&'a str, ArgumentKind)],
) -> Result<Command<'a>, AllocError>
    requires { (out-Command command).has_globals ≡ false }
    ensures value { IfOk result (λ made. app_of made ≡ with_arguments (app_of command.entry)
        (arguments_in arguments.entry.now)) }
    ensures local { IfOk result (λ made. (out-Command made).has_globals ≡ false) }
{
    let mut made = command;
    for taken in arguments {
        let added = argument(alloc, taken.0, taken.1);
        made = made.arg(added)?;
    }
    Ok(made)
}

/// The command with a subcommand for each of `usages`, a name with the arguments that it takes.
fn with_subcommands<'a>(
    alloc: Global,
    command: Command<'a>,
    usages: &'a [(&'a str, &'a [(&'a str, ArgumentKind)])],
) -> Result<Command<'a>, AllocError>
    requires { (out-Command command).has_globals ≡ false }
    ensures value { IfOk result (λ made. app_of made ≡ with_usages (app_of command.entry)
        (usages_in usages.entry.now)) }
    ensures local { IfOk result (λ made. (out-Command made).has_globals ≡ false) }
{
    let mut made = command;
    for usage in usages {
        let added = with_arguments(alloc, Command::new(alloc, usage.0), usage.1)?;
        made = made.subcommand(added)?;
    }
    Ok(made)
}

/// The command with a subcommand for each that a line may have.
pub(crate) fn with_line_subcommands<'a>(
    alloc: Global,
    command: Command<'a>,
) -> Result<Command<'a>, AllocError>
    requires { (out-Command command).has_globals ≡ false }
    ensures value { IfOk result (λ made. app_of made ≡ with_wb_usages (app_of command.entry)) }
    ensures local { IfOk result (λ made. (out-Command made).has_globals ≡ false) }
{
    let operators = with_subcommands(alloc, command, operator::USAGES.as_slice())?;
    let builders = with_subcommands(alloc, operators, builder::USAGES.as_slice())?;
    let queries = with_subcommands(alloc, builders, query::USAGES.as_slice())?;
    with_subcommands(alloc, queries, lists::USAGES.as_slice())
}

/// The command of a line: its first word is a subcommand, and there is no help.
#[tactic(auto, unfolding(crate::specs::Usages::wb_app))]
pub(crate) fn wb_app<'a>(alloc: Global) -> Result<Command<'a>, AllocError>
    ensures value { IfOk result (λ command. app_of command ≡ wb_app) }
{
    let bare = Command::new(alloc, "wb")
        .no_binary_name(true)
        .disable_help_flag(true)
        .disable_help_subcommand(true)
        .subcommand_required(true);
    with_line_subcommands(alloc, bare)
}

/// The command of a line after its first word, which is the subcommand `name` with these arguments.
pub(crate) fn subcommand_app<'a>(
    alloc: Global,
    name: &'a str,
    arguments: &'a [(&'a str, ArgumentKind)],
) -> Result<Command<'a>, AllocError>
    ensures value { IfOk result (λ command. app_of command
        ≡ subcommand_app (name.entry.now, arguments_in arguments.entry.now)) }
{
    let bare = Command::new(alloc, name)
        .no_binary_name(true)
        .disable_help_flag(true)
        .disable_help_subcommand(true);
    with_arguments(alloc, bare, arguments)
}

/// The arguments of the first of `usages` with this name; `None` if there is none.
pub(crate) fn arguments_among<'a>(
    usages: &'a [(&'a str, &'a [(&'a str, ArgumentKind)])],
    name: &str,
) -> Option<&'a [(&'a str, ArgumentKind)]>
    ensures value { option_map (λ arguments. arguments_in arguments.now) result
        ≡ arguments_named name.now (usages_in usages.entry.now) }
{
    for usage in usages {
        if usage.0 == name {
            return Some(usage.1);
        }
    }
    None
}

/// The arguments of the subcommand `name`; `None` if there is no such subcommand.
pub(crate) fn arguments_of<'a>(name: &str) -> Option<&'a [(&'a str, ArgumentKind)]>
    ensures value { option_map (λ arguments. arguments_in arguments.now) result
        ≡ arguments_named name.now wb_usages }
{
    arguments_among(operator::USAGES.as_slice(), name)
        .or(arguments_among(builder::USAGES.as_slice(), name))
        .or(arguments_among(query::USAGES.as_slice(), name))
        .or(arguments_among(lists::USAGES.as_slice(), name))
}
