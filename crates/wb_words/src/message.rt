//! What is said to a person of an argument that is malformed.

use clap::ArgMatches;
use std::alloc::{AllocError, Global};

/// What a take number, the number after `--after` and the number of a rebuild have to be.
const NUMBER_FORM: &str = "a whole number from 0 to 18446744073709551615";

/// What a build priority has to be; its own limits are those of a refusal.
const INTEGER_FORM: &str = "an integer from -9223372036854775808 to 9223372036854775807";

/// What a part of a merge has to be.
const PART_FORM: &str = "ARCH=PACKAGESFILE";

/// An argument of a form of its own.
#[derive(Clone, Copy)]
struct Formed<'a> {
    /// Its name, as help has it.
    name: &'static str,
    /// The word that was given for it.
    word: &'a str,
    /// What it has to be.
    form: &'static str,
}

/// The first of the words that names no part.
fn first_without_file<'a>(words: &[&'a str]) -> Option<&'a str> {
    for word in words {
        if word.split_once('=').is_none() {
            return Some(*word);
        }
    }
    None
}

/// The argument of the subcommand `name` that has a form of its own: each has at most one, but for
/// the parts of a merge, of which it is the first that names none. `None` if it was not given.
fn formed_of<'a>(name: &str, arguments: &ArgMatches<'a>) -> Option<Formed<'a>> {
    let (name, word, form) = match name {
        "merge" => (
            "PART",
            first_without_file(arguments.get_strs("parts")?)?,
            PART_FORM,
        ),
        "next" => ("N of --after", arguments.get_str("after")?, NUMBER_FORM),
        "rebuild" => ("NUMBER", arguments.get_str("number")?, NUMBER_FORM),
        "build-priority" => ("VALUE", arguments.get_str("value")?, INTEGER_FORM),
        _ => ("TAKE", arguments.get_str("take")?, NUMBER_FORM),
    };
    Some(Formed { name, word, form })
}

/// Of words that `clap` read and that are no command: which argument is malformed, and what it has
/// to be.
pub(crate) fn malformed_text(
    alloc: Global,
    matches: &ArgMatches<'_>,
) -> Result<String, AllocError> {
    match matches
        .subcommand()
        .and_then(|(name, arguments)| formed_of(name, arguments))
    {
        Some(formed) => {
            format!(in alloc;
                "{} is {}, and has to be {}",
                formed.name, formed.word, formed.form
            )
        }
        None => format!(in alloc; "an argument is malformed"),
    }
}
