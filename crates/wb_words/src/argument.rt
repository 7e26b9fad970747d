//! The arguments of a subcommand, one by one.
ghost use Rattle.std.specs.Prelude.{◌≡◌, map, IfErr, IfOk};
ghost use Rattle.clap.specs.Words.{found_of, rows_of};
ghost use Rattle.wb_words.specs.Arguments.{integer_in, integer_of, joined, number_in, number_of};
ghost use Rattle.wb_words.specs.Arguments.{optional_number_of, named_source_of, word_of, words_of};
ghost use Rattle.wb_words.specs.Faults.{Reads};
ghost use Rattle.wb_words.specs.declared.fault.WordsFault.TheVariants.{NoCommand};

use crate::WordsFault;
use clap::ArgMatches;
use deb_text::Text;
use std::alloc::{AllocError, Global};

/// The source package that a command is about.
#[derive(Debug, Drop)]
pub struct NamedSource {
    /// The architecture.
    pub arch: Text,
    /// The name of the source package.
    pub source: Text,
    /// Its version.
    pub version: Text,
}

/// A copy of the word that was given for the argument `id`. The errors are `NoCommand` if no word
/// was given, and `Memory` if there is no memory for the copy.
#[tactic(auto, using(crate::proofs::RowLemmas::row_laws), unfolding(crate::specs::Arguments::word_of))]
pub(crate) fn word(alloc: Global, arguments: &ArgMatches<'_>, id: &str) -> Result<Text, WordsFault>
    ensures value { Reads (word_of id.now (rows_of (found_of arguments.now))) result }
{
    let word = arguments.get_str(id).ok_or(WordsFault::NoCommand)?;
    Ok(Text::copied(alloc, word)?)
}

/// The words with one space between each two. The only error is that there is no memory for the
/// text.
#[tactic(auto, using(crate::proofs::ArgumentLemmas::argument_laws))]
fn joined(alloc: Global, words: &[&str]) -> Result<Text, AllocError>
    ensures value { IfOk result (λ text. text ≡ joined (map (λ word. word.now) words.now)) }
{
    Ok(Text::from(words.join(alloc, " ")?))
}

/// The words that were given for the argument `id`, joined by one space each; the empty text if
/// there are none. The only error is that there is no memory for the text.
#[tactic(auto, using(crate::proofs::RowLemmas::row_laws), unfolding(crate::specs::Arguments::words_of))]
pub(crate) fn words(alloc: Global, arguments: &ArgMatches<'_>, id: &str) -> Result<Text, AllocError>
    ensures value { IfOk result (λ text.
        text ≡ words_of id.now (rows_of (found_of arguments.now))) }
{
    match arguments.get_strs(id) {
        Some(words) => joined(alloc, words),
        None => Ok(Text::new(alloc)),
    }
}

/// The whole number from 0 to 2^64 - 1 that the text writes in decimal digits, leading zeros and
/// one plus sign before them allowed; `None` for any other text.
pub(crate) fn number_in(text: &str) -> Option<u64>
    ensures value { result ≡ number_in text.now }
{
    text.parse::<u64>().ok()
}

/// The number that was given for the argument `id`. The error is `NoCommand` if no number was
/// given.
#[tactic(auto, using(crate::proofs::RowLemmas::row_laws), unfolding(crate::specs::Arguments::word_of, crate::specs::Arguments::number_of))]
pub(crate) fn number(arguments: &ArgMatches<'_>, id: &str) -> Result<u64, WordsFault>
    ensures value { Reads (number_of id.now (rows_of (found_of arguments.now))) result }
    ensures memory { IfErr result (λ fault. fault ≡ NoCommand) }
{
    let word = arguments.get_str(id).ok_or(WordsFault::NoCommand)?;
    number_in(word).ok_or(WordsFault::NoCommand)
}

/// The number that was given for the argument `id`; `None` if no word was given. The error is
/// `NoCommand` if the word is no number.
#[tactic(auto, using(crate::proofs::RowLemmas::row_laws), unfolding(crate::specs::Arguments::word_of, crate::specs::Arguments::optional_number_of))]
pub(crate) fn optional_number(
    arguments: &ArgMatches<'_>,
    id: &str,
) -> Result<Option<u64>, WordsFault>
    ensures value { Reads (optional_number_of id.now (rows_of (found_of arguments.now))) result }
    ensures memory { IfErr result (λ fault. fault ≡ NoCommand) }
{
    match arguments.get_str(id) {
        Some(word) => Ok(Some(number_in(word).ok_or(WordsFault::NoCommand)?)),
        None => Ok(None),
    }
}

/// The integer from -2^63 to 2^63 - 1 that the text writes in decimal digits, leading zeros and one
/// plus or minus sign before them allowed; `None` for any other text.
fn integer_in(text: &str) -> Option<i64>
    ensures value { result ≡ integer_in text.now }
{
    text.parse::<i64>().ok()
}

/// The integer that was given for the argument `id`. The error is `NoCommand` if no integer was
/// given.
#[tactic(auto, using(crate::proofs::RowLemmas::row_laws), unfolding(crate::specs::Arguments::word_of, crate::specs::Arguments::integer_of))]
pub(crate) fn integer(arguments: &ArgMatches<'_>, id: &str) -> Result<i64, WordsFault>
    ensures value { Reads (integer_of id.now (rows_of (found_of arguments.now))) result }
    ensures memory { IfErr result (λ fault. fault ≡ NoCommand) }
{
    let word = arguments.get_str(id).ok_or(WordsFault::NoCommand)?;
    integer_in(word).ok_or(WordsFault::NoCommand)
}

/// The source package that the arguments `arch`, `source` and `version` name. The errors are
/// `NoCommand` if one of them was not given, and `Memory` if there is no memory for the texts.
#[tactic(auto, unfolding(crate::specs::Arguments::named_source_of))]
pub(crate) fn read_named_source(
    alloc: Global,
    arguments: &ArgMatches<'_>,
) -> Result<NamedSource, WordsFault>
    ensures value { Reads (named_source_of (rows_of (found_of arguments.now))) result }
{
    Ok(NamedSource {
        arch: word(alloc, arguments, "arch")?,
        source: word(alloc, arguments, "source")?,
        version: word(alloc, arguments, "version")?,
    })
}
