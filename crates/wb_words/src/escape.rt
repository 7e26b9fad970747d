//! How words are read of which the last is a negative build priority: as if `--` stood before it.
ghost use Rattle.std.specs.Prelude.{◌≡◌, map, IfOk};
ghost use Rattle.wb_words.specs.Escapes.{end_in_negative, escaped, has_escape, has_negative_value, is_digits, is_negative};

use std::alloc::{AllocError, Global};

/// Whether these are decimal digits, at least one.
fn is_digits(text: &[u8]) -> bool
    ensures value { result ≡ is_digits text.now }
{
    !text.is_empty() && text.iter().all(|digit| digit.is_ascii_digit())
}

/// Whether the word is a minus sign with decimal digits after it.
fn is_negative(word: &str) -> bool
    ensures value { result ≡ is_negative word.now }
{
    match word.as_bytes().split_first() {
        Some((sign, digits)) => *sign == b'-' && is_digits(digits),
        None => false,
    }
}

/// Whether one of the words is `--`.
fn has_escape(words: &[&str]) -> bool
    ensures value { result ≡ has_escape (map (λ word. word.now) words.now) }
{
    words.contains(&"--")
}

/// Whether the last of the words is a minus sign with decimal digits after it.
fn end_in_negative(words: &[&str]) -> bool
    ensures value { result ≡ end_in_negative (map (λ word. word.now) words.now) }
{
    match words.last() {
        Some(word) => is_negative(word),
        None => false,
    }
}

// Each line that is read so is one that `clap` refuses as it stands, so no line that was accepted
// means anything else; examples and `tools/tests/test_words.py` show it, and no law says it of all
// lines. With `allow_negative_numbers` `clap` no longer states which word goes to which argument,
// on which `invocation_of` and `start_of` rest.
/// Whether the subcommand of the words is `build-priority`, the last word is a negative number, and
/// no word is `--`. `clap` would take that word for an option.
#[tactic(auto, unfolding(crate::specs::Escapes::has_negative_value))]
pub(crate) fn has_negative_value(words: &[&str]) -> bool
    ensures value { result ≡ has_negative_value (map (λ word. word.now) words.now) }
{
    match words.split_first() {
        Some((name, given)) => {
            *name == "build-priority" && !has_escape(given) && end_in_negative(given)
        }
        None => false,
    }
}

/// The words with `--` before the last of them. The only error is that there is no memory for them.
pub(crate) fn escaped<'a>(alloc: Global, words: &[&'a str]) -> Result<Vec<&'a str>, AllocError>
    ensures value { IfOk result (λ read. map (λ word. word.now) read.items
        ≡ escaped (map (λ word. word.now) words.now)) }
{
    let last = words.len().saturating_sub(1);
    let mut read = Vec::from_slice(alloc, words)?;
    read.insert(last, "--")?;
    Ok(read)
}
