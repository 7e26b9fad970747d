//! The characters of relations, and the pieces of a text.

ghost use Rattle.std.specs.Prelude.{◌≡◌, ℕ, ◌<◌, ◌≤◌, ◌==◌, not, true, false, length, slice_index};
ghost use Rattle.std.specs.List.{list_all, take_while};
ghost use Rattle.std.specs.Option.{option_map};
ghost use Rattle.deb_relations.specs.Grammar.{is_white, is_blank_text, is_profile_char, is_op_char};
ghost use Rattle.deb_relations.specs.Reader.{skip, strip, cut, is_solid};
ghost use Rattle.deb_relations.specs.Scanner.{test_of, halves_of, text_of};

use crate::names::{is_arch_char, is_package_char};

/// A class of characters.
#[derive(Clone, Copy)]
pub(crate) enum Class {
    White,
    Solid,
    Package,
    Arch,
    Profile,
    Op,
}

#[tactic(auto, unfolding(crate::specs::Grammar::is_white))]
pub(crate) fn is_white(byte: u8) -> bool
    ensures { result ≡ is_white byte }
{
    byte == b' ' || byte == b'\t' || byte == b'\n' || byte == b'\r'
}

#[tactic(auto, unfolding(crate::specs::Grammar::is_profile_char))]
fn is_profile_char(byte: u8) -> bool
    ensures { result ≡ is_profile_char byte }
{
    byte.is_ascii_alphanumeric() || byte == b'.' || byte == b'+' || byte == b'-' || byte == b'_'
}

#[tactic(auto, unfolding(crate::specs::Grammar::is_op_char))]
fn is_op_char(byte: u8) -> bool
    ensures { result ≡ is_op_char byte }
{
    byte == b'<' || byte == b'=' || byte == b'>'
}

#[tactic(auto, unfolding(crate::specs::Reader::is_solid))]
fn passes(class: Class, byte: u8) -> bool
    ensures { result ≡ test_of class byte }
{
    match class {
        Class::White => is_white(byte),
        Class::Solid => !is_white(byte),
        Class::Package => is_package_char(byte),
        Class::Arch => is_arch_char(byte),
        Class::Profile => is_profile_char(byte),
        Class::Op => is_op_char(byte),
    }
}

// Whether all characters of a text are of the class.
pub(crate) fn is_all(class: Class, text: &str) -> bool
    ensures { result ≡ list_all (test_of class) text.now }
{
    for byte in text.as_bytes() {
        if !passes(class, *byte) {
            return false;
        }
    }
    true
}

// How many characters of the class a text begins with.
fn front_len(class: Class, text: &[u8]) -> usize
    ensures inside { result ≤ length text.now }
    ensures passed { (k : ℕ) → k < result → test_of class (slice_index text.now k) ≡ true }
    ensures stopped { result < length text.now
        → test_of class (slice_index text.now result) ≡ false }
{
    for (n, byte) in text.iter().enumerate() {
        if !passes(class, *byte) {
            return n;
        }
    }
    text.len()
}

// The characters of the class that a text begins with, and what follows them.
pub(crate) fn split_leading(class: Class, text: &str) -> (&str, &str)
    ensures front { result.0.now ≡ take_while (test_of class) text.now }
    ensures back { result.1.now ≡ skip (test_of class) text.now }
{
    let len = front_len(class, text.as_bytes());
    text.split_at(len)
}

// A text without the white space before it.
pub(crate) fn skip_white(text: &str) -> &str
    ensures { result.now ≡ skip is_white text.now }
{
    split_leading(Class::White, text).1
}

// What follows the first character, if it is this one.
pub(crate) fn strip(mark: char, text: &str) -> Option<&str>
    requires { mark < 128 }
    ensures { option_map text_of result ≡ strip mark text.now }
{
    text.strip_prefix(mark)
}

// What stands before the first such character, and after it.
pub(crate) fn cut_at(mark: char, text: &str) -> Option<(&str, &str)>
    requires { mark < 128 }
    ensures { option_map halves_of result ≡ cut mark text.now }
{
    text.split_once(mark)
}
