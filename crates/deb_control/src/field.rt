//! A field of a paragraph, with its continuation lines.
ghost use Rattle.std.specs.Prelude.{◌≡◌, ◌∷◌, [], true, false, OnOk, OnErr, IfOk, IfNone, IfSome, OnSome, position, string_bytes};
ghost use Rattle.std.specs.Iterator.{YieldsFirstRef, item_count};
ghost use Rattle.std.specs.List.{list_all};
ghost use Rattle.deb_control.specs.Lines.{is_nonempty, trim};
ghost use Rattle.deb_control.specs.Fields.{continuations, is_colon, has_colon, name_of, first_of, is_name_char, is_name, entry, folded_onto, folded_of};

use crate::lines::{after_blank, split_text, without_blank_end, without_blanks};
use memchr::memchr;
use std::alloc::{AllocError, Global};
use std::marker::Model;

/// The place of the first colon.
fn colon_place(bytes: &[u8]) -> Option<usize>
    ensures { result ≡ position is_colon bytes.now }
{
    memchr(b':', bytes)
}

/// The name and the first value of a field's line, which stand before and after its first colon; the value is not trimmed.
#[tactic(auto, unfolding(crate::specs::Fields::has_colon, crate::specs::Fields::name_of, crate::specs::Fields::first_of))]
pub(crate) fn colon_parts(line: &str) -> Option<(&str, &str)>
    ensures none { IfNone result (has_colon line.now ≡ false) }
    ensures some { OnSome result (has_colon line.now ≡ true) }
    ensures name { IfSome result (λ parts. parts.0.now ≡ name_of line.now) }
    ensures first { IfSome result (λ parts. trim parts.1.now ≡ first_of line.now) }
{
    let Some(at) = colon_place(line.as_bytes()) else {
        return None;
    };
    Some((&line[..at], &line[at + 1..]))
}

/// Whether each character may stand in a name.
#[tactic(auto, unfolding(crate::specs::Fields::is_name_char))]
fn has_name_chars(name: &str) -> bool
    ensures { result ≡ list_all is_name_char name.now }
{
    name.bytes().all(|b| b.is_ascii_graphic() && b != b':')
}

/// Whether a text is the name of a field.
#[tactic(auto, unfolding(crate::specs::Fields::is_name, crate::specs::Fields::begins_name))]
pub(crate) fn is_name(name: &str) -> bool
    ensures { result ≡ is_name name.now }
{
    match name.as_bytes() {
        [] | [b'#' | b'-', ..] => false,
        _ => has_name_chars(name),
    }
}

/// The first line of a text as a field has it, if it is a continuation
/// line, and what stands after it.
fn next_continuation(text: &str) -> Option<(&str, &str)>
    ensures none { IfNone result (continuations text.now ≡ []) }
    ensures some { IfSome result (λ cut.
        continuations text.now ≡ cut.0.now ∷ continuations cut.1.now) }
{
    let (line, rest) = split_text(text);
    let added = after_blank(line)?;
    Some((without_blank_end(added), rest))
}

/// A text as a string of its own; the empty one takes no memory.
fn copied(alloc: Global, text: &str) -> Result<String, AllocError>
    ensures value { IfOk result (λ copy. string_bytes copy ≡ text.now) }
    ensures memory { OnErr result (is_nonempty text.now ≡ true) }
{
    if text.is_empty() {
        return Ok(String::new(alloc));
    }
    String::from_str(alloc, text)
}

/// Puts a line after a folded text, with a space between if neither is empty.
/// An empty line takes no memory.
fn fold_line(text: &mut String, line: &str) -> Result<(), AllocError>
    ensures value { OnOk result (
        string_bytes text.new ≡ folded_onto (string_bytes text.old) line.now) }
    ensures memory { OnErr result (is_nonempty line.now ≡ true) }
{
    if line.is_empty() {
        return Ok(());
    }
    if !text.is_empty() {
        text.push(' ')?;
    }
    text.push_str(line)
}

/// A field of a paragraph: its name, its first value, and the continuation
/// lines that follow (Debian Policy 5.1). All are slices of the text read.
#[derive(Debug, Drop)]
pub struct Field<'a> {
    name: &'a str,
    /// What stands after the colon, not trimmed.
    value: &'a str,
    rest: &'a str,
}

impl<'a> Model for Field<'a> {
    ghost use Rattle.deb_control.specs.Lines.{trim};
    ghost use Rattle.deb_control.specs.Fields.{FieldText, entry};

    ghost Value = { FieldText };

    ghost view = { λ f. entry f.name.now (trim f.value.now) f.rest.now };
}

impl<'a> Field<'a> {
    /// The field of this name and this first value, which need not be trimmed, with the continuation lines
    /// that `rest` begins with.
    pub(crate) fn new(name: &'a str, value: &'a str, rest: &'a str) -> Self
        ensures { result ≡ entry name.now (trim value.now) rest.now }
    {
        Field { name, value, rest }
    }

    /// The name as it is written, in ASCII (Debian Policy 5.1).
    pub fn name(&self) -> &'a str
        ensures { result.now ≡ self.now.name }
    {
        self.name
    }

    /// What stands after the colon, without the spaces and tabs round it;
    /// it may be empty (Debian Policy 5.1).
    pub fn first(&self) -> &'a str
        ensures { result.now ≡ self.now.first }
    {
        without_blanks(self.value)
    }

    /// The continuation lines, each without its first character and without
    /// the spaces and tabs at its end (this project's own).
    pub fn lines(&self) -> Lines<'a>
        ensures { result ≡ self.now.lines }
    {
        Lines { rest: self.rest }
    }

    /// The first value and the continuation lines as one line: each trimmed,
    /// the empty ones left out, joined by one space (Debian Policy 5.1).
    /// An error says that memory ran out; an empty value takes none.
    pub fn folded(&self, alloc: Global) -> Result<String, AllocError>
        ensures value { IfOk result (λ text. string_bytes text ≡ folded_of self.now) }
        ensures memory { OnErr result (is_nonempty (folded_of self.now) ≡ true) }
    {
        let mut text = copied(alloc, without_blanks(self.first()))?;
        for line in self.lines() {
            fold_line(&mut text, without_blanks(line))?;
        }
        Ok(text)
    }

    /// The same field.
    pub(crate) fn again(&self) -> Field<'a>
        ensures { result ≡ self.now }
    {
        Field {
            name: self.name,
            value: self.value,
            rest: self.rest,
        }
    }
}

/// The continuation lines of a field that are left, in their order.
#[derive(Debug, Drop)]
pub struct Lines<'a> {
    rest: &'a str,
}

impl<'a> Model for Lines<'a> {
    ghost use Rattle.std.specs.Prelude.{List, ℕ};
    ghost use Rattle.deb_control.specs.Fields.{continuations};

    ghost Value = { List (List ℕ) };

    ghost view = { λ l. continuations l.rest.now };
}

impl<'a> Iterator for Lines<'a> {
    type Item = &'a str;

    ghost next_gives = { YieldsFirstRef (λ lines. lines) };

    ghost remaining = { item_count (λ lines. lines) };

    fn next(&mut self) -> Option<&'a str> {
        let (line, rest) = next_continuation(self.rest)?;
        self.rest = rest;
        Some(line)
    }
}
