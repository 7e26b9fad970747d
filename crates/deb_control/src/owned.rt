//! A paragraph that owns its text.
ghost use Rattle.std.specs.Prelude.{◌≡◌, ◌≢◌, ◌≤◌, ◌∷◌, [], length, true, Ok, Err, IfOk, IfErr, OnErr, IfNone, IfSome};
ghost use Rattle.std.specs.Iterator.{YieldsFirst, item_count};
ghost use Rattle.deb_control.specs.declared.fault.ControlFaultKind.TheVariants.{Ended, Memory, Read};
ghost use Rattle.deb_control.specs.Lines.{is_nonempty, lines_of, lines_in};
ghost use Rattle.deb_control.specs.Index.{IsIndex, first_field};
ghost use Rattle.deb_control.specs.Fields.{fields_of, field_of, field_named, has_name, paragraph_limit, reading_of, takes_memory};

use crate::field::{Field, colon_parts};
use crate::lines::{is_continuation_line, split_text};
use crate::paragraph::is_same_name;
use crate::{ControlFaultKind, Fields, Paragraph};
use std::alloc::{AllocError, Global};
use std::marker::Model;

/// The field that begins at a line, after which `rest` stands. A line without a colon is all name.
#[tactic(auto, unfolding(crate::specs::Fields::field_of, crate::specs::Fields::continuations))]
fn field_at<'a>(line: &'a str, rest: &'a str) -> Field<'a>
    ensures { result ≡ field_of line.now (lines_in rest.now) }
{
    match colon_parts(line) {
        Some((name, value)) => Field::new(name, value, rest),
        None => Field::new(line, "", rest),
    }
}

/// The first field of a text, and what stands after its first line.
fn next_field(text: &str) -> Option<(Field<'_>, &str)>
    ensures none { IfNone result (fields_of (lines_in text.now) ≡ []) }
    ensures some { IfSome result (λ cut.
        fields_of (lines_in text.now) ≡ cut.0 ∷ fields_of (lines_in cut.1.now)) }
{
    let mut left = text;
    while !left.is_empty() {
        let (line, rest) = split_text(left);
        if !is_continuation_line(line) {
            return Some((field_at(line, rest), rest));
        }
        left = rest;
    }
    None
}

/// The places of a text at which its fields begin.
fn index_of(alloc: Global, text: &str) -> Result<Vec<usize>, AllocError>
    ensures value { IfOk result (λ starts. IsIndex text.now starts.items) }
    ensures memory { OnErr result (is_nonempty (fields_of (lines_in text.now)) ≡ true) }
{
    let mut starts = Vec::new(alloc);
    let mut left = text;
    while !left.is_empty() {
        let (line, rest) = split_text(left);
        if !is_continuation_line(line) {
            starts.push(text.len() - left.len())?;
        }
        left = rest;
    }
    Ok(starts)
}

/// The field of the first line of a text, and of the lines after it.
fn first_field(text: &str) -> Field<'_>
    ensures { result ≡ first_field text.now }
{
    let (line, rest) = split_text(text);
    field_at(line, rest)
}

/// Whether a text begins with this name, without regard to case, which may be the front of a longer one.
fn begins_with(text: &str, name: &str) -> bool
    ensures { has_name name.now (first_field text.now) ≡ true → result ≡ true }
{
    let bytes = text.as_bytes();
    name.len() <= bytes.len() && bytes[..name.len()].eq_ignore_ascii_case(name.as_bytes())
}

/// A paragraph that owns its text (Debian Policy 5.1).
#[derive(Debug, Drop)]
pub struct OwnedParagraph {
    text: String,
    /// Where the lines begin that begin its fields.
    starts: Vec<usize>,
}

impl Model for OwnedParagraph {
    ghost use Rattle.std.specs.Prelude.{List, string_bytes};
    ghost use Rattle.deb_control.specs.Lines.{lines_in};
    ghost use Rattle.deb_control.specs.Fields.{FieldText, fields_of};

    ghost Value = { List FieldText };

    ghost view = { λ p. fields_of (lines_in (string_bytes p.text)) };

    ghost use Rattle.deb_control.specs.Index.{IsIndex};

    ghost invariant = { λ p. IsIndex (string_bytes p.text) p.starts.items };
}

impl OwnedParagraph {
    /// Reads the lines of a paragraph that is small enough, and owns them from then on.
    pub(crate) fn read(alloc: Global, bytes: Vec<u8>) -> Result<Self, ControlFaultKind>
        requires { length bytes.items ≤ paragraph_limit }
        ensures ok { IfOk result (λ paragraph. reading_of (lines_of bytes.items) ≡ Ok paragraph) }
        ensures refused { IfErr result (λ kind. kind ≢ Memory →
            reading_of (lines_of bytes.items) ≡ Err kind) }
        ensures memory { IfErr result (λ kind. kind ≡ Memory →
            takes_memory (lines_of bytes.items) ≡ true) }
        ensures of_text { IfErr result (λ kind. (kind ≢ Read) × (kind ≢ Ended)) }
    {
        let Ok(text) = String::from_utf8(bytes) else {
            return Err(ControlFaultKind::NotUtf8);
        };
        drop(Paragraph::of_text(alloc, text.as_str())?);
        let starts = index_of(alloc, text.as_str())?;
        Ok(OwnedParagraph { text, starts })
    }

    /// The fields in the order in which they stand. Takes no memory.
    pub fn fields(&self) -> OwnedFields<'_>
        ensures { result ≡ self.now }
    {
        OwnedFields {
            rest: self.text.as_str(),
        }
    }

    /// The field of this name, without regard to case, if the paragraph
    /// has it (Debian Policy 5.1). Takes no memory.
    #[tactic(auto, unfolding(crate::specs::Fields::field_named))]
    pub fn get(&self, name: &str) -> Option<Field<'_>>
        ensures { result ≡ field_named name.now self.now }
    {
        let text = self.text.as_str();
        for start in &self.starts {
            let left = &text[*start..];
            if begins_with(left, name) {
                let field = first_field(left);
                if is_same_name(field.name(), name) {
                    return Some(field);
                }
            }
        }
        None
    }
}

impl Fields for OwnedParagraph {
    ghost fields = { λ paragraph. paragraph };

    fn get(&self, name: &str) -> Option<Field<'_>> {
        OwnedParagraph::get(self, name)
    }
}

/// The fields of a paragraph that are left, in their order.
#[derive(Debug, Drop)]
pub struct OwnedFields<'a> {
    rest: &'a str,
}

impl<'a> Model for OwnedFields<'a> {
    ghost use Rattle.std.specs.Prelude.{List};
    ghost use Rattle.deb_control.specs.Lines.{lines_in};
    ghost use Rattle.deb_control.specs.Fields.{FieldText, fields_of};

    ghost Value = { List FieldText };

    ghost view = { λ f. fields_of (lines_in f.rest.now) };
}

impl<'a> Iterator for OwnedFields<'a> {
    type Item = Field<'a>;

    ghost next_gives = { YieldsFirst (λ fields. fields) };

    ghost remaining = { item_count (λ fields. fields) };

    fn next(&mut self) -> Option<Field<'a>> {
        let (field, rest) = next_field(self.rest)?;
        self.rest = rest;
        Some(field)
    }
}
