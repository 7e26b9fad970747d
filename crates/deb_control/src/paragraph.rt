//! A paragraph: its fields, and how they are read.
ghost use Rattle.std.specs.Prelude.{◌≡◌, ◌≢◌, ◌≤◌, ◌++◌, ◌∷◌, [], length, Some, None, Ok, Err, true, false, not, drop, take, IfOk, IfErr, OnOk, option_copied, string_bytes};
ghost use Rattle.std.specs.Bool.{OnTrue};
ghost use Rattle.std.specs.List.{list_any};
ghost use Rattle.std.specs.BTreeSet.{contains_text};
ghost use Rattle.deb_control.specs.declared.fault.ControlFaultKind.TheVariants.{Memory};
ghost use Rattle.deb_control.specs.Lines.{is_continuation, lines_of, lines_in};
ghost use Rattle.std.specs.Str.{str_eq_ignore_ascii_case, str_to_ascii_lowercase};
ghost use Rattle.deb_control.specs.Fields.{has_name, is_among, names_in, IsNameSet, fields_at, line_fault, name_of, first_fault, fields_of, field_named, reading_of, begin_with_field, paragraph_limit, takes_memory};

use crate::ControlFaultKind;
use crate::field::{Field, colon_parts, is_name};
use crate::lines::{is_continuation_line, split_text};
use std::alloc::{AllocError, Global};
use std::collections::BTreeSet;
use std::marker::Model;

/// The greatest number of bytes of a paragraph, line feeds included.
pub(crate) const PARAGRAPH_LIMIT: usize = 4194304;

/// This many names are compared one by one; the names of later fields stand in a set.
const COMPARED_NAMES: usize = 32;

/// Whether two names are the same but for case.
pub(crate) fn is_same_name(left: &str, right: &str) -> bool
    ensures { result ≡ str_eq_ignore_ascii_case left.now right.now }
{
    left.eq_ignore_ascii_case(right)
}

/// Whether one of the fields has this name, without regard to case.
fn is_name_of_any(fields: &[Field<'_>], name: &str) -> bool
    ensures { result ≡ list_any (has_name name.now) fields.now }
{
    fields.iter().any(|field| is_same_name(field.name(), name))
}

/// A name in lower case.
fn lower_name(alloc: Global, name: &str) -> Result<String, AllocError>
    ensures { IfOk result (λ text. string_bytes text ≡ str_to_ascii_lowercase name.now) }
{
    let mut text = String::from_str(alloc, name)?;
    text.make_ascii_lowercase();
    Ok(text)
}

/// Whether no field has this name yet; if so, it is known from now on.
fn add_name(
    alloc: Global,
    fields: &[Field<'_>],
    later: &mut BTreeSet<String>,
    name: &str,
) -> Result<bool, AllocError>
    requires { IsNameSet (contains_text later.old) (drop COMPARED_NAMES (names_in fields.now)) }
    ensures value { IfOk result (λ new.
        new ≡ not (is_among (str_to_ascii_lowercase name.now) (names_in fields.now))) }
    ensures known { IfOk result (λ new. OnTrue new (IsNameSet (contains_text later.new)
        (drop COMPARED_NAMES (names_in fields.now ++ str_to_ascii_lowercase name.now ∷ [])))) }
    ensures memory { IfErr result (λ _.
        is_among (str_to_ascii_lowercase name.now) (take COMPARED_NAMES (names_in fields.now)) ≡ false) }
{
    if fields.len() < COMPARED_NAMES {
        return Ok(!is_name_of_any(fields, name));
    }
    if is_name_of_any(&fields[..COMPARED_NAMES], name) {
        return Ok(false);
    }
    let new = later.insert(lower_name(alloc, name)?)?;
    Ok(new)
}

/// Reads one line, after which `rest` stands.
#[tactic(auto, unfolding(crate::specs::Fields::line_fault, crate::specs::Fields::form_fault, crate::specs::Fields::fields_at, crate::specs::Fields::field_of, crate::specs::Fields::continuations))]
fn read_line<'a>(
    alloc: Global,
    fields: &mut Vec<Field<'a>>,
    later: &mut BTreeSet<String>,
    line: &'a str,
    rest: &'a str,
) -> Result<(), ControlFaultKind>
    requires { IsNameSet (contains_text later.old) (drop COMPARED_NAMES (names_in fields.old.items)) }
    // of the line
    ensures ok { OnOk result (line_fault (names_in fields.old.items) line.now ≡ None) }
    ensures refused { IfErr result (λ kind. kind ≢ Memory →
        line_fault (names_in fields.old.items) line.now ≡ Some kind) }
    ensures memory { IfErr result (λ kind. kind ≡ Memory → line_fault [] line.now ≡ None) }
    ensures new { IfErr result (λ kind. kind ≡ Memory → is_among
        (str_to_ascii_lowercase (name_of line.now)) (take COMPARED_NAMES (names_in fields.old.items)) ≡ false) }
    // of the fields and their names
    ensures fields { OnOk result (
        fields.new.items ≡ fields.old.items ++ fields_at line.now rest.now) }
    ensures known { OnOk result (
        IsNameSet (contains_text later.new) (drop COMPARED_NAMES (names_in fields.new.items))) }
{
    if is_continuation_line(line) {
        if fields.is_empty() {
            return Err(ControlFaultKind::Orphan);
        }
        return Ok(());
    }
    let Some((name, value)) = colon_parts(line) else {
        return Err(ControlFaultKind::NoColon);
    };
    if !is_name(name) {
        return Err(ControlFaultKind::BadName);
    }
    if !add_name(alloc, fields, later, name)? {
        return Err(ControlFaultKind::Duplicate);
    }
    fields.push(Field::new(name, value, rest))?;
    Ok(())
}

/// Reads the fields of a text without a separator.
fn read_fields<'a>(alloc: Global, text: &'a str) -> Result<Vec<Field<'a>>, ControlFaultKind>
    ensures refused { IfErr result (λ kind. kind ≢ Memory →
        first_fault [] (lines_in text.now) ≡ Some kind) }
    ensures ok { OnOk result (first_fault [] (lines_in text.now) ≡ None) }
    ensures memory { IfErr result (λ kind. kind ≡ Memory →
        begin_with_field (lines_in text.now) ≡ true) }
    ensures fields { IfOk result (λ fields. fields.items ≡ fields_of (lines_in text.now)) }
{
    let mut fields = Vec::new(alloc);
    let mut later = BTreeSet::new(alloc);
    let mut left = text;
    while !left.is_empty() {
        let (line, rest) = split_text(left);
        read_line(alloc, &mut fields, &mut later, line, rest)?;
        left = rest;
    }
    Ok(fields)
}

/// A paragraph: its fields in their order, which are slices of the bytes read
/// (Debian Policy 5.1).
#[derive(Debug, Drop)]
pub struct Paragraph<'a> {
    fields: Vec<Field<'a>>,
}

impl<'a> Model for Paragraph<'a> {
    ghost use Rattle.std.specs.Prelude.{List};
    ghost use Rattle.deb_control.specs.Fields.{FieldText};

    ghost Value = { List FieldText };

    ghost view = { λ p. p.fields.items };
}

impl<'a> Paragraph<'a> {
    /// Reads the lines of a paragraph.
    pub(crate) fn read(alloc: Global, bytes: &'a [u8]) -> Result<Self, ControlFaultKind>
        ensures ok { IfOk result (λ paragraph. reading_of (lines_of bytes.now) ≡ Ok paragraph) }
        ensures refused { IfErr result (λ kind. kind ≢ Memory →
            reading_of (lines_of bytes.now) ≡ Err kind) }
        ensures memory { IfErr result (λ kind. kind ≡ Memory →
            takes_memory (lines_of bytes.now) ≡ true) }
    {
        if bytes.len() > PARAGRAPH_LIMIT {
            return Err(ControlFaultKind::TooLarge);
        }
        let Ok(text) = str::from_utf8(bytes) else {
            return Err(ControlFaultKind::NotUtf8);
        };
        Paragraph::of_text(alloc, text)
    }

    /// Reads the lines of a paragraph that is small enough.
    pub(crate) fn of_text(alloc: Global, text: &'a str) -> Result<Self, ControlFaultKind>
        requires { length text.now ≤ paragraph_limit }
        ensures ok { IfOk result (λ paragraph. reading_of (lines_of text.now) ≡ Ok paragraph) }
        ensures refused { IfErr result (λ kind. kind ≢ Memory →
            reading_of (lines_of text.now) ≡ Err kind) }
        ensures memory { IfErr result (λ kind. kind ≡ Memory →
            takes_memory (lines_of text.now) ≡ true) }
    {
        let fields = read_fields(alloc, text)?;
        Ok(Paragraph { fields })
    }

    /// The fields in the order in which they stand.
    pub fn fields(&self) -> &[Field<'a>]
        ensures { result.now ≡ self.now }
    {
        &self.fields
    }

    /// The first field of this name, without regard to case.
    #[tactic(auto, unfolding(crate::specs::Fields::field_named))]
    fn find(&self, name: &str) -> Option<&Field<'a>>
        ensures { option_copied result ≡ field_named name.now self.now }
    {
        self.fields
            .iter()
            .find(|field| is_same_name(field.name(), name))
    }

    /// The field of this name, without regard to case, if the paragraph
    /// has it (Debian Policy 5.1).
    pub fn get(&self, name: &str) -> Option<Field<'a>>
        ensures { result ≡ field_named name.now self.now }
    {
        let field = self.find(name)?;
        Some(field.again())
    }
}
