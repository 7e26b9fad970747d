//! The source package that a binary package names, and the number of its binary-only rebuild.
ghost use Rattle.std.specs.Prelude.{◌≡◌, ◌≢◌, ◌∷◌, None, Some, Option, is_some, List, ℕ, true, false, reverse, IfOk, IfErr, IfNone, IfSome, OnOk, if◌then◌else◌};
ghost use Rattle.std.specs.Option.{option_copied};
ghost use Rattle.std.specs.Char.{is_ascii_digit};
ghost use Rattle.std.specs.List.{after_first};
ghost use Rattle.deb_control.specs.declared.fault.ControlFaultKind.TheVariants.{Memory};
ghost use Rattle.deb_version.specs.Syntax.{is_version_text};
ghost use Rattle.wb_states.specs.declared.refusal.ListingFault.TheVariants.{Control, BadValue};
ghost use Rattle.wb_states.specs.declared.refusal.ListField.TheVariants.{Source};
ghost use Rattle.deb_text.specs.Options.{has_value};
ghost use Rattle.wb_merge.specs.Rows.{source_name, has_source_version, in_brackets, is_space, source_version, is_source_text, rebuild_number, NamesSource};
ghost use Rattle.wb_merge.specs.Backwards.{begins_plus_b};
ghost use Rattle.deb_text.specs.Lists.{begins};

use crate::fields::parse_version;
use deb_text::Text;
use deb_version::Version;
use std::alloc::Global;
use wb_states::{ListField, ListingFault, is_source};

/// The name that stands before the first space, and what stands after the space.
#[tactic(auto, unfolding(crate::specs::Rows::source_name, crate::specs::Rows::has_source_version))]
fn cut_source(text: &str) -> (&str, Option<&str>)
    ensures name { result.0.now ≡ source_name text.now }
    ensures rest { option_copied result.1 ≡ (if has_source_version text.now
        then Some (after_first is_space text.now) else None) }
{
    match text.split_once(' ') {
        Some((name, rest)) => (name, Some(rest)),
        None => (text, None),
    }
}

/// What stands in the brackets around a text, if it has both.
fn in_brackets(text: &str) -> Option<&str>
    ensures { option_copied result ≡ in_brackets text.now }
{
    text.strip_prefix('(')?.strip_suffix(')')
}

/// The version in brackets.
fn bracketed_version(alloc: Global, text: &str) -> Result<Version, ListingFault>
    ensures value { IfOk result (λ version. in_brackets text.now ≡ Some version) }
    ensures ok { OnOk result (has_value is_version_text (in_brackets text.now) ≡ true) }
    ensures bad { IfErr result (λ fault. fault ≢ Control Memory
        → has_value is_version_text (in_brackets text.now) ≡ false) }
    ensures refused { IfErr result (λ fault. fault ≢ Control Memory → fault ≡ BadValue Source) }
    ensures memory { IfErr result (λ fault. fault ≡ Control Memory
        → has_value is_version_text (in_brackets text.now) ≡ true) }
{
    let field = ListField::Source;
    match in_brackets(text) {
        Some(version) => parse_version(alloc, version, field),
        None => Err(ListingFault::BadValue { field }),
    }
}

/// The source package that a text names, and its version if one is written (Debian Policy 5.6.1).
#[tactic(auto, unfolding(crate::specs::Rows::is_source_text, crate::specs::Rows::source_version))]
pub(crate) fn parse_source(
    alloc: Global,
    text: &str,
) -> Result<(Text, Option<Version>), ListingFault>
    ensures value { IfOk result (λ source. NamesSource text.now source.0 source.1) }
    ensures written { IfOk result (λ source. is_some source.1 ≡ has_source_version text.now) }
    ensures bad { IfErr result (λ fault. fault ≢ Control Memory → is_source_text text.now ≡ false) }
    ensures refused { IfErr result (λ fault. fault ≢ Control Memory → fault ≡ BadValue Source) }
    ensures memory { IfErr result (λ fault. fault ≡ Control Memory
        → is_source_text text.now ≡ true) }
{
    let (name, rest) = cut_source(text);
    if !is_source(name) {
        return Err(ListingFault::BadValue {
            field: ListField::Source,
        });
    }
    let version = match rest {
        Some(rest) => Some(bracketed_version(alloc, rest)?),
        None => None,
    };
    match Text::copied(alloc, name) {
        Ok(name) => Ok((name, version)),
        Err(_) => Err(crate::fields::MEMORY),
    }
}

/// The digit at the end of a text, and what stands before it.
fn last_digit(bytes: &[u8]) -> Option<(u8, &[u8])>
    ensures none { IfNone result (begins is_ascii_digit (reverse bytes.now) ≡ false) }
    ensures digit { IfSome result (λ cut. is_ascii_digit cut.0 ≡ true) }
    ensures rest { IfSome result (λ cut. reverse bytes.now ≡ cut.0 ∷ reverse cut.1.now) }
{
    match bytes {
        [rest @ .., last] if last.is_ascii_digit() => Some((*last, rest)),
        _ => None,
    }
}

/// Whether a text ends in `+b`.
fn ends_in_plus_b(bytes: &[u8]) -> bool
    ensures { result ≡ begins_plus_b (reverse bytes.now) }
{
    matches!(bytes, [.., b'+', b'b'])
}

/// A number that stands after a text, if the text ends in `+b`, or else 0.
fn number_behind(front: &[u8], number: u16) -> u16
    ensures { result ≡ (if begins_plus_b (reverse front.now) then number else 0) }
{
    if ends_in_plus_b(front) { number } else { 0 }
}

/// The number of the binary-only rebuild: one to three digits that stand after `+b` at the end of a
/// version, or else 0 (Debian Policy 5.6.12.2).
pub(crate) fn rebuild_number(version: &str) -> u16
    ensures { result ≡ rebuild_number version.now }
{
    let Some((ones, front)) = last_digit(version.as_bytes()) else {
        return 0;
    };
    let number = u16::from(ones - b'0');
    let Some((tens, before_tens)) = last_digit(front) else {
        return number_behind(front, number);
    };
    let number = u16::from(tens - b'0') * 10 + number;
    let Some((hundreds, before_hundreds)) = last_digit(before_tens) else {
        return number_behind(before_tens, number);
    };
    let number = u16::from(hundreds - b'0') * 100 + number;
    match last_digit(before_hundreds) {
        Some(_) => 0,
        None => number_behind(before_hundreds, number),
    }
}
