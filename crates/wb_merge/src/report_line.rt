//! One line of a report, cut into its words.
ghost use Rattle.std.specs.Prelude.{◌≡◌, length, position, drop, ◌<◌, IfOk, IfNone, IfSome, OnOk, OnErr, OnSome, IsSome, Some, None, true, false, if◌then◌else◌};
ghost use Rattle.std.specs.Option.{option_map, option_copied};
ghost use Rattle.deb_control.specs.Lines.{is_blank, is_continuation, trim_start, trim_end, trim};
ghost use Rattle.deb_version.specs.Syntax.{is_version_text};
ghost use Rattle.wb_merge.specs.Report.{word_of, after_word, reason_of, line_of};

use crate::ReportLine;
use deb_text::Text;
use deb_version::{Version, VersionFault};
use std::alloc::{AllocError, Global};
use wb_states::{NOTE_LIMIT, is_source};

/// A text without the space or tab at its start, if it has one.
fn after_blank(text: &str) -> Option<&str>
    ensures none { IfNone result (is_continuation text.now ≡ false) }
    ensures some { OnSome result (is_continuation text.now ≡ true) }
    ensures rest { IfSome result (λ rest. rest.now ≡ drop 1 text.now) }
{
    match text.strip_prefix(' ') {
        Some(rest) => Some(rest),
        None => text.strip_prefix('\t'),
    }
}

/// A text without the space or tab at its end, if it has one.
fn without_last_blank(text: &str) -> Option<&str>
    ensures none { IfNone result (trim_end text.now ≡ text.now) }
    ensures same { IfSome result (λ rest. trim_end rest.now ≡ trim_end text.now) }
    ensures shorter { IfSome result (λ rest. length rest.now < length text.now) }
{
    match text.strip_suffix(' ') {
        Some(rest) => Some(rest),
        None => text.strip_suffix('\t'),
    }
}

/// A text without the spaces and tabs at its end.
fn without_blank_end(text: &str) -> &str
    ensures { result.now ≡ trim_end text.now }
{
    let mut left = text;
    while let Some(rest) = without_last_blank(left) {
        left = rest;
    }
    left
}

/// A text without the spaces and tabs at its start.
fn without_blank_start(text: &str) -> &str
    ensures { result.now ≡ trim_start text.now }
{
    let mut left = text;
    while let Some(rest) = after_blank(left) {
        left = rest;
    }
    left
}

/// A text without the spaces and tabs round it.
#[tactic(auto, unfolding(deb_control::specs::Lines::trim))]
fn without_blanks(text: &str) -> &str
    ensures { result.now ≡ trim text.now }
{
    without_blank_end(without_blank_start(text))
}

/// The place of the first space or tab.
fn blank_place(text: &[u8]) -> Option<usize>
    ensures { result ≡ position is_blank text.now }
{
    text.iter().position(|b| *b == b' ' || *b == b'\t')
}

/// The first word of a text, and what stands after it and the blank that ends it.
fn cut_word(text: &str) -> (&str, &str)
    ensures word { result.0.now ≡ word_of text.now }
    ensures rest { result.1.now ≡ after_word text.now }
{
    let start = without_blank_start(text);
    match blank_place(start.as_bytes()) {
        Some(at) => (&start[..at], &start[at + 1..]),
        None => (start, ""),
    }
}

/// The reason of a line that says this word and ends with this text, if they can be read.
fn parse_reason<'a>(word: &str, rest: &'a str) -> Option<Option<&'a str>>
    ensures { option_map option_copied result ≡ reason_of word.now rest.entry.now }
{
    match word {
        "installable" if rest.is_empty() => Some(None),
        "uninstallable" if rest.len() <= NOTE_LIMIT => Some(Some(rest)),
        _ => None,
    }
}

/// The version that a text is, if it is one.
#[tactic(auto, unfolding(deb_version::specs::Syntax::is_version_text, deb_version::specs::Syntax::reading_of))]
fn parse_version(alloc: Global, text: &str) -> Result<Option<Version>, AllocError>
    ensures value { IfOk result (λ found. found
        ≡ (if is_version_text text.now then Some text.now else None)) }
    ensures memory { OnErr result (is_version_text text.now ≡ true) }
{
    match Version::parse(alloc, text) {
        Ok(version) => Ok(Some(version)),
        Err(VersionFault::Memory) => Err(AllocError),
        Err(_) => Ok(None),
    }
}

/// A copy of a reason, if there is one.
fn copied_reason(alloc: Global, reason: Option<&str>) -> Result<Option<Text>, AllocError>
    ensures value { IfOk result (λ copy. copy ≡ option_copied reason.entry) }
{
    match reason {
        Some(reason) => Ok(Some(Text::copied(alloc, reason)?)),
        None => Ok(None),
    }
}

/// What a line reads as, if it can be read. Takes memory for no other line.
#[tactic(auto, unfolding(crate::specs::Report::line_of))]
pub(crate) fn parse_line(alloc: Global, line: &str) -> Result<Option<ReportLine>, AllocError>
    ensures value { IfOk result (λ found. found ≡ line_of line.now) }
    ensures memory { OnErr result (IsSome (line_of line.now)) }
{
    let (source, rest) = cut_word(line);
    let (version, rest) = cut_word(rest);
    let (word, rest) = cut_word(rest);
    if !is_source(source) {
        return Ok(None);
    }
    let Some(reason) = parse_reason(word, without_blanks(rest)) else {
        return Ok(None);
    };
    let Some(version) = parse_version(alloc, version)? else {
        return Ok(None);
    };
    Ok(Some(ReportLine {
        source: Text::copied(alloc, source)?,
        version,
        reason: copied_reason(alloc, reason)?,
    }))
}
