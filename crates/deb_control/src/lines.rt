//! Lines, the blanks round them, and the runs of lines that are paragraphs.
ghost use Rattle.std.specs.Prelude.{◌≡◌, ◌≤◌, ◌<◌, [], true, false, length, drop, position, IfNone, OnSome, IfSome};
ghost use Rattle.std.specs.List.{before_first, after_first, list_all};
ghost use Rattle.deb_control.specs.Lines.{is_line_feed, is_blank, is_continuation, lines_of, paragraphs_in, begins_separator, begins_paragraph, IsFirstParagraph, trim_start, trim_end, trim};

use memchr::memchr;

/// The place of the first line feed.
pub(crate) fn line_feed_place(bytes: &[u8]) -> Option<usize>
    ensures { result ≡ position is_line_feed bytes.now }
{
    memchr(b'\n', bytes)
}

/// The first line, without its line feed, and what stands after it.
pub(crate) fn split_line(bytes: &[u8]) -> (&[u8], &[u8])
    ensures line { result.0.now ≡ before_first is_line_feed bytes.now }
    ensures rest { result.1.now ≡ after_first is_line_feed bytes.now }
{
    match line_feed_place(bytes) {
        Some(at) => (&bytes[..at], &bytes[at + 1..]),
        None => (bytes, &[]),
    }
}

/// The first line of a text, without its line feed, and what stands after.
pub(crate) fn split_text(text: &str) -> (&str, &str)
    ensures line { result.0.now ≡ before_first is_line_feed text.now }
    ensures rest { result.1.now ≡ after_first is_line_feed text.now }
{
    match line_feed_place(text.as_bytes()) {
        Some(at) => (&text[..at], &text[at + 1..]),
        None => (text, ""),
    }
}

/// Whether a byte is a space or a tab.
fn is_blank(b: u8) -> bool
    ensures { result ≡ is_blank b }
{
    b == b' ' || b == b'\t'
}

/// Whether each byte of a line, its line feed not counted, is a space or a tab: such a line, an empty one
/// too, separates paragraphs (Debian Policy 5.1).
pub(crate) fn is_blank_line(line: &[u8]) -> bool
    ensures { result ≡ list_all is_blank line.now }
{
    line.iter().all(|b| is_blank(*b))
}

/// Whether each byte of the first line, its line feed not counted, is a space or a tab.
pub(crate) fn begins_blank(bytes: &[u8]) -> bool
    ensures { result ≡ list_all is_blank (before_first is_line_feed bytes.now) }
{
    for b in bytes {
        if *b == b'\n' {
            return true;
        }
        if !is_blank(*b) {
            return false;
        }
    }
    true
}

/// What stands after a separator, if the bytes begin with one.
fn after_separator(bytes: &[u8]) -> Option<&[u8]>
    ensures none { IfNone result (begins_separator bytes.now ≡ false) }
    ensures some { OnSome result (begins_separator bytes.now ≡ true) }
    ensures rest { IfSome result (λ rest. rest.now ≡ after_first is_line_feed bytes.now) }
{
    if bytes.is_empty() {
        return None;
    }
    let (line, rest) = split_line(bytes);
    if is_blank_line(line) {
        return Some(rest);
    }
    None
}

/// What stands after a line of a paragraph, if the bytes begin with one.
fn after_line(bytes: &[u8]) -> Option<&[u8]>
    ensures none { IfNone result (begins_paragraph bytes.now ≡ false) }
    ensures some { OnSome result (begins_paragraph bytes.now ≡ true) }
    ensures rest { IfSome result (λ rest. rest.now ≡ after_first is_line_feed bytes.now) }
{
    if bytes.is_empty() {
        return None;
    }
    let (line, rest) = split_line(bytes);
    if is_blank_line(line) {
        return None;
    }
    Some(rest)
}

/// The bytes without the separators at their start.
fn without_separators(bytes: &[u8]) -> &[u8]
    ensures same { paragraphs_in (lines_of result.now) ≡ paragraphs_in (lines_of bytes.now) }
    ensures first { begins_separator result.now ≡ false }
    ensures shorter { length result.now ≤ length bytes.now }
{
    let mut left = bytes;
    while let Some(rest) = after_separator(left) {
        left = rest;
    }
    left
}

/// The first paragraph of bytes that begin with one, and what stands after.
fn cut_paragraph(bytes: &[u8]) -> (&[u8], &[u8])
    requires { begins_paragraph bytes.now ≡ true }
    ensures cut { IsFirstParagraph bytes.now result.0.now result.1.now }
    ensures shorter { length result.1.now < length bytes.now }
{
    let mut left = bytes;
    while let Some(rest) = after_line(left) {
        left = rest;
    }
    (&bytes[..bytes.len() - left.len()], left)
}

/// The first paragraph, and what stands after it, if there is one.
pub(crate) fn next_paragraph(bytes: &[u8]) -> Option<(&[u8], &[u8])>
    ensures none { IfNone result (paragraphs_in (lines_of bytes.now) ≡ []) }
    ensures some { IfSome result (λ cut. IsFirstParagraph bytes.now cut.0.now cut.1.now) }
    ensures shorter { IfSome result (λ cut. length cut.1.now < length bytes.now) }
{
    let start = without_separators(bytes);
    if start.is_empty() {
        return None;
    }
    Some(cut_paragraph(start))
}

/// Whether a line begins with a space or a tab.
pub(crate) fn is_continuation_line(line: &str) -> bool
    ensures { result ≡ is_continuation line.now }
{
    matches!(line.as_bytes(), [b' ' | b'\t', ..])
}

/// A text without the space or tab at its start, if it has one.
pub(crate) fn after_blank(text: &str) -> Option<&str>
    ensures none { IfNone result (is_continuation text.now ≡ false) }
    ensures some { OnSome result (is_continuation text.now ≡ true) }
    ensures rest { IfSome result (λ rest. rest.now ≡ drop 1 text.now) }
{
    match text.strip_prefix(' ') {
        Some(rest) => Some(rest),
        None => text.strip_prefix('\t'),
    }
}

/// A text without the space or tab at its end, if it has one.
fn without_last_blank(text: &str) -> Option<&str>
    ensures none { IfNone result (trim_end text.now ≡ text.now) }
    ensures same { IfSome result (λ rest. trim_end rest.now ≡ trim_end text.now) }
    ensures shorter { IfSome result (λ rest. length rest.now < length text.now) }
{
    match text.strip_suffix(' ') {
        Some(rest) => Some(rest),
        None => text.strip_suffix('\t'),
    }
}

/// A text without the spaces and tabs at its end.
pub(crate) fn without_blank_end(text: &str) -> &str
    ensures { result.now ≡ trim_end text.now }
{
    let mut left = text;
    while let Some(rest) = without_last_blank(left) {
        left = rest;
    }
    left
}

/// A text without the spaces and tabs round it.
pub(crate) fn without_blanks(text: &str) -> &str
    ensures { result.now ≡ trim text.now }
{
    let mut left = text;
    while let Some(rest) = after_blank(left) {
        left = rest;
    }
    without_blank_end(left)
}
