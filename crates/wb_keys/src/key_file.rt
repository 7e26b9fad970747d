//! What a key file means, or its first malformed line.
ghost use Rattle.std.specs.Prelude.{◌≡◌, IfOk, IfSome, None, map, true, false};
ghost use Rattle.std.specs.List.{list_all, slice_split};
ghost use Rattle.std.specs.Str.{is_utf8};
ghost use Rattle.deb_text.specs.Lines.{is_line_feed, words_in};
ghost use Rattle.deb_text.specs.Lists.{begins};
ghost use Rattle.wb_keys.specs.KeyFile.{all_rights, anyone_line, builder_right, front_of, hash_of};
ghost use Rattle.wb_keys.specs.KeyFile.{is_hash_digit, is_number_sign, keyed_line, keys_of, last_hash};
ghost use Rattle.wb_keys.specs.KeyFile.{line_of, line_of_words, line_with, named_right, porter_right};
ghost use Rattle.wb_keys.specs.KeyFile.{right_of, rights_in, with_anyone, with_key, with_line};
ghost use Rattle.wb_keys.specs.KeyFile.{with_said};

use crate::{BadLine, KeyLine, Keys, LineFault, Lines, Right};
use deb_text::{Items, Text};
use hex::FromHex;
use std::alloc::{AllocError, Global};
use std::str;
use wb_states::{is_arch, is_builder};

/// How many lines with a key a key file may have (this project's own).
pub const KEY_LIMIT: usize = 1000;

/// What a line says.
#[derive(Debug, Drop)]
pub(crate) enum Line {
    /// Nothing: it is blank or begins with `#`.
    Skipped,
    /// What requests without a key may do.
    Anyone(Items<Right>),
    /// Who has a key, and what it may do.
    Keyed(KeyLine),
}

// ---- the words of a line

/// The words of a line.
fn words_in<'a>(alloc: Global, text: &'a str) -> Result<Vec<&'a str>, AllocError>
    ensures value { IfOk result (λ words. map (λ w. w.now) words.items ≡ words_in text.entry.now) }
{
    text.split(' ')
        .flat_map(|part| part.split('\t'))
        .filter(|word| !word.is_empty())
        .collect(alloc)
}

fn builder_right(alloc: Global, name: &str) -> Result<Result<Right, LineFault>, AllocError>
    ensures { IfOk result (λ found. found ≡ builder_right name.now) }
{
    if !is_builder(name) {
        return Ok(Err(LineFault::BadBuilder));
    }
    Ok(Ok(Right::Build(Text::copied(alloc, name)?)))
}

fn porter_right(alloc: Global, name: &str) -> Result<Result<Right, LineFault>, AllocError>
    ensures { IfOk result (λ found. found ≡ porter_right name.now) }
{
    if !is_arch(name) {
        return Ok(Err(LineFault::BadArch));
    }
    Ok(Ok(Right::Port(Text::copied(alloc, name)?)))
}

fn named_right(
    alloc: Global,
    before: &str,
    name: &str,
) -> Result<Result<Right, LineFault>, AllocError>
    ensures { IfOk result (λ found. found ≡ named_right before.now name.now) }
{
    if before == "build" {
        return builder_right(alloc, name);
    }
    if before == "port" {
        return porter_right(alloc, name);
    }
    Ok(Err(LineFault::UnknownRight))
}

/// The right that a word names.
#[tactic(auto, unfolding(crate::specs::KeyFile::right_of))]
fn right_of(alloc: Global, word: &str) -> Result<Result<Right, LineFault>, AllocError>
    ensures { IfOk result (λ found. found ≡ right_of word.now) }
{
    if word == "read" {
        return Ok(Ok(Right::Read));
    }
    if word == "operate" {
        return Ok(Ok(Right::Operate));
    }
    match word.split_once('=') {
        Some((before, name)) => named_right(alloc, before, name),
        None => Ok(Err(LineFault::UnknownRight)),
    }
}

/// The rights that words name, perhaps none.
fn all_rights(alloc: Global, words: &[&str]) -> Result<Result<Items<Right>, LineFault>, AllocError>
    ensures { IfOk result (λ found. found ≡ all_rights (map (λ w. w.now) words.now)) }
{
    let mut rights = Items::new(alloc);
    for word in words {
        match right_of(alloc, word)? {
            Ok(right) => rights.push(right)?,
            Err(fault) => return Ok(Err(fault)),
        }
    }
    Ok(Ok(rights))
}

/// The rights of a line, one or more.
fn rights_in(alloc: Global, words: &[&str]) -> Result<Result<Items<Right>, LineFault>, AllocError>
    ensures { IfOk result (λ found. found ≡ rights_in (map (λ w. w.now) words.now)) }
{
    if words.is_empty() {
        return Ok(Err(LineFault::NoRight));
    }
    all_rights(alloc, words)
}

fn is_hash_text(word: &str) -> bool
    ensures { result ≡ list_all is_hash_digit word.now }
{
    word.bytes()
        .all(|c| (b'0' <= c && c <= b'9') || (b'a' <= c && c <= b'f'))
}

/// The 32 bytes that a word of 64 lower-case hexadecimal digits writes.
#[tactic(auto, unfolding(crate::specs::KeyFile::hash_of))]
fn hash_of(word: &str) -> Option<[u8; 32]>
    ensures { result ≡ hash_of word.now }
{
    if !is_hash_text(word) {
        return None;
    }
    match <[u8; 32] as FromHex>::from_hex(word) {
        Ok(hash) => Some(hash),
        Err(_) => None,
    }
}

/// The hash that the last word writes.
fn last_hash(words: &[&str]) -> Option<[u8; 32]>
    ensures { result ≡ last_hash (map (λ w. w.now) words.now) }
{
    match words.last() {
        None => None,
        Some(word) => hash_of(word),
    }
}

// ---- a line

/// The line `*`, by the words after the `*`.
fn anyone_line(alloc: Global, words: &[&str]) -> Result<Result<Line, LineFault>, AllocError>
    ensures { IfOk result (λ found. found ≡ anyone_line (map (λ w. w.now) words.now)) }
{
    if last_hash(words).is_some() {
        return Ok(Err(LineFault::AnyoneWithHash));
    }
    match rights_in(alloc, words)? {
        Ok(rights) => Ok(Ok(Line::Anyone(rights))),
        Err(fault) => Ok(Err(fault)),
    }
}

/// The words but the last.
fn front_of<'a, 'b>(words: &'a [&'b str]) -> &'a [&'b str]
    ensures { map (λ w. w.now) result.now ≡ front_of (map (λ w. w.now) words.entry.now) }
{
    &words[..words.len().saturating_sub(1)]
}

/// The line of a name, by the words after it.
fn keyed_line(
    alloc: Global,
    name: &str,
    words: &[&str],
) -> Result<Result<Line, LineFault>, AllocError>
    ensures { IfOk result (λ found. found ≡ keyed_line name.now (map (λ w. w.now) words.now)) }
{
    let Some(hash) = last_hash(words) else {
        return Ok(Err(LineFault::BadHash));
    };
    match rights_in(alloc, front_of(words))? {
        Ok(rights) => Ok(Ok(Line::Keyed(KeyLine {
            name: Text::copied(alloc, name)?,
            rights,
            hash,
        }))),
        Err(fault) => Ok(Err(fault)),
    }
}

/// A line by its first word and the others.
fn line_with(
    alloc: Global,
    name: &str,
    words: &[&str],
) -> Result<Result<Line, LineFault>, AllocError>
    ensures { IfOk result (λ found. found ≡ line_with name.now (map (λ w. w.now) words.now)) }
{
    if name == "*" {
        return anyone_line(alloc, words);
    }
    if !is_builder(name) {
        return Ok(Err(LineFault::BadName));
    }
    keyed_line(alloc, name, words)
}

/// What a text says as a line.
fn line_of_text(alloc: Global, text: &str) -> Result<Result<Line, LineFault>, AllocError>
    ensures { IfOk result (λ found. found ≡ line_of_words (words_in text.now)) }
{
    let words = words_in(alloc, text)?;
    match words.as_slice() {
        [] => Ok(Ok(Line::Skipped)),
        [name, others @ ..] => line_with(alloc, name, others),
    }
}

/// The line as text, if it is UTF-8.
fn text_of(line: &[u8]) -> Option<&str>
    ensures value { IfSome result (λ text. (text.now ≡ line.now) × (is_utf8 line.now ≡ true)) }
    ensures refused { result ≡ None → is_utf8 line.now ≡ false }
{
    match str::from_utf8(line) {
        Ok(text) => Some(text),
        Err(_) => None,
    }
}

fn begins_with_number_sign(line: &[u8]) -> bool
    ensures { result ≡ begins is_number_sign line.now }
{
    match line {
        [] => false,
        [first, ..] => *first == b'#',
    }
}

/// What a line says.
#[tactic(auto, unfolding(crate::specs::KeyFile::line_of))]
fn line_of(alloc: Global, line: &[u8]) -> Result<Result<Line, LineFault>, AllocError>
    ensures { IfOk result (λ found. found ≡ line_of line.now) }
{
    let Some(text) = text_of(line) else {
        return Ok(Err(LineFault::NotText));
    };
    if begins_with_number_sign(line) {
        return Ok(Ok(Line::Skipped));
    }
    line_of_text(alloc, text)
}

// ---- a file

/// Lines, and one more with a key.
fn with_key(keys: Keys, line: KeyLine) -> Result<Result<Keys, LineFault>, AllocError>
    ensures { IfOk result (λ found. found ≡ with_key keys line) }
{
    if KEY_LIMIT <= keys.lines.len() {
        return Ok(Err(LineFault::TooMany));
    }
    if keys.lines.has_name(&line.name) {
        return Ok(Err(LineFault::NameTwice));
    }
    if keys.lines.has_hash(&line.hash) {
        return Ok(Err(LineFault::HashTwice));
    }
    let Keys { lines, anyone } = keys;
    let lines = lines.with(line)?;
    Ok(Ok(Keys { lines, anyone }))
}

/// Lines, and one more for requests without a key.
fn with_anyone(keys: Keys, rights: Items<Right>) -> Result<Keys, LineFault>
    ensures { result ≡ with_anyone keys rights }
{
    let Keys { lines, anyone } = keys;
    if anyone.is_some() {
        return Err(LineFault::AnyoneTwice);
    }
    Ok(Keys {
        lines,
        anyone: Some(rights),
    })
}

/// Lines, and one more by what it says.
fn with_said(keys: Keys, line: Line) -> Result<Result<Keys, LineFault>, AllocError>
    ensures { IfOk result (λ found. found ≡ with_said keys line) }
{
    match line {
        Line::Skipped => Ok(Ok(keys)),
        Line::Anyone(rights) => Ok(with_anyone(keys, rights)),
        Line::Keyed(keyed) => with_key(keys, keyed),
    }
}

/// Lines, and one more.
fn with_line(alloc: Global, keys: Keys, line: &[u8]) -> Result<Result<Keys, LineFault>, AllocError>
    ensures { IfOk result (λ found. found ≡ with_line keys (line_of line.now)) }
{
    match line_of(alloc, line)? {
        Ok(said) => with_said(keys, said),
        Err(fault) => Ok(Err(fault)),
    }
}

/// The lines of a file, which line feeds separate.
fn lines_in<'a>(alloc: Global, file: &'a [u8]) -> Result<Vec<&'a [u8]>, AllocError>
    ensures { IfOk result (λ lines.
        map (λ line. line.now) lines.items ≡ slice_split is_line_feed file.entry.now) }
{
    file.split(|byte| *byte == b'\n').collect(alloc)
}

impl Keys {
    /// Reads a key file. Its lines are `NAME RIGHT.. HASH`, or `* RIGHT..` for requests without a
    /// key; spaces and tabs separate words. NAME has the form of a builder's name, a RIGHT is
    /// `read`, `build=BUILDER`, `port=ARCH` or `operate`, and HASH is the SHA-256 digest of a key
    /// in 64 lower-case hexadecimal digits. Each line has a right or more; each name, each hash and
    /// the line `*` stand once; at most 1000 lines have a key. Lines of spaces and tabs alone and
    /// lines that begin with `#` are skipped.
    ///
    /// The inner error is the first line that is malformed, or not UTF-8, with its number, counted
    /// from 1. The outer one is that there is no memory. The bytes are left as they are.
    /// Source: this project's own; FIPS 180-4 for the digest.
    #[tactic(auto, unfolding(crate::specs::KeyFile::keys_of))]
    pub fn read(alloc: Global, file: &[u8]) -> Result<Result<Keys, BadLine>, AllocError>
        ensures value { IfOk result (λ found. found ≡ keys_of file.now) }
    {
        let lines = lines_in(alloc, file)?;
        let mut keys = Keys {
            lines: Lines::new(alloc),
            anyone: None,
        };
        let mut number = 1;
        for line in &lines {
            keys = match with_line(alloc, keys, line)? {
                Ok(more) => more,
                Err(fault) => {
                    return Ok(Err(BadLine {
                        line: number,
                        fault,
                    }));
                }
            };
            number += 1;
        }
        Ok(Ok(keys))
    }
}
