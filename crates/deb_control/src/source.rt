//! A reader that reports whether it failed, and of which a bounded number of bytes is read, line by line.
ghost use Rattle.std.specs.Prelude.{◌≡◌, ◌≢◌, ◌+◌, ◌≤◌, ◌<◌, [], ◌++◌, false, true, length, take, drop, IfOk, IfSome, OnErr, OnOk, vec_len};
ghost use Rattle.std.specs.List.{list_any, list_all};
ghost use Rattle.std.specs.Io.KnownBytes.{Keeps};
ghost use Rattle.deb_control.specs.declared.source.LineRead.TheVariants.{Failed as FailedLine, End as NoLine, Separator, Whole, Long};
ghost use Rattle.deb_control.specs.declared.source.RunRead.TheVariants.{End as NoRun, Paragraph};
ghost use Rattle.deb_control.specs.Lines.{is_line_feed, is_blank, is_separator};
ghost use Rattle.deb_control.specs.Fields.{paragraph_limit};
ghost use Rattle.deb_control.specs.Pieces.{IsLook, TakesPiece, AddsPiece, is_failed_look, EndsLine, AddsLine, is_cut_line, EndsLast, EndsCut, ReadsLine, ReadsRun};
ghost use Rattle.deb_control.specs.Source.{CutsIf};

use crate::lines::{begins_blank, is_blank_line, line_feed_place};
use crate::paragraph::PARAGRAPH_LIMIT;
use std::alloc::{AllocError, Global};
use std::io::BufRead;
use std::marker::Model;

/// More bytes than most paragraphs have: room for so many is asked for at once.
const USUAL_SIZE: usize = 2048;

/// What was taken of the bytes that a reader shows.
#[derive(Clone, Copy)]
pub(crate) enum Shown {
    /// The reader failed, or no more of its bytes may be read.
    Failed,
    /// None, since the input is at its end.
    End,
    /// All, or as many as may be taken, and no line feed is among them.
    Part,
    /// Those up to and including the first line feed.
    Line,
}

/// What the pieces of a line gave.
#[derive(Clone, Copy)]
pub(crate) enum LineEnd {
    /// Its line feed.
    Ended,
    /// The end of the input: the line is the last, or there is none.
    Last,
    /// More than there is room for, and no line feed so far.
    Full,
    /// Less, since the reader failed, or no more of its bytes may be read.
    Cut,
}

/// What a read of a line gave.
#[derive(Clone, Copy)]
pub(crate) enum LineRead {
    /// The reader failed within the line, or no more of its bytes may be read.
    Failed,
    /// There is no line, since the input is at its end.
    End,
    /// A line that separates paragraphs.
    Separator,
    /// A line of a paragraph.
    Whole,
    /// A line of a paragraph that is too large with it.
    Long,
}

/// What a read of a paragraph gave.
#[derive(Drop)]
pub(crate) enum RunRead {
    /// The reader failed before the paragraph ended, or no more of its bytes may be read.
    Failed,
    /// There is no paragraph, since the input is at its end.
    End,
    /// The bytes of a paragraph.
    Paragraph(Vec<u8>),
    /// The paragraph is too large.
    TooLarge,
}

/// How many bytes are taken of those shown, of which there is one at least: at most so many, and none after a line feed.
fn look(shown: &[u8], most: usize) -> (usize, Shown)
    requires { 0 < length shown.now }
    ensures bound { result.0 ≤ length shown.now }
    ensures size { result.0 ≤ most }
    ensures kind { IsLook result.1 most (take result.0 shown.now) }
{
    let within = shown.len().min(most);
    match line_feed_place(&shown[..within]) {
        Some(at) => (at + 1, Shown::Line),
        None => (within, Shown::Part),
    }
}

/// Appends bytes to a text, which gets room for most paragraphs with the first of them. The error is that there is no memory
/// for it.
fn append(text: &mut Vec<u8>, more: &[u8]) -> Result<(), AllocError>
    ensures value { OnOk result (text.new.items ≡ text.old.items ++ more.now) }
    ensures kept { OnErr result (text.new.items ≡ text.old.items) }
{
    if text.is_empty() {
        text.reserve(USUAL_SIZE)?;
    }
    text.extend_from_slice(more)
}

// That the answer is `Failed` only if the look failed is read here, and not proved. Memory may run
// out wherever a byte is left, since each byte that may belong to a paragraph is kept.
/// Appends to a text what the reader shows, up to and including the first line feed and at most so many bytes. The error is
/// that there is no memory for it; nothing was taken then. An interrupted read is a failed one too.
fn append_shown<R: BufRead>(
    reader: &mut R,
    text: &mut Vec<u8>,
    most: usize,
) -> Result<Shown, AllocError>
    ensures value { IfOk result (λ shown. TakesPiece shown most text.old.items text.new.items
        (R.remaining reader.old) (R.remaining reader.new)) }
    ensures memory { OnErr result (IfSome (R.remaining reader.old) (λ left. 0 < length left)) }
    ensures kept { OnErr result (Keeps (R.remaining reader.old) (R.remaining reader.new)) }
    ensures text { OnErr result (text.new.items ≡ text.old.items) }
{
    let Ok(available) = reader.fill_buf() else {
        return Ok(Shown::Failed);
    };
    if available.is_empty() {
        return Ok(Shown::End);
    }
    let (count, shown) = look(available, most);
    append(text, &available[..count])?;
    reader.consume(count);
    Ok(shown)
}

#[tactic(auto, unfolding(crate::specs::Lines::is_separator, crate::specs::Lines::body_of))]
/// Settles a line that is whole, and that stands after so many bytes of a text: one that separates paragraphs is taken off. A
/// line of a paragraph is too long if blanks at its start were left out for want of room, or if the text is too large with it.
fn end_line(text: &mut Vec<u8>, start: usize, over: bool) -> LineRead
    requires { start ≤ vec_len text.old }
    ensures value { EndsLine result start over text.old.items text.new.items }
{
    if begins_blank(&text[start..]) {
        text.truncate(start);
        return LineRead::Separator;
    }
    if over || text.len() > PARAGRAPH_LIMIT {
        return LineRead::Long;
    }
    LineRead::Whole
}

/// Settles the last line, as [`end_line`] does; there is none if the text ends where it would begin and no blanks were left out.
fn end_last(text: &mut Vec<u8>, start: usize, over: bool) -> LineRead
    requires { start ≤ vec_len text.old }
    ensures value { EndsLast result start over text.old.items text.new.items }
{
    if text.len() == start && !over {
        return LineRead::End;
    }
    end_line(text, start, over)
}

/// Whether what stands in a text from a place on is spaces and tabs alone.
fn is_blank_from(text: &[u8], start: usize) -> bool
    requires { start ≤ length text.now }
    ensures { result ≡ list_all is_blank (drop start text.now) }
{
    is_blank_line(&text[start..])
}

/// Settles a line that was cut: it is too long already if blanks at its start were left out and it goes on with another byte.
fn end_cut(text: &[u8], start: usize, over: bool) -> LineRead
    requires { start ≤ length text.now }
    ensures value { EndsCut result start over text.now }
{
    if over && !is_blank_from(text, start) {
        return LineRead::Long;
    }
    LineRead::Failed
}

/// The paragraph of the bytes at the end of the input; there is none if there are no bytes.
fn paragraph_of(text: Vec<u8>) -> RunRead
    ensures none { text.items ≡ [] → result ≡ NoRun }
    ensures some { 0 < length text.items → result ≡ Paragraph text }
{
    if text.is_empty() {
        return RunRead::End;
    }
    RunRead::Paragraph(text)
}

/// A reader of which a bounded number of bytes is read, and which reports whether a read of it failed, an interrupted
/// one too. Only its one look at the reader sets the flag, and only if that failed: this can be read here, and is not proved.
/// After the end of the input the reader is not asked again, so it has no bytes left, even if it would give more.
#[derive(Drop)]
pub(crate) struct BoundedReader<R: BufRead + Drop> {
    inner: R,
    room: usize,
    failed: bool,
    finished: bool,
}

impl<R: BufRead + Drop> Model for BoundedReader<R> {
    ghost use Rattle.deb_control.specs.Source.{Source, left_of};

    ghost Value = { Source };

    ghost view = { λ r. record {
      bytes = left_of r.finished (R.remaining r.inner);
      room = r.room;
      failed = r.failed;
    } };
}

impl<R: BufRead + Drop> BoundedReader<R> {
    /// The reader, of which this many bytes may be read, and no read has failed so far.
    pub(crate) fn new(inner: R, room: usize) -> Self
        ensures value { result ≡ record { bytes = R.remaining inner; room = room; failed = false } }
    {
        BoundedReader {
            inner,
            room,
            failed: false,
            finished: false,
        }
    }

    /// Appends to a text, which is no larger than a paragraph, what the reader shows of a line, and no more than one byte over
    /// the greatest size of a paragraph. The error is that there is no memory for it.
    fn append_piece(&mut self, text: &mut Vec<u8>) -> Result<Shown, AllocError>
        requires { vec_len text.old ≤ paragraph_limit }
        ensures value { IfOk result (λ shown.
            AddsPiece shown text.old.items text.new.items self.old self.new) }
        ensures size { OnOk result (vec_len text.new ≤ paragraph_limit + 1) }
        ensures failed { IfOk result (λ shown. CutsIf (is_failed_look shown) self.old self.new) }
        ensures memory { OnErr result (IfSome self.old.bytes (λ left. 0 < length left)) }
        ensures kept { OnErr result (self.new.failed ≡ self.old.failed) }
    {
        if self.finished {
            return Ok(Shown::End);
        }
        let start = text.len();
        let most = self.room.min(PARAGRAPH_LIMIT + 1 - start);
        match append_shown(&mut self.inner, text, most)? {
            Shown::Failed => {
                self.failed = true;
                Ok(Shown::Failed)
            }
            Shown::End => {
                self.finished = true;
                Ok(Shown::End)
            }
            Shown::Part if self.room == 0 => Ok(Shown::Failed),
            shown => {
                self.room -= text.len() - start;
                Ok(shown)
            }
        }
    }

    /// Appends to a text, which is no larger than a paragraph, the next line, or as much of it as fits in one byte over the
    /// greatest size of a paragraph. The error is that there is no memory for it.
    fn append_line(&mut self, text: &mut Vec<u8>) -> Result<LineEnd, AllocError>
        requires { vec_len text.old ≤ paragraph_limit }
        ensures value { IfOk result (λ end.
            AddsLine end text.old.items text.new.items self.old self.new) }
        ensures size { OnOk result (vec_len text.new ≤ paragraph_limit + 1) }
        ensures failed { IfOk result (λ end. CutsIf (is_cut_line end) self.old self.new) }
        ensures memory { OnErr result (IfSome self.old.bytes (λ left. 0 < length left)) }
        ensures kept { OnErr result (self.new.failed ≡ self.old.failed) }
    {
        while text.len() <= PARAGRAPH_LIMIT {
            match self.append_piece(text)? {
                Shown::Failed => return Ok(LineEnd::Cut),
                Shown::End => return Ok(LineEnd::Last),
                Shown::Line => return Ok(LineEnd::Ended),
                Shown::Part => {}
            }
        }
        Ok(LineEnd::Full)
    }

    /// Reads the next line. One that separates paragraphs is left out; a line of a paragraph is appended to a text, which is no
    /// larger than a paragraph. Of a line that is too large with it, no more is kept than one byte over the greatest size of a
    /// paragraph: blanks at its start, which may still be all of it, are left out beyond that. The error is that there is no
    /// memory for it.
    pub(crate) fn read_line(&mut self, text: &mut Vec<u8>) -> Result<LineRead, AllocError>
        requires { vec_len text.old ≤ paragraph_limit }
        ensures value { IfOk result (λ read.
            ReadsLine read text.old.items text.new.items self.old self.new) }
        ensures memory { OnErr result (IfSome self.old.bytes (λ left. 0 < length left)) }
        ensures kept { OnErr result (self.new.failed ≡ self.old.failed) }
    {
        let start = text.len();
        let mut over = false;
        loop {
            match self.append_line(text)? {
                LineEnd::Ended => return Ok(end_line(text, start, over)),
                LineEnd::Last => return Ok(end_last(text, start, over)),
                LineEnd::Cut => return Ok(end_cut(text, start, over)),
                LineEnd::Full => {
                    if !is_blank_from(text, start) {
                        return Ok(LineRead::Long);
                    }
                    text.truncate(start);
                    over = true;
                }
            }
        }
    }

    /// Reads the next paragraph, and the separator after it. The error is that there is no memory for it.
    pub(crate) fn read_paragraph(&mut self, alloc: Global) -> Result<RunRead, AllocError>
        ensures value { IfOk result (λ read. ReadsRun read self.old self.new) }
        ensures memory { OnErr result (IfSome self.old.bytes (λ left. 0 < length left)) }
        ensures kept { OnErr result (self.new.failed ≡ self.old.failed) }
    {
        let mut text = Vec::new(alloc);
        loop {
            match self.read_line(&mut text)? {
                LineRead::Failed => return Ok(RunRead::Failed),
                LineRead::Long => return Ok(RunRead::TooLarge),
                LineRead::End => return Ok(paragraph_of(text)),
                LineRead::Separator => {
                    if !text.is_empty() {
                        return Ok(RunRead::Paragraph(text));
                    }
                }
                LineRead::Whole => {}
            }
        }
    }
}
