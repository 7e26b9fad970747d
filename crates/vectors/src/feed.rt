//! The reading of control data from readers that give it in pieces, or that fail.

use crate::control::{Answer, FaultText, FieldText, ParagraphText, fault_read, field_read};
use crate::outcome::Outcome;
use anyhow::Result;
use deb_control::{ControlFault, ControlFaultKind, Feed, OwnedParagraph};
use std::alloc::{AllocError, Global};
use std::io::{self, BufRead, BufReader, ErrorKind, Read};

/// The greatest length of a text that is tried with a reader that fails at each of its reads in
/// turn.
const FAILING_LIMIT: usize = 1024;

/// A reader that gives at most `step` bytes a read, and of which one read fails, after so many
/// reads. The fault is one after which a reader may be asked again, which a feed must not do.
struct CutReader<'a> {
    left: &'a [u8],
    step: usize,
    reads: usize,
}

impl<'a> Drop for CutReader<'a> {
    fn drop(self) {
        let CutReader {
            left: _,
            step: _,
            reads: _,
        } = self;
    }
}

impl<'a> Read for CutReader<'a> {
    fn read(&mut self, buf: &mut [u8]) -> io::Result<usize> {
        if self.reads == 0 {
            self.reads = usize::MAX;
            return Err(io::Error::from(ErrorKind::Interrupted));
        }
        self.reads -= 1;
        let count = buf.len().min(self.step);
        self.left.read(&mut buf[..count])
    }
}

/// A paragraph as it was read.
fn paragraph_read(alloc: Global, paragraph: &OwnedParagraph) -> Result<ParagraphText, AllocError> {
    let mut fields: Vec<FieldText> = Vec::new(alloc);
    for field in paragraph.fields() {
        fields.push(field_read(alloc, &field)?)?;
    }
    Ok(ParagraphText { fields })
}

/// The fault, or another name if the feed goes on after it.
fn last_fault<R: BufRead + Drop>(
    alloc: Global,
    feed: &mut Feed<R>,
    fault: ControlFault,
) -> Result<FaultText, AllocError> {
    let mut text = fault_read(alloc, fault)?;
    match feed.next(alloc) {
        Err(next) if next.kind == ControlFaultKind::Ended && next.paragraph == fault.paragraph => {}
        _ => text.name.push_str(", and then another answer than Ended")?,
    }
    Ok(text)
}

/// The paragraphs that a feed gives, and the fault that ends them, if any.
fn answer_of<R: BufRead + Drop>(alloc: Global, feed: &mut Feed<R>) -> Result<Answer, AllocError> {
    let mut paragraphs = Vec::new(alloc);
    let mut fault = None;
    for _ in 0..u64::MAX {
        match feed.next(alloc) {
            Ok(Some(paragraph)) => paragraphs.push(paragraph_read(alloc, &paragraph)?)?,
            Ok(None) => break,
            Err(found) => {
                fault = Some(last_fault(alloc, feed, found)?);
                break;
            }
        }
    }
    Ok(Answer { paragraphs, fault })
}

/// What a feed answers for the bytes in pieces of at most `step` bytes, if the read after so many
/// fails.
fn fed(alloc: Global, bytes: &[u8], step: usize, reads: usize) -> Result<Answer> {
    let reader = CutReader {
        left: bytes,
        step,
        reads,
    };
    let mut feed = Feed::of(BufReader::with_capacity(alloc, step, reader)?);
    Ok(answer_of(alloc, &mut feed)?)
}

/// Tries that a feed answers for the bytes in pieces of so many bytes what is wanted.
fn try_pieces(
    alloc: Global,
    bytes: &[u8],
    step: usize,
    wanted: &Answer,
    outcome: &mut Outcome,
) -> Result<()> {
    let wanted = format!(in alloc; "{wanted:?}")?;
    let found = format!(in alloc; "{:?}", fed(alloc, bytes, step, usize::MAX)?)?;
    Ok(outcome.compare(alloc, 0, wanted.as_str(), found.as_str())?)
}

/// Whether a feed that was cut gave paragraphs that are wanted, in their order, and then `Read`, or
/// the fault that is wanted.
fn is_cut_of(alloc: Global, found: &Answer, wanted: &Answer) -> Result<bool, AllocError> {
    for (found, wanted) in found.paragraphs.iter().zip(wanted.paragraphs.iter()) {
        let found = format!(in alloc; "{found:?}")?;
        let wanted = format!(in alloc; "{wanted:?}")?;
        if found.as_str() != wanted.as_str() {
            return Ok(false);
        }
    }
    let end = format!(in alloc; "{:?}", found.fault)?;
    let wanted_end = format!(in alloc; "{:?}", wanted.fault)?;
    let count = (found.paragraphs.len() as u64).saturating_add(1);
    let read = format!(in alloc; "Some(FaultText {{ paragraph: {count}, name: \"Read\" }})")?;
    Ok(
        found.paragraphs.len() <= wanted.paragraphs.len()
            && (end.as_str() == read.as_str()
                || found.fault.is_some() && end.as_str() == wanted_end.as_str()),
    )
}

/// Tries that a feed whose read fails after so many answers `Read` then, and nothing that is not
/// wanted before.
fn try_failing(
    alloc: Global,
    bytes: &[u8],
    step: usize,
    reads: usize,
    wanted: &Answer,
    outcome: &mut Outcome,
) -> Result<()> {
    let found = fed(alloc, bytes, step, reads)?;
    if !is_cut_of(alloc, &found, wanted)? {
        let found = format!(in alloc; "{found:?}")?;
        outcome.compare(
            alloc,
            reads as u64,
            "a front of it, and then Read",
            found.as_str(),
        )?;
    }
    Ok(())
}

/// Tries a feed on the bytes, in pieces of 1, 7 and 4096 bytes, and if the text is short with each
/// read failing in turn.
pub(crate) fn try_feed(
    alloc: Global,
    bytes: &[u8],
    wanted: &Answer,
    outcome: &mut Outcome,
) -> Result<()> {
    for step in [1, 7, 4096] {
        try_pieces(alloc, bytes, step, wanted, outcome)?;
    }
    if bytes.len() <= FAILING_LIMIT {
        for reads in 0..=bytes.len().div_ceil(7) {
            try_failing(alloc, bytes, 7, reads, wanted, outcome)?;
        }
    }
    Ok(())
}
