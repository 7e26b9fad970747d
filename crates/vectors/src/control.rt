//! The reading of control data, on texts. A case is a paragraph, or the end of the text with its
//! fault.

use crate::feed::try_feed;
use crate::outcome::Outcome;
use anyhow::Result;
use deb_control::{ControlFault, Field, Paragraph, Paragraphs};
use serde::Deserialize;
use std::alloc::{AllocError, Global};

/// A field, as the answer to a text writes it.
#[derive(Debug, Drop, Deserialize)]
pub(crate) struct FieldText {
    name: String,
    first: String,
    lines: Vec<String>,
    folded: String,
}

/// A paragraph, as the answer to a text writes it.
#[derive(Debug, Drop, Deserialize)]
pub(crate) struct ParagraphText {
    pub(crate) fields: Vec<FieldText>,
}

/// A fault, as the answer to a text writes it, with the number of its paragraph, counted from 1.
#[derive(Debug, Drop, Deserialize)]
pub(crate) struct FaultText {
    pub(crate) paragraph: u64,
    pub(crate) name: String,
}

/// The answer to a text: its paragraphs, and the fault that ends them, if any.
#[derive(Debug, Drop, Deserialize)]
pub(crate) struct Answer {
    pub(crate) paragraphs: Vec<ParagraphText>,
    pub(crate) fault: Option<FaultText>,
}

/// A field as it was read.
pub(crate) fn field_read(alloc: Global, field: &Field) -> Result<FieldText, AllocError> {
    let mut lines = Vec::new(alloc);
    for line in field.lines() {
        lines.push(String::from_str(alloc, line)?)?;
    }
    Ok(FieldText {
        name: String::from_str(alloc, field.name())?,
        first: String::from_str(alloc, field.first())?,
        lines,
        folded: field.folded(alloc)?,
    })
}

/// A paragraph as it was read.
fn paragraph_read(alloc: Global, paragraph: &Paragraph) -> Result<ParagraphText, AllocError> {
    let mut fields = Vec::new(alloc);
    for field in paragraph.fields() {
        fields.push(field_read(alloc, field)?)?;
    }
    Ok(ParagraphText { fields })
}

/// A fault as it was answered.
pub(crate) fn fault_read(alloc: Global, fault: ControlFault) -> Result<FaultText, AllocError> {
    Ok(FaultText {
        paragraph: fault.paragraph,
        name: String::from_str(alloc, fault.name())?,
    })
}

/// The paragraphs that the bytes have, and the fault that ends them, if any.
fn answer_of(alloc: Global, bytes: &[u8]) -> Result<Answer, AllocError> {
    let mut reader = Paragraphs::of(bytes);
    let mut paragraphs = Vec::new(alloc);
    let mut fault = None;
    for _ in 0..u64::MAX {
        match reader.next(alloc) {
            Ok(Some(paragraph)) => paragraphs.push(paragraph_read(alloc, &paragraph)?)?,
            Ok(None) => break,
            Err(found) => {
                fault = Some(fault_read(alloc, found)?);
                break;
            }
        }
    }
    Ok(Answer { paragraphs, fault })
}

/// Tries each paragraph, and then the end.
fn compared(alloc: Global, wanted: &Answer, found: &Answer) -> Result<Outcome, AllocError> {
    let mut outcome = Outcome::new(alloc);
    let count = wanted.paragraphs.len().max(found.paragraphs.len());
    for (place, at) in (1..u64::MAX).zip(0..count) {
        let wanted = format!(in alloc; "{:?}", wanted.paragraphs.get(at))?;
        let found = format!(in alloc; "{:?}", found.paragraphs.get(at))?;
        outcome.add(alloc, place, wanted.as_str(), found.as_str())?;
    }
    let end = (count as u64).saturating_add(1);
    let wanted = format!(in alloc; "{:?}", wanted.fault)?;
    let found = format!(in alloc; "{:?}", found.fault)?;
    outcome.add(alloc, end, wanted.as_str(), found.as_str())?;
    Ok(outcome)
}

/// Tries the bytes of a text against its answer, which is JSON; and a feed on the same bytes, whose
/// differences alone count.
pub(crate) fn tried(alloc: Global, bytes: &[u8], answer: &str) -> Result<Outcome> {
    let wanted: Answer = serde_json::from_str(alloc, answer)?;
    let found = answer_of(alloc, bytes)?;
    let mut outcome = compared(alloc, &wanted, &found)?;
    try_feed(alloc, bytes, &found, &mut outcome)?;
    Ok(outcome)
}
