//! The reading of control data.

use deb_control::{ControlFault, Feed, OwnedParagraph, Paragraphs};
use std::alloc::Global;
use std::io::BufReader;

/// How many paragraphs the bytes have, and how many fields in all.
pub(crate) fn counts(alloc: Global, bytes: &[u8]) -> Result<(u64, u64), ControlFault> {
    let mut reader = Paragraphs::of(bytes);
    let mut fields: u64 = 0;
    for paragraphs in 0..u64::MAX {
        let Some(paragraph) = reader.next(alloc)? else {
            return Ok((paragraphs, fields));
        };
        fields = fields.saturating_add(paragraph.fields().len() as u64);
    }
    Ok((u64::MAX, fields))
}

/// How many fields a paragraph has.
fn field_count(paragraph: &OwnedParagraph) -> u64 {
    let mut count: u64 = 0;
    for _ in paragraph.fields() {
        count = count.saturating_add(1);
    }
    count
}

/// The same by a feed, in pieces of 8192 bytes.
pub(crate) fn fed_counts(alloc: Global, bytes: &[u8]) -> anyhow::Result<(u64, u64)> {
    let mut feed = Feed::of(BufReader::new(alloc, bytes)?);
    let mut fields: u64 = 0;
    for paragraphs in 0..u64::MAX {
        let Some(paragraph) = feed.next(alloc)? else {
            return Ok((paragraphs, fields));
        };
        fields = fields.saturating_add(field_count(&paragraph));
    }
    Ok((u64::MAX, fields))
}
