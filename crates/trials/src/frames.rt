//! Frames of the input: bytes, and how they are read and an answer to them is written.
//!
//! A frame is a decimal length, a line feed and so many bytes. Up to three numbers and a word may follow the length, each after a blank: how
//! many bytes a read gives and a write takes at most, how many reads give bytes before one fails, how many writes take bytes before one
//! fails, and how they fail: `interrupted`, `device`, or `none` if that write takes no byte in place of an error. Without them all bytes
//! that fit are read and written, and no read or write fails. What failed once works again.

use crate::cut::{Cut, Failure};
use anyhow::{Context, Result, bail};
use std::alloc::Global;
use std::io::BufRead;

/// The bytes of a frame, and how they are read and an answer is written.
#[derive(Drop)]
pub(crate) struct Frame {
    pub(crate) bytes: Vec<u8>,
    pub(crate) reading: Cut,
    pub(crate) writing: Cut,
}

/// The next frame; none at the end of the input, and at a line `end`.
pub(crate) fn next<R: BufRead + Drop>(alloc: Global, input: &mut R) -> Result<Option<Frame>> {
    let mut line = String::new(alloc);
    if input.read_line(&mut line)? == 0 {
        return Ok(None);
    }
    let words = line.trim_end();
    if words == "end" {
        return Ok(None);
    }
    Ok(Some(after(alloc, words, input)?))
}

/// The frame of which these are the words before its line feed.
pub(crate) fn after<R: BufRead + Drop>(alloc: Global, words: &str, input: &mut R) -> Result<Frame> {
    let length = number(words, 0)?;
    let step = number(words, 1)?;
    let reads = number(words, 2)?;
    let writes = number(words, 3)?;
    let failure = failure(words, 4)?;
    let mut bytes = vec![in alloc; 0u8; length]?;
    input
        .read_exact(&mut bytes)
        .context("the input ends inside a frame")?;
    Ok(Frame {
        bytes,
        reading: Cut {
            step,
            calls: reads,
            failure,
        },
        writing: Cut {
            step,
            calls: writes,
            failure,
        },
    })
}

/// The number at this place of a line, counted from 0; the greatest one if the line ends before.
fn number(words: &str, place: usize) -> Result<usize> {
    match words.split(' ').nth(place) {
        Some(word) => word
            .parse::<usize>()
            .context("a frame does not begin with numbers"),
        None => Ok(usize::MAX),
    }
}

/// How a call fails, by the word at this place; it is interrupted if the line ends before.
fn failure(words: &str, place: usize) -> Result<Failure> {
    match words.split(' ').nth(place) {
        None | Some("interrupted") => Ok(Failure::Interrupted),
        Some("device") => Ok(Failure::Device),
        Some("none") => Ok(Failure::TakesNone),
        Some(other) => bail!("a call fails as interrupted, device or none, and not as {other}"),
    }
}
