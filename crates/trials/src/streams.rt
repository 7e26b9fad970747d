//! Answers lines and requests by an office over tables in memory, by a reader and a writer of which a call fails. The input has these, each
//! of the last two with a [frame](crate::frames) after the word:
//!
//! ```text
//! new           the office is a new one from here on, and so it is at the beginning
//! lines ..      the bytes are lines, which are answered as in one run
//! request ..    the bytes are all that a client sends on a connection
//! end           at the end
//! ```
//!
//! For each of the last two a line goes to the output, and after it what is answered: how it ended, the status, how many commands the office
//! has accepted by then, which of the two reports that it failed, and how many bytes are answered, as in `ran 3 4 writer 145`. A run ends
//! as `ran`, and an exchange as it says, with 0 for no status. The third word is `reader`, `writer`, `both` or `none`.

mod lists;

use crate::answers::word_of;
use crate::frames::{self, Frame};
use crate::office::TrialOffice;
use crate::reader::CutReader;
use crate::writer::CutWriter;
use anyhow::{Context, Result, bail};
use lists::NoLists;
use std::alloc::Global;
use std::io::{BufRead, Write};
use wb_api::Routes;
use wb_streams::{WatchedReader, WatchedWriter};

/// How a run or an exchange ended, and what was answered.
#[derive(Drop)]
struct Ended {
    word: &'static str,
    status: u16,
    failed: &'static str,
    answer: Vec<u8>,
}

/// Answers what the input has, up to its end or a line `end`. Each answer is written before more is read.
pub(crate) fn answer_all<R: BufRead + Drop, W: Write + Drop>(
    alloc: Global,
    input: &mut R,
    output: &mut W,
) -> Result<()> {
    let routes = Routes::new(alloc)?;
    let mut office = TrialOffice::empty(alloc)?;
    for _ in 0..u64::MAX {
        let mut line = String::new(alloc);
        if input.read_line(&mut line)? == 0 {
            break;
        }
        match line.trim_end() {
            "end" => break,
            "new" => office = TrialOffice::empty(alloc)?,
            words => {
                let ended = answered(alloc, &routes, &mut office, words, input)?;
                show(&ended, office.accepted_count(), output)?;
            }
        }
    }
    Ok(())
}

/// What is answered to lines or a request, which these words begin.
fn answered<R: BufRead + Drop>(
    alloc: Global,
    routes: &Routes,
    office: &mut TrialOffice,
    words: &str,
    input: &mut R,
) -> Result<Ended> {
    let (kind, numbers) = words.split_once(' ').context("a word has no length")?;
    let frame = frames::after(alloc, numbers, input)?;
    match kind {
        "lines" => Ok(ran(alloc, office, &frame)),
        "request" => Ok(served(alloc, routes, office, &frame)),
        other => bail!("{other} is neither lines nor a request"),
    }
}

/// How the run over these lines ends.
fn ran(alloc: Global, office: &mut TrialOffice, lines: &Frame) -> Ended {
    let mut answer = CutWriter::new(alloc, lines.writing);
    let mut reader = WatchedReader::new(CutReader::new(&lines.bytes, lines.reading));
    let mut writer = WatchedWriter::new(&mut answer);
    let status = office.answer_lines(alloc, &mut reader, &mut writer, &mut NoLists);
    let failed = failed_of(reader.has_failed(), writer.has_failed());
    drop(writer);
    Ended {
        word: "ran",
        status: u16::from(status),
        failed,
        answer: answer.taken(),
    }
}

/// How the exchange for this request ends.
fn served(alloc: Global, routes: &Routes, office: &mut TrialOffice, request: &Frame) -> Ended {
    let mut answer = CutWriter::new(alloc, request.writing);
    let mut reader = WatchedReader::new(CutReader::new(&request.bytes, request.reading));
    let mut writer = WatchedWriter::new(&mut answer);
    let (word, status) = word_of(office.serve(alloc, routes, &mut reader, &mut writer));
    let failed = failed_of(reader.has_failed(), writer.has_failed());
    drop(writer);
    Ended {
        word,
        status,
        failed,
        answer: answer.taken(),
    }
}

/// The word for which of the two failed.
fn failed_of(has_reader: bool, has_writer: bool) -> &'static str {
    match (has_reader, has_writer) {
        (true, true) => "both",
        (true, false) => "reader",
        (false, true) => "writer",
        (false, false) => "none",
    }
}

/// Writes how it ended.
fn show<W: Write + Drop>(ended: &Ended, accepted: u64, output: &mut W) -> Result<()> {
    let Ended {
        word,
        status,
        failed,
        answer,
    } = ended;
    writeln!(
        output,
        "{word} {status} {accepted} {failed} {}",
        answer.len()
    )?;
    output.write_all(answer)?;
    output.flush()?;
    Ok(())
}
