//! Answers requests by an office over tables in memory, with no sockets. The input has [frames](crate::frames). The first three are the
//! Sources list and the Packages lists of amd64 and arm64 that the office begins with, and each other is all that a client sends on a
//! connection. For each request a line goes to the output, and after it what is answered: how the exchange ended, the status or 0 for none,
//! and how many bytes were answered, as in `answered 200 145`. A line `end` ends the requests.

pub(crate) mod opening;

use crate::answers::word_of;
use crate::frames::{self, Frame};
use crate::office::TrialOffice;
use crate::reader::CutReader;
use crate::writer::CutWriter;
use anyhow::{Context, Result};
use std::alloc::Global;
use std::io::{BufRead, Write};
use wb_api::{Routes, Served};
use wb_streams::{WatchedReader, WatchedWriter};

/// Answers the requests of the input, up to its end or a line `end`.
pub(crate) fn answer_all<R: BufRead + Drop, W: Write + Drop>(
    alloc: Global,
    input: &mut R,
    output: &mut W,
) -> Result<()> {
    match frames::next(alloc, input)? {
        Some(sources) => {
            let routes = Routes::new(alloc)?;
            let mut office = begun(alloc, input, sources.bytes)?;
            answer_each(alloc, &routes, &mut office, input, output)
        }
        None => Ok(()),
    }
}

/// The office over this Sources list and the Packages lists that stand next in the input.
fn begun<R: BufRead + Drop>(alloc: Global, input: &mut R, sources: Vec<u8>) -> Result<TrialOffice> {
    let amd64 = frames::next(alloc, input)?.context("there is no list of amd64")?;
    let arm64 = frames::next(alloc, input)?.context("there is no list of arm64")?;
    opening::office_of(alloc, sources, amd64.bytes, arm64.bytes)
}

/// Answers each request of the input. Each answer is written before the next request is read.
fn answer_each<R: BufRead + Drop, W: Write + Drop>(
    alloc: Global,
    routes: &Routes,
    office: &mut TrialOffice,
    input: &mut R,
    output: &mut W,
) -> Result<()> {
    for _ in 0..u64::MAX {
        let Some(request) = frames::next(alloc, input)? else {
            break;
        };
        let (served, answer) = answered(alloc, routes, office, &request);
        let (word, status) = word_of(served);
        writeln!(output, "{word} {status} {}", answer.len())?;
        output.write_all(&answer)?;
        output.flush()?;
    }
    Ok(())
}

/// How the exchange for this request ended, and what was answered.
fn answered(
    alloc: Global,
    routes: &Routes,
    office: &mut TrialOffice,
    request: &Frame,
) -> (Served, Vec<u8>) {
    let mut answer = CutWriter::new(alloc, request.writing);
    let mut reader = WatchedReader::new(CutReader::new(&request.bytes, request.reading));
    let mut writer = WatchedWriter::new(&mut answer);
    let served = office.serve(alloc, routes, &mut reader, &mut writer);
    drop(writer);
    (served, answer.taken())
}
