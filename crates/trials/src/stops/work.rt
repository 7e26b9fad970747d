//! The work of an office over files that stop.

use crate::images::{Images, Stopping};
use crate::office::TrialOffice;
use crate::openings::{GivenBack, prepared};
use crate::stops::lists::FileLists;
use crate::stops::session;
use crate::stops::stage::{Stage, Work};
use anyhow::Result;
use sqlite::Files;
use std::alloc::Global;
use std::fs;
use std::io::Write;
use std::rt::Files as FileHandle;
use wb_streams::{WatchedReader, WatchedWriter};

/// What the files hold after a stage that begins with these; none if they were not given back.
pub(crate) fn carry_out<F: FileHandle + AllocGlobal, W: Write>(
    rt: &F,
    alloc: Global,
    images: &Images,
    stage: &Stage<'_>,
    output: &mut W,
) -> Result<Option<Images>> {
    let files = images.files(alloc, stage.log.calls, stage.db.calls)?;
    let files = match stage.work {
        Work::Run(name) => Some(run(rt, alloc, files, name, output)?),
        Work::Session(name) => session::run(rt, alloc, files, name, output)?,
        Work::Open => Some(told(prepared(alloc, files, false)?, output)?),
        Work::Close => Some(told(prepared(alloc, files, true)?, output)?),
    };
    match files {
        Some(files) => Ok(Some(Images::left(alloc, files, stage.log, stage.db)?)),
        None => Ok(None),
    }
}

/// Opens the office, answers the lines of a file, and gives the office up.
fn run<F: FileHandle + AllocGlobal, W: Write>(
    rt: &F,
    alloc: Global,
    files: Files<Stopping>,
    name: &str,
    output: &mut W,
) -> Result<Files<Stopping>> {
    let lines = fs::read(rt, name)?;
    let mut office = TrialOffice::open(alloc, files)?;
    let mut answers: Vec<u8> = Vec::new(alloc);
    answer(rt, alloc, &mut office, &lines, &mut answers);
    output.write_all(&answers)?;
    Ok(office.surrender())
}

/// Answers the lines.
pub(crate) fn answer<F: FileHandle + AllocGlobal>(
    rt: &F,
    alloc: Global,
    office: &mut TrialOffice,
    lines: &[u8],
    answers: &mut Vec<u8>,
) {
    let mut reader = WatchedReader::new(lines);
    let mut writer = WatchedWriter::new(answers);
    let mut lists = FileLists { rt };
    let _ = office.answer_lines(alloc, &mut reader, &mut writer, &mut lists);
}

/// The files, once the fault is written.
fn told<W: Write>(given: GivenBack, output: &mut W) -> Result<Files<Stopping>> {
    let GivenBack { files, fault } = given;
    if let Some(fault) = fault {
        writeln!(output, "fault {}", fault.name())?;
    }
    Ok(files)
}
