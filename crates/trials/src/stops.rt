//! Has an office work over two files in memory, a database and its log, that stop at a given call, and shows what is found in them
//! afterwards. Each line of the input is a trial: stages, one after another, which begin from the files that were kept last, at first
//! empty ones.
//!
//! ```text
//! run LINES LOG DB LOG-LEFT DB-LEFT      opens the office, answers the lines of the file LINES, and gives the office up
//! session LINES LOG DB LOG-LEFT DB-LEFT  has an office live once with the commands of the lines, none of which is a merge or a report, by `session`
//! open LOG DB LOG-LEFT DB-LEFT           opens the office, and gives it up
//! close LOG DB LOG-LEFT DB-LEFT          opens the office, and closes it
//! keep                                   at the end: the files that are left are those of the trials from here on
//! unopened                               at the end: the rows are those of the tables as they stand, and no office is opened for them
//! begin DATABASE                         alone: the files are from here on a database of the bytes of this file, and an empty log
//! lives LOG DB LINES..                   alone: over new files, an office lives once for each file of lines, none of which is a merge or a report
//! refuse K TRIAL                         the trial, but of its first `session`, `open` or `close`, or of its lives, the K-th request for memory is refused; 0 refuses none
//! ```
//!
//! LOG and DB are how many calls the log and the database take before each later call fails and changes nothing; of lives the files of the
//! second one alone stop so, and a power cut follows each life, which hands them out. LOG-LEFT and DB-LEFT are
//! `kept` if the file then holds all that was written, as after a kill, and `lost` if it holds what was synced, as a power cut may
//! leave it. To standard output go the answers; `fault NAME` if an opening or a closing fails; and, unless the files are kept, each row
//! of the office that is found in them at the end, with `none TABLE` for a table that is not there. The last line of a trial is `end`. A run
//! whose office is not opened ends the program.
//!
//! A session or a life whose opening fails, or whose office is open and is not closed, gives no files back: then `gone` stands for the rows, and the
//! trial ends there. Of lives go to standard output `opened N ROWS` before the answers of each life, with the counts of accepted commands and of
//! rows that its opening found; after the lives `cut N` for each power cut, with the count in a copy of the files that it handed back, or `cut none`
//! if that could not be opened, and `left N`, how many cuts are left. What is not synced at the end of a life is lost.

mod lists;
mod lives;
mod power;
mod session;
mod stage;
pub(crate) mod work;

use crate::images::Images;
use crate::refusing::arm;
use crate::rows::{show_rows, show_unopened_rows};
use anyhow::{Context, Result};
use stage::{End, Stage};
use std::alloc::Global;
use std::fs;
use std::io::{BufRead, Write};
use std::rt::Files as FileHandle;

// No clause speaks of a crash within a call, so each call of the disk is tried. The kit's files in
// memory stop at the call that a trial names, and can lose what was not synced; kills lose nothing
// that was written.
/// Makes each trial of the input.
pub(crate) fn make_all<F: FileHandle + AllocGlobal, R: BufRead + Drop, W: Write>(
    rt: &F,
    alloc: Global,
    input: &mut R,
    output: &mut W,
) -> Result<()> {
    let mut kept = Images::none(alloc);
    for _ in 0..u64::MAX {
        let mut line = String::new(alloc);
        if input.read_line(&mut line)? == 0 {
            break;
        }
        let trial = armed(alloc, &line)?;
        if let Some(words) = trial.strip_prefix("lives ") {
            lives::show(rt, alloc, words, output)?;
        } else if let Some(name) = trial.strip_prefix("begin ") {
            kept = Images::begun(alloc, fs::read(rt, name.trim_end())?);
        } else if let Some(images) = stopped(rt, alloc, &kept, trial, output)? {
            kept = images;
        }
        writeln!(output, "end")?;
        output.flush()?;
    }
    Ok(())
}

/// The trial of a line. If the line says so, a request for memory is refused in the next call that begins.
fn armed<'a>(alloc: Global, line: &'a str) -> Result<&'a str> {
    let Some(rest) = line.strip_prefix("refuse ") else {
        return Ok(line);
    };
    let (number, trial) = rest.split_once(' ').context("a refusal has no trial")?;
    arm(
        alloc,
        number
            .parse::<u32>()
            .context("the number of a request is not decimal")?,
    );
    Ok(trial)
}

/// Makes a trial of stages, and shows what the files hold then; or gives the files, if they are to be kept.
fn stopped<F: FileHandle + AllocGlobal, W: Write>(
    rt: &F,
    alloc: Global,
    kept: &Images,
    line: &str,
    output: &mut W,
) -> Result<Option<Images>> {
    let (stages, end) = stage::stages_of(alloc, line)?;
    let Some(images) = carry_out(rt, alloc, kept, &stages, output)? else {
        writeln!(output, "gone")?;
        return Ok(None);
    };
    match end {
        End::Kept => return Ok(Some(images)),
        End::Opened => show_rows(alloc, &images, output)?,
        End::Unopened => show_unopened_rows(alloc, &images, output)?,
    }
    Ok(None)
}

/// What the files hold after these stages; none if one of them did not give them back.
fn carry_out<F: FileHandle + AllocGlobal, W: Write>(
    rt: &F,
    alloc: Global,
    kept: &Images,
    stages: &[Stage<'_>],
    output: &mut W,
) -> Result<Option<Images>> {
    let mut images = kept.copied()?;
    for stage in stages {
        match work::carry_out(rt, alloc, &images, stage, output)? {
            Some(left) => images = left,
            None => return Ok(None),
        }
    }
    Ok(Some(images))
}
