//! The stages of a trial, from its line.

use crate::images::Stop;
use anyhow::{Context, Result, bail};
use std::alloc::Global;
use std::str::SplitWhitespace;

/// What an office does until its files stop.
#[derive(Clone, Copy)]
pub(crate) enum Work<'a> {
    /// It is opened, answers the lines of the file of this name, and is given up.
    Run(&'a str),
    /// It lives once with the commands of the file of this name, by `session`.
    Session(&'a str),
    /// It is opened, and given up.
    Open,
    /// It is opened, and closed.
    Close,
}

/// Work over two files that stop.
#[derive(Clone, Copy)]
pub(crate) struct Stage<'a> {
    pub(crate) work: Work<'a>,
    pub(crate) log: Stop,
    pub(crate) db: Stop,
}

/// What becomes of the files that the stages of a trial leave.
#[derive(Clone, Copy)]
pub(crate) enum End {
    /// An office is opened in them, and its rows are shown.
    Opened,
    /// The rows of their tables are shown as they stand.
    Unopened,
    /// They are those of the trials from here on.
    Kept,
}

/// The stages that a line names, and what becomes of the files that they leave.
pub(crate) fn stages_of<'a>(alloc: Global, line: &'a str) -> Result<(Vec<Stage<'a>>, End)> {
    let mut stages = Vec::new(alloc);
    let mut words = line.split_whitespace();
    for _ in 0..line.len() {
        let work = match words.next() {
            None => break,
            Some("run") => Work::Run(words.next().context("a run has no lines")?),
            Some("session") => Work::Session(words.next().context("a session has no lines")?),
            Some("open") => Work::Open,
            Some("close") => Work::Close,
            Some("keep") => return Ok((stages, End::Kept)),
            Some("unopened") => return Ok((stages, End::Unopened)),
            Some(_) => bail!(
                "a stage begins with run, session, open or close, and after the last stand keep or unopened"
            ),
        };
        stages.push(stage_of(work, &mut words)?)?;
    }
    Ok((stages, End::Opened))
}

/// The stage with this work, the stops of which are the next four words.
fn stage_of<'a>(work: Work<'a>, words: &mut SplitWhitespace<'a>) -> Result<Stage<'a>> {
    let log_calls = number_of(words.next())?;
    let db_calls = number_of(words.next())?;
    Ok(Stage {
        work,
        log: Stop {
            calls: log_calls,
            is_kept: is_kept(words.next())?,
        },
        db: Stop {
            calls: db_calls,
            is_kept: is_kept(words.next())?,
        },
    })
}

/// The number of calls that a word says.
pub(crate) fn number_of(word: Option<&str>) -> Result<u64> {
    word.context("two numbers of calls are wanted")?
        .parse::<u64>()
        .context("a number of calls is not decimal")
}

/// Whether a word says that what was written is kept.
fn is_kept(word: Option<&str>) -> Result<bool> {
    match word {
        Some("kept") => Ok(true),
        Some("lost") => Ok(false),
        _ => bail!("what is left of a file is kept or lost"),
    }
}
