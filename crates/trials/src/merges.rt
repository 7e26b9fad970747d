//! Merges an archive's lists over an office in memory, as a command that has them whole, or as readers give them, and shows what is
//! answered and what is found then. Each line of the input is a trial:
//!
//! ```text
//! whole LINES SOURCES ARCH=PACKAGES ..                     the merge as a command
//! pieces LINES STEP PLACE READS SOURCES ARCH=PACKAGES ..   the merge as readers give it
//! ```
//!
//! The office begins with the lines of the file LINES, the answers to which are not shown. Each reader gives at most STEP bytes a read;
//! that of the list at PLACE, where Sources is at 0, fails once after READS reads. To standard output go the answer, each row of the
//! office that is found in its files, and a line `end`.

use crate::answers::show_outcome;
use crate::cut::{Cut, Failure};
use crate::office::TrialOffice;
use crate::reader::CutReader;
use crate::rows::show_rows;
use crate::stops::work::answer;
use anyhow::{Context, Result, bail};
use deb_text::{Items, Text};
use std::alloc::Global;
use std::fs;
use std::io::{BufRead, BufReader, Write};
use std::rt::Files as FileHandle;
use std::str::SplitWhitespace;
use wb_archive::ArchList;
use wb_office::Outcome;
use wb_states::{Command, Part, command};

/// The list of an architecture, and the bytes of it.
#[derive(Drop)]
struct Packages {
    arch: String,
    bytes: Vec<u8>,
}

/// The lists of a merge.
#[derive(Drop)]
struct Lists {
    sources: Vec<u8>,
    parts: Vec<Packages>,
}

/// How readers give the lists.
#[derive(Clone, Copy)]
struct Pieces {
    /// How many bytes a read gives at most.
    step: usize,
    /// The place of the list of which a read fails; Sources is at 0.
    place: usize,
    /// After how many reads it fails.
    reads: usize,
}

impl Pieces {
    /// A reader of the list at this place.
    fn reader<'a>(
        self,
        alloc: Global,
        place: usize,
        bytes: &'a [u8],
    ) -> Result<BufReader<CutReader<'a>>> {
        let calls = if place == self.place {
            self.reads
        } else {
            usize::MAX
        };
        let cut = Cut {
            step: self.step,
            calls,
            failure: Failure::Interrupted,
        };
        Ok(BufReader::new(alloc, CutReader::new(bytes, cut))?)
    }
}

/// Makes each trial of the input.
pub(crate) fn make_all<F: FileHandle + AllocGlobal, R: BufRead + Drop, W: Write>(
    rt: &F,
    alloc: Global,
    input: &mut R,
    output: &mut W,
) -> Result<()> {
    for _ in 0..u64::MAX {
        let mut line = String::new(alloc);
        if input.read_line(&mut line)? == 0 {
            break;
        }
        make(rt, alloc, &line, output)?;
        writeln!(output, "end")?;
        output.flush()?;
    }
    Ok(())
}

/// Makes the trial of a line.
fn make<F: FileHandle + AllocGlobal, W: Write>(
    rt: &F,
    alloc: Global,
    line: &str,
    output: &mut W,
) -> Result<()> {
    let mut words = line.split_whitespace();
    let how = words.next().context("a trial is whole or in pieces")?;
    let lines = words.next().context("a trial has no lines")?;
    let mut office = TrialOffice::empty(alloc)?;
    let mut answers: Vec<u8> = Vec::new(alloc);
    answer(rt, alloc, &mut office, &fs::read(rt, lines)?, &mut answers);
    let answered = match how {
        "whole" => merge_whole(&mut office, lists_of(rt, alloc, &mut words)?, alloc)?,
        "pieces" => {
            let pieces = pieces_of(&mut words)?;
            let lists = lists_of(rt, alloc, &mut words)?;
            merge_pieces(alloc, &mut office, &lists, pieces)?
        }
        _ => bail!("a trial is whole or in pieces"),
    };
    show_outcome(alloc, "merge", &answered, output)?;
    show_rows(alloc, &office.leave(alloc)?, output)
}

/// The merge as a command.
fn merge_whole(office: &mut TrialOffice, lists: Lists, alloc: Global) -> Result<Outcome> {
    let Lists { sources, parts } = lists;
    let mut given = Items::new(alloc);
    for part in parts {
        let Packages { arch, bytes } = part;
        given.push(Part {
            arch: Text::from(arch),
            packages: Items::from(bytes),
        })?;
    }
    Ok(office.apply(&Command::Merge(command::Merge {
        sources: Items::from(sources),
        parts: given,
    })))
}

/// The merge as readers give it.
fn merge_pieces(
    alloc: Global,
    office: &mut TrialOffice,
    lists: &Lists,
    pieces: Pieces,
) -> Result<Outcome> {
    let mut parts = Vec::new(alloc);
    let mut place: usize = 0;
    for part in &lists.parts {
        place = place.saturating_add(1);
        parts.push(ArchList {
            arch: Text::copied(alloc, part.arch.as_str())?,
            packages: pieces.reader(alloc, place, &part.bytes)?,
        })?;
    }
    let sources = pieces.reader(alloc, 0, &lists.sources)?;
    Ok(office.merge_from(sources, parts))
}

/// How readers give the lists, by the next words.
fn pieces_of(words: &mut SplitWhitespace<'_>) -> Result<Pieces> {
    Ok(Pieces {
        step: number_of(words.next())?,
        place: number_of(words.next())?,
        reads: number_of(words.next())?,
    })
}

/// The number that a word says.
fn number_of(word: Option<&str>) -> Result<usize> {
    word.context("pieces have three numbers")?
        .parse::<usize>()
        .context("a number is not decimal")
}

/// The lists of the files that the next words name.
fn lists_of<F: FileHandle + AllocGlobal>(
    rt: &F,
    alloc: Global,
    words: &mut SplitWhitespace<'_>,
) -> Result<Lists> {
    let sources = fs::read(rt, words.next().context("a merge has no Sources list")?)?;
    let mut parts = Vec::new(alloc);
    for word in words {
        let Some((arch, name)) = word.split_once('=') else {
            bail!("a part is ARCH=PACKAGES");
        };
        parts.push(Packages {
            arch: String::from_str(alloc, arch)?,
            bytes: fs::read(rt, name)?,
        })?;
    }
    Ok(Lists { sources, parts })
}
