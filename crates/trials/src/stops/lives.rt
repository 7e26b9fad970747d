//! The lives of an office over files in memory, one after another, with a power cut after each.

ghost use Rattle.std.specs.Prelude.{◌≤◌, length};

use crate::answers::show_found;
use crate::commands::commands_of;
use crate::images::{Images, Stopping};
use crate::office::SEED;
use crate::refusing::{begin, stop};
use crate::rows::show_rows;
use crate::stops::power::{Calls, Watching};
use crate::stops::stage::number_of;
use anyhow::{Result, bail};
use deb_text::Items;
use sqlite::Options;
use sqlite_disk::Disk;
use std::alloc::Global;
use std::io::Write;
use std::rt::Files as FileHandle;
use wb_office::{LivesEnd, lives};
use wb_states::Command;

/// Has an office live once for each file of lines that is named, over new files, and writes what is found: for each life what its
/// opening found and its commands were answered, for each cut what the power found, and the rows after the last. At the end of
/// each life what was not synced is lost. The first two words say after how many calls the files of the second life stop.
pub(crate) fn show<F: FileHandle + AllocGlobal, W: Write>(
    rt: &F,
    alloc: Global,
    words: &str,
    output: &mut W,
) -> Result<()> {
    let mut words = words.split_whitespace();
    let log = number_of(words.next())?;
    let db = number_of(words.next())?;
    let mut commands = Vec::new(alloc);
    for name in words {
        commands.push(commands_of(rt, alloc, name)?)?;
    }
    show_all(alloc, &commands, Calls { log, db }, output)
}

/// The same, with these commands.
fn show_all<W: Write>(
    alloc: Global,
    commands: &[Items<Command>],
    calls: Calls,
    output: &mut W,
) -> Result<()> {
    let mut power = Watching::new(alloc, commands.len() as u64, calls);
    let Some(LivesEnd { found, files }) = lived(alloc, &mut power, commands, output)? else {
        return Ok(());
    };
    show_found(alloc, commands, found.as_slice(), output)?;
    show_power(&power, output)?;
    match files {
        Some(files) => show_rows(alloc, &Images::of(alloc, &files)?, output),
        None => {
            writeln!(output, "gone")?;
            Ok(())
        }
    }
}

/// What lives with these commands end with, over new files; none and a line with the fault if no life begins.
fn lived<W: Write>(
    alloc: Global,
    power: &mut Watching,
    commands: &[Items<Command>],
    output: &mut W,
) -> Result<Option<LivesEnd<Stopping>>>
    requires cuts { length commands.now ≤ power.old.crashes.left }
{
    let files = Images::none(alloc).files(alloc, u64::MAX, u64::MAX)?;
    if !files.log.may_be_used() || !files.db.may_be_used() {
        bail!("a file cannot be used");
    }
    begin(alloc);
    let end = lives(alloc, files, Options::new(SEED), power, commands);
    stop(alloc);
    match end {
        Ok(end) => Ok(Some(end)),
        Err(fault) => {
            writeln!(output, "fault {}", fault.name())?;
            Ok(None)
        }
    }
}

/// Writes what the power found after each cut, and how many cuts are left.
fn show_power<W: Write>(power: &Watching, output: &mut W) -> Result<()> {
    for found in power.found() {
        match found {
            Some(accepted) => writeln!(output, "cut {accepted}")?,
            None => writeln!(output, "cut none")?,
        }
    }
    writeln!(output, "left {}", power.cuts_left())?;
    Ok(())
}
