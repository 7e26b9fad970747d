//! One life of an office over files that stop, with commands that are given at once.

use crate::answers::show_outcomes;
use crate::commands::commands_of;
use crate::images::Stopping;
use crate::office::SEED;
use crate::refusing::{begin, stop};
use anyhow::{Result, bail};
use deb_text::Items;
use sqlite::{Files, Options};
use sqlite_disk::Disk;
use std::alloc::Global;
use std::io::Write;
use std::rt::Files as FileHandle;
use wb_office::{SessionEnd, session};
use wb_states::Command;

/// Has an office live once with the commands of a file of lines, and writes what they were answered, or the fault of the
/// opening. Answers with the files, if they were given back.
pub(crate) fn run<F: FileHandle + AllocGlobal, W: Write>(
    rt: &F,
    alloc: Global,
    files: Files<Stopping>,
    name: &str,
    output: &mut W,
) -> Result<Option<Files<Stopping>>> {
    let commands = commands_of(rt, alloc, name)?;
    live(alloc, files, &commands, output)
}

/// Has an office live once with these commands.
fn live<W: Write>(
    alloc: Global,
    files: Files<Stopping>,
    commands: &Items<Command>,
    output: &mut W,
) -> Result<Option<Files<Stopping>>> {
    if !files.log.may_be_used() || !files.db.may_be_used() {
        bail!("a file cannot be used");
    }
    begin(alloc);
    let lived = session(alloc, files, Options::new(SEED), commands.as_slice());
    stop(alloc);
    match lived {
        Ok(SessionEnd { outcomes, files }) => {
            show_outcomes(alloc, commands.as_slice(), outcomes.as_slice(), output)?;
            Ok(files)
        }
        Err(fault) => {
            writeln!(output, "fault {}", fault.name())?;
            Ok(None)
        }
    }
}
