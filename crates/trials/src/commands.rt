//! The commands that lines ask for.

use anyhow::{Result, bail};
use deb_text::Items;
use std::alloc::Global;
use std::rt::Files;
use std::{fs, str};
use wb_states::Command;
use wb_words::{Invocation, invocation_of};

/// The commands that the lines of a file ask for, none of which is a merge or a report.
pub(crate) fn commands_of<F: Files + AllocGlobal>(
    rt: &F,
    alloc: Global,
    name: &str,
) -> Result<Items<Command>> {
    let bytes = fs::read(rt, name)?;
    let mut commands = Items::new(alloc);
    for line in str::from_utf8(&bytes)?.lines() {
        commands.push(command_of(alloc, line)?)?;
    }
    Ok(commands)
}

/// The command that a line asks for.
fn command_of(alloc: Global, line: &str) -> Result<Command> {
    let mut words = Vec::new(alloc);
    for word in line.split_whitespace() {
        words.push(word)?;
    }
    match invocation_of(alloc, &words) {
        Ok(Invocation::Command { command }) => Ok(command),
        _ => bail!("a line asks for no command that names no file"),
    }
}
