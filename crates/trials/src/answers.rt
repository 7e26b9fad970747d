//! What commands and requests are answered, as lines.

use anyhow::Result;
use deb_text::Items;
use std::alloc::Global;
use std::io::Write;
use wb_api::{Served, refusal_json, reply_json};
use wb_office::{Found, Outcome};
use wb_states::Command;

/// Writes what each life found, the count of accepted commands and that of rows, or the fault of its opening; and what its commands were
/// answered.
pub(crate) fn show_found<W: Write>(
    alloc: Global,
    commands: &[Items<Command>],
    found: &[Found],
    output: &mut W,
) -> Result<()> {
    for (life, one) in commands.iter().zip(found) {
        match one {
            Found::Opened {
                accepted,
                rows,
                outcomes,
            } => {
                writeln!(output, "opened {accepted} {}", rows.as_slice().len())?;
                show_outcomes(alloc, life.as_slice(), outcomes.as_slice(), output)?;
            }
            Found::Refused(fault) => writeln!(output, "fault {}", fault.name())?,
        }
    }
    Ok(())
}

/// Writes what the commands of a life were answered.
pub(crate) fn show_outcomes<W: Write>(
    alloc: Global,
    commands: &[Command],
    outcomes: &[Outcome],
    output: &mut W,
) -> Result<()> {
    for (command, outcome) in commands.iter().zip(outcomes) {
        show_outcome(alloc, command.name(), outcome, output)?;
    }
    Ok(())
}

/// Writes what a command of this name was answered.
pub(crate) fn show_outcome<W: Write>(
    alloc: Global,
    name: &str,
    outcome: &Outcome,
    output: &mut W,
) -> Result<()> {
    match outcome {
        Ok(reply) => writeln!(output, "{}", reply_json(alloc, name, reply)?)?,
        Err(refusal) => writeln!(output, "{}", refusal_json(alloc, refusal))?,
    }
    Ok(())
}

/// The word for how an exchange ended, and the status of what was answered; 0 for none.
pub(crate) fn word_of(served: Served) -> (&'static str, u16) {
    match served {
        Served::Nothing => ("nothing", 0),
        Served::ReadFailed => ("read-failed", 0),
        Served::Answered { status } => ("answered", status.as_u16()),
        Served::WriteFailed { status } => ("write-failed", status.as_u16()),
        Served::Mute => ("mute", 0),
    }
}
