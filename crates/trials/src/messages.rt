//! Prints what each fault and each refusal says for a person to read, with a line for each value: its type, its name with what it carries,
//! and its message, with tabs between them. What a fault carries changes from value to value if the message depends on it.

mod below;
mod refusals;

use anyhow::Result;
use std::alloc::Global;
use std::fmt::{Debug, Display};
use std::io::Write;

/// Writes the lines of all types.
pub(crate) fn show_all<W: Write>(alloc: Global, output: &mut W) -> Result<()> {
    below::show_versions(output)?;
    below::show_control(output)?;
    below::show_relations(output)?;
    below::show_words(output)?;
    below::show_reports(output)?;
    below::show_commits(output)?;
    below::show_requests(output)?;
    below::show_keys(output)?;
    refusals::show_lists(output)?;
    refusals::show_stores(output)?;
    refusals::show_plain(output)?;
    refusals::show_carrying(alloc, output)?;
    output.flush()?;
    Ok(())
}

/// Writes the lines of these values of one type.
fn show<T: Debug + Display, W: Write>(kind: &str, values: &[T], output: &mut W) -> Result<()> {
    for value in values {
        writeln!(output, "{kind}\t{value:?}\t{value}")?;
    }
    Ok(())
}
