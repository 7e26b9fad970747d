//! Relations, on rows of cases.

use crate::outcome::Outcome;
use crate::rows::{cell, unescaped, without_first, without_last};
use deb_relations::{ArchWords, RelationFault, Relations};
use std::alloc::{AllocError, Global};

/// The words of the operating system and of the processor that an architecture's name stands for.
fn words(name: &str) -> (&str, &str) {
    match name.split_once('-') {
        Some(words) => words,
        None if name == "armhf" => ("linux", "arm"),
        None => ("linux", name),
    }
}

/// The architectures that the first line of a file names after its first two cells, up to the
/// source.
fn architectures(alloc: Global, header: &str) -> Result<Vec<ArchWords>, AllocError> {
    let mut architectures = Vec::new(alloc);
    for name in header.split('\t').skip(2) {
        if name != "source" {
            let name = name.strip_prefix("reduced for ").unwrap_or(name);
            let (os, cpu) = words(name);
            architectures.push(ArchWords::new(alloc, name, os, cpu)?)?;
        }
    }
    Ok(architectures)
}

/// The printed form of relations and then, after a tab each, of what is left of them for each
/// architecture.
fn forms(
    alloc: Global,
    architectures: &[ArchWords],
    relations: &Relations,
) -> Result<String, AllocError> {
    let mut forms = relations.print(alloc)?;
    for architecture in architectures {
        let reduced = relations.reduce(alloc, architecture)?;
        forms.push('\t')?;
        forms.push_str(reduced.print(alloc)?.as_str())?;
    }
    Ok(forms)
}

/// A fault after an exclamation mark, and then a tab for each architecture.
fn refusal(
    alloc: Global,
    architectures: &[ArchWords],
    fault: RelationFault,
) -> Result<String, AllocError> {
    let mut refusal = format!(in alloc; "!{fault:?}")?;
    for _ in architectures {
        refusal.push('\t')?;
    }
    Ok(refusal)
}

/// What comes of the relations that a cell stands for.
fn found_of(alloc: Global, architectures: &[ArchWords], cell: &str) -> Result<String, AllocError> {
    let text = unescaped(alloc, cell)?;
    match Relations::parse(alloc, text.as_str()) {
        Ok(relations) => forms(alloc, architectures, &relations),
        Err(fault) => refusal(alloc, architectures, fault),
    }
}

/// Tries each row of a file after its first line.
pub(crate) fn tried(alloc: Global, text: &str) -> Result<Outcome, AllocError> {
    let header = text.lines().next().unwrap_or("");
    let has_source = header.ends_with("\tsource");
    let architectures = architectures(alloc, header)?;
    let mut outcome = Outcome::new(alloc);
    for (line, row) in (1..u64::MAX).zip(text.lines()).skip(1) {
        let found = found_of(alloc, &architectures, cell(row, 0))?;
        let row = if has_source { without_last(row) } else { row };
        outcome.add(alloc, line, without_first(row), found.as_str())?;
    }
    Ok(outcome)
}
