//! Whether what packages are and what they provide satisfies relations, on rows of cases.

use crate::outcome::Outcome;
use crate::rows::{cell, unescaped};
use anyhow::Result;
use deb_relations::{Available, Provided, Relations};
use deb_version::Version;
use std::alloc::Global;

/// Adds a package, such as `hello 1.0`, or `hello 1.0 provides greeter (= 2.0)` with the text of
/// its field `Provides`.
fn add_package(alloc: Global, available: &mut Available, package: &str) -> Result<()> {
    let (own, provides) = package.split_once(" provides ").unwrap_or((package, ""));
    let (name, version) = own.split_once(' ').unwrap_or((own, ""));
    available.add(name, Version::parse(alloc, version)?)?;
    for Provided { name, version } in Provided::all(alloc, provides)? {
        available.provide(name.as_str(), version)?;
    }
    Ok(())
}

/// What is available by the packages of a cell, which have semicolons between them.
fn available_of(alloc: Global, packages: &str) -> Result<Available> {
    let mut available = Available::new(alloc);
    if !packages.is_empty() {
        for package in packages.split("; ") {
            add_package(alloc, &mut available, package)?;
        }
    }
    Ok(available)
}

/// Whether the relations of a row are satisfied by its packages.
fn answer_of(alloc: Global, row: &str) -> Result<&'static str> {
    let packages = unescaped(alloc, cell(row, 0))?;
    let text = unescaped(alloc, cell(row, 1))?;
    let available = available_of(alloc, packages.as_str())?;
    let relations = Relations::parse(alloc, text.as_str())?;
    if relations.satisfied(&available) {
        Ok("yes")
    } else {
        Ok("no")
    }
}

/// Tries each row of a file after its first line.
pub(crate) fn tried(alloc: Global, text: &str) -> Result<Outcome> {
    let mut outcome = Outcome::new(alloc);
    for (line, row) in (1..u64::MAX).zip(text.lines()).skip(1) {
        outcome.add(alloc, line, cell(row, 2), answer_of(alloc, row)?)?;
    }
    Ok(outcome)
}
