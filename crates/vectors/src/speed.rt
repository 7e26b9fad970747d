//! How fast control data is read and versions are compared. Counts go to standard output, and the
//! times to standard error.

mod control;
mod versions;

use anyhow::Result;
use std::fs;
use std::time::Instant;

/// Reads the control data in a file, or parses the versions in one whose name ends in `versions`,
/// one a line, and compares them ten times.
pub(crate) fn measure(rt: &HostRuntime, path: &str) -> Result<()> {
    if path.ends_with("versions") {
        measure_versions(rt, path)
    } else {
        measure_control(rt, path)
    }
}

fn measure_versions(rt: &HostRuntime, path: &str) -> Result<()> {
    let text = fs::read_to_string(rt, path)?;
    let start = Instant::now(rt)?;
    let versions = versions::parsed(rt.alloc(), text.as_str())?;
    let parsing = start.elapsed(rt)?;
    let start = Instant::now(rt)?;
    let found = versions::compared_ten_times(&versions);
    let comparing = start.elapsed(rt)?;
    println!(rt; "{} versions, {found}", versions.len())?;
    eprintln!(rt; "parsed in {parsing:?}, compared ten times in {comparing:?}")?;
    Ok(())
}

fn measure_control(rt: &HostRuntime, path: &str) -> Result<()> {
    let bytes = fs::read(rt, path)?;
    let start = Instant::now(rt)?;
    let (paragraphs, fields) = control::counts(rt.alloc(), &bytes)?;
    let reading = start.elapsed(rt)?;
    let start = Instant::now(rt)?;
    let fed = control::fed_counts(rt.alloc(), &bytes)?;
    let feeding = start.elapsed(rt)?;
    println!(rt; "{paragraphs} paragraphs, {fields} fields")?;
    eprintln!(rt; "read in {reading:?}, by a feed in {feeding:?}")?;
    if fed != (paragraphs, fields) {
        eprintln!(rt; "the feed found {} paragraphs, {} fields", fed.0, fed.1)?;
    }
    Ok(())
}
