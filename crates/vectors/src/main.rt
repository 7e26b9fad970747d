//! Tries versions, relations and the reading of control data on the cases of other programs and
//! this project's own. For each name that it is given a line goes to standard output that says how
//! many cases there are and how many differ, and a line for each that does. Names after the word
//! `--measure` are those of files with which it measures how fast they are read.
#![tactic(auto)]

mod control;
mod feed;
mod outcome;
mod provides;
mod relations;
mod rows;
mod speed;
mod versions;

use anyhow::Result;
use std::{env, fs};

fn main(rt: HostRuntime) -> Result<()> {
    let mut measures = false;
    for name in env::args(&rt)?.skip(1) {
        if name.as_str() == "--measure" {
            measures = true;
        } else if measures {
            speed::measure(&rt, name.as_str())?;
        } else {
            try_cases(&rt, name.as_str())?;
        }
    }
    Ok(())
}

// Cases are rows of data, and not tests: a test is proved like all other code, and a table of cases
// costs the more the longer it is, though nothing is learnt from its proof. Those of requests are
// given to `trials` in the same way.
/// Tries the cases of a name, which picks what is tried: `version_..`, `relations..` and
/// `provides..` are files of rows, and each other is a text of control data, `NAME.txt`, with its
/// answer in `NAME.json`.
fn try_cases(rt: &HostRuntime, name: &str) -> Result<()> {
    let alloc = rt.alloc();
    let outcome = if name.starts_with("version_") {
        let rows = fs::read_to_string(rt, name)?;
        versions::tried(alloc, name, rows.as_str())?
    } else if name.starts_with("relations") {
        let rows = fs::read_to_string(rt, name)?;
        relations::tried(alloc, rows.as_str())?
    } else if name.starts_with("provides") {
        let rows = fs::read_to_string(rt, name)?;
        provides::tried(alloc, rows.as_str())?
    } else {
        let bytes = fs::read(rt, format!(in alloc; "{name}.txt")?.as_str())?;
        let answer = fs::read_to_string(rt, format!(in alloc; "{name}.json")?.as_str())?;
        control::tried(alloc, &bytes, answer.as_str())?
    };
    println!(rt; "{name}: {outcome}")?;
    Ok(())
}
