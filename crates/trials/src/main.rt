//! Trials of the office over memory. A line of standard input says which come after it: `requests` for requests over HTTP, up to a line
//! `end`; `streams` for lines and requests of which a read or a write fails, up to one too;
//! `messages` for what each fault and refusal prints, which need nothing more; `merges` for merges of lists that readers give in pieces,
//! or `stops` for stops within a call of the disk, each up to the end of the input.
#![tactic(auto)]

mod answers;
mod commands;
mod cut;
mod device;
mod frames;
mod images;
mod merges;
mod messages;
mod office;
mod openings;
mod reader;
mod refusing;
mod requests;
mod rows;
mod stops;
mod streams;
mod writer;

use anyhow::{Result, bail};
use std::io::{self, BufRead, BufReader, BufWriter};

// One program for all trials over an office: several would each read the office's contracts anew.
fn main(rt: HostRuntime) -> Result<()> {
    let mut input = BufReader::new(rt.alloc(), rt.reader())?;
    let mut output = BufWriter::new(rt.alloc(), io::writer(&rt))?;
    for _ in 0..u64::MAX {
        let mut line = String::new(rt.alloc());
        if input.read_line(&mut line)? == 0 {
            break;
        }
        match line.trim_end() {
            "requests" => requests::answer_all(rt.alloc(), &mut input, &mut output)?,
            "streams" => streams::answer_all(rt.alloc(), &mut input, &mut output)?,
            "messages" => messages::show_all(rt.alloc(), &mut output)?,
            "merges" => merges::make_all(&rt, rt.alloc(), &mut input, &mut output)?,
            "stops" => stops::make_all(&rt, rt.alloc(), &mut input, &mut output)?,
            other => bail!("no trials are named {other}"),
        }
    }
    Ok(())
}
