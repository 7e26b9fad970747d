//! The program `wb`: the central office of an autobuilder network.
#![tactic(auto)]

mod asked;
mod compression;
mod explained;
mod files;
mod first_page;
mod folder;
mod help;
mod journal;
mod keys;
mod leftovers;
mod lists;
mod lock;
mod memory;
mod names;
mod progress;
mod reasons;
mod renewed;
mod serve;
mod starting;
mod store;

use explained::Explained;
use journal::FileJournal;
use lists::FileLists;
use mio::net::TcpListener;
use sqlite::Alter;
use std::alloc::Global;
use std::env;
use std::io::{self, BufReader};
use std::process::ExitCode;
use std::rt::Env;
use wb_api::line_fault_json;
use wb_archive::MergeFrom;
use wb_daemon::{Cause, Message, run_lines, run_words, status};
use wb_journal::Journaled;
use wb_office::Office;
use wb_streams::{WatchedReader, WatchedWriter};
use wb_words::{Start, start_of};

/// The program and the kit that it is proved with, for `wb --version`.
const VERSION: &str = "wb 0.1.0, proved with rattle-kit-13f logic dac8208d650f15bf";

/// Prints a message on standard error; one that cannot be printed is dropped.
fn say(rt: &impl Eprint, message: Message<'_>) {
    let _ = eprintln!(rt; "wb: {message}");
}

/// Answers the lines of the input, a single command or the requests on a port, or says how the
/// program is used or which it is.
///
/// Ends with 0 if all was accepted or a query was answered, if all connections were served, or if
/// help or the version was asked for, with 1 after a refusal, with 2 if a line or the program's own
/// words are no command, and with 3 if a file cannot be read, if the store cannot be opened or
/// failed, if the port cannot be taken, or if reading, writing or memory failed before the end of
/// the input.
fn main(rt: HostRuntime) -> ExitCode {
    let status = match words_of(&rt) {
        Some(words) => start(&rt, &words),
        None => answer_no_command(&rt),
    };
    ExitCode::from(status)
}

/// The words after the program's name, or none if there is no memory for them.
fn words_of(rt: &(impl Env + AllocGlobal)) -> Option<Vec<String>> {
    env::args(rt).ok()?.skip(1).collect(rt.alloc()).ok()
}

/// Does what the program's words ask for.
fn start(rt: &HostRuntime, arguments: &[String]) -> u8 {
    let Some(words) = texts_of(rt.alloc(), arguments) else {
        return answer_no_command(rt);
    };
    start_with(rt, &words)
}

/// Does what these words ask for.
fn start_with(rt: &HostRuntime, words: &[&str]) -> u8 {
    if let ["--version"] = words {
        return said(rt.println(VERSION), status::ACCEPTED);
    }
    match start_of(rt.alloc(), words) {
        Ok(Start::Run { store, journal }) => open_for(rt, store, Work::Run { journal }),
        Ok(
            Start::Serve {
                store,
                port,
                requests,
                journal,
                lists,
                keys,
            },
        ) => match serve::listen(rt, port) {
            Some(listener) if serve::has_good_keys(rt, keys) => {
                let options = ServeOptions {
                    listener: &listener,
                    requests,
                    lists,
                    keys,
                };
                open_for(rt, store, Work::Serve { options, journal })
            }
            _ => status::STOPPED,
        },
        Ok(Start::Ask { store, words }) => open_for(rt, store, Work::Ask { words }),
        Ok(Start::CarryOut { store, words }) => open_for(rt, store, Work::CarryOut { words }),
        Ok(Start::Help) => said(help::print_help(rt, words), status::ACCEPTED),
        Err(error) => {
            let _ = rt.eprintln(error);
            help::report_late_store(rt, words);
            answer_no_command(rt)
        }
    }
}

/// What an office is opened for. A port is taken and keys are read before that, so that no file is
/// made if the port cannot be taken, or the keys cannot be read.
#[derive(Clone, Copy)]
pub(crate) enum Work<'a> {
    /// To answer the lines of standard input, with a journal in this file if one is named.
    Run {
        journal: Option<&'a str>,
    },
    /// To answer requests, with a journal in this file if one is named.
    Serve {
        options: ServeOptions<'a>,
        journal: Option<&'a str>,
    },
    /// To answer the query of these words, which leaves the office as it is.
    Ask {
        words: &'a [&'a str],
    },
    /// To carry out the command of these words.
    CarryOut {
        words: &'a [&'a str],
    },
}

/// Where requests come in, and how many connections are served; without a number, all until the
/// program is ended. And the folder of the lists that a request may merge, if there is one, and the
/// file of the keys, without which everybody may ask for everything.
#[derive(Clone, Copy)]
pub(crate) struct ServeOptions<'a> {
    listener: &'a TcpListener,
    requests: Option<u32>,
    lists: Option<&'a str>,
    keys: Option<&'a str>,
}

/// Has an office do its work, over the tables in the file if one is named, and otherwise over
/// tables in memory.
fn open_for(rt: &HostRuntime, store: Option<&str>, work: Work<'_>) -> u8 {
    match store {
        Some(file) => store::open_for(rt, file, work),
        None => memory::open_for(rt, work),
    }
}

/// Has the office do this work.
pub(crate) fn act<S: Alter + Drop>(rt: &HostRuntime, office: &mut Office<S>, work: Work<'_>) -> u8 {
    match work {
        Work::Ask { words } | Work::CarryOut { words } => answer(rt, office, words),
        Work::Run { journal: None } => run(rt, office),
        Work::Run {
            journal: Some(file),
        } => run(rt, &mut journaled(rt, office, file)),
        Work::Serve {
            options,
            journal: None,
        } => serve::serve(rt, office, options),
        Work::Serve {
            options,
            journal: Some(file),
        } => serve::serve(rt, &mut journaled(rt, office, file), options),
    }
}

/// The office with its journal in this file, which has what merges and reports change.
fn journaled<'a, S: Alter + Drop>(
    rt: &'a HostRuntime,
    office: &'a mut Office<S>,
    file: &'a str,
) -> Journaled<'a, Office<S>, FileJournal<'a>> {
    office.note_changes();
    Journaled::new(office, FileJournal::new(rt, file))
}

/// Says that the program's words are no command.
fn answer_no_command(rt: &impl Print) -> u8 {
    said(rt.println(line_fault_json()), status::LINE_FAULT)
}

/// The words as texts.
fn texts_of<'a>(alloc: Global, arguments: &'a [String]) -> Option<Vec<&'a str>> {
    let mut words = Vec::new(alloc);
    for argument in arguments {
        words.push(argument.as_str()).ok()?;
    }
    Some(words)
}

/// Answers the lines of standard input on standard output.
fn run<O: MergeFrom>(rt: &HostRuntime, office: &mut O) -> u8 {
    let Ok(buffered) = BufReader::new(rt.alloc(), rt.reader()) else {
        say(rt, Message::Stopped { cause: Cause::Room });
        return status::STOPPED;
    };
    let mut reader = WatchedReader::new(buffered);
    let mut writer = WatchedWriter::new(io::writer(rt));
    let mut lists = FileLists::new(rt);
    let mut explained = Explained::new(rt, office);
    run_lines(
        rt.alloc(),
        &mut explained,
        &mut reader,
        &mut writer,
        &mut lists,
    )
}

/// Answers a single command on standard output.
pub(crate) fn answer<O: MergeFrom>(rt: &HostRuntime, office: &mut O, words: &[&str]) -> u8 {
    let mut writer = WatchedWriter::new(io::writer(rt));
    let mut lists = FileLists::new(rt);
    let mut explained = Explained::new(rt, office);
    run_words(rt.alloc(), &mut explained, words, &mut writer, &mut lists)
}

/// The status after something was printed, or that of a failed write.
fn said(printed: io::Result<()>, status: u8) -> u8 {
    if printed.is_ok() {
        status
    } else {
        status::STOPPED
    }
}
