//! How far the program is with what takes seconds, for a person at a terminal.

use std::fs;
use std::io::IsTerminal;
use std::rt::Files;

/// How many bytes a file of records has at least whose opening takes some two seconds.
const SLOW_STORE: u64 = 32_000_000;

/// How many bytes a list or a report has at least whose merging takes a good part of a second.
const SLOW_LIST: u64 = 16_000_000;

/// Whether a person may read standard error.
pub(crate) fn is_watched(rt: &HostRuntime) -> bool {
    rt.stderr().is_terminal()
}

/// Says that the file of the records is being opened, if that takes seconds and a person may read
/// it.
pub(crate) fn report_opening(rt: &HostRuntime, file: &str) {
    if is_watched(rt) {
        let _ = report_file(rt, "opening", file, SLOW_STORE);
    }
}

/// Says that the file of the records is of format 1, whose opening takes long, so that nobody takes
/// it for a hang.
pub(crate) fn report_first_format(rt: &impl Eprint, file: &str) {
    let _ = eprintln!(rt;
        "wb: {file} is of format 1: opening it takes seconds for 10,000 records, and minutes for 35,000"
    );
}

/// Says that this list or report is being read, if it is long, and answers how many bytes it has
/// then.
pub(crate) fn size_of_long(rt: &(impl Files + Eprint), name: &str) -> Option<u64> {
    report_file(rt, "reading", name, SLOW_LIST)
}

/// Says what is done with the file of this name, if it has at least so many bytes, and answers how
/// many it has then.
fn report_file(rt: &(impl Files + Eprint), doing: &str, name: &str, least: u64) -> Option<u64> {
    let size = fs::metadata(rt, name).ok()?.len();
    if size < least {
        return None;
    }
    let _ = eprintln!(rt; "wb: {doing} {name}, {} MB", size / 1_000_000);
    Some(size)
}
