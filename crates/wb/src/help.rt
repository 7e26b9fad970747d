//! How the program, or one of its subcommands, is used.

use std::io;
use wb_words::HELP;

/// How the lines of the usage begin that name `run` and `serve`.
const USAGE: &str = "wb [--store FILE] ";

/// How the lines of an entry begin, but for its first.
const CONTINUED: &str = "          ";

/// Prints how the subcommand is used that the words name, or if they name none how the program is.
pub(crate) fn print_help(rt: &impl Print, words: &[&str]) -> io::Result<()> {
    match named_in(words) {
        Some(name) if has_entry(name) => print_entries(rt, name),
        _ => rt.print(HELP),
    }
}

/// The word that names a subcommand, if it is one: that after `help`, or else the first after the
/// store's.
fn named_in<'a>(words: &[&'a str]) -> Option<&'a str> {
    match words {
        ["help", name, ..] => Some(*name),
        _ => {
            let name = after_store(words).first()?;
            Some(*name)
        }
    }
}

/// The words after the option that names the file which keeps the records.
fn after_store<'a, 'b>(words: &'b [&'a str]) -> &'b [&'a str] {
    match words {
        ["--store", _, rest @ ..] => rest,
        [first, rest @ ..] if names_store(first) => rest,
        _ => words,
    }
}

/// Whether the word is the option of the file which keeps the records, or has that and the file.
fn names_store(word: &str) -> bool {
    word == "--store" || word.starts_with("--store=")
}

/// Says where `--store` comes, if the words have it after the subcommand.
pub(crate) fn report_late_store(rt: &impl Eprint, words: &[&str]) {
    let late = after_store(words)
        .iter()
        .skip(1)
        .any(|word| names_store(word));
    if late {
        let _ = eprintln!(rt; "wb: --store FILE comes before the subcommand: wb --store FILE run");
    }
}

/// Whether help has an entry for a subcommand of this name.
fn has_entry(name: &str) -> bool {
    HELP.lines().any(|line| is_entry_of(line, name))
}

/// Whether the line begins the entry of a subcommand of this name.
fn is_entry_of(line: &str, name: &str) -> bool {
    let Some(entry) = line.strip_prefix("  ") else {
        return false;
    };
    let usage = entry.strip_prefix(USAGE).unwrap_or(entry);
    usage.split(' ').next() == Some(name)
}

/// Whether the line, which begins a paragraph, is about a subcommand of this name.
fn begins_paragraph_of(line: &str, name: &str) -> bool {
    if let Some(about) = line.strip_prefix("`wb ") {
        return about.split('`').next() == Some(name);
    }
    (name == "run" || name == "serve") && line.starts_with("With --journal ")
}

/// Prints what help says of the subcommand of this name: its entries, and the paragraphs about it.
fn print_entries(rt: &impl Print, name: &str) -> io::Result<()> {
    let mut is_shown = false;
    let mut is_first = false;
    for line in HELP.lines() {
        if line.is_empty() {
            is_shown = false;
        } else if !line.starts_with(' ') {
            if is_first {
                is_shown = begins_paragraph_of(line, name);
                if is_shown {
                    rt.println("")?;
                }
            }
        } else if !line.starts_with(CONTINUED) {
            is_shown = is_entry_of(line, name);
        }
        is_first = line.is_empty();
        if is_shown {
            rt.println(line)?;
        }
    }
    Ok(())
}
