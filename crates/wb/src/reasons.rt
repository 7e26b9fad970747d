//! Which word of a command or a query is refused for its form, and what it has to be.

use deb_text::Text;
use std::fmt;
use wb_archive::ArchList;
use wb_states::command::{AddArch, Enter, Take};
use wb_states::{
    BUILD_PRIORITY_LIMIT, Command, NOTE_LIMIT, Query, REBUILD_LIMIT, Refusal, State, is_arch,
    is_builder, is_label, is_os_cpu, is_source,
};

/// What the name of an architecture has to be, as `is_arch` tests it.
const ARCH_FORM: &str =
    "1 to 40 lower-case letters, digits and -, the first no -, and not all, any or source";

/// What the word of an operating system or a processor has to be, as `is_os_cpu` tests it.
const OS_CPU_FORM: &str = "1 to 20 lower-case letters and digits, and not any";

/// What the name of a source package has to be, as `is_source` tests it.
const SOURCE_FORM: &str =
    "2 to 200 lower-case letters, digits, +, - and ., the first a letter or a digit";

/// What the name of a builder has to be, as `is_builder` tests it.
const BUILDER_FORM: &str = "1 to 64 letters, digits, ., _ and -, the first a letter or a digit";

/// What a priority or a section has to be, as `is_label` tests it.
const LABEL_FORM: &str = "1 to 64 characters from ! to ~";

/// What the name of a state has to be, as `State::of_name` tests it.
const STATE_FORM: &str =
    "Needs-Build, Building, Built, Uploaded, Installed, Dep-Wait, BD-Uninstallable, Failed, Not-For-Us or Build-Attempted";

/// Why a word of a command or a query is refused. An argument has the name that help has for it.
#[derive(Clone, Copy)]
pub(crate) enum Reason<'a> {
    /// A word is not of the form that its argument has.
    Malformed {
        argument: &'static str,
        word: &'a str,
        form: &'static str,
    },
    /// A word cannot be read, for the fault that the refusal names.
    Unread {
        argument: &'static str,
        word: &'a str,
        refusal: &'a Refusal,
    },
    /// Relations cannot be read, for the fault that the refusal names, or nothing is left of them.
    Relations {
        refusal: &'a Refusal,
    },
    /// No rebuild has this number, or the record has one that is as high.
    Number {
        number: u64,
    },
    /// No build priority has this value.
    Priority {
        value: i64,
    },
    /// A note, a reason or a message has too many bytes.
    TooLong {
        argument: &'static str,
        len: usize,
    },
}

impl<'a> fmt::Display for Reason<'a> {
    fn fmt<W: fmt::Write>(&self, f: &mut fmt::Formatter<W>) -> fmt::Result {
        match self {
            Reason::Malformed {
                argument,
                word,
                form,
            } => write!(f, "{argument} is {word:?}, and has to be {form}"),
            Reason::Unread {
                argument,
                word,
                refusal,
            } => write!(f, "{argument} is {word:?}: {refusal}"),
            Reason::Relations { refusal } => write!(f, "RELATIONS: {refusal}"),
            Reason::Number { number } => write!(
                f,
                "NUMBER is {number}, and has to be from 1 to {REBUILD_LIMIT}, and above that of the last rebuild"
            ),
            Reason::Priority { value } => write!(
                f,
                "VALUE is {value}, and has to be from -{BUILD_PRIORITY_LIMIT} to {BUILD_PRIORITY_LIMIT}"
            ),
            Reason::TooLong { argument, len } => {
                write!(f, "{argument} has {len} bytes, and may have {NOTE_LIMIT}")
            }
        }
    }
}

/// Why the command is refused so, if that is for the form of a word.
pub(crate) fn reason_of<'a>(command: &'a Command, refusal: &'a Refusal) -> Option<Reason<'a>> {
    match refusal {
        Refusal::BadName => bad_name_in(command),
        Refusal::BadVersion { .. } => Some(Reason::Unread {
            argument: "VERSION",
            word: version_of(command)?.as_str(),
            refusal,
        }),
        Refusal::BadRelations { .. } => Some(Reason::Relations { refusal }),
        Refusal::BadNumber => bad_number_in(command),
        Refusal::TextTooLong => long_text_in(command),
        _ => None,
    }
}

/// Why the query is refused so, if that is for the form of a word.
pub(crate) fn reason_of_query<'a>(query: &'a Query, refusal: &Refusal) -> Option<Reason<'a>> {
    match refusal {
        Refusal::BadName => bad_name_in_query(query),
        _ => None,
    }
}

/// Why a merge of these lists is refused, if that is for the name of an architecture.
pub(crate) fn reason_of_merge<R: Drop>(parts: &[ArchList<R>]) -> Option<Reason<'_>> {
    for part in parts {
        if !is_arch(part.arch.as_str()) {
            return bad_arch("ARCH", &part.arch);
        }
    }
    None
}

/// The reason that the word is malformed, unless it has its form.
fn unless<'a>(
    is_formed: bool,
    argument: &'static str,
    word: &'a Text,
    form: &'static str,
) -> Option<Reason<'a>> {
    if is_formed {
        return None;
    }
    Some(Reason::Malformed {
        argument,
        word: word.as_str(),
        form,
    })
}

fn bad_arch<'a>(argument: &'static str, word: &'a Text) -> Option<Reason<'a>> {
    unless(is_arch(word.as_str()), argument, word, ARCH_FORM)
}

fn bad_os_cpu<'a>(argument: &'static str, word: &'a Text) -> Option<Reason<'a>> {
    unless(is_os_cpu(word.as_str()), argument, word, OS_CPU_FORM)
}

fn bad_source(word: &Text) -> Option<Reason<'_>> {
    unless(is_source(word.as_str()), "SOURCE", word, SOURCE_FORM)
}

fn bad_builder<'a>(argument: &'static str, word: &'a Text) -> Option<Reason<'a>> {
    unless(is_builder(word.as_str()), argument, word, BUILDER_FORM)
}

fn bad_label<'a>(argument: &'static str, word: &'a Text) -> Option<Reason<'a>> {
    unless(is_label(word.as_str()), argument, word, LABEL_FORM)
}

fn bad_state(word: &Text) -> Option<Reason<'_>> {
    let is_formed = State::of_name(word.as_str()).is_some();
    unless(is_formed, "STATE", word, STATE_FORM)
}

fn bad_key<'a>(arch: &'a Text, source: &'a Text) -> Option<Reason<'a>> {
    bad_arch("ARCH", arch).or(bad_source(source))
}

fn bad_added_arch(adds: &AddArch) -> Option<Reason<'_>> {
    bad_arch("NAME", &adds.name)
        .or(bad_os_cpu("OS", &adds.os))
        .or(bad_os_cpu("CPU", &adds.cpu))
}

fn bad_builder_of_arch<'a>(name: &'a Text, arch: &'a Text) -> Option<Reason<'a>> {
    bad_builder("NAME", name).or(bad_arch("ARCH", arch))
}

fn bad_entry(enter: &Enter) -> Option<Reason<'_>> {
    bad_key(&enter.arch, &enter.source)
        .or(bad_label("PRIORITY", &enter.priority))
        .or(bad_label("SECTION", &enter.section))
}

fn bad_take(take: &Take) -> Option<Reason<'_>> {
    bad_arch("ARCH", &take.arch)
        .or(bad_builder("BUILDER", &take.builder))
        .or(bad_source(&take.source))
}

/// The first name of the command that is malformed.
fn bad_name_in(command: &Command) -> Option<Reason<'_>> {
    match command {
        Command::AddArch(adds) => bad_added_arch(adds),
        Command::AddBuilder(adds) => bad_builder_of_arch(&adds.name, &adds.arch),
        Command::RemoveArch(removes) => bad_arch("NAME", &removes.name),
        Command::RemoveBuilder(removes) => bad_builder_of_arch(&removes.name, &removes.arch),
        Command::Enter(enter) => bad_entry(enter),
        Command::Next(next) => {
            bad_arch("ARCH", &next.arch).or(bad_builder("BUILDER", &next.builder))
        }
        Command::Take(take) => bad_take(take),
        Command::GiveBack(back) => bad_key(&back.arch, &back.source),
        Command::DepWait(waits) => bad_key(&waits.arch, &waits.source),
        Command::Fail(aside) | Command::NotForUs(aside) => bad_key(&aside.arch, &aside.source),
        Command::Rebuild(rebuild) => bad_key(&rebuild.arch, &rebuild.source),
        Command::BuildPriority(priority) => bad_key(&priority.arch, &priority.source),
        Command::Forget(forget) => bad_key(&forget.arch, &forget.source),
        Command::Report(report) => bad_arch("ARCH", &report.arch),
        Command::Built(_)
        | Command::Uploaded(_)
        | Command::PutBack(_)
        | Command::Waits(_)
        | Command::Attempted(_)
        | Command::Merge(_) => None,
    }
}

/// The first name of the query that is malformed.
fn bad_name_in_query(query: &Query) -> Option<Reason<'_>> {
    match query {
        Query::Queue { arch } | Query::Summary { arch } => bad_arch("ARCH", arch),
        Query::ByState { arch, state } => bad_arch("ARCH", arch).or(bad_state(state)),
        Query::Item { arch, source } | Query::Depends { arch, source } => bad_key(arch, source),
        Query::Mine { builder } => bad_builder("BUILDER", builder),
        Query::Office | Query::Archs | Query::Builders => None,
    }
}

/// The version that the command names.
fn version_of(command: &Command) -> Option<&Text> {
    match command {
        Command::Enter(enter) => Some(&enter.version),
        Command::Take(take) => Some(&take.version),
        Command::GiveBack(back) => Some(&back.version),
        Command::DepWait(waits) => Some(&waits.version),
        Command::Fail(aside) | Command::NotForUs(aside) => Some(&aside.version),
        Command::Rebuild(rebuild) => Some(&rebuild.version),
        Command::BuildPriority(priority) => Some(&priority.version),
        Command::Forget(forget) => Some(&forget.version),
        _ => None,
    }
}

/// The number of the command that is refused.
fn bad_number_in(command: &Command) -> Option<Reason<'_>> {
    match command {
        Command::Rebuild(rebuild) => Some(Reason::Number {
            number: rebuild.number,
        }),
        Command::BuildPriority(priority) => Some(Reason::Priority {
            value: priority.value,
        }),
        _ => None,
    }
}

/// The note, the reason or the message of the command, which is too long.
fn long_text_in(command: &Command) -> Option<Reason<'_>> {
    let (argument, text) = match command {
        Command::Attempted(attempted) => ("REASON", &attempted.reason),
        Command::Fail(aside) | Command::NotForUs(aside) => ("NOTE", &aside.note),
        Command::Rebuild(rebuild) => ("MESSAGE", &rebuild.message),
        _ => return None,
    };
    Some(Reason::TooLong {
        argument,
        len: text.as_str().len(),
    })
}

/// The name of the subcommand that asks the query.
pub(crate) fn name_of_query(query: &Query) -> &'static str {
    match query {
        Query::Queue { .. } => "queue",
        Query::Summary { .. } => "summary",
        Query::ByState { .. } => "by-state",
        Query::Item { .. } => "item",
        Query::Depends { .. } => "depends",
        Query::Mine { .. } => "mine",
        Query::Office => "office",
        Query::Archs => "archs",
        Query::Builders => "builders",
    }
}
