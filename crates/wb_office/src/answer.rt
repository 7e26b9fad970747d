//! What the office answers to one command over its tables: what the command names is read, the
//! command is carried out on that part of the office in memory, and what it changed is written in
//! one transaction.
ghost use Rattle.std.specs.Prelude.{◌≡◌, None, OnOk};
ghost use Rattle.sqlite.specs.Held.{state};
ghost use Rattle.sqlite.specs.State.{HasCleanDisk};
ghost use Rattle.wb_states.specs.Machine.{IsConsistent, Machine};
ghost use Rattle.wb_merge.specs.Changes.{NotesChanges};
ghost use Rattle.wb_step.specs.Checks.{text_refusal};
ghost use Rattle.wb_step.specs.Locality.{IsSingle};
ghost use Rattle.wb_step.specs.Step.{step};
ghost use Rattle.wb_step.specs.TextChecks.{report_lines};
ghost use Rattle.wb_step.specs.Utf8.{HasUtf8Texts};
ghost use Rattle.wb_store.specs.Settled.{IsSettled};
ghost use Rattle.wb_office.specs.Answers.{AreOf, Answers, IsNamed, KeepsStep, Responds, is_again};
ghost use Rattle.wb_office.specs.Standing.{Knows};

use crate::carry::{CarryError, carry};
use crate::known::{Known, find_archs, learn};
use crate::merging::answer_merge;
use crate::named::{Named, named_part};
use crate::removing::answer_removal;
use crate::reporting::answer_report;
use deb_text::Text;
use sqlite::Alter;
use std::alloc::Global;
use wb_merge::{ArchChanges, ReportLines};
use wb_states::{Command, Counts, OsCpu, Refusal, Reply, StoreFault, Table};
use wb_step::{OfficePart, carry_out};
use wb_store::{Store, unfit};

/// Why a command is not carried out.
#[derive(Drop)]
pub(crate) enum Failure {
    /// The office refuses it.
    Refused(Refusal),
    /// What it names could not be read.
    Unread(StoreFault),
    /// What it changed was not committed.
    Uncommitted(CarryError),
}

/// The answer to a command that is carried out.
#[derive(Drop)]
pub(crate) struct Answered {
    /// What is answered.
    pub(crate) reply: Reply,
    /// The two counts of the office then.
    pub(crate) counts: Counts,
}

/// Carries out a command whose texts are not refused, and of which these lines were read if it is a
/// report, by what is known of the tables, and takes over what is known then. What a merge or a
/// report changes is noted, and nothing of other commands.
pub(crate) fn answer<S: Alter + Drop>(
    alloc: Global,
    store: &mut Store<S>,
    known: &mut Known,
    command: &Command,
    lines: Option<ReportLines>,
    notes: &mut Option<Vec<ArchChanges>>,
) -> Result<Reply, Failure>
    requires texts { text_refusal command.now ≡ None }
    requires lines { lines ≡ report_lines command.now }
    requires utf8 { HasUtf8Texts command.now }
    ensures responds { Responds S.Store command.now known.old store.old known.new store.new result }
    ensures noted { HasCleanDisk (state S.Store store.new) → (machine : Machine) → IsConsistent machine
        → IsSettled machine (state S.Store store.old) → Knows machine known.old
        → OnOk result (NotesChanges notes.old notes.new machine.records (step machine command.now).1.records) }
{
    let archs = match find_archs(alloc, store, known) {
        Ok(archs) => archs,
        Err(fault) => return Err(Failure::Unread(fault)),
    };
    match answer_of(alloc, store, known.counts, archs, command, lines, notes) {
        Ok(Answered { reply, counts }) => {
            learn(known, command, counts);
            Ok(reply)
        }
        Err(failure) => Err(failure),
    }
}

/// Carries out a command whose texts are not refused, and of which these lines were read if it is a
/// report, in an office that has these counts and architectures.
fn answer_of<S: Alter + Drop>(
    alloc: Global,
    store: &mut Store<S>,
    counts: Counts,
    archs: Vec<(Text, OsCpu)>,
    command: &Command,
    lines: Option<ReportLines>,
    notes: &mut Option<Vec<ArchChanges>>,
) -> Result<Answered, Failure>
    requires texts { text_refusal command.now ≡ None }
    requires lines { lines ≡ report_lines command.now }
    requires utf8 { HasUtf8Texts command.now }
    ensures answers { Answers S.Store (AreOf counts archs.items) command.now store.old store.new result }
    ensures noted { HasCleanDisk (state S.Store store.new) → (machine : Machine) → IsConsistent machine
        → IsSettled machine (state S.Store store.old) → AreOf counts archs.items machine
        → OnOk result (NotesChanges notes.old notes.new machine.records (step machine command.now).1.records) }
{
    match command {
        Command::Merge(merge) => answer_merge(alloc, store, counts, &archs, merge, notes),
        Command::Report(report) => {
            answer_report(alloc, store, counts, &archs, report, &lines.unwrap(), notes)
        }
        Command::RemoveArch(removal) => {
            *notes = None;
            answer_removal(store, counts, &archs, removal)
        }
        _ => {
            *notes = None;
            answer_one(alloc, store, counts, archs, command)
        }
    }
}

/// Carries out a command that imports nothing and takes no architecture away.
fn answer_one<S: Alter + Drop>(
    alloc: Global,
    store: &mut Store<S>,
    counts: Counts,
    archs: Vec<(Text, OsCpu)>,
    command: &Command,
) -> Result<Answered, Failure>
    requires single { IsSingle command.now }
    ensures answers { Answers S.Store (AreOf counts archs.items) command.now store.old store.new result }
{
    match named_part(alloc, store, counts, archs, command) {
        Ok(named) => answer_in(alloc, store, command, named),
        Err(fault) => Err(Failure::Unread(fault)),
    }
}

/// Carries out a command in the part of the office that it names, and keeps what it changed.
fn answer_in<S: Alter + Drop>(
    alloc: Global,
    store: &mut Store<S>,
    command: &Command,
    named: Named,
) -> Result<Answered, Failure>
    requires single { IsSingle command.now }
    ensures answers { Answers S.Store (IsNamed command.now named.part named.key) command.now store.old store.new result }
{
    let Named { mut part, key } = named;
    let reply = match carry_out(alloc, &mut part, command) {
        Ok(reply) => reply,
        Err(refusal) => return Err(Failure::Refused(refusal)),
    };
    let counts = part.counts();
    if is_again(&reply) {
        return Ok(Answered { reply, counts });
    }
    match keep(store, command, &key, &part) {
        Ok(()) => Ok(Answered { reply, counts }),
        Err(failure) => Err(failure),
    }
}

/// Whether a reply repeats an assignment, so that nothing is accepted.
fn is_again(reply: &Reply) -> bool
    ensures value { result ≡ is_again reply.now }
{
    matches!(reply, Reply::Again { .. })
}

/// Writes what a command changed in a part of the office to the tables.
fn keep<S: Alter + Drop>(
    store: &mut Store<S>,
    command: &Command,
    key: &Option<(Text, Text)>,
    after: &OfficePart,
) -> Result<(), Failure>
    ensures keeps { KeepsStep S.Store command.now key.now after.now store.old store.new result }
{
    if !store.is_idle() {
        return Err(Failure::Unread(unfit(Table::Office)));
    }
    match carry(store, command, key, after) {
        Ok(()) => Ok(()),
        Err(failure) => Err(Failure::Uncommitted(failure)),
    }
}
