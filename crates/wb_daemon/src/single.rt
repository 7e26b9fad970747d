//! A single command, already cut into words, which is answered with one line of JSON.
ghost use Rattle.std.specs.Prelude.{◌≡◌, ◌⊎◌, ◌<◌, ◌≤◌, map, IfErr, IfOk};
ghost use Rattle.wb_step.specs.Offices.{IsSoOfEach, Leads, Open, Reaches};
ghost use Rattle.wb_streams.specs.Streams.{Flags};
ghost use Rattle.wb_daemon.specs.Single.{AnswersWords, LeavesStep, StopsAtWords, asked_in};
ghost use Rattle.wb_daemon.specs.Turn.{Answers, StopsAt, fails_to_write};

use crate::lists::RunLists;
use crate::message::{Cause, Message};
use crate::read::{invocation_of_words, report_words};
use crate::run::answer_words;
use crate::status::STOPPED;
use std::alloc::Global;
use std::io::Write;
use wb_archive::MergeFrom;
use wb_streams::WatchedWriter;

/// Reads the words of a single command, acts on what they ask for, and writes what is said to it. Answers its status. The
/// errors are those of `answer_words`.
fn answer_single<O: MergeFrom, W: Write + Drop, L: RunLists>(
    alloc: Global,
    office: &mut O,
    words: &[&str],
    writer: &mut WatchedWriter<W>,
    lists: &mut L,
) -> Result<u8, Cause>
    ensures status { IfOk result (λ status. status ≤ 3) }
    ensures value { IfOk result (λ status. Reaches O.is_clean O.stands_at office.old office.new (λ before after.
        Answers (L.may_read lists.old) (asked_in (map (λ word. word.now) words.now)) before after
        writer.old.bytes writer.new.bytes status)) }
    ensures err { IfErr result (λ cause. Leads O.is_clean O.is_closed O.stands_at O.leaves office.old office.new
        (λ before after standing. StopsAt (L.may_read lists.old) (asked_in (map (λ word. word.now) words.now))
        before after standing writer.old.bytes writer.new.bytes cause)) }
    ensures failed { Flags (fails_to_write result) writer.old writer.new }
    ensures clean { O.is_clean office.new → O.is_clean office.old }
{
    let read = invocation_of_words(alloc, words);
    report_words(alloc, lists, words, &read);
    answer_words(alloc, office, &read, writer, lists)
}

/// Acts on a single command, already cut into words, and answers it with one line of JSON, as the only line of a run.
/// Answers its status.
///
/// Each word is taken as it is, also one that is empty or has spaces. No words, and words that have more than 65536 bytes
/// with a space between each two, are a line fault, as are words that ask for nothing that there is. The lists of a merge and
/// a report are opened and read as those of a line. The statuses are those
/// of a line: 0 accepted, or a query was answered, 1 refused, 2 a line fault, 3 a file fault. Status 3 says as well that
/// a write failed or took no byte, also an interrupted one, and the output ends within the answer; or there was no memory
/// for the reply to an accepted command, and nothing of it was written; or the store failed or the office is closed, and
/// the answer says so. The command stands then; one at which the store failed is left by a crash whole or not at all
/// (this project's own).
pub fn run_words<O: MergeFrom, W: Write + Drop, L: RunLists>(
    alloc: Global,
    office: &mut O,
    words: &[&str],
    writer: &mut WatchedWriter<W>,
    lists: &mut L,
) -> u8
    ensures status { result ≤ 3 }
    ensures value { result < 3 → Reaches O.is_clean O.stands_at office.old office.new (λ before after.
        AnswersWords (L.may_read lists.old) (map (λ word. word.now) words.now) writer.old writer.new before after result) }
    ensures err { result ≡ 3 → Leads O.is_clean O.is_closed O.stands_at O.leaves office.old office.new
        (λ before after standing.
        (AnswersWords (L.may_read lists.old) (map (λ word. word.now) words.now) writer.old writer.new before after 3
        × (standing ≡ Open))
        ⊎ StopsAtWords (L.may_read lists.old) (map (λ word. word.now) words.now) writer.old writer.new before after standing) }
    ensures replay { Leads O.is_clean O.is_closed O.stands_at O.leaves office.old office.new (λ before after standing.
        IsSoOfEach (LeavesStep (L.may_read lists.old) (map (λ word. word.now) words.now) before) after standing) }
    ensures clean { O.is_clean office.new → O.is_clean office.old }
{
    match answer_single(alloc, office, words, writer, lists) {
        Ok(status) => status,
        Err(cause) => {
            lists.report(Message::Stopped { cause });
            STOPPED
        }
    }
}
