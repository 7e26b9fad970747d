//! The run: each line of the input is answered with one line of JSON.
ghost use Rattle.std.specs.Prelude.{◌≡◌, ◌⊎◌, ◌<◌, ◌≤◌, IfOk, IfErr, length, false};
ghost use Rattle.wb_streams.specs.Line.{is_long, line_limit};
ghost use Rattle.wb_lists.specs.Lists.{MayReadLess};
ghost use Rattle.wb_step.specs.Offices.{IsSoOfEach, Leads, Open, Reaches};
ghost use Rattle.wb_daemon.specs.Replays.{LeavesReplay};
ghost use Rattle.wb_daemon.specs.Run.{Asked, FailsFor, RunEndsWell, RunStops, asked_by};
ghost use Rattle.wb_streams.specs.Streams.{Flags};
ghost use Rattle.wb_daemon.specs.Turn.{Answers, HasRunStatus, HasTurnStatus, IsCauseAtLine, IsReadAs, IsWritten};
ghost use Rattle.wb_daemon.specs.Turn.{StopsAt, Ran, Turns, cause_of_end, cause_of_turn, fails_to_write};

use crate::answer::{LineAnswer, answer_read};
use crate::lists::RunLists;
use crate::message::{Cause, Message};
use crate::read::{invocation_of_line, report_fault};
use crate::status::{ACCEPTED, LINE_FAULT, STOPPED};
use deb_text::is_blank_line;
use std::alloc::Global;
use std::io::{Read, Write};
use wb_api::line_fault_json;
use wb_archive::MergeFrom;
use wb_streams::{
    ByteRead, LINE_LIMIT, LineRead, WatchedReader, WatchedWriter, read_byte, read_line, write_line,
};
use wb_words::{Invocation, WordsFault};

/// The greatest number of line feeds that a run reads.
const LINES_LIMIT: u64 = 1_000_000_000;

/// How a turn of the run ended. A status is that of its line.
#[derive(Clone, Copy)]
pub(crate) enum Turn {
    /// The line was answered, and more may follow.
    More(u8),
    /// The last line was answered.
    End(u8),
    /// The run stops here.
    Stop(Cause),
}

/// How a run ended.
#[derive(Clone, Copy)]
pub(crate) enum RunEnd {
    /// With its input: the status is the greatest of its lines.
    Ended(u8),
    /// Before its input ended.
    Stopped(Cause),
}

/// Writes an answer, with its line feed. Answers its status. The errors are `Write` and, after the answer was written,
/// `Store`.
fn write_answer<W: Write + Drop>(
    alloc: Global,
    writer: &mut WatchedWriter<W>,
    answer: &LineAnswer,
) -> Result<u8, Cause>
    ensures value { IsWritten answer.now writer.old.bytes writer.new.bytes result }
    ensures failed { Flags (fails_to_write result) writer.old writer.new }
    ensures cause { IfErr result IsCauseAtLine }
{
    if !write_line(alloc, writer, answer.text.as_str()) {
        return Err(Cause::Write);
    }
    if answer.stops {
        return Err(Cause::Store);
    }
    Ok(answer.status)
}

/// Acts on what words were read as, and writes what is said to it. Answers its status. The errors are `Reply`, `Write` and,
/// after the answer was written, `Store`; a run stops there.
pub(crate) fn answer_words<O: MergeFrom, W: Write + Drop, L: RunLists>(
    alloc: Global,
    office: &mut O,
    read: &Result<Invocation, WordsFault>,
    writer: &mut WatchedWriter<W>,
    lists: &mut L,
) -> Result<u8, Cause>
    // what is written
    ensures status { IfOk result (λ status. status ≤ 3) }
    ensures value { IfOk result (λ status. (asked : Asked) → IsReadAs asked read.now
        → Reaches O.is_clean O.stands_at office.old office.new (λ before after.
        Answers (L.may_read lists.old) asked before after writer.old.bytes writer.new.bytes status)) }
    ensures err { IfErr result (λ cause. (asked : Asked) → IsReadAs asked read.now
        → Leads O.is_clean O.is_closed O.stands_at O.leaves office.old office.new
        (λ before after standing. StopsAt (L.may_read lists.old) asked before after standing
        writer.old.bytes writer.new.bytes cause)) }
    // what failed, and what is left of the lists and the office
    ensures failed { Flags (fails_to_write result) writer.old writer.new }
    ensures cause { IfErr result IsCauseAtLine }
    ensures kept { MayReadLess (L.may_read lists.old) (L.may_read lists.new) }
    ensures clean { O.is_clean office.new → O.is_clean office.old }
{
    match answer_read(alloc, office, lists, read) {
        Some(answer) => write_answer(alloc, writer, &answer),
        None => Err(Cause::Reply),
    }
}

/// Acts on the line of this number and writes what is said to it. Answers the status of the line. The errors
/// are `Reply`, `Write` and, after the answer was written, `Store`; the run stops there.
fn answer_line<O: MergeFrom, W: Write + Drop, L: RunLists>(
    alloc: Global,
    office: &mut O,
    number: u64,
    line: &[u8],
    writer: &mut WatchedWriter<W>,
    lists: &mut L,
) -> Result<u8, Cause>
    requires { is_long line.now ≡ false }
    // what is written
    ensures status { IfOk result (λ status. status ≤ 3) }
    ensures value { IfOk result (λ status. Reaches O.is_clean O.stands_at office.old office.new (λ before after.
        Answers (L.may_read lists.old) (asked_by line.now) before after writer.old.bytes writer.new.bytes status)) }
    ensures err { IfErr result (λ cause. Leads O.is_clean O.is_closed O.stands_at O.leaves office.old office.new
        (λ before after standing. StopsAt (L.may_read lists.old) (asked_by line.now) before after standing
        writer.old.bytes writer.new.bytes cause)) }
    // what failed, and what is left of the lists and the office
    ensures failed { Flags (fails_to_write result) writer.old writer.new }
    ensures cause { IfErr result IsCauseAtLine }
    ensures kept { MayReadLess (L.may_read lists.old) (L.may_read lists.new) }
    ensures clean { O.is_clean office.new → O.is_clean office.old }
{
    if is_blank_line(line) {
        return Ok(ACCEPTED);
    }
    let read = invocation_of_line(alloc, line);
    report_fault(alloc, lists, number, line, &read);
    answer_words(alloc, office, &read, writer, lists)
}

/// Reads the line of this number into the room and answers it.
fn take_turn<O: MergeFrom, R: Read + Drop, W: Write + Drop, L: RunLists>(
    alloc: Global,
    office: &mut O,
    reader: &mut WatchedReader<R>,
    writer: &mut WatchedWriter<W>,
    lists: &mut L,
    number: u64,
    room: &mut [u8],
) -> Turn
    requires { length room.old ≡ line_limit }
    // what is written
    ensures status { HasTurnStatus result }
    ensures value { Leads O.is_clean O.is_closed O.stands_at O.leaves office.old office.new (λ before after standing.
        Turns (L.may_read lists.old) result before after standing reader.old.bytes reader.new.bytes
        writer.old.bytes writer.new.bytes) }
    // what failed, and what is left of the lists and the office
    ensures failed { FailsFor (cause_of_turn result) reader.old reader.new writer.old writer.new }
    ensures kept { MayReadLess (L.may_read lists.old) (L.may_read lists.new) }
    ensures clean { O.is_clean office.new → O.is_clean office.old }
{
    match read_line(reader, room) {
        LineRead::Ended(len) => {
            let (line, _) = room.split_at(len);
            match answer_line(alloc, office, number, line, writer, lists) {
                Ok(status) => Turn::More(status),
                Err(cause) => Turn::Stop(cause),
            }
        }
        LineRead::Last(len) => {
            let (line, _) = room.split_at(len);
            match answer_line(alloc, office, number, line, writer, lists) {
                Ok(status) => Turn::End(status),
                Err(cause) => Turn::Stop(cause),
            }
        }
        LineRead::TooLong => {
            lists.report(Message::LineFault {
                line: number,
                reason: "a line has at most 65536 bytes",
            });
            if write_line(alloc, writer, line_fault_json()) {
                Turn::End(LINE_FAULT)
            } else {
                Turn::Stop(Cause::Write)
            }
        }
        LineRead::Failed => Turn::Stop(Cause::Read),
    }
}

/// The run in a room that holds one line.
fn run_within<O: MergeFrom, R: Read + Drop, W: Write + Drop, L: RunLists>(
    alloc: Global,
    office: &mut O,
    reader: &mut WatchedReader<R>,
    writer: &mut WatchedWriter<W>,
    lists: &mut L,
    room: &mut [u8],
) -> RunEnd
    requires { length room.old ≡ line_limit }
    ensures status { HasRunStatus result }
    ensures value { Leads O.is_clean O.is_closed O.stands_at O.leaves office.old office.new (λ before after standing.
        Ran (L.may_read lists.old) result before after standing reader.old.bytes reader.new.bytes
        writer.old.bytes writer.new.bytes) }
    ensures failed { FailsFor (cause_of_end result) reader.old reader.new writer.old writer.new }
    ensures clean { O.is_clean office.new → O.is_clean office.old }
{
    let mut greatest = ACCEPTED;
    'lines: for count in 0..LINES_LIMIT {
        match take_turn(alloc, office, reader, writer, lists, count + 1, room) {
            Turn::More(status) => greatest = greatest.max(status),
            Turn::End(status) => return RunEnd::Ended(greatest.max(status)),
            Turn::Stop(cause) => return RunEnd::Stopped(cause),
        }
    }
    match read_byte(reader) {
        ByteRead::End => RunEnd::Ended(greatest),
        ByteRead::Byte(_) => RunEnd::Stopped(Cause::Lines),
        ByteRead::Failed => RunEnd::Stopped(Cause::Read),
    }
}

/// The run in a room of its own, for which there may be no memory.
fn run_in_room<O: MergeFrom, R: Read + Drop, W: Write + Drop, L: RunLists>(
    alloc: Global,
    office: &mut O,
    reader: &mut WatchedReader<R>,
    writer: &mut WatchedWriter<W>,
    lists: &mut L,
) -> RunEnd
    ensures status { HasRunStatus result }
    ensures value { Leads O.is_clean O.is_closed O.stands_at O.leaves office.old office.new (λ before after standing.
        Ran (L.may_read lists.old) result before after standing reader.old.bytes reader.new.bytes
        writer.old.bytes writer.new.bytes) }
    ensures failed { FailsFor (cause_of_end result) reader.old reader.new writer.old writer.new }
    ensures clean { O.is_clean office.new → O.is_clean office.old }
{
    let Ok(mut room) = vec![in alloc; 0u8; LINE_LIMIT] else {
        return RunEnd::Stopped(Cause::Room);
    };
    run_within(alloc, office, reader, writer, lists, &mut room)
}

// It stands on the traits of an office alone, whose clauses speak of a state at which an office
// stands: so a run over tables in a file promises what a run over tables in memory does. What is
// promised is said of each such state (`Reaches`, `Leads`), and not of one state of an office,
// which tables that somebody else wrote to do not have.
/// Acts on each line of the input in turn and answers it with one line of JSON. Answers the status of the run.
///
/// A line ends at a line feed, which the last may lack; its words are separated by spaces and tabs, without
/// quoting. A line without words is not answered. A line that is not UTF-8, whose words ask for nothing that
/// there is, or that is longer than 65536 bytes is a line fault; one that is too long is the last. The lists
/// that a merge names are opened, in the order of the words, before the office is asked: one that cannot be
/// opened is a file fault, which changes nothing, and the run goes on. The office then reads them: it refuses one
/// of which a read fails, or that is longer than 2147483648 bytes. A report is read whole before the office is asked: one
/// that cannot be opened, whose reading fails, that is longer than 2147483648 bytes, or that is not UTF-8 is a
/// file fault. A line for which there is no memory is answered as a refusal: out of memory. The status is the
/// greatest of the lines': 0 accepted, 1 refused, 2 a line fault, 3 a file fault.
///
/// Status 3 says as well that the run stopped: a read of the input failed, and the line that it cut off was
/// not acted on; or a write failed or took no byte, also an interrupted one, and the output ends within the
/// answer to the last line that was acted on; or there was no memory for the reply to an accepted command,
/// and nothing of it was written; or the store failed or the office is closed, and the answer to the last line
/// that was acted on says so; or more follows the 1000000000th line feed; or there was no memory for the
/// room that holds a line, and nothing was read. The commands of all lines that were acted on stand; one at
/// which the store failed is left by a crash whole or not at all (this project's own).
pub fn run_lines<O: MergeFrom, R: Read + Drop, W: Write + Drop, L: RunLists>(
    alloc: Global,
    office: &mut O,
    reader: &mut WatchedReader<R>,
    writer: &mut WatchedWriter<W>,
    lists: &mut L,
) -> u8
    ensures status { result ≤ 3 }
    ensures value { result < 3 → Reaches O.is_clean O.stands_at office.old office.new (λ before after.
        RunEndsWell (L.may_read lists.old) reader.old reader.new writer.old writer.new before after result) }
    ensures err { result ≡ 3 → Leads O.is_clean O.is_closed O.stands_at O.leaves office.old office.new
        (λ before after standing.
        (RunEndsWell (L.may_read lists.old) reader.old reader.new writer.old writer.new before after 3
        × (standing ≡ Open))
        ⊎ RunStops (L.may_read lists.old) reader.old reader.new writer.old writer.new before after standing) }
    ensures replay { Leads O.is_clean O.is_closed O.stands_at O.leaves office.old office.new (λ before after standing.
        IsSoOfEach (LeavesReplay (L.may_read lists.old) before) after standing) }
    ensures clean { O.is_clean office.new → O.is_clean office.old }
{
    match run_in_room(alloc, office, reader, writer, lists) {
        RunEnd::Ended(status) => status,
        RunEnd::Stopped(cause) => {
            lists.report(Message::Stopped { cause });
            STOPPED
        }
    }
}
