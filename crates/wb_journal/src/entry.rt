//! The lines of a journal.
ghost use Rattle.std.specs.Prelude.{◌≡◌, ◌++◌, option_map, IfOk, OnOk};
ghost use Rattle.std.specs.String.{string_bytes};
ghost use Rattle.serde_json.specs.Written.{compact_text};
ghost use Rattle.wb_journal.specs.Changes.{merge_object_text, parts_text, replies_text};
ghost use Rattle.wb_journal.specs.Commands.{value_of_command};
ghost use Rattle.wb_journal.specs.Entries.{accepted_of, by_text, entry_text, line_text};
ghost use Rattle.wb_journal.specs.Entries.{merge_text, object_text};
ghost use Rattle.wb_journal.specs.Entries.{parts_of, time_text};

use crate::changes::{push_part, report_json};
use crate::command::value_of_command;
use itoa::Buffer;
use serde_json::Value;
use std::alloc::{AllocError, Global};
use wb_api::reply_json;
use wb_merge::ArchChanges;
use wb_states::{Command, Part, PartReply, Reply};

/// The line of a journal for a command that was accepted at this time, with its reply: a JSON
/// object (RFC 8259) without a space, and a line feed.
///
/// It has under `accepted` the count of accepted commands with this one, under `answer` the reply
/// as it is answered, under `by` the name of who gave the command, and no such member if that is
/// not known, under `command` the command's name and its arguments, and under `time` the time,
/// `null` if the clock showed none. A merge has the architectures of its parts alone, and a report
/// the number of its bytes; each of these architectures has under `changes` what was changed there,
/// and no such member if that is not known: for each record that differs an array of its source
/// package, its state before, its state after and its version after, `null` for those of no record.
/// The only error is that there is no memory for the text. The keys are this project's own.
pub fn entry_line(
    alloc: Global,
    by: Option<&str>,
    time: Option<&str>,
    changes: &[ArchChanges],
    command: &Command,
    reply: &Reply,
) -> Result<String, AllocError>
    ensures value { IfOk result (λ line. string_bytes line
        ≡ entry_text (option_map (λ name. name.now) by.entry) (option_map (λ time. time.now) time.entry)
        changes.now command.now reply.now) }
{
    let object = command_json(alloc, changes, command)?;
    line_of(alloc, by, time, command.name(), object.as_str(), reply)
}

/// The line of a journal for a merge of lists that readers gave, which was accepted at this time
/// with this reply: the line that [`entry_line`] makes of the merge as a command. The only error is
/// that there is no memory for the text.
pub fn merge_entry_line(
    alloc: Global,
    by: Option<&str>,
    time: Option<&str>,
    changes: &[ArchChanges],
    reply: &Reply,
) -> Result<String, AllocError>
    ensures value { IfOk result (λ line. string_bytes line
        ≡ merge_text (option_map (λ name. name.now) by.entry) (option_map (λ time. time.now) time.entry)
        changes.now reply.now) }
{
    let object = merged_json(alloc, changes, parts_of(reply))?;
    line_of(alloc, by, time, "merge", object.as_str(), reply)
}

/// The parts of a merge to which this is the reply.
fn parts_of(reply: &Reply) -> &[PartReply]
    ensures { result.now ≡ parts_of reply.now }
{
    match reply {
        Reply::Merged { parts, .. } => parts.as_slice(),
        _ => &[],
    }
}

/// The line for a command of this name, whose object has this text.
#[tactic(auto, unfolding(crate::specs::Entries::line_text))]
fn line_of(
    alloc: Global,
    by: Option<&str>,
    time: Option<&str>,
    name: &str,
    object: &str,
    reply: &Reply,
) -> Result<String, AllocError>
    ensures value { IfOk result (λ line. string_bytes line
        ≡ line_text (option_map (λ name. name.now) by.entry) (option_map (λ time. time.now) time.entry)
        name.now object.now reply.now) }
{
    let mut line = String::from_str(alloc, "{\"accepted\":")?;
    line.push_str(Buffer::new().format(accepted_of(reply)))?;
    line.push_str(",\"answer\":")?;
    line.push_str(reply_json(alloc, name, reply)?.as_str())?;
    line.push_str(by_json(alloc, by)?.as_str())?;
    line.push_str(",\"command\":")?;
    line.push_str(object)?;
    line.push_str(",\"time\":")?;
    line.push_str(time_json(alloc, time)?.as_str())?;
    line.push_str("}\n")?;
    Ok(line)
}

/// How many commands were accepted, by a reply.
fn accepted_of(reply: &Reply) -> u64
    ensures { result ≡ accepted_of reply.now }
{
    match reply {
        Reply::Done { accepted }
        | Reply::Job { accepted, .. }
        | Reply::Again { accepted, .. }
        | Reply::Reported { accepted, .. }
        | Reply::Merged { accepted, .. } => *accepted,
    }
}

/// The object of a command as text, with what it changed, if that is known.
fn command_json(
    alloc: Global,
    changes: &[ArchChanges],
    command: &Command,
) -> Result<String, AllocError>
    ensures { IfOk result (λ text. string_bytes text ≡ object_text changes.now command.now) }
{
    match command {
        Command::Merge(merge) => merge_json(alloc, changes, merge.parts.as_slice()),
        Command::Report(report) => report_json(alloc, report, changes),
        _ => plain_json(alloc, command),
    }
}

/// The object of a command with nothing but its name and its arguments, as text.
#[tactic(auto, using(crate::proofs::EntryLemmas::floats_of_commands))]
fn plain_json(alloc: Global, command: &Command) -> Result<String, AllocError>
    ensures { IfOk result (λ text. string_bytes text ≡ compact_text (value_of_command command.now)) }
{
    let value = value_of_command(alloc, command)?;
    value.to_string(alloc)
}

/// The object of a merge with these parts, as text, with what each changed, if that is known.
#[tactic(auto, unfolding(crate::specs::Changes::merge_object_text))]
fn merge_json(alloc: Global, changes: &[ArchChanges], parts: &[Part]) -> Result<String, AllocError>
    ensures { IfOk result (λ text. string_bytes text
        ≡ merge_object_text (parts_text changes.now parts.now)) }
{
    let mut out = String::from_str(alloc, "{\"command\":\"merge\",\"parts\":[")?;
    push_parts(alloc, &mut out, changes, parts)?;
    out.push_str("]}")?;
    Ok(out)
}

/// Appends the objects of the parts of a merge.
#[tactic(auto, unfolding(crate::specs::Changes::parts_text))]
fn push_parts(
    alloc: Global,
    out: &mut String,
    changes: &[ArchChanges],
    parts: &[Part],
) -> Result<(), AllocError>
    ensures ok { OnOk result (string_bytes out.new
        ≡ string_bytes out.old ++ parts_text changes.now parts.now) }
{
    if let [first, others @ ..] = parts {
        push_part(alloc, out, &first.arch, changes)?;
        for part in others {
            out.push_str(",")?;
            push_part(alloc, out, &part.arch, changes)?;
        }
    }
    Ok(())
}

/// The object of a merge that was accepted, as text, by the replies to its parts.
#[tactic(auto, unfolding(crate::specs::Changes::merge_object_text))]
fn merged_json(
    alloc: Global,
    changes: &[ArchChanges],
    replies: &[PartReply],
) -> Result<String, AllocError>
    ensures { IfOk result (λ text. string_bytes text
        ≡ merge_object_text (replies_text changes.now replies.now)) }
{
    let mut out = String::from_str(alloc, "{\"command\":\"merge\",\"parts\":[")?;
    push_replies(alloc, &mut out, changes, replies)?;
    out.push_str("]}")?;
    Ok(out)
}

/// Appends the objects of the parts of a merge to which these are the replies.
#[tactic(auto, unfolding(crate::specs::Changes::replies_text))]
fn push_replies(
    alloc: Global,
    out: &mut String,
    changes: &[ArchChanges],
    replies: &[PartReply],
) -> Result<(), AllocError>
    ensures ok { OnOk result (string_bytes out.new
        ≡ string_bytes out.old ++ replies_text changes.now replies.now) }
{
    if let [first, others @ ..] = replies {
        push_part(alloc, out, &first.arch, changes)?;
        for reply in others {
            out.push_str(",")?;
            push_part(alloc, out, &reply.arch, changes)?;
        }
    }
    Ok(())
}

/// The text of a time, or `null`.
fn time_json(alloc: Global, time: Option<&str>) -> Result<String, AllocError>
    ensures { IfOk result (λ text. string_bytes text ≡ time_text (option_map (λ time. time.now) time.entry)) }
{
    match time {
        Some(time) => Value::try_from_str(alloc, time)?.to_string(alloc),
        None => String::from_str(alloc, "null"),
    }
}

/// The member with the name of who gave a command, which comes after another; nothing if that is
/// not known.
fn by_json(alloc: Global, by: Option<&str>) -> Result<String, AllocError>
    ensures { IfOk result (λ text. string_bytes text ≡ by_text (option_map (λ name. name.now) by.entry)) }
{
    let mut text = String::new(alloc);
    if let Some(name) = by {
        text.push_str(",\"by\":")?;
        text.push_str(Value::try_from_str(alloc, name)?.to_string(alloc)?.as_str())?;
    }
    Ok(text)
}
