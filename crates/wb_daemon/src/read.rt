//! What words ask for, of a line or of a single command.
ghost use Rattle.std.specs.Prelude.{◌≡◌, ◌≢◌, IfErr, IfOk, IsTrue, Some, None, Err, map};
ghost use Rattle.std.specs.Str.{is_utf8};
ghost use Rattle.wb_words.specs.declared.fault.WordsFault.TheVariants.{Memory};
ghost use Rattle.wb_words.specs.Arguments.{joined};
ghost use Rattle.wb_streams.specs.Line.{is_long};
ghost use Rattle.wb_lists.specs.Lists.{MayReadLess};
ghost use Rattle.wb_daemon.specs.Run.{invocation_of_line};
ghost use Rattle.wb_daemon.specs.Turn.{IsReadAs};
ghost use Rattle.wb_daemon.specs.Single.{asked_in};

use crate::lists::RunLists;
use crate::message::Message;
use std::alloc::Global;
use wb_streams::{LINE_LIMIT, text_of, words_in};
use wb_words::{Invocation, WordsFault, fault_of, invocation_of};

/// What the words of a line ask for. The errors are `NoCommand` if the line is not UTF-8 or its words
/// ask for nothing that there is, and `Memory`, which may come at any line that is UTF-8.
#[tactic(auto, unfolding(crate::specs::Run::invocation_of_line))]
pub(crate) fn invocation_of_line(alloc: Global, line: &[u8]) -> Result<Invocation, WordsFault>
    ensures value { IfOk result (λ invocation. invocation_of_line line.now ≡ Some invocation) }
    ensures refused { IfErr result (λ fault. fault ≢ Memory → invocation_of_line line.now ≡ None) }
    ensures memory { result ≡ Err Memory → IsTrue (is_utf8 line.now) }
{
    let Some(text) = text_of(line) else {
        return Err(WordsFault::NoCommand);
    };
    let Ok(words) = words_in(alloc, text) else {
        return Err(WordsFault::Memory);
    };
    invocation_of(alloc, &words)
}

/// Whether words are longer than a line may be, with a space between each two.
fn are_long(words: &[&str]) -> bool
    ensures value { result ≡ is_long (joined (map (λ word. word.now) words.now)) }
{
    let mut room = LINE_LIMIT + 1;
    for word in words {
        if word.len() >= room {
            return true;
        }
        room -= word.len() + 1;
    }
    false
}

/// What the words of a single command ask for. The errors are `NoCommand` if there are none, if they are longer than a line
/// may be, with a space between each two, or if they ask for nothing that there is; and `Memory`, which may come at any
/// others.
pub(crate) fn invocation_of_words(alloc: Global, words: &[&str]) -> Result<Invocation, WordsFault>
    ensures value { IsReadAs (asked_in (map (λ word. word.now) words.now)) result }
{
    if words.is_empty() || are_long(words) {
        return Err(WordsFault::NoCommand);
    }
    invocation_of(alloc, words)
}

/// Whether words ask for nothing that there is.
fn is_fault(read: &Result<Invocation, WordsFault>) -> bool {
    matches!(read, Err(WordsFault::NoCommand))
}

/// Reports why the line of this number is a line fault, if it was read as one; nothing if there is no memory for that.
pub(crate) fn report_fault<L: RunLists>(
    alloc: Global,
    lists: &mut L,
    number: u64,
    line: &[u8],
    read: &Result<Invocation, WordsFault>,
)
    ensures kept { MayReadLess (L.may_read lists.old) (L.may_read lists.new) }
{
    if !is_fault(read) {
        return;
    }
    let Some(text) = text_of(line) else {
        return lists.report(Message::LineFault {
            line: number,
            reason: "it is not UTF-8",
        });
    };
    let Ok(words) = words_in(alloc, text) else {
        return;
    };
    if let Ok(reason) = fault_of(alloc, &words) {
        lists.report(Message::LineFault {
            line: number,
            reason: reason.as_str(),
        });
    }
}

/// Reports why the words of a single command are a line fault, if they were read as one; nothing if there is no memory for
/// that.
pub(crate) fn report_words<L: RunLists>(
    alloc: Global,
    lists: &mut L,
    words: &[&str],
    read: &Result<Invocation, WordsFault>,
)
    ensures kept { MayReadLess (L.may_read lists.old) (L.may_read lists.new) }
{
    if !is_fault(read) {
        return;
    }
    if are_long(words) {
        return lists.report(Message::WordsFault {
            reason: "the words have at most 65536 bytes, with a space between each two",
        });
    }
    if let Ok(reason) = fault_of(alloc, words) {
        lists.report(Message::WordsFault {
            reason: reason.as_str(),
        });
    }
}
