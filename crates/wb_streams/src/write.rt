//! Answers written to a writer, of which each write may fail.
ghost use Rattle.std.specs.Prelude.{◌≡◌, not, IfOk};
ghost use Rattle.std.specs.Cow.{cow_str_bytes};
ghost use Rattle.std.specs.String.{string_bytes};
ghost use Rattle.std.specs.Io.KnownBytes.{Appends};
ghost use Rattle.std.specs.Prelude.{true, false};
ghost use Rattle.wb_streams.specs.Line.{with_line_feed};
ghost use Rattle.wb_streams.specs.Streams.{AppendsFront, Flags};

use crate::WatchedWriter;
use std::alloc::{AllocError, Global};
use std::io::Write;

// Not `write_all`, which tries an interrupted write again and does not say how much was written. So
// what was written is always a front of the answers.
/// Writes the bytes. Says whether all were written: a write that takes no byte or fails ends it,
/// also one that was interrupted, and then a front of the bytes was written.
pub(crate) fn write_bytes<W: Write + Drop>(writer: &mut WatchedWriter<W>, bytes: &[u8]) -> bool
    ensures value { result ≡ true → Appends writer.old.bytes writer.new.bytes bytes.now }
    ensures err { result ≡ false → AppendsFront writer.old.bytes writer.new.bytes bytes.now }
    ensures failed { Flags (not result) writer.old writer.new }
{
    let mut done = 0;
    while done < bytes.len() {
        let (_, rest) = bytes.split_at(done);
        match writer.write(rest) {
            Ok(count) => done += count,
            Err(_) => return false,
        }
    }
    true
}

/// The text and a line feed, for one write. The error is that there is no memory for them.
fn line_of(alloc: Global, text: &str) -> Result<String, AllocError>
    ensures value { IfOk result (λ line. string_bytes line ≡ with_line_feed text.now) }
{
    let mut line = String::with_capacity(alloc, text.len() + 1)?;
    line.push_str(text)?;
    line.push('\n')?;
    Ok(line)
}

/// Writes the text and a line feed, in one write if there is memory for both. Says whether all was
/// written; if not, a front of it was.
pub fn write_line<W: Write + Drop>(alloc: Global, writer: &mut WatchedWriter<W>, text: &str) -> bool
    ensures value { result ≡ true → Appends writer.old.bytes writer.new.bytes (with_line_feed text.now) }
    ensures err { result ≡ false
        → AppendsFront writer.old.bytes writer.new.bytes (with_line_feed text.now) }
    ensures failed { Flags (not result) writer.old writer.new }
{
    match line_of(alloc, text) {
        Ok(line) => write_bytes(writer, line.as_bytes()),
        Err(_) => write_bytes(writer, text.as_bytes()) && write_bytes(writer, b"\n"),
    }
}
