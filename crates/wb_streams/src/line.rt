//! Lines of an input, and the words of a line.
ghost use Rattle.std.specs.Prelude.{◌≡◌, IfOk, IfSome, None, map, length, true, false};
ghost use Rattle.std.specs.Str.{is_utf8};
ghost use Rattle.std.specs.Io.KnownBytes.{Consumes, IsAtEnd};
ghost use Rattle.wb_streams.specs.declared.line.ByteRead.TheVariants.{End};
ghost use Rattle.deb_text.specs.Lines.{words_in};
ghost use Rattle.wb_streams.specs.Line.{bytes_of, is_failed_byte, is_failed_line, line_limit, TookLine};
ghost use Rattle.wb_streams.specs.Streams.{Flags};

use crate::WatchedReader;
use std::alloc::{AllocError, Global};
use std::io::Read;
use std::str;

/// The greatest length of a line, its line feed not counted.
pub const LINE_LIMIT: usize = 65536;

/// What a read of one byte gave.
pub enum ByteRead {
    Byte(u8),
    End,
    Failed,
}

/// What a read of one line gave. The line stands at the front of the room.
#[derive(Clone, Copy)]
pub enum LineRead {
    /// A line of this length, and then a line feed.
    Ended(usize),
    /// A line of this length at the end of the input.
    Last(usize),
    /// The line is longer than a line may be.
    TooLong,
    /// The reader failed.
    Failed,
}

/// Reads one byte. An interrupted read is a failed one too.
pub fn read_byte<R: Read + Drop>(reader: &mut WatchedReader<R>) -> ByteRead
    ensures value { Consumes reader.old.bytes reader.new.bytes (bytes_of result) }
    ensures status { result ≡ End → IsAtEnd reader.new.bytes }
    ensures failed { Flags (is_failed_byte result) reader.old reader.new }
{
    let mut room = [0u8; 1];
    match reader.read(&mut room) {
        Ok(0) => ByteRead::End,
        Ok(_) => ByteRead::Byte(room[0]),
        Err(_) => ByteRead::Failed,
    }
}

/// Reads one line into the room, byte by byte, and no byte after it.
pub fn read_line<R: Read + Drop>(reader: &mut WatchedReader<R>, room: &mut [u8]) -> LineRead
    requires { length room.old ≡ line_limit }
    ensures value { TookLine room.new reader.old.bytes reader.new.bytes result }
    ensures failed { Flags (is_failed_line result) reader.old reader.new }
{
    for len in 0..room.len() {
        match read_byte(reader) {
            ByteRead::Byte(b'\n') => return LineRead::Ended(len),
            ByteRead::Byte(byte) => room[len] = byte,
            ByteRead::End => return LineRead::Last(len),
            ByteRead::Failed => return LineRead::Failed,
        }
    }
    match read_byte(reader) {
        ByteRead::Byte(b'\n') => LineRead::Ended(room.len()),
        ByteRead::Byte(_) => LineRead::TooLong,
        ByteRead::End => LineRead::Last(room.len()),
        ByteRead::Failed => LineRead::Failed,
    }
}

/// The words of the line. The only error is that there is no memory for the list.
pub fn words_in<'a>(alloc: Global, text: &'a str) -> Result<Vec<&'a str>, AllocError>
    ensures value { IfOk result (λ words. map (λ w. w.now) words.items ≡ words_in text.entry.now) }
{
    text.split(' ')
        .flat_map(|part| part.split('\t'))
        .filter(|word| !word.is_empty())
        .collect(alloc)
}

/// The line as text, if it is UTF-8.
pub fn text_of(line: &[u8]) -> Option<&str>
    ensures value { IfSome result (λ text. (text.now ≡ line.now) × (is_utf8 line.now ≡ true)) }
    ensures refused { result ≡ None → is_utf8 line.now ≡ false }
{
    match str::from_utf8(line) {
        Ok(text) => Some(text),
        Err(_) => None,
    }
}
