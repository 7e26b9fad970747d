//! The body of a request (RFC 9112, section 6), read from a stream.
ghost use Rattle.std.specs.Prelude.{◌≡◌, ◌≤◌, length, take};
ghost use Rattle.wb_streams.specs.Streams.{Flags};
ghost use Rattle.wb_streams.specs.Bodies.{is_failed_body, is_failed_fill, TookBody};
ghost use Rattle.wb_streams.specs.Bodies.{TookNoMore, TookRest, TookRoom};

use crate::WatchedReader;
use crate::head::read_on;
use std::alloc::Global;
use std::io::Read;

/// What a read of the rest of a room gave.
#[derive(Clone, Copy)]
enum Filling {
    /// The room is full.
    Full,
    /// The input ended before.
    Ended,
    /// The reader failed.
    Failed,
}

/// What a read of a body gave.
#[derive(Drop)]
pub enum BodyRead {
    /// All its bytes.
    Whole(Vec<u8>),
    /// The input ended before the body did.
    Cut,
    /// The reader failed.
    Failed,
    /// There is no memory for it; nothing was read.
    Memory,
}

/// Reads into the room from a place on, until it is full.
fn fill<R: Read + Drop>(reader: &mut WatchedReader<R>, room: &mut [u8], start: usize) -> Filling
    requires { start ≤ length room.old }
    ensures value { TookRest (take start room.old) room.new reader.old.bytes reader.new.bytes result }
    ensures length { length room.new ≡ length room.old }
    ensures bound { TookNoMore (take start room.old) (length room.new)
        reader.old.bytes reader.new.bytes }
    ensures failed { Flags (is_failed_fill result) reader.old reader.new }
{
    let mut filled = start;
    while filled < room.len() {
        let Ok(count) = read_on(reader, room, filled) else {
            return Filling::Failed;
        };
        if count == 0 {
            return Filling::Ended;
        }
        filled += count;
    }
    Filling::Full
}

/// Fills the room with the front of what came already, and then with what is read.
fn fill_after<R: Read + Drop>(
    reader: &mut WatchedReader<R>,
    room: &mut [u8],
    already: &[u8],
) -> Filling
    ensures value { TookRoom already.now room.new reader.old.bytes reader.new.bytes result }
    ensures length { length room.new ≡ length room.old }
    ensures bound { TookNoMore already.now (length room.new) reader.old.bytes reader.new.bytes }
    ensures failed { Flags (is_failed_fill result) reader.old reader.new }
{
    let ready = already.len().min(room.len());
    room[..ready].copy_from_slice(&already[..ready]);
    fill(reader, room, ready)
}

/// Reads a body of `count` bytes, of which `already` came with the head, and maybe bytes after the
/// body. The memory for all of it is taken before the first read.
pub fn read_body<R: Read + Drop>(
    alloc: Global,
    reader: &mut WatchedReader<R>,
    already: &[u8],
    count: usize,
) -> BodyRead
    ensures value { TookBody already.now count reader.old.bytes reader.new.bytes result }
    ensures bound { TookNoMore already.now count reader.old.bytes reader.new.bytes }
    ensures failed { Flags (is_failed_body result) reader.old reader.new }
{
    let Ok(mut body) = vec![in alloc; 0u8; count] else {
        return BodyRead::Memory;
    };
    match fill_after(reader, &mut body, already) {
        Filling::Full => BodyRead::Whole(body),
        Filling::Ended => BodyRead::Cut,
        Filling::Failed => BodyRead::Failed,
    }
}
