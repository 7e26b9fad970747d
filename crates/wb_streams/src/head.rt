//! The head of a request (RFC 9112, sections 2 to 5), read from a stream as far as it goes.
ghost use Rattle.std.specs.Prelude.{◌≡◌, ℕ, ◌+◌, ◌<◌, ◌≤◌, length, take, drop, false, IfOk, OnErr, OnOk, true};
ghost use Rattle.std.specs.Io.KnownBytes.{Consumes, IsAtEnd, Keeps};
ghost use Rattle.wb_streams.specs.Streams.{Flags};
ghost use Rattle.httparse.specs.Grammar.{HasNoRequest, NeverHasRequest};
ghost use Rattle.wb_streams.specs.Heads.{head_limit, is_failed_head, IsFront, IsUnfinished, TookHead};

use crate::WatchedReader;
use httparse::spans::{EMPTY_HEADER_SPAN, parse_request};
use httparse::{Error, Status};
use std::io::{self, Read};

/// The greatest length of a head in bytes, with its empty line.
pub const HEAD_LIMIT: usize = 8192;

/// The greatest number of fields of a head.
pub const FIELD_LIMIT: usize = 32;

/// More fields than any head of fewer than HEAD_LIMIT bytes has, since each takes three bytes.
const ALL_FIELDS: usize = HEAD_LIMIT / 3;

/// What the first bytes of a stream are.
#[derive(Clone, Copy)]
pub enum Front {
    /// A head of this length, and what follows it.
    Whole(usize),
    /// No head yet.
    Unfinished,
    /// No head, whatever follows.
    Malformed,
    /// A head, or the front of one, that has too many fields.
    Crowded,
}

/// What a read of a head gave. The bytes that were read stand at the front of the room.
#[derive(Clone, Copy)]
pub enum HeadRead {
    /// A head of `count` bytes; `filled` bytes were read.
    Whole { count: usize, filled: usize },
    /// The input ended before its first byte.
    Nothing,
    /// No head comes: nothing that can follow makes one, or the input ended inside it.
    Malformed,
    /// The head is longer, or has more fields, than a head may have.
    TooLarge,
    /// The reader failed.
    Failed,
}

/// What the first bytes of a stream are, of which there may be any number.
/// Source: RFC 9112, sections 2 to 5; the limit of fields is this project's own.
pub fn front_of(bytes: &[u8]) -> Front
    ensures value { IsFront bytes.now result }
{
    let mut fields = [EMPTY_HEADER_SPAN; FIELD_LIMIT];
    match parse_request(bytes, &mut fields) {
        Ok(Status::Complete(head)) => Front::Whole(head.len),
        Ok(Status::Partial) => Front::Unfinished,
        Err(Error::TooManyHeaders) => Front::Crowded,
        Err(_) => Front::Malformed,
    }
}

/// Whether bytes, fewer than a head may have, are the front of a head of any number of fields, and
/// not all of one. Source: RFC 9112, sections 2 to 5.
pub fn is_unfinished(bytes: &[u8]) -> bool
    requires { length bytes.now < head_limit }
    ensures value { result ≡ true → IsUnfinished bytes.now }
    ensures ended { result ≡ false → HasNoRequest bytes.now → NeverHasRequest bytes.now }
{
    let mut fields = [EMPTY_HEADER_SPAN; ALL_FIELDS];
    match parse_request(bytes, &mut fields) {
        Ok(Status::Complete(_)) => false,
        Ok(Status::Partial) => true,
        Err(_) => false,
    }
}

/// Reads into the room from a place on, and gives how many bytes came: none only at the end of the
/// input, or if there is no room. The error is the reader's; then nothing was read.
pub(crate) fn read_on<R: Read + Drop>(
    reader: &mut WatchedReader<R>,
    room: &mut [u8],
    filled: usize,
) -> io::Result<usize>
    requires { filled ≤ length room.old }
    ensures front { take filled room.new ≡ take filled room.old }
    ensures bound { IfOk result (λ count. filled + count ≤ length room.new) }
    ensures ok { IfOk result (λ count.
        Consumes reader.old.bytes reader.new.bytes (take count (drop filled room.new))) }
    ensures end { IfOk result (λ count.
        count ≡ 0 → filled < length room.old → IsAtEnd reader.new.bytes) }
    ensures kept { OnOk result (reader.new.failed ≡ reader.old.failed) }
    ensures err { OnErr result (reader.new.failed ≡ true) }
    ensures unchanged { OnErr result (Keeps reader.old.bytes reader.new.bytes) }
{
    reader.read(&mut room[filled..])
}

/// Reads a head into the room, and of what follows it no more than the room takes.
pub fn read_head<R: Read + Drop>(reader: &mut WatchedReader<R>, room: &mut [u8]) -> HeadRead
    requires { length room.old ≡ head_limit }
    ensures value { TookHead room.new reader.old.bytes reader.new.bytes result }
    ensures failed { Flags (is_failed_head result) reader.old reader.new }
{
    let mut filled = 0;
    while filled < room.len() {
        let Ok(count) = read_on(reader, room, filled) else {
            return HeadRead::Failed;
        };
        if count == 0 {
            return if filled == 0 {
                HeadRead::Nothing
            } else {
                HeadRead::Malformed
            };
        }
        filled += count;
        match front_of(&room[..filled]) {
            Front::Whole(count) => return HeadRead::Whole { count, filled },
            Front::Unfinished => {}
            Front::Malformed => return HeadRead::Malformed,
            Front::Crowded => return HeadRead::TooLarge,
        }
    }
    HeadRead::TooLarge
}
