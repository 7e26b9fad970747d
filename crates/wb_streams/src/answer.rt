//! An answer (RFC 9112, section 4), written to a stream of which each write may fail.
ghost use Rattle.std.specs.Prelude.{◌≡◌, not, map, true, false};
ghost use Rattle.std.specs.Io.KnownBytes.{Appends};
ghost use Rattle.std.specs.List.{concat};
ghost use Rattle.wb_streams.specs.Answers.{answer_bytes, further_fields, parts_bytes, phrase_of};
ghost use Rattle.wb_streams.specs.Streams.{AppendsFront, Flags};

use crate::WatchedWriter;
use crate::write::write_bytes;
use http::StatusCode;
use itoa::Buffer;
use std::io::Write;

/// Writes texts one after another. Gives whether all were written; if not, a front of them was.
fn write_texts<W: Write + Drop>(writer: &mut WatchedWriter<W>, texts: &[&str]) -> bool
    ensures value { result ≡ true
        → Appends writer.old.bytes writer.new.bytes (concat (map (λ t. t.now) texts.now)) }
    ensures err { result ≡ false
        → AppendsFront writer.old.bytes writer.new.bytes (concat (map (λ t. t.now) texts.now)) }
    ensures failed { Flags (not result) writer.old writer.new }
{
    let mut left = texts;
    while let [text, rest @ ..] = left {
        if !write_bytes(writer, text.as_bytes()) {
            return false;
        }
        left = rest;
    }
    true
}

/// The phrase of a status, empty if it has none. Source: RFC 9110, section 15, and RFC 6585,
/// section 5; a phrase may be empty by RFC 9112, section 4.
#[tactic(auto, unfolding(crate::specs::Answers::phrase_of))]
fn phrase_of(status: StatusCode) -> &'static str
    ensures value { result.now ≡ phrase_of status }
{
    match status.canonical_reason() {
        Some(phrase) => phrase,
        None => "",
    }
}

/// The further fields of an answer with this status: one of 401 says how a key is shown.
/// Source: RFC 9110, section 11.6.1, and RFC 6750, section 3.
fn further_fields(status: StatusCode) -> &'static str
    ensures value { result.now ≡ further_fields status }
{
    if status == StatusCode::UNAUTHORIZED {
        "WWW-Authenticate: Bearer\r\n"
    } else {
        ""
    }
}

// Ten texts, written one after another, so that an answer takes no memory.
/// Writes an answer with this code, phrase, length, further fields and body.
#[tactic(auto, unfolding(crate::specs::Answers::parts_bytes))]
fn write_parts<'a, W: Write + Drop>(
    writer: &mut WatchedWriter<W>,
    code: &'a str,
    phrase: &'a str,
    length: &'a str,
    further: &'a str,
    body: &'a str,
) -> bool
    ensures value { result ≡ true → Appends writer.old.bytes writer.new.bytes
        (parts_bytes code.now phrase.now length.now further.now body.now) }
    ensures err { result ≡ false → AppendsFront writer.old.bytes writer.new.bytes
        (parts_bytes code.now phrase.now length.now further.now body.now) }
    ensures failed { Flags (not result) writer.old writer.new }
{
    let texts: [&'a str; 10] = [
        "HTTP/1.1 ",
        code,
        " ",
        phrase,
        "\r\nContent-Type: application/json\r\nContent-Length: ",
        length,
        "\r\nConnection: close\r\n",
        further,
        "\r\n",
        body,
    ];
    write_texts(writer, &texts)
}

/// Writes an answer with a body in JSON, after which the connection is closed. Takes no memory.
/// Gives whether all of it was written. If not, the writer failed, was interrupted or took no byte,
/// and a front of the answer was written. Source: RFC 9112, section 4, and for the phrase RFC 9110,
/// section 15, and RFC 6585, section 5; the fields are this project's own.
#[tactic(auto, unfolding(crate::specs::Answers::answer_bytes))]
pub fn write_answer<W: Write + Drop>(
    writer: &mut WatchedWriter<W>,
    status: StatusCode,
    body: &str,
) -> bool
    ensures value { result ≡ true
        → Appends writer.old.bytes writer.new.bytes (answer_bytes status body.now) }
    ensures err { result ≡ false
        → AppendsFront writer.old.bytes writer.new.bytes (answer_bytes status body.now) }
    ensures failed { Flags (not result) writer.old writer.new }
{
    let mut digits = Buffer::new();
    let length = digits.format(body.len());
    let further = further_fields(status);
    write_parts(
        writer,
        status.as_str(),
        phrase_of(status),
        length,
        further,
        body,
    )
}
