//! Readers and writers that report whether a call of them failed, and what is read and written with
//! them: lines, and the heads, bodies and answers of HTTP (RFC 9112).
#![tactic(auto)]

mod answer;
mod body;
mod fault;
mod fields;
mod head;
pub mod laws;
mod line;
mod watched;
mod write;

pub use answer::write_answer;
pub use body::{BodyRead, read_body};
pub use fault::Fault;
pub use fields::{bearer_token, content_length, has_field, is_from_browser};
pub use head::{FIELD_LIMIT, Front, HEAD_LIMIT, HeadRead, front_of, is_unfinished, read_head};
pub use line::{ByteRead, LINE_LIMIT, LineRead, read_byte, read_line, text_of, words_in};
pub use watched::{WatchedReader, WatchedWriter};
pub use write::write_line;
