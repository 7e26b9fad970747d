//! What a request shows of a key (RFC 6750).
ghost use Rattle.std.specs.Prelude.{◌≡◌, map};
ghost use Rattle.httparse.specs.Borrowed.{header_parts};
ghost use Rattle.wb_api.specs.Rights.{shown_by};

use httparse::Header;
use wb_keys::{Shown, hash_of_key, is_key_form};
use wb_streams::{bearer_token, has_field};

/// What the fields of a head show of a key. Takes no memory.
/// Source: RFC 6750, section 2.1.
pub(crate) fn shown_by(fields: &[Header<'_>]) -> Shown
    ensures value { result ≡ shown_by (map header_parts fields.now) }
{
    if !has_field(fields, "authorization") {
        return Shown::Nothing;
    }
    match bearer_token(fields) {
        Some(token) if is_key_form(token) => Shown::Hash(hash_of_key(token)),
        _ => Shown::Malformed,
    }
}
