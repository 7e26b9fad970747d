//! The form of a key, and its hash.
ghost use Rattle.std.specs.Prelude.{◌≡◌};
ghost use Rattle.std.specs.List.{list_all};
ghost use Rattle.deb_text.specs.Lists.{begins};
ghost use Rattle.sha2.specs.Sha256.{sha256};
ghost use Rattle.wb_keys.specs.Key.{after_key_chars, is_equals, is_key_char, is_key_text};

use sha2::{Digest, Sha256};

/// Whether a byte may stand in a key before the `=` at its end.
fn is_key_char(byte: u8) -> bool
    ensures { result ≡ is_key_char byte }
{
    byte.is_ascii_alphanumeric() || matches!(byte, b'-' | b'.' | b'_' | b'~' | b'+' | b'/')
}

fn begins_with_key_char(text: &[u8]) -> bool
    ensures { result ≡ begins is_key_char text.now }
{
    match text {
        [] => false,
        [first, ..] => is_key_char(*first),
    }
}

fn ends_with_equals_alone(text: &[u8]) -> bool
    ensures { result ≡ list_all is_equals (after_key_chars text.now) }
{
    text.iter()
        .skip_while(|byte| is_key_char(**byte))
        .all(|byte| *byte == b'=')
}

/// Whether `text` has the form of a key: 20 to 200 bytes, letters, digits, `-`, `.`, `_`, `~`, `+`
/// and `/`, at least one, and then nothing but `=`, which counts too. Takes no memory (RFC 6750,
/// section 2.1; the limits are this project's own).
#[tactic(auto, unfolding(crate::specs::Key::is_key_text))]
pub fn is_key_form(text: &[u8]) -> bool
    ensures value { result ≡ is_key_text text.now }
{
    (20 <= text.len() && text.len() <= 200)
        && (begins_with_key_char(text) && ends_with_equals_alone(text))
}

/// The hash of a key, by which it is found: its SHA-256 digest (FIPS 180-4, section 6.2). Takes no
/// memory.
pub fn hash_of_key(text: &[u8]) -> [u8; 32]
    ensures value { result ≡ sha256 text.now }
{
    Sha256::digest(text)
}
