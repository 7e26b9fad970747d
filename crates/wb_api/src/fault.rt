//! The answers to a line that does not reach the office.
ghost use Rattle.std.specs.Prelude.{◌≡◌};
ghost use Rattle.wb_api.specs.Encoding.{line_fault_text, file_fault_text};

/// The answer to a line that holds no command, as one JSON object (RFC 8259; the key is this
/// project's own). Takes no memory.
pub fn line_fault_json() -> &'static str
    ensures value { result.now ≡ line_fault_text }
{
    "{\"fault\":\"line\"}"
}

/// The answer to a line that names a file which cannot be read, as one JSON object (RFC 8259; the
/// key is this project's own). Takes no memory.
pub fn file_fault_json() -> &'static str
    ensures value { result.now ≡ file_fault_text }
{
    "{\"fault\":\"file\"}"
}
