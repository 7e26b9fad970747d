//! Who gives commands, as a journal has it.
ghost use Rattle.std.specs.Prelude.{◌≡◌, None};
ghost use Rattle.std.specs.Option.{option_copied, option_map};
ghost use Rattle.wb_journal.specs.Appended.{asker_named, asker_of};

use deb_text::Text;
use std::marker::Model;
use std::str;

/// The greatest length of a name that an [`Asker`] has, in bytes: that of the name of a key, which
/// has the form of a builder's name.
pub const NAME_LIMIT: usize = 64;

// The name lies in the value itself, and no `Text` is kept. An office that is told who asks has no
// answer by which it could say that there is no memory for a copy: its entry would lack the name,
// and nobody would be told.
/// Who gives commands: a name of at most [`NAME_LIMIT`] bytes, or nobody who is known. Clauses see
/// the name, or none (this project's own).
#[derive(Drop)]
pub struct Asker {
    /// The name, and after it bytes of no meaning.
    bytes: [u8; NAME_LIMIT],
    /// The length of the name, or none if nobody is known.
    length: Option<usize>,
}

impl Model for Asker {
    ghost use Rattle.std.specs.Prelude.{◌≡◌, ◌≤◌, ℕ, List, Option, IfSome, take, true};
    ghost use Rattle.std.specs.Option.{option_map};
    ghost use Rattle.std.specs.Str.{is_utf8};

    ghost Value = { Option (List ℕ) };

    ghost view = { λ asker. option_map (λ (length : ℕ). take length asker.bytes) asker.length };

    ghost invariant = { λ asker. IfSome asker.length
        (λ (length : ℕ). (length ≤ 64) × (is_utf8 (take length asker.bytes) ≡ true)) };
}

impl Asker {
    /// Nobody who is known. Takes no memory (this project's own).
    pub fn nobody() -> Asker
        ensures value { result ≡ None }
    {
        Asker {
            bytes: [0; NAME_LIMIT],
            length: None,
        }
    }

    /// Who has this name: nobody who is known if there is none, or if it is longer than
    /// [`NAME_LIMIT`], which no name of a key is. Takes no memory (this project's own).
    pub fn of(name: Option<&Text>) -> Asker
        ensures value { result ≡ asker_of (option_copied name.entry) }
    {
        match name {
            Some(name) => Asker::named(name.as_str()),
            None => Asker::nobody(),
        }
    }

    /// Who has this name.
    fn named(name: &str) -> Asker
        ensures { result ≡ asker_named name.now }
    {
        let length = name.len();
        if NAME_LIMIT < length {
            return Asker::nobody();
        }
        let mut bytes = [0; NAME_LIMIT];
        bytes[..length].copy_from_slice(name.as_bytes());
        Asker {
            bytes,
            length: Some(length),
        }
    }

    /// The name, or none if nobody is known. Takes no memory (this project's own).
    pub fn name(&self) -> Option<&str>
        ensures value { option_map (λ name. name.now) result ≡ self.now }
    {
        match self.length {
            Some(length) => str::from_utf8(&self.bytes[..length]).ok(),
            None => None,
        }
    }
}
