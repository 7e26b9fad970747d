//! The lines of a key file, and the line of a key.
ghost use Rattle.std.specs.Prelude.{◌≡◌};
ghost use Rattle.std.specs.Option.{option_copied};
ghost use Rattle.wb_keys.specs.KeyFile.{line_by_hash, rights_by_hash};

use crate::{Lines, Right};
use deb_text::{Items, Text};

/// A line with a key (this project's own).
#[derive(Debug, Drop)]
pub struct KeyLine {
    /// Who has the key: the form is that of a builder's name.
    pub name: Text,
    /// What it allows, one right or more.
    pub rights: Items<Right>,
    /// The SHA-256 digest of the key.
    pub hash: [u8; 32],
}

/// The lines of a key file (this project's own).
#[derive(Debug, Drop)]
pub struct Keys {
    /// The lines with a key, at most 1000, in their order.
    pub lines: Lines,
    /// The rights of the line `*`, for requests without a key; none if there is no such line.
    pub anyone: Option<Items<Right>>,
}

impl Keys {
    /// The line with this hash, or none if no line has it. Takes no memory (this project's own).
    #[tactic(auto, unfolding(crate::specs::KeyFile::line_by_hash))]
    pub fn line_by_hash(&self, hash: &[u8; 32]) -> Option<&KeyLine>
        ensures value { option_copied result ≡ line_by_hash self.now hash.now }
    {
        self.lines.by_hash(hash)
    }

    /// The rights of the line with this hash, or none if no line has it. Takes no memory (this
    /// project's own).
    pub fn rights_by_hash(&self, hash: &[u8; 32]) -> Option<&[Right]>
        ensures value { option_copied result ≡ rights_by_hash self.now hash.now }
    {
        match self.line_by_hash(hash) {
            Some(line) => Some(line.rights.as_slice()),
            None => None,
        }
    }
}
