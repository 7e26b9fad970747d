//! Who may ask an office for what: everybody, or who has a key.
ghost use Rattle.std.specs.Prelude.{◌≡◌};
ghost use Rattle.std.specs.Option.{option_copied, option_map};
ghost use Rattle.wb_keys.specs.Access.{name_of, rights_by_keys, rights_of};
ghost use Rattle.wb_keys.specs.Rights.{rights_named};

use crate::{Keys, Right, Rights};
use deb_text::Text;

/// What a request shows of a key (this project's own).
#[derive(Clone, Copy, Debug)]
pub enum Shown {
    /// Nothing: it has no field for it.
    Nothing,
    /// No key: its field is malformed, or stands twice.
    Malformed,
    /// A key with this hash.
    Hash([u8; 32]),
}

/// Who may ask an office for what (this project's own).
#[derive(Debug, Drop)]
pub enum Access {
    /// Everybody for everything, whatever a request shows: that of an office without keys.
    Everybody,
    /// Who has a key for what its line allows, and everybody for what the line `*` allows.
    ByKeys(Keys),
}

/// The rights of a request by the lines of keys, or none if it is refused.
fn rights_by_keys<'a>(keys: &'a Keys, shown: &Shown) -> Option<&'a [Right]>
    ensures { option_copied result ≡ rights_by_keys keys.now shown.now }
{
    match shown {
        Shown::Nothing => match &keys.anyone {
            Some(rights) => Some(rights.as_slice()),
            None => None,
        },
        Shown::Malformed => None,
        Shown::Hash(hash) => keys.rights_by_hash(hash),
    }
}

impl Access {
    /// The rights of a request that shows this of a key: everything in an office without keys. None
    /// if it is refused for its lack of a key: it shows nothing and there is no line `*`, or it
    /// shows a key that is malformed or on no line, whatever the line `*` allows. Takes no memory
    /// (this project's own).
    pub fn rights_of(&self, shown: &Shown) -> Option<Rights<'_>>
        ensures value { option_map rights_named result ≡ rights_of self.now shown.now }
    {
        match self {
            Access::Everybody => Some(Rights::Everything),
            Access::ByKeys(keys) => match rights_by_keys(keys, shown) {
                Some(rights) => Some(Rights::These(rights)),
                None => None,
            },
        }
    }

    /// The name on the line of a request that shows this of a key, or none if it has no such line.
    /// Takes no memory (this project's own).
    pub fn name_of(&self, shown: &Shown) -> Option<&Text>
        ensures value { option_copied result ≡ name_of self.now shown.now }
    {
        match (self, shown) {
            (Access::ByKeys(keys), Shown::Hash(hash)) => match keys.line_by_hash(hash) {
                Some(line) => Some(&line.name),
                None => None,
            },
            _ => None,
        }
    }
}
