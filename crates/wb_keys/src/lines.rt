//! The lines with a key, with indexes by which names and hashes are found.
ghost use Rattle.std.specs.Prelude.{◌≡◌, [], ◌∷◌, ◌++◌, false, find, length, IfOk};
ghost use Rattle.std.specs.List.{list_any};
ghost use Rattle.std.specs.Option.{option_copied};
ghost use Rattle.wb_keys.specs.KeyFile.{has_hash, has_name};

use crate::KeyLine;
use deb_text::Text;
use indexmap::{IndexMap, IndexSet};
use std::alloc::{AllocError, Global};
use std::marker::Model;

// The hashes are those of keys, so how long a look-up takes says nothing of a key: nobody can
// choose what its hash is.
/// The lines with a key, in their order: no two with one name, and no two with one hash. A hash or
/// a name is found in the same time however many lines there are. Clauses see it as the list of
/// lines (this project's own).
#[derive(Debug, Drop)]
pub struct Lines {
    by_hash: IndexMap<[u8; 32], KeyLine>,
    names: IndexSet<String>,
}

impl Model for Lines {
    ghost use Rattle.std.specs.Prelude.{List};
    ghost use Rattle.wb_keys.specs.declared.keys.KeyLine.{KeyLine};

    ghost Value = { List KeyLine };

    ghost use Rattle.wb_keys.specs.Lines.{kept_lines, IsIndexed};

    ghost view = { kept_lines };

    ghost invariant = { IsIndexed };
}

impl Lines {
    /// No lines, which take no memory.
    pub(crate) fn new(alloc: Global) -> Lines
        ensures { result ≡ [] }
    {
        Lines {
            by_hash: IndexMap::new(alloc),
            names: IndexSet::new(alloc),
        }
    }

    /// How many lines there are.
    pub(crate) fn len(&self) -> usize
        ensures { result ≡ length self.now }
    {
        self.by_hash.len()
    }

    /// Whether a line has this name.
    pub(crate) fn has_name(&self, name: &Text) -> bool
        ensures { result ≡ list_any (has_name name.now) self.now }
    {
        self.names.contains(name.as_str())
    }

    /// Whether a line has this hash.
    pub(crate) fn has_hash(&self, hash: &[u8; 32]) -> bool
        ensures { result ≡ list_any (has_hash hash.now) self.now }
    {
        self.by_hash.contains_key(hash)
    }

    /// The line with this hash, or none if no line has it. Takes no memory (this project's own).
    pub fn by_hash(&self, hash: &[u8; 32]) -> Option<&KeyLine>
        ensures value { option_copied result ≡ find (has_hash hash.now) self.now }
    {
        self.by_hash.get(hash)
    }

    /// These lines, and one more after them.
    pub(crate) fn with(self, line: KeyLine) -> Result<Lines, AllocError>
        requires name { list_any (has_name line.name) self ≡ false }
        requires hash { list_any (has_hash line.hash) self ≡ false }
        ensures { IfOk result (λ lines. lines ≡ self ++ line ∷ []) }
    {
        let Lines {
            mut by_hash,
            mut names,
        } = self;
        names.insert(String::from(line.name.clone()?))?;
        by_hash.insert(line.hash, line)?;
        Ok(Lines { by_hash, names })
    }
}
