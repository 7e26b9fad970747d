//! A list that is kept, whose value is its items, whatever its capacity.
ghost use Rattle.std.specs.Prelude.{◌≡◌, [], ◌∷◌, ◌++◌, OnOk, OnErr};

use std::alloc::{AllocError, Global};
use std::marker::Model;

// As for `Text`: the value of a `Vec` also has its capacity, so two lists of equal items would
// differ.
/// The items of a list, in their order. Clauses see it as the list.
/// Source: this project's own.
#[derive(Debug, Drop)]
pub struct Items<T> {
    items: Vec<T>,
}

impl<T> Model for Items<T> {
    ghost use Rattle.std.specs.Prelude.{List};

    ghost Value = { List T };

    ghost view = { λ list. list.items.items };
}

impl<T> Items<T> {
    /// The empty list, which takes no memory.
    /// Source: this project's own.
    pub fn new(alloc: Global) -> Items<T>
        ensures { result ≡ [] }
    {
        Items {
            items: Vec::new(alloc),
        }
    }

    /// The items as a borrowed slice.
    /// Source: this project's own.
    pub fn as_slice(&self) -> &[T]
        ensures { result.now ≡ self.now }
    {
        self.items.as_slice()
    }
}

/// Takes a list over as it is, without taking memory.
/// Source: this project's own.
impl<T> From<Vec<T>> for Items<T> {
    ghost from_gives = { λ list items. items ≡ list.items };

    fn from(list: Vec<T>) -> Items<T> {
        Items { items: list }
    }
}

impl<T: Drop> Items<T> {
    /// Adds an item at the end. The only error is that memory ran out; the list then stays as it was.
    /// Source: this project's own.
    pub fn push(&mut self, item: T) -> Result<(), AllocError>
        ensures value { OnOk result (self.new ≡ self.old ++ item ∷ []) }
        ensures unchanged { OnErr result (self.new ≡ self.old) }
    {
        match self.items.push(item) {
            Ok(()) => Ok(()),
            Err(_) => Err(AllocError),
        }
    }
}
