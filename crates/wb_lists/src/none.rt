//! Lists of which there is none.
ghost use Rattle.wb_lists.specs.Lists.{no_lists};

use crate::lists::Lists;
use std::alloc::{AllocError, Global};
use std::io::Empty;

/// Lists of which none can be opened (this project's own).
#[derive(Clone, Copy, Debug, Default, PartialEq, Eq, Drop)]
pub struct NoLists;

impl Lists for NoLists {
    type List = Empty;

    ghost may_read = { λ _. no_lists };

    fn open(&mut self, _alloc: Global, _name: &str) -> Result<Option<Empty>, AllocError> {
        Ok(None)
    }
}
