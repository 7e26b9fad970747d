//! The lists that lines name, of which there is none.

use crate::reader::CutReader;
use std::alloc::{AllocError, Global};
use std::io::{self, BufReader, Read};
use wb_daemon::RunLists;
use wb_lists::Lists;

/// Lists of which none can be opened.
#[derive(Drop)]
pub(crate) struct NoLists;

impl Lists for NoLists {
    type List = BufReader<CutReader<'static>>;

    fn open(
        &mut self,
        _alloc: Global,
        _name: &str,
    ) -> Result<Option<BufReader<CutReader<'static>>>, AllocError> {
        Ok(None)
    }
}

impl RunLists for NoLists {
    fn read(list: &mut BufReader<CutReader<'static>>, room: &mut [u8]) -> io::Result<usize> {
        list.read(room)
    }
}
