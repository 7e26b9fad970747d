//! The lists that a merge names.

use std::alloc::{AllocError, Global};
use std::fs;
use std::io::{self, BufReader, Read};
use std::rt::Files;
use wb_daemon::RunLists;
use wb_lists::Lists;

/// The lists that stand in files, whose names are paths from the working directory.
pub(crate) struct FileLists<'a, F> {
    pub(crate) rt: &'a F,
}

impl<'a, F> Drop for FileLists<'a, F> {
    fn drop(self) {
        let FileLists { rt: _ } = self;
    }
}

impl<'a, F: Files> Lists for FileLists<'a, F> {
    type List = BufReader<F::File>;

    fn open(
        &mut self,
        alloc: Global,
        name: &str,
    ) -> Result<Option<BufReader<F::File>>, AllocError> {
        let Ok(file) = fs::open(self.rt, name) else {
            return Ok(None);
        };
        Ok(Some(BufReader::new(alloc, file).ok().ok_or(AllocError)?))
    }
}

impl<'a, F: Files> RunLists for FileLists<'a, F> {
    fn read(list: &mut BufReader<F::File>, room: &mut [u8]) -> io::Result<usize> {
        list.read(room)
    }
}
