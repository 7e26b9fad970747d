//! What the first page of a file says of the database in it, before that is opened.

use crate::starting::{Front, Pages, front_of};
use memchr::memmem;
use std::fs;
use std::io::{ErrorKind, Read};

/// How many bytes are read: those of the first page of an office.
const PAGE_SIZE: usize = 4_096;

/// Where the header of a database says how many bytes at the end of each page are left to others.
const RESERVED_AT: usize = 20;

/// How many of these bytes a checksum takes.
const SUM_SIZE: u8 = 8;

// The opening of such a file takes the square of its records, in the kit's test of `take INTEGER
// UNIQUE` over many NULLs, before any code here is asked. The call that takes the time says nothing
// on the way, so it is said before.
/// How the statement goes on that made the table of the records, in format 1.
const FIRST_RECORDS: &[u8] = b"TABLE source_state(";

/// The same in format 2.
const RECORDS: &[u8] = b"TABLE source_record(";

/// What the first page of a file says of the database in it.
#[derive(Clone, Copy)]
pub(crate) struct FirstPage {
    /// What the file begins with.
    pub(crate) front: Front,
    /// Whether the pages of the database have room for checksums; those of a file that holds none
    /// will have it.
    pub(crate) pages: Pages,
    /// It has the records of an office of format 1, and none of format 2. That is only said, so a
    /// page that tells it wrongly, as one of which the list of tables stands elsewhere, changes
    /// nothing.
    pub(crate) is_of_first_format: bool,
}

impl FirstPage {
    /// The page of a file that begins so, and not as a database does.
    fn of_none(front: Front) -> FirstPage {
        FirstPage {
            front,
            pages: Pages::Summed,
            is_of_first_format: false,
        }
    }

    /// What this page says.
    fn of(page: &[u8]) -> FirstPage {
        let front = front_of(page);
        if front != Front::Database {
            return FirstPage::of_none(front);
        }
        FirstPage {
            front,
            pages: match page.get(RESERVED_AT) {
                Some(size) if *size != SUM_SIZE => Pages::Unsummed,
                _ => Pages::Summed,
            },
            is_of_first_format: memmem::find(page, FIRST_RECORDS).is_some()
                && memmem::find(page, RECORDS).is_none(),
        }
    }

    /// What the first page of this file says. It is to be read before the file is opened as a
    /// database, since the end of a later read would let go of the locks on it. What is no regular
    /// file is not read: a pipe would be waited for.
    pub(crate) fn read(rt: &HostRuntime, file: &str) -> FirstPage {
        match fs::metadata(rt, file) {
            Ok(found) if found.is_file() => read_regular(rt, file),
            Err(error) if error.kind() == ErrorKind::NotFound => FirstPage::of_none(Front::Nothing),
            _ => FirstPage::of_none(Front::Unclear),
        }
    }
}

/// What the first page of this regular file says.
fn read_regular(rt: &HostRuntime, file: &str) -> FirstPage {
    let mut page = [0u8; PAGE_SIZE];
    let Ok(mut data) = fs::File::open(rt, file) else {
        return FirstPage::of_none(Front::Unclear);
    };
    match data.read(&mut page) {
        Ok(size) => match page.get(..size) {
            Some(page) => FirstPage::of(page),
            None => FirstPage::of_none(Front::Unclear),
        },
        Err(_) => FirstPage::of_none(Front::Unclear),
    }
}
