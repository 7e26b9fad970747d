//! Openings and closings of the office in two files, with the files that they give back.

use crate::images::Stopping;
use crate::office::SEED;
use crate::refusing::{begin, stop};
use anyhow::{Result, bail};
use sqlite::{Connection, FileStore, Files, Options};
use sqlite_disk::Disk;
use std::alloc::Global;
use wb_states::{StoreFault, Table};
use wb_store::{fault_of, laws, opening_fault};

/// Files that an opening or a closing gave back, and its fault if there was one.
#[derive(Drop)]
pub(crate) struct GivenBack {
    pub(crate) files: Files<Stopping>,
    pub(crate) fault: Option<StoreFault>,
}

/// Opens the office, as `Office::open` does, and closes it or gives it up; a request for memory may be refused
/// meanwhile.
pub(crate) fn prepared(alloc: Global, files: Files<Stopping>, closes: bool) -> Result<GivenBack> {
    begin(alloc);
    let given = given_back(alloc, files, closes);
    stop(alloc);
    given
}

/// What is given back of the files.
fn given_back(alloc: Global, files: Files<Stopping>, closes: bool) -> Result<GivenBack> {
    if !files.log.may_be_used() || !files.db.may_be_used() {
        bail!("a file cannot be used");
    }
    let mut conn = match wb_sql::open(alloc, files, Options::new(SEED)) {
        Ok(conn) => conn,
        Err((error, left)) => {
            return Ok(GivenBack {
                files: left,
                fault: Some(opening_fault(error)),
            });
        }
    };
    let found = laws::prepare(&mut conn);
    if found.is_err() || !closes {
        return Ok(GivenBack {
            files: wb_sql::surrender(conn),
            fault: found.err(),
        });
    }
    Ok(closed(conn))
}

/// Closes the office, as `Office::close` does.
fn closed(conn: Connection<FileStore<Stopping>>) -> GivenBack {
    match wb_sql::close(conn) {
        Ok(files) => GivenBack { files, fault: None },
        Err((error, files)) => GivenBack {
            files,
            fault: Some(fault_of(error, Table::Office)),
        },
    }
}
