//! What a refused call hands back beside its fault.

use sqlite::{Alter, Connection, Files};
use sqlite_disk::Disk;
use wb_states::StoreFault;

/// A connection whose office was refused (this project's own).
#[derive(Drop)]
pub struct RefusedConnection<S: Alter + Drop> {
    /// Why it was refused.
    pub fault: StoreFault,
    /// The connection, as the search for the office left it.
    pub conn: Connection<S>,
}

/// Files whose office was not opened or not closed (this project's own).
#[derive(Drop)]
pub struct RefusedFiles<D: Disk + Drop> {
    /// Why it was not.
    pub fault: StoreFault,
    /// The files, as the opening or the closing left them.
    pub files: Files<D>,
}
