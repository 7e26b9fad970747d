//! How the rows of a merge are taken out of the scratch tables, in a transaction. Each speaks of a
//! database that stands for a
//! state of the office with the rows of a merge, keeps the state, and makes it stand for the rows
//! after the change. The fault
//! of each is that of its statement, with its table: `Damaged` with row 0 also if the transaction
//! is over. The caller then
//! rolls back.

ghost use Rattle.std.specs.Prelude.{◌≡◌, ◌<◌, ◌^◌};
ghost use Rattle.wb_store.specs.ScratchWrites as scratch;
ghost use Rattle.wb_states.specs.declared.store_fault.Table.TheVariants.{ScratchBinary, ScratchSource};
ghost use Rattle.wb_store.specs.Merging.{without_binaries, without_sources};
ghost use Rattle.wb_store.specs.ScratchWrites.{ChangesScratch, ClearsScratch};

use crate::fault::answer_on;
use sqlite::{Alter, Connection, params};
use wb_sql::{delete, scratch};
use wb_states::{StoreFault, Table};

/// Removes the source packages up to a place, below 2^63; all else stays. The fault is that of the statement on their
/// table (this project's own).
fn remove_sources<S: Alter>(conn: &mut Connection<S>, place: u64) -> Result<(), StoreFault>
    requires fits { place < 2 ^ 63 }
    ensures changes { ChangesScratch S.Store (scratch.RemovesSources place) conn.old conn.new result }
{
    let answered = delete(conn, scratch::remove_sources(), params![place as i64]);
    answer_on(answered, Table::ScratchSource)
}

/// Removes the binary packages up to a place, below 2^63; all else stays. The fault is that of the statement on their
/// table (this project's own).
fn remove_binaries<S: Alter>(conn: &mut Connection<S>, place: u64) -> Result<(), StoreFault>
    requires fits { place < 2 ^ 63 }
    ensures changes { ChangesScratch S.Store (scratch.RemovesBinaries place) conn.old conn.new result }
{
    let answered = delete(conn, scratch::remove_binaries(), params![place as i64]);
    answer_on(answered, Table::ScratchBinary)
}

/// Removes all source packages; all else stays. The fault is that of the statement on their table (this project's own).
fn empty_sources<S: Alter>(conn: &mut Connection<S>) -> Result<(), StoreFault>
    ensures changes { ChangesScratch S.Store scratch.ClearsSources conn.old conn.new result }
{
    let answered = delete(conn, scratch::clear_sources(), &[]);
    answer_on(answered, Table::ScratchSource)
}

/// Removes all binary packages; all else stays. The fault is that of the statement on their table (this project's own).
fn empty_binaries<S: Alter>(conn: &mut Connection<S>) -> Result<(), StoreFault>
    ensures changes { ChangesScratch S.Store scratch.ClearsBinaries conn.old conn.new result }
{
    let answered = delete(conn, scratch::clear_binaries(), &[]);
    answer_on(answered, Table::ScratchBinary)
}

// One DELETE has all rows of its table in memory, 27 MB for 63,440. That no row is left follows
// from the last one alone; of the pieces it has to be known only that they change nothing else.
// DROP and CREATE of the tables would change the schema within each part, and each clause that says
// that the schema is as before.
/// How many places the statement that removes rows goes on at a time, so that few rows are in memory at once.
const PLACES: u64 = 1000;

/// Removes all binary packages, in pieces up to the place `last`, below 2^63, and then those that are left; all else stays.
/// The fault is that of the statement that failed, on their table (this project's own).
pub(crate) fn clear_binaries<S: Alter>(
    conn: &mut Connection<S>,
    last: u64,
) -> Result<(), StoreFault>
    requires fits { last < 2 ^ 63 }
    ensures clears { ClearsScratch S.Store ScratchBinary without_binaries conn.old conn.new result }
{
    for piece in 0..last / PLACES {
        remove_binaries(conn, (piece + 1) * PLACES)?;
    }
    empty_binaries(conn)
}

/// Removes all source packages, in pieces up to the place `last`, below 2^63, and then those that are left; all else stays.
/// The fault is that of the statement that failed, on their table (this project's own).
pub(crate) fn clear_sources<S: Alter>(conn: &mut Connection<S>, last: u64) -> Result<(), StoreFault>
    requires fits { last < 2 ^ 63 }
    ensures clears { ClearsScratch S.Store ScratchSource without_sources conn.old conn.new result }
{
    for piece in 0..last / PLACES {
        remove_sources(conn, (piece + 1) * PLACES)?;
    }
    empty_sources(conn)
}
