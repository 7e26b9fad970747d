//! Laws of the tables: two on functions that do nothing, and that of an opening, on the call that each opening is.
ghost use Rattle.std.specs.Prelude.{◌≡◌, false};
ghost use Rattle.sqlite.specs.Effect.{Database};
ghost use Rattle.wb_states.specs.Machine.{IsConsistent, Machine};
ghost use Rattle.wb_store.specs.Checks.{HasGoodRows};
ghost use Rattle.wb_store.specs.Opening.{PreparesOffice};
ghost use Rattle.wb_store.specs.Merging.{Scratch};
ghost use Rattle.wb_store.specs.Stands.{StandsFor};
ghost use Rattle.wb_store.specs.TableRows.{table_rows};

use crate::checks::other_fault;
use crate::fault_of;
use crate::opening::check;
use crate::preparing::make_office;
use crate::upgrading::bring_over;
use sqlite::{Alter, Connection};
use wb_sql::{has_first_office_tables, has_office_tables, lacks_office};
use wb_states::{Counts, StoreFault, Table};

/// A state for which a database stands is consistent, if the rows of its tables are good: those that
/// [`crate::check_counts`], [`crate::check_archs`], [`crate::check_builders`] and [`crate::check_records`] find good.
/// Source: this project's own.
pub fn good_rows_are_of_a_consistent_office()
    ensures consistent { (machine : Machine) (db : Database) → StandsFor machine db → HasGoodRows db
        → IsConsistent machine }
{}

/// No two states of an office, with the rows of a merge, have the same rows in their tables, so that who compares all rows
/// compares the states.
/// Source: this project's own.
pub fn rows_are_of_one_state()
    ensures same { (one other : Machine) (some more : Scratch)
        → table_rows one some ≡ table_rows other more → (one ≡ other) × (some ≡ more) }
{}

/// Prepares the database of an office, and answers the two counts of the office that it holds, or of an empty one, whose
/// tables are made first if the database lacks them, as [`lacks_office`] says. An office of the first schema, as
/// [`has_first_office_tables`] says, is brought over into the second once all its rows were tested. Tables of others may stand
/// beside them, as [`has_office_tables`] says. [`Store::adopt`](crate::Store::adopt) is this call, with the connection that it is given.
/// The faults of a database that neither has the office's tables nor lacks them are `NewerSchema` if its table `office`
/// shows a format above 2, and else `NotOffice`. The others are that of the first test that fails, and before it that of
/// the table of the office if the tables cannot be made. What was there stays as it is, but for a transaction that a
/// failure of a query takes back; a crash of a database that lacks the tables leaves that, or the empty office. No
/// transaction is under way after any answer (this project's own).
pub fn prepare<S: Alter>(conn: &mut Connection<S>) -> Result<Counts, StoreFault>
    requires idle { conn.old.in_transaction ≡ false }
    ensures prepares { PreparesOffice S.Store conn.old conn.new result }
{
    if has_office_tables(conn.schema()) {
        return check(conn);
    }
    if has_first_office_tables(conn.schema()) {
        return bring_over(conn);
    }
    if !lacks_office(conn.schema()) {
        return Err(other_fault(conn));
    }
    match make_office(conn) {
        Ok(()) => check(conn),
        Err(error) => Err(fault_of(error, Table::Office)),
    }
}
