//! How an office of the first schema is brought over into the second, in one transaction.
ghost use Rattle.std.specs.Prelude.{◌≡◌, false, [], map as each, IfOk, IfErr};
ghost use Rattle.std.specs.List.{AllByRecursion};
ghost use Rattle.wb_archive.specs.Tables.{HasFittingTake};
ghost use Rattle.wb_states.specs.Lookups.{entry_of};
ghost use Rattle.wb_sql.specs.Rows.{IsStored};
ghost use Rattle.wb_sql.specs.Upgrading.{with_second};
ghost use Rattle.wb_rows.specs.FirstSchema.{IsOfFirst, first_cells};
ghost use Rattle.wb_states.specs.Machine.{Machine};
ghost use Rattle.wb_states.specs.Queue.{Entry};
ghost use Rattle.wb_states.specs.declared.store_fault.Table.TheVariants.{SourceState};
ghost use Rattle.wb_store.specs.Faults.{IsUnfit};
ghost use Rattle.wb_store.specs.Lookups.{AreRowsOf};
ghost use Rattle.wb_store.specs.declared.format.Format.TheVariants.{One};
ghost use Rattle.wb_store.specs.Stands.{StandsFor, office_row_in};
ghost use Rattle.wb_store.specs.Settled.{IsFirstOffice};
ghost use Rattle.wb_store.specs.FirstOpening.{BringsOver, ReadsOffice};
ghost use Rattle.wb_store.specs.Others.{same_schema};
ghost use Rattle.wb_store.specs.Upgrading.{IsBetween, IsFirstEntry, Moves, ReadsFirst, UpgradesOffice, first_keyed, with_records, without_records};

use crate::changes::{has_fitting_take, put};
use crate::fault::{answer_on, fault_of, unfit};
use crate::opening::check_first;
use crate::preparing::cause_of;
use crate::reading::rows_of;
use sqlite::{Alter, Connection, Row};
use wb_rows::first_record_of;
use wb_sql::{begin, commit, delete, first_schema, make_second_tables, roll_back, update};
use wb_states::{Counts, KeyedRecord, StoreFault, Table};

// One transaction, so that a crash leaves the database before it or after it, and both stand for
// the same state. All records are held in memory once, which no other call does: it happens once in
// the life of a file. In several transactions a crash would leave an office in both schemas at
// once.
/// Tests an office of the first schema, as [`check_first`] does, brings it over into the second, in one transaction, and answers
/// its two counts. The faults are those of the tests, those of the query for its records, and those of [`upgrade`]. Nothing is
/// written before all tests passed; a crash leaves the office in the one schema or in the other. No transaction is under way
/// after any answer (this project's own).
pub(crate) fn bring_over<S: Alter>(conn: &mut Connection<S>) -> Result<Counts, StoreFault>
    requires idle { conn.old.in_transaction ≡ false }
    ensures brings { BringsOver S.Store conn.old conn.new result }
{
    let (counts, records) = read_office(conn)?;
    // A query leaves no transaction behind.
    if !conn.is_autocommit() {
        return Err(unfit(Table::Office));
    }
    upgrade(conn, &records)?;
    Ok(counts)
}

/// The two counts of an office of the first schema and its records, if its rows are good.
fn read_office<S: Alter>(conn: &mut Connection<S>) -> Result<(Counts, Vec<KeyedRecord>), StoreFault>
    ensures reads { ReadsOffice S.Store conn.old conn.new result }
    ensures fit { IfOk result (λ read. AllByRecursion (λ read. HasFittingTake read.current) read.1.items) }
{
    let counts = check_first(conn)?;
    let records = first_records(conn)?;
    Ok((counts, records))
}

/// Brings the office of a database of the first schema over into the second, in one transaction: the tables of the second are
/// made, and the records, which are all of the office, are put into theirs and removed from the old one, which stays. The
/// build priority of each is 0. The tables of others keep their rows. The fault is that of the statement or of the commit
/// that failed, with its table; the database is then as it was, or, if the commit failed, it may be brought over. No
/// transaction is under way after any answer (this project's own).
fn upgrade<S: Alter>(conn: &mut Connection<S>, records: &[KeyedRecord]) -> Result<(), StoreFault>
    requires idle { conn.old.in_transaction ≡ false }
    requires fit { AllByRecursion (λ read. HasFittingTake read.current) records.now }
    ensures upgrades { UpgradesOffice S.Store (each entry_of records.now) conn.old conn.new result }
{
    begin(conn);
    if let Err(fault) = move_all(conn, records) {
        let _ = roll_back(conn);
        return Err(fault);
    }
    match commit(conn) {
        Ok(()) => Ok(()),
        Err(why) => {
            let _ = roll_back(conn);
            Err(fault_of(cause_of(why), Table::Office))
        }
    }
}

/// Makes the tables of the second schema, with these records, of those of the first.
fn move_all<S: Alter>(conn: &mut Connection<S>, records: &[KeyedRecord]) -> Result<(), StoreFault>
    requires fit { AllByRecursion (λ read. HasFittingTake read.current) records.now }
    ensures moves { (machine : Machine) → Moves S.Store with_second (IsFirstOffice machine)
        (StandsFor (with_records (without_records machine) (each entry_of records.now))) conn.old conn.new result }
{
    move_office(conn)?;
    put_all(conn, records)
}

/// Makes the tables of an office without a record beside those of the first schema, of which the records are removed and
/// all else stays.
fn move_office<S: Alter>(conn: &mut Connection<S>) -> Result<(), StoreFault>
    ensures moves { (machine : Machine) → Moves S.Store with_second (IsFirstOffice machine)
        (StandsFor (without_records machine)) conn.old conn.new result }
{
    make_tables(conn)?;
    clear_states(conn)?;
    set_format(conn)
}

/// Makes what the second schema adds to the first.
fn make_tables<S: Alter>(conn: &mut Connection<S>) -> Result<(), StoreFault>
    ensures moves { (machine : Machine) → Moves S.Store with_second (IsFirstOffice machine)
        (IsBetween machine (office_row_in One machine) IsStored) conn.old conn.new result }
{
    answer_on(make_second_tables(conn), Table::SourceRecord)
}

/// Removes the records from the table of the first schema.
fn clear_states<S: Alter>(conn: &mut Connection<S>) -> Result<(), StoreFault>
    ensures moves { (machine : Machine) → Moves S.Store same_schema
        (IsBetween machine (office_row_in One machine) IsStored)
        (IsBetween machine (office_row_in One machine) (λ rows. rows ≡ [])) conn.old conn.new result }
{
    let answered = delete(conn, first_schema::clear_states(), &[]);
    answer_on(answered, Table::SourceState)
}

/// Gives the office the format of the second schema.
fn set_format<S: Alter>(conn: &mut Connection<S>) -> Result<(), StoreFault>
    ensures moves { (machine : Machine) → Moves S.Store same_schema
        (IsBetween machine (office_row_in One machine) (λ rows. rows ≡ []))
        (StandsFor (without_records machine)) conn.old conn.new result }
{
    let answered = update(conn, first_schema::set_second_format(), &[]);
    answer_on(answered, Table::Office)
}

/// Gives each of these source packages its record.
fn put_all<S: Alter>(conn: &mut Connection<S>, records: &[KeyedRecord]) -> Result<(), StoreFault>
    requires fit { AllByRecursion (λ read. HasFittingTake read.current) records.now }
    ensures moves { (machine : Machine) → Moves S.Store same_schema (StandsFor machine)
        (StandsFor (with_records machine (each entry_of records.now))) conn.old conn.new result }
{
    for read in records {
        put(conn, &read.arch, &read.source, &read.current)?;
    }
    Ok(())
}

/// All records of an office of the first schema, by architecture and then by source package, each with build priority 0. The
/// faults are those of the query, `Memory`, and `Damaged` with row 0 if a row is not what an office keeps. The database stays
/// as it is, but for a transaction that a failure of the query takes back.
fn first_records<S: Alter>(conn: &mut Connection<S>) -> Result<Vec<KeyedRecord>, StoreFault>
    ensures reads { ReadsFirst S.Store conn.old conn.new result }
{
    let rows = rows_of(conn, Table::SourceState, first_schema::all_states(), &[])?;
    first_records_in(rows)
}

/// The records in these rows.
fn first_records_in(rows: Vec<Row>) -> Result<Vec<KeyedRecord>, StoreFault>
    ensures value { IfOk result (λ made. rows.items ≡ each first_keyed made.items) }
    ensures kept { IfOk result (λ made.
        AllByRecursion (λ read. IsOfFirst read.current × HasFittingTake read.current) made.items) }
    ensures err { IfErr result (IsUnfit SourceState (AreRowsOf first_cells IsFirstEntry rows.items)) }
{
    let mut made = Vec::new(*rows.allocator());
    for row in rows {
        made.push(first_record_in(&row)?)?;
    }
    Ok(made)
}

/// The record in a row.
fn first_record_in(row: &Row) -> Result<KeyedRecord, StoreFault>
    ensures value { IfOk result (λ made. row.now ≡ first_keyed made) }
    ensures kept { IfOk result (λ made. IsOfFirst made.current × HasFittingTake made.current) }
    ensures err { IfErr result (IsUnfit SourceState
        ((entry : Entry) × IsFirstEntry entry × (row.now ≡ first_cells entry))) }
{
    let Some(read) = first_record_of(row)? else {
        return Err(unfit(Table::SourceState));
    };
    if has_fitting_take(&read.current) {
        Ok(read)
    } else {
        Err(unfit(Table::SourceState))
    }
}
