//! The rows that a query answers, as what an office keeps.
ghost use Rattle.std.specs.Prelude.{◌≡◌, ℕ, ◌^◌, ◌-◌, min, pos, IfOk, IfErr, map as each};
ghost use Rattle.std.specs.Option.{option_map};
ghost use Rattle.sqlite.specs.Values.{bound};
ghost use Rattle.deb_text.specs.Lists.{first_of};
ghost use Rattle.wb_states.specs.declared.store_fault.Table.TheVariants.{Arch, Office, SourceRecord};
ghost use Rattle.wb_store.specs.Faults.{IsUnfit};
ghost use Rattle.wb_store.specs.Lookups.{AreArchs, AreCounts, AreRecords, AreStates, HasArch, HasNumberAt, HasRecord, HasState, HaveCounts, ReadsRecords, ReadsTable, keyed_cells};
ghost use Rattle.wb_store.specs.ScratchLookups.{AreNames, HasName};
ghost use Rattle.wb_rows.specs.Cells.{arch_cells, number, state_cells};
ghost use Rattle.wb_rows.specs.Scratch.{name_cells};
ghost use Rattle.sqlite.specs.Order.{column};

use crate::fault::{answer_on, unfit};
use deb_text::Text;
use sqlite::types::ValueRef;
use sqlite::{Alter, Connection, Error, ErrorCode, Row};
use wb_rows::{arch_of, name_of, record_of, state_of};
use wb_sql::read;
use wb_states::{Counts, KeyedRecord, OsCpu, Record, State, StoreFault, Table};

/// The rows that the query answers. Its fault names this table. The database stays as it is, but for
/// a transaction that a failure of the query takes back.
pub(crate) fn rows_of<S: Alter>(
    conn: &mut Connection<S>,
    table: Table,
    sql: &str,
    params: &[ValueRef<'_>],
) -> Result<Vec<Row>, StoreFault>
    ensures reads { ReadsTable S.Store table sql.now (bound params.now) conn.old conn.new result }
{
    let answered = read(conn, sql, params);
    answer_on(answered, table)
}

/// The number from 0 in a column; columns are counted from 0. The table of the office is damaged if the column has none.
fn count_at(row: &Row, at: usize) -> Result<u64, StoreFault>
    ensures value { IfOk result (λ n. column row.now at ≡ number n) }
    ensures err { IfErr result (IsUnfit Office (HasNumberAt row.now at)) }
{
    match row.get(at) {
        Ok(count) => Ok(count),
        Err(Error::SqliteFailure(ErrorCode::OutOfMemory)) => Err(StoreFault::Memory),
        Err(_) => Err(unfit(Table::Office)),
    }
}

/// The two counts in the row of the office, after its format. The table is damaged if the row is another one.
pub(crate) fn counts_in(rows: &[Row]) -> Result<Counts, StoreFault>
    ensures value { IfOk result (λ counts. (handed accepted : ℕ) → AreCounts rows.now handed accepted
        → (counts.handed ≡ handed) × (counts.accepted ≡ accepted)) }
    ensures err { IfErr result (IsUnfit Office (HaveCounts rows.now)) }
{
    let Some(row) = rows.first() else {
        return Err(unfit(Table::Office));
    };
    Ok(Counts {
        handed: count_at(row, 1)?,
        accepted: count_at(row, 2)?,
    })
}

/// The record in a row. The table is damaged if the row is not that of a record.
fn record_in(row: &Row) -> Result<KeyedRecord, StoreFault>
    ensures value { IfOk result (λ made. row.now ≡ keyed_cells made) }
    ensures err { IfErr result (IsUnfit SourceRecord (HasRecord row.now)) }
{
    record_of(row)?.ok_or(unfit(Table::SourceRecord))
}

/// The records in these rows. The table is damaged if a row is not that of a record.
fn records_in(rows: Vec<Row>) -> Result<Vec<KeyedRecord>, StoreFault>
    ensures value { IfOk result (λ made. rows.items ≡ each keyed_cells made.items) }
    ensures err { IfErr result (IsUnfit SourceRecord (AreRecords rows.items)) }
{
    let mut made = Vec::new(*rows.allocator());
    for row in rows {
        made.push(record_in(&row)?)?;
    }
    Ok(made)
}

/// The records that a query on their table answers, in its order. The faults are that of the query, `Memory`, and
/// `Damaged` with row 0 if a row is no record. The database stays as it is, but for a transaction that a failure takes
/// back.
pub(crate) fn records<S: Alter>(
    conn: &mut Connection<S>,
    sql: &str,
    params: &[ValueRef<'_>],
) -> Result<Vec<KeyedRecord>, StoreFault>
    ensures reads { ReadsRecords S.Store sql.now (bound params.now) conn.old conn.new result }
{
    records_in(rows_of(conn, Table::SourceRecord, sql, params)?)
}

/// The state in a row. The table of records is damaged if the row is not that of a state.
fn state_in(row: &Row) -> Result<State, StoreFault>
    ensures value { IfOk result (λ made. row.now ≡ state_cells made) }
    ensures err { IfErr result (IsUnfit SourceRecord (HasState row.now)) }
{
    state_of(row)?.ok_or(unfit(Table::SourceRecord))
}

/// The states in these rows. The table of records is damaged if a row is not that of a state.
pub(crate) fn states_in(rows: Vec<Row>) -> Result<Vec<State>, StoreFault>
    ensures value { IfOk result (λ made. rows.items ≡ each state_cells made.items) }
    ensures err { IfErr result (IsUnfit SourceRecord (AreStates rows.items)) }
{
    let mut made = Vec::new(*rows.allocator());
    for row in rows {
        made.push(state_in(&row)?)?;
    }
    Ok(made)
}

/// The name in a row of the table, which is damaged if the row is not that of a name.
fn name_in(table: Table, row: &Row) -> Result<Text, StoreFault>
    ensures value { IfOk result (λ made. row.now ≡ name_cells made) }
    ensures err { IfErr result (IsUnfit table (HasName row.now)) }
{
    name_of(row)?.ok_or(unfit(table))
}

/// The names in these rows of the table, which is damaged if a row is not that of one.
pub(crate) fn names_in(table: Table, rows: Vec<Row>) -> Result<Vec<Text>, StoreFault>
    ensures value { IfOk result (λ made. rows.items ≡ each name_cells made.items) }
    ensures err { IfErr result (IsUnfit table (AreNames rows.items)) }
{
    let mut made = Vec::new(*rows.allocator());
    for row in rows {
        made.push(name_in(table, &row)?)?;
    }
    Ok(made)
}

/// The architecture, with its words, in a row. The table is damaged if the row is not that of an architecture.
fn arch_in(row: &Row) -> Result<(Text, OsCpu), StoreFault>
    ensures value { IfOk result (λ made. row.now ≡ arch_cells made) }
    ensures err { IfErr result (IsUnfit Arch (HasArch row.now)) }
{
    arch_of(row)?.ok_or(unfit(Table::Arch))
}

/// The architectures, with their words, in these rows. The table is damaged if a row is not that of one.
pub(crate) fn archs_in(rows: Vec<Row>) -> Result<Vec<(Text, OsCpu)>, StoreFault>
    ensures value { IfOk result (λ made. rows.items ≡ each arch_cells made.items) }
    ensures err { IfErr result (IsUnfit Arch (AreArchs rows.items)) }
{
    let mut made = Vec::new(*rows.allocator());
    for row in rows {
        made.push(arch_in(&row)?)?;
    }
    Ok(made)
}

/// The first of some records.
pub(crate) fn first_in(records: Vec<KeyedRecord>) -> Option<KeyedRecord>
    ensures { result ≡ first_of records.items }
{
    records.into_iter().next()
}

/// The first of some records, without its key.
pub(crate) fn current_in(records: Vec<KeyedRecord>) -> Option<Record>
    ensures { result ≡ option_map (λ row. row.current) (first_of records.items) }
{
    Some(first_in(records)?.current)
}

// No record has a take number as great as that, since counts end at 10^12.
/// A number as SQL keeps it. A number that is too great for that is the greatest, 2^63 - 1.
pub(crate) fn stored_number(number: u64) -> i64
    ensures { result ≡ pos (min number (2 ^ 63 - 1)) }
{
    i64::try_from(number).unwrap_or(i64::MAX)
}
