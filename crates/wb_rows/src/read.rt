//! What a row of the office's tables stands for.
ghost use Rattle.std.specs.Prelude.{◌≡◌, IfOk, IfErr, IfSome, IfNone};
ghost use Rattle.wb_rows.specs.declared.fault.RowFault.TheVariants.{Malformed};
ghost use Rattle.wb_states.specs.Lookups.{entry_of};
ghost use Rattle.wb_rows.specs.Cells.{arch_cells, builder_cells, record_cells, state_cells};
ghost use Rattle.wb_rows.specs.FirstSchema.{IsNoFirst, IsOfFirst, first_cells};
ghost use Rattle.wb_rows.specs.Reading.{IsNoArch, IsNoBuilder, IsNoRecord, IsNoState};

use crate::columns::{number_at, state_at, text_at};
use crate::fault::RowFault;
use crate::fields::{fields_of, first_fields_of, key_of};
use deb_text::Text;
use sqlite::Row;
use std::alloc::AllocError;
use wb_states::{KeyedRecord, OsCpu, State, rank};

// A row of the first schema has a reader of its own. A query that adds this number and a build
// priority to each row would spare it, but of a sum in a SELECT nothing is proved here.
/// What the rank of a record is greater by than its rank by the first schema, where its build priority is 0.
const RANK_STEP: u64 = 348000;

/// The record, with its key, whose row this is: one of exactly 16 columns, each of its type, with the number of a
/// state, a version, 1 or 0 for what is or is not so, numbers that fit, and the rank of the record in the last
/// column. None if the row is not that of a record; nothing is repaired. The only error is that memory ran out
/// (this project's own).
pub fn record_of(row: &Row) -> Result<Option<KeyedRecord>, AllocError>
    ensures value { IfOk result (λ found. IfSome found (λ made.
        row.now ≡ record_cells (entry_of made))) }
    ensures none { IfOk result (λ found. IfNone found (IsNoRecord row.now)) }
{
    match read_record(row) {
        Ok(made) => Ok(Some(made)),
        Err(RowFault::Malformed) => Ok(None),
        Err(RowFault::Memory) => Err(AllocError),
    }
}

fn read_record(row: &Row) -> Result<KeyedRecord, RowFault>
    ensures value { IfOk result (λ made. row.now ≡ record_cells (entry_of made)) }
    ensures refused { IfErr result (λ fault. fault ≡ Malformed → IsNoRecord row.now) }
{
    if row.column_count() != 16 {
        return Err(RowFault::Malformed);
    }
    let (arch, source) = key_of(row)?;
    let current = fields_of(row)?;
    let place = number_at(row, 15)?;
    if place != u64::from(rank(&current)) {
        return Err(RowFault::Malformed);
    }
    Ok(KeyedRecord {
        arch,
        source,
        current,
    })
}

/// The record, with its key, whose row this is in the first schema: one of exactly 15 columns, each of its type, with the
/// number of one of the nine states that this schema knows, a version, 1 or 0 for what is or is not so, numbers that fit,
/// and the rank of the record by this schema in the last column, which is 348000 less than by the second. Its build
/// priority is 0. None if the row is not that of a record; nothing is repaired. The only error is that memory ran out
/// (this project's own).
pub fn first_record_of(row: &Row) -> Result<Option<KeyedRecord>, AllocError>
    ensures value { IfOk result (λ found. IfSome found (λ made.
        (row.now ≡ first_cells (entry_of made)) × IsOfFirst made.current)) }
    ensures none { IfOk result (λ found. IfNone found (IsNoFirst row.now)) }
{
    match read_first_record(row) {
        Ok(made) => Ok(Some(made)),
        Err(RowFault::Malformed) => Ok(None),
        Err(RowFault::Memory) => Err(AllocError),
    }
}

fn read_first_record(row: &Row) -> Result<KeyedRecord, RowFault>
    ensures value { IfOk result (λ made. (row.now ≡ first_cells (entry_of made)) × IsOfFirst made.current) }
    ensures refused { IfErr result (λ fault. fault ≡ Malformed → IsNoFirst row.now) }
{
    if row.column_count() != 15 {
        return Err(RowFault::Malformed);
    }
    let (arch, source) = key_of(row)?;
    let current = first_fields_of(row)?;
    let place = number_at(row, 14)?;
    if place.saturating_add(RANK_STEP) != u64::from(rank(&current)) {
        return Err(RowFault::Malformed);
    }
    Ok(KeyedRecord {
        arch,
        source,
        current,
    })
}

/// The architecture, with its words, whose row this is: one of exactly 3 columns, each a text in UTF-8. None if
/// the row is not that of an architecture. The only error is that memory ran out (this project's own).
pub fn arch_of(row: &Row) -> Result<Option<(Text, OsCpu)>, AllocError>
    ensures value { IfOk result (λ found. IfSome found (λ made. row.now ≡ arch_cells made)) }
    ensures none { IfOk result (λ found. IfNone found (IsNoArch row.now)) }
{
    match read_arch(row) {
        Ok(made) => Ok(Some(made)),
        Err(RowFault::Malformed) => Ok(None),
        Err(RowFault::Memory) => Err(AllocError),
    }
}

fn read_arch(row: &Row) -> Result<(Text, OsCpu), RowFault>
    ensures value { IfOk result (λ made. row.now ≡ arch_cells made) }
    ensures refused { IfErr result (λ fault. fault ≡ Malformed → IsNoArch row.now) }
{
    if row.column_count() != 3 {
        return Err(RowFault::Malformed);
    }
    let name = text_at(row, 0)?;
    let os = text_at(row, 1)?;
    let cpu = text_at(row, 2)?;
    Ok((name, OsCpu { os, cpu }))
}

/// The builder and the architecture whose row this is: one of exactly 2 columns, each a text in UTF-8. None if
/// the row is not that of a builder. The only error is that memory ran out (this project's own).
pub fn builder_of(row: &Row) -> Result<Option<(Text, Text)>, AllocError>
    ensures value { IfOk result (λ found. IfSome found (λ made. row.now ≡ builder_cells made)) }
    ensures none { IfOk result (λ found. IfNone found (IsNoBuilder row.now)) }
{
    match read_builder(row) {
        Ok(made) => Ok(Some(made)),
        Err(RowFault::Malformed) => Ok(None),
        Err(RowFault::Memory) => Err(AllocError),
    }
}

fn read_builder(row: &Row) -> Result<(Text, Text), RowFault>
    ensures value { IfOk result (λ made. row.now ≡ builder_cells made) }
    ensures refused { IfErr result (λ fault. fault ≡ Malformed → IsNoBuilder row.now) }
{
    if row.column_count() != 2 {
        return Err(RowFault::Malformed);
    }
    let name = text_at(row, 0)?;
    let arch = text_at(row, 1)?;
    Ok((name, arch))
}

/// The state that a row shows of a record and nothing else: the row has exactly 1 column, with the number of the state.
/// None if the row is not that of a state. The only error is that memory ran out (this project's own).
pub fn state_of(row: &Row) -> Result<Option<State>, AllocError>
    ensures value { IfOk result (λ found. IfSome found (λ made. row.now ≡ state_cells made)) }
    ensures none { IfOk result (λ found. IfNone found (IsNoState row.now)) }
{
    match read_state(row) {
        Ok(made) => Ok(Some(made)),
        Err(RowFault::Malformed) => Ok(None),
        Err(RowFault::Memory) => Err(AllocError),
    }
}

fn read_state(row: &Row) -> Result<State, RowFault>
    ensures value { IfOk result (λ made. row.now ≡ state_cells made) }
    ensures refused { IfErr result (λ fault. fault ≡ Malformed → IsNoState row.now) }
{
    if row.column_count() != 1 {
        return Err(RowFault::Malformed);
    }
    let state = state_at(row, 0)?;
    Ok(state)
}
