//! The key and the fields of a record, a few columns at a time.
ghost use Rattle.std.specs.Prelude.{◌≡◌, ◌≤◌, [], ◌∷◌, length, pos, IfOk, IfErr};
ghost use Rattle.sqlite.specs.declared.types.Value.TheVariants.{Int};
ghost use Rattle.wb_rows.specs.declared.fault.RowFault.TheVariants.{Malformed};
ghost use Rattle.wb_rows.specs.Cells.{number, number_or_null, flag, text_or_null};
ghost use Rattle.wb_rows.specs.FirstSchema.{IsNoFirst, IsNoStart, IsOfFirst, shared_fields};
ghost use Rattle.wb_rows.specs.Reading.{HasColumns, IsNoRecord, field_cells, state_cell, text_cell};

use crate::columns::{
    build_priority_at, flag_at, optional_number_at, optional_text_at, rebuild_at, state_at,
    text_at, version_at,
};
use crate::fault::RowFault;
use deb_text::Text;
use deb_version::Version;
use sqlite::Row;
use wb_states::{Record, State};

/// The architecture and the source package of a record.
pub(crate) fn key_of(row: &Row) -> Result<(Text, Text), RowFault>
    requires { 14 ≤ length row.now }
    ensures value { IfOk result (λ made.
        HasColumns row.now 0 (text_cell made.0 ∷ text_cell made.1 ∷ [])) }
    ensures refused { IfErr result (λ fault. fault ≡ Malformed → IsNoStart row.now) }
{
    let arch = text_at(row, 0)?;
    let source = text_at(row, 1)?;
    Ok((arch, source))
}

/// The fields of a record, its rank not compared.
pub(crate) fn fields_of(row: &Row) -> Result<Record, RowFault>
    requires { length row.now ≡ 16 }
    ensures value { IfOk result (λ made. HasColumns row.now 2 (field_cells made)) }
    ensures refused { IfErr result (λ fault. fault ≡ Malformed → IsNoRecord row.now) }
{
    let shared = shared_fields_of(row)?;
    let build_priority = urgency_of(row)?;
    Ok(Record {
        build_priority,
        ..shared
    })
}

/// The fields of a record of the first schema, its rank not compared. It has no build priority, which is then 0, and no
/// failed build attempt.
pub(crate) fn first_fields_of(row: &Row) -> Result<Record, RowFault>
    requires { length row.now ≡ 15 }
    ensures value { IfOk result (λ made. HasColumns row.now 2 (shared_fields made) × IsOfFirst made) }
    ensures refused { IfErr result (λ fault. fault ≡ Malformed → IsNoFirst row.now) }
{
    let shared = shared_fields_of(row)?;
    if shared.state == State::BuildAttempted {
        return Err(RowFault::Malformed);
    }
    Ok(shared)
}

/// The fields of a record that both schemas have. Its build priority is 0.
fn shared_fields_of(row: &Row) -> Result<Record, RowFault>
    requires { 14 ≤ length row.now }
    ensures value { IfOk result (λ made.
        HasColumns row.now 2 (shared_fields made) × (made.build_priority ≡ pos 0)) }
    ensures refused { IfErr result (λ fault. fault ≡ Malformed → IsNoStart row.now) }
{
    let (state, version) = standing_of(row)?;
    let (priority, section) = labels_of(row)?;
    let (earlier, number) = builds_of(row)?;
    let (holder, take) = hold_of(row)?;
    let (waits, depends) = needs_of(row)?;
    let (note, message) = remarks_of(row)?;
    Ok(Record {
        state,
        version,
        priority,
        section,
        earlier,
        number,
        holder,
        take,
        waits,
        depends,
        note,
        message,
        build_priority: 0,
    })
}

fn standing_of(row: &Row) -> Result<(State, Version), RowFault>
    requires { 14 ≤ length row.now }
    ensures value { IfOk result (λ made.
        HasColumns row.now 2 (state_cell made.0 ∷ text_cell made.1 ∷ [])) }
    ensures refused { IfErr result (λ fault. fault ≡ Malformed → IsNoStart row.now) }
{
    let state = state_at(row, 2)?;
    let version = version_at(row, 3)?;
    Ok((state, version))
}

fn labels_of(row: &Row) -> Result<(Text, Text), RowFault>
    requires { 14 ≤ length row.now }
    ensures value { IfOk result (λ made.
        HasColumns row.now 4 (text_cell made.0 ∷ text_cell made.1 ∷ [])) }
    ensures refused { IfErr result (λ fault. fault ≡ Malformed → IsNoStart row.now) }
{
    let priority = text_at(row, 4)?;
    let section = text_at(row, 5)?;
    Ok((priority, section))
}

fn builds_of(row: &Row) -> Result<(bool, u16), RowFault>
    requires { 14 ≤ length row.now }
    ensures value { IfOk result (λ made.
        HasColumns row.now 6 (flag made.0 ∷ number made.1 ∷ [])) }
    ensures refused { IfErr result (λ fault. fault ≡ Malformed → IsNoStart row.now) }
{
    let earlier = flag_at(row, 6)?;
    let number = rebuild_at(row, 7)?;
    Ok((earlier, number))
}

fn hold_of(row: &Row) -> Result<(Option<Text>, Option<u64>), RowFault>
    requires { 14 ≤ length row.now }
    ensures value { IfOk result (λ made.
        HasColumns row.now 8 (text_or_null made.0 ∷ number_or_null made.1 ∷ [])) }
    ensures refused { IfErr result (λ fault. fault ≡ Malformed → IsNoStart row.now) }
{
    let holder = optional_text_at(row, 8)?;
    let take = optional_number_at(row, 9)?;
    Ok((holder, take))
}

fn needs_of(row: &Row) -> Result<(Text, Option<Text>), RowFault>
    requires { 14 ≤ length row.now }
    ensures value { IfOk result (λ made.
        HasColumns row.now 10 (text_cell made.0 ∷ text_or_null made.1 ∷ [])) }
    ensures refused { IfErr result (λ fault. fault ≡ Malformed → IsNoStart row.now) }
{
    let waits = text_at(row, 10)?;
    let depends = optional_text_at(row, 11)?;
    Ok((waits, depends))
}

fn remarks_of(row: &Row) -> Result<(Text, Text), RowFault>
    requires { 14 ≤ length row.now }
    ensures value { IfOk result (λ made.
        HasColumns row.now 12 (text_cell made.0 ∷ text_cell made.1 ∷ [])) }
    ensures refused { IfErr result (λ fault. fault ≡ Malformed → IsNoStart row.now) }
{
    let note = text_at(row, 12)?;
    let message = text_at(row, 13)?;
    Ok((note, message))
}

fn urgency_of(row: &Row) -> Result<i16, RowFault>
    requires { length row.now ≡ 16 }
    ensures value { IfOk result (λ made. HasColumns row.now 14 (Int made ∷ [])) }
    ensures refused { IfErr result (λ fault. fault ≡ Malformed → IsNoRecord row.now) }
{
    let build_priority = build_priority_at(row, 14)?;
    Ok(build_priority)
}
