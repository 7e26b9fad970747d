//! One column of a row, by the type of what it holds. A place is counted from 0.
ghost use Rattle.std.specs.Prelude.{◌≡◌, ◌≢◌, ℕ, ◌^◌, ◌<◌, Bool, Option, length, IfOk, IfErr, IfSome, IfNone, IsUtf8, FitsSigned};
ghost use Rattle.std.specs.Int.{w16};
ghost use Rattle.sqlite.specs.declared.types.Value.TheVariants.{Int};
ghost use Rattle.sqlite.specs.Order.{column};
ghost use Rattle.wb_states.specs.declared.state.State.{State as BuildState};
ghost use Rattle.wb_states.specs.State.{code_of};
ghost use Rattle.wb_rows.specs.declared.fault.RowFault.TheVariants.{Malformed};
ghost use Rattle.wb_rows.specs.Cells.{number, number_or_null, flag, text_or_null};
ghost use Rattle.wb_rows.specs.Reading.{HoldsNone, IsVersion, state_cell, text_cell};

use crate::fault::RowFault;
use deb_text::Text;
use deb_version::Version;
use sqlite::Row;
use sqlite::types::FromSql;
use wb_states::State;

fn read_at<T: FromSql>(row: &Row, at: usize) -> Result<T, RowFault>
    requires { at < length row.now }
    ensures value { IfOk result (T.FromSql.reads_as (column row.now at)) }
    ensures refused { IfErr result (λ fault. fault ≡ Malformed
        → ¬ T.FromSql.is_readable (column row.now at)) }
{
    let value = row.get(at)?;
    Ok(value)
}

/// The text in a column.
pub(crate) fn text_at(row: &Row, at: usize) -> Result<Text, RowFault>
    requires { at < length row.now }
    ensures value { IfOk result (λ read. column row.now at ≡ text_cell read) }
    ensures refused { IfErr result (λ fault. fault ≡ Malformed
        → HoldsNone text_cell IsUtf8 (column row.now at)) }
{
    let text: String = read_at(row, at)?;
    Ok(Text::from(text))
}

/// The text in a column, or none if it is NULL.
pub(crate) fn optional_text_at(row: &Row, at: usize) -> Result<Option<Text>, RowFault>
    requires { at < length row.now }
    ensures value { IfOk result (λ read. column row.now at ≡ text_or_null read) }
    ensures refused { IfErr result (λ fault. fault ≡ Malformed
        → HoldsNone text_or_null (λ read. IfSome read IsUtf8) (column row.now at)) }
{
    let text: Option<String> = read_at(row, at)?;
    match text {
        Some(text) => Ok(Some(Text::from(text))),
        None => Ok(None),
    }
}

/// The version in a column.
pub(crate) fn version_at(row: &Row, at: usize) -> Result<Version, RowFault>
    requires { at < length row.now }
    ensures value { IfOk result (λ read. column row.now at ≡ text_cell read) }
    ensures refused { IfErr result (λ fault. fault ≡ Malformed
        → HoldsNone text_cell IsVersion (column row.now at)) }
{
    let text: String = read_at(row, at)?;
    let version = Version::parse(*text.allocator(), text.as_str())?;
    Ok(version)
}

/// The number in a column, from 0.
pub(crate) fn number_at(row: &Row, at: usize) -> Result<u64, RowFault>
    requires { at < length row.now }
    ensures value { IfOk result (λ read. column row.now at ≡ number read) }
    ensures refused { IfErr result (λ fault. fault ≡ Malformed
        → (n : ℕ) → column row.now at ≢ number n) }
{
    read_at(row, at)
}

/// The number in a column, from 0, or none if it is NULL.
pub(crate) fn optional_number_at(row: &Row, at: usize) -> Result<Option<u64>, RowFault>
    requires { at < length row.now }
    ensures value { IfOk result (λ read. column row.now at ≡ number_or_null read) }
    ensures refused { IfErr result (λ fault. fault ≡ Malformed
        → (read : Option ℕ) → column row.now at ≢ number_or_null read) }
{
    read_at(row, at)
}

/// The number of a binary-only rebuild in a column, below 65536.
pub(crate) fn rebuild_at(row: &Row, at: usize) -> Result<u16, RowFault>
    requires { at < length row.now }
    ensures value { IfOk result (λ read. column row.now at ≡ number read) }
    ensures refused { IfErr result (λ fault. fault ≡ Malformed
        → HoldsNone number (λ n. n < 2 ^ 16) (column row.now at)) }
{
    let number = number_at(row, at)?;
    match u16::try_from(number) {
        Ok(rebuild) => Ok(rebuild),
        Err(_) => Err(RowFault::Malformed),
    }
}

/// The build priority in a column, from -32768 to 32767.
pub(crate) fn build_priority_at(row: &Row, at: usize) -> Result<i16, RowFault>
    requires { at < length row.now }
    ensures value { IfOk result (λ read. column row.now at ≡ Int read) }
    ensures refused { IfErr result (λ fault. fault ≡ Malformed
        → HoldsNone Int (FitsSigned w16) (column row.now at)) }
{
    let value: i64 = read_at(row, at)?;
    match i16::try_from(value) {
        Ok(build_priority) => Ok(build_priority),
        Err(_) => Err(RowFault::Malformed),
    }
}

/// True for a column that has 1, and false for one that has 0.
pub(crate) fn flag_at(row: &Row, at: usize) -> Result<bool, RowFault>
    requires { at < length row.now }
    ensures value { IfOk result (λ read. column row.now at ≡ flag read) }
    ensures refused { IfErr result (λ fault. fault ≡ Malformed
        → (read : Bool) → column row.now at ≢ flag read) }
{
    match number_at(row, at)? {
        0 => Ok(false),
        1 => Ok(true),
        _ => Err(RowFault::Malformed),
    }
}

/// The state whose number is in a column.
pub(crate) fn state_at(row: &Row, at: usize) -> Result<State, RowFault>
    requires { at < length row.now }
    ensures value { IfOk result (λ read. column row.now at ≡ state_cell read) }
    ensures refused { IfErr result (λ fault. fault ≡ Malformed
        → (read : BuildState) → column row.now at ≢ state_cell read) }
{
    let number = number_at(row, at)?;
    match state_of(number) {
        Some(state) => Ok(state),
        None => Err(RowFault::Malformed),
    }
}

fn state_of(number: u64) -> Option<State>
    ensures value { IfSome result (λ state. code_of state ≡ number) }
    ensures none { IfNone result ((state : BuildState) → code_of state ≢ number) }
{
    match u8::try_from(number) {
        Ok(code) => State::of_code(code),
        Err(_) => None,
    }
}
