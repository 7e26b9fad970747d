//! The rows of the scratch tables of a merge: what is kept of a paragraph, as the values of a row,
//! and a row, as what it stands for.
ghost use Rattle.std.specs.Prelude.{◌≡◌, ◌<◌, ◌^◌, ℕ, Bool, List, Option, [], ◌∷◌, length, IfOk};
ghost use Rattle.std.specs.Prelude.{IfErr, IfSome, IfNone};
ghost use Rattle.sqlite.specs.Values.{bound};
ghost use Rattle.wb_rows.specs.declared.fault.RowFault.TheVariants.{Malformed};
ghost use Rattle.wb_rows.specs.Cells.{flag, number};
ghost use Rattle.wb_rows.specs.Reading.{HasColumns, IsVersion, text_cell};
ghost use Rattle.wb_rows.specs.Scratch.{binary_cells, name_cells, own_number, source_cells};
ghost use Rattle.wb_rows.specs.Scratch.{version_or_empty, IsNoBinary, IsNoName, IsNoSource};
ghost use Rattle.wb_rows.specs.Scratch.{IsOffered};
ghost use Rattle.sqlite.specs.Value.{owned};
ghost use Rattle.sqlite.specs.Values.{bound_value};

use crate::columns::{flag_at, number_at, rebuild_at, text_at, version_at};
use crate::fault::RowFault;
use crate::write::{flag_value, rebuild_value, seq_value, text_value, version_value};
use deb_text::Text;
use deb_version::Version;
use sqlite::Row;
use sqlite::types::ValueRef;
use std::alloc::AllocError;
use wb_states::{BinaryRow, SourceRow};

/// The values of the 9 columns of a source package's row. Its place in the list is below 2^63.
/// Takes no memory (this project's own).
pub fn source_values<'a>(row: &'a SourceRow) -> [ValueRef<'a>; 9]
    requires given { row.now.seq < 2 ^ 63 }
    ensures value { bound result ≡ source_cells row.now }
{
    [
        seq_value(row.seq),
        text_value(&row.name),
        version_value(&row.version),
        text_value(&row.architecture),
        flag_value(row.extra),
        text_value(&row.priority),
        text_value(&row.section),
        text_value(&row.depends),
        text_value(&row.depends_arch),
    ]
}

/// The text of the version, empty if there is none.
fn offered_value<'a>(version: &'a Option<Version>) -> ValueRef<'a>
    ensures { bound_value (owned result) ≡ text_cell (version_or_empty version.now) }
{
    match version {
        Some(version) => version_value(version),
        None => ValueRef::Text("".as_bytes()),
    }
}

/// Whether a package was built on the architecture, and whether there is a version.
fn own_value<'a>(own: bool, version: &Option<Version>) -> ValueRef<'a>
    ensures { bound_value (owned result) ≡ number (own_number own version.now) }
{
    match version {
        Some(_) => ValueRef::Int(if own { 1 } else { 0 }),
        None => ValueRef::Int(if own { 3 } else { 2 }),
    }
}

/// The values of the 7 columns of a row of a binary package, or of a name that one provides. Its
/// place among the rows is below 2^63. Takes no memory (this project's own).
pub fn binary_values<'a>(row: &'a BinaryRow) -> [ValueRef<'a>; 7]
    requires given { row.now.seq < 2 ^ 63 }
    ensures value { bound result ≡ binary_cells row.now }
{
    [
        seq_value(row.seq),
        text_value(&row.name),
        offered_value(&row.version),
        text_value(&row.source),
        version_value(&row.source_version),
        rebuild_value(row.number),
        own_value(row.own, &row.version),
    ]
}

/// The source package whose row this is: one of exactly 9 columns, each of its type, with a version
/// and 1 or 0 for what is or is not so. None if the row is not that of a source package; nothing is
/// repaired. The only error is that memory ran out (this project's own).
pub fn source_of(row: &Row) -> Result<Option<SourceRow>, AllocError>
    ensures value { IfOk result (λ found. IfSome found (λ made. row.now ≡ source_cells made)) }
    ensures none { IfOk result (λ found. IfNone found (IsNoSource row.now)) }
{
    match read_source(row) {
        Ok(made) => Ok(Some(made)),
        Err(RowFault::Malformed) => Ok(None),
        Err(RowFault::Memory) => Err(AllocError),
    }
}

fn read_source(row: &Row) -> Result<SourceRow, RowFault>
    ensures value { IfOk result (λ made. row.now ≡ source_cells made) }
    ensures refused { IfErr result (λ fault. fault ≡ Malformed → IsNoSource row.now) }
{
    if row.column_count() != 9 {
        return Err(RowFault::Malformed);
    }
    let (seq, name) = source_place_of(row)?;
    let (version, architecture) = source_build_of(row)?;
    let extra = source_flag_of(row)?;
    let (priority, section) = source_labels_of(row)?;
    let (depends, depends_arch) = source_needs_of(row)?;
    Ok(SourceRow {
        seq,
        name,
        version,
        architecture,
        extra,
        priority,
        section,
        depends,
        depends_arch,
    })
}

fn source_place_of(row: &Row) -> Result<(u64, Text), RowFault>
    requires { length row.now ≡ 9 }
    ensures value { IfOk result (λ made. HasColumns row.now 0 (number made.0 ∷ text_cell made.1 ∷ [])) }
    ensures refused { IfErr result (λ fault. fault ≡ Malformed → IsNoSource row.now) }
{
    let seq = number_at(row, 0)?;
    let name = text_at(row, 1)?;
    Ok((seq, name))
}

fn source_build_of(row: &Row) -> Result<(Version, Text), RowFault>
    requires { length row.now ≡ 9 }
    ensures value { IfOk result (λ made. HasColumns row.now 2 (text_cell made.0 ∷ text_cell made.1 ∷ [])) }
    ensures refused { IfErr result (λ fault. fault ≡ Malformed → IsNoSource row.now) }
{
    let version = version_at(row, 2)?;
    let architecture = text_at(row, 3)?;
    Ok((version, architecture))
}

fn source_flag_of(row: &Row) -> Result<bool, RowFault>
    requires { length row.now ≡ 9 }
    ensures value { IfOk result (λ made. HasColumns row.now 4 (flag made ∷ [])) }
    ensures refused { IfErr result (λ fault. fault ≡ Malformed → IsNoSource row.now) }
{
    let extra = flag_at(row, 4)?;
    Ok(extra)
}

fn source_labels_of(row: &Row) -> Result<(Text, Text), RowFault>
    requires { length row.now ≡ 9 }
    ensures value { IfOk result (λ made. HasColumns row.now 5 (text_cell made.0 ∷ text_cell made.1 ∷ [])) }
    ensures refused { IfErr result (λ fault. fault ≡ Malformed → IsNoSource row.now) }
{
    let priority = text_at(row, 5)?;
    let section = text_at(row, 6)?;
    Ok((priority, section))
}

fn source_needs_of(row: &Row) -> Result<(Text, Text), RowFault>
    requires { length row.now ≡ 9 }
    ensures value { IfOk result (λ made. HasColumns row.now 7 (text_cell made.0 ∷ text_cell made.1 ∷ [])) }
    ensures refused { IfErr result (λ fault. fault ≡ Malformed → IsNoSource row.now) }
{
    let depends = text_at(row, 7)?;
    let depends_arch = text_at(row, 8)?;
    Ok((depends, depends_arch))
}

/// The binary package, or the name that one provides, whose row this is: one of exactly 7 columns,
/// each of its type, with a version or, if the last column says so, an empty text, the version of a
/// source package, a rebuild's number that fits, and 0 to 3 in the last column. None if the row is
/// not that of a binary package; nothing is repaired. The only error is that memory ran out (this
/// project's own).
pub fn binary_of(row: &Row) -> Result<Option<BinaryRow>, AllocError>
    ensures value { IfOk result (λ found. IfSome found (λ made. row.now ≡ binary_cells made)) }
    ensures none { IfOk result (λ found. IfNone found (IsNoBinary row.now)) }
{
    match read_binary(row) {
        Ok(made) => Ok(Some(made)),
        Err(RowFault::Malformed) => Ok(None),
        Err(RowFault::Memory) => Err(AllocError),
    }
}

fn read_binary(row: &Row) -> Result<BinaryRow, RowFault>
    ensures value { IfOk result (λ made. row.now ≡ binary_cells made) }
    ensures refused { IfErr result (λ fault. fault ≡ Malformed → IsNoBinary row.now) }
{
    if row.column_count() != 7 {
        return Err(RowFault::Malformed);
    }
    let (seq, name) = binary_place_of(row)?;
    let (text, source) = binary_texts_of(row)?;
    let source_version = binary_source_of(row)?;
    let (number, kind) = binary_number_of(row)?;
    let (version, own) = offered(text, kind)?;
    Ok(BinaryRow {
        seq,
        name,
        version,
        source,
        source_version,
        number,
        own,
    })
}

fn binary_place_of(row: &Row) -> Result<(u64, Text), RowFault>
    requires { length row.now ≡ 7 }
    ensures value { IfOk result (λ made. HasColumns row.now 0 (number made.0 ∷ text_cell made.1 ∷ [])) }
    ensures refused { IfErr result (λ fault. fault ≡ Malformed → IsNoBinary row.now) }
{
    let seq = number_at(row, 0)?;
    let name = text_at(row, 1)?;
    Ok((seq, name))
}

fn binary_texts_of(row: &Row) -> Result<(Text, Text), RowFault>
    requires { length row.now ≡ 7 }
    ensures value { IfOk result (λ made. HasColumns row.now 2 (text_cell made.0 ∷ text_cell made.1 ∷ [])) }
    ensures refused { IfErr result (λ fault. fault ≡ Malformed → IsNoBinary row.now) }
{
    let version = text_at(row, 2)?;
    let source = text_at(row, 3)?;
    Ok((version, source))
}

fn binary_source_of(row: &Row) -> Result<Version, RowFault>
    requires { length row.now ≡ 7 }
    ensures value { IfOk result (λ made. HasColumns row.now 4 (text_cell made ∷ [])) }
    ensures refused { IfErr result (λ fault. fault ≡ Malformed → IsNoBinary row.now) }
{
    let source_version = version_at(row, 4)?;
    Ok(source_version)
}

fn binary_number_of(row: &Row) -> Result<(u16, u64), RowFault>
    requires { length row.now ≡ 7 }
    ensures value { IfOk result (λ made. HasColumns row.now 5 (number made.0 ∷ number made.1 ∷ [])) }
    ensures refused { IfErr result (λ fault. fault ≡ Malformed → IsNoBinary row.now) }
{
    let number = rebuild_at(row, 5)?;
    let kind = number_at(row, 6)?;
    Ok((number, kind))
}

/// The version in a text, if the number says that there is one, and whether the package was built
/// on the architecture.
fn offered(text: Text, kind: u64) -> Result<(Option<Version>, bool), RowFault>
    ensures value { IfOk result (λ made. IsOffered text kind made.0 made.1) }
    ensures refused { IfErr result (λ fault. fault ≡ Malformed → (version : Option (List ℕ)) (own : Bool)
        → IfSome version IsVersion → ¬ IsOffered text kind version own) }
{
    match kind {
        0 | 1 => {
            let text = String::from(text);
            let version = Version::parse(*text.allocator(), text.as_str())?;
            Ok((Some(version), kind == 1))
        }
        2 | 3 if text.as_str().is_empty() => Ok((None, kind == 3)),
        _ => Err(RowFault::Malformed),
    }
}

/// The name that a row shows and nothing else: the row has exactly 1 column, a text in UTF-8. None
/// if the row is not that of a name. The only error is that memory ran out (this project's own).
pub fn name_of(row: &Row) -> Result<Option<Text>, AllocError>
    ensures value { IfOk result (λ found. IfSome found (λ made. row.now ≡ name_cells made)) }
    ensures none { IfOk result (λ found. IfNone found (IsNoName row.now)) }
{
    match read_name(row) {
        Ok(made) => Ok(Some(made)),
        Err(RowFault::Malformed) => Ok(None),
        Err(RowFault::Memory) => Err(AllocError),
    }
}

fn read_name(row: &Row) -> Result<Text, RowFault>
    ensures value { IfOk result (λ made. row.now ≡ name_cells made) }
    ensures refused { IfErr result (λ fault. fault ≡ Malformed → IsNoName row.now) }
{
    if row.column_count() != 1 {
        return Err(RowFault::Malformed);
    }
    let name = text_at(row, 0)?;
    Ok(name)
}
