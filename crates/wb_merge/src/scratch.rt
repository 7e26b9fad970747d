//! What a merge keeps of a paragraph of the archive's lists while it runs.
ghost use Rattle.std.specs.Prelude.{◌≡◌, ◌≢◌, ◌++◌, ◌∷◌, [], filter, map, Ok, Err, IsSome, IfOk};
ghost use Rattle.std.specs.Prelude.{IfErr, OnOk, codes};
ghost use Rattle.std.specs.BTreeSet.{contains};
ghost use Rattle.deb_text.specs.Text.{text_cmp};
ghost use Rattle.wb_states.specs.declared.refusal.Refusal.TheVariants.{Memory};
ghost use Rattle.wb_merge.specs.Rows.{value_named};
ghost use Rattle.wb_merge.specs.Scratch.{binary_columns, binary_rows_at, is_binary_wanted, kept_of};
ghost use Rattle.wb_merge.specs.Scratch.{provided_columns, source_row_at, wanted_rows_at};

use crate::reader::{ListFault, refuse};
use crate::rows;
use deb_control::Fields;
use deb_relations::{ArchWords, Provided};
use deb_text::Text;
use std::alloc::{AllocError, Global};
use std::collections::BTreeSet;
use wb_states::{BinaryRow, ListKind, Refusal, SourceRow};

/// What a merge keeps of the paragraph of a Sources list that has these fields; `at` is its number,
/// counted from 1. The errors are `BadListing` of Sources at this number for the first of its
/// fields that is missing or malformed, in the order Package, Version, Architecture, Priority,
/// Section (Debian Policy 5.4; that these are read is this project's own), and `Memory`, which does
/// not come if the field Package is missing.
#[tactic(auto, unfolding(crate::specs::Scratch::source_row_at))]
pub fn source_row<F: Fields>(alloc: Global, fields: &F, at: u64) -> Result<SourceRow, Refusal>
    ensures value { IfOk result (λ row. source_row_at at (F.fields fields.now) ≡ Ok row) }
    ensures refused { IfErr result (λ refusal. refusal ≢ Memory
        → source_row_at at (F.fields fields.now) ≡ Err refusal) }
    ensures memory { IfErr result (λ refusal. refusal ≡ Memory
        → IsSome (value_named (codes "Package") (F.fields fields.now))) }
{
    match rows::source_columns(alloc, fields, at) {
        Ok(row) => Ok(row),
        Err(fault) => Err(refuse(
            ListKind::Sources,
            ListFault {
                paragraph: at,
                fault,
            },
        )),
    }
}

/// What is kept of the package of a row.
fn package_row(
    row: &rows::BinaryParagraph,
    at: u64,
    arch: &ArchWords,
) -> Result<BinaryRow, AllocError>
    ensures value { IfOk result (λ kept. kept ≡ binary_columns arch.now at row.now) }
{
    Ok(BinaryRow {
        seq: at,
        name: row.name.clone()?,
        version: Some(row.version.clone()?),
        source: row.source().clone()?,
        source_version: row.source_version().clone()?,
        number: row.number,
        own: arch.name == row.arch,
    })
}

/// What is kept of a name that the package of a row provides.
fn provided_row(
    alloc: Global,
    row: &rows::BinaryParagraph,
    at: u64,
    given: Provided,
) -> Result<BinaryRow, AllocError>
    ensures value { IfOk result (λ kept. kept ≡ provided_columns at row.now given) }
{
    let source_version = row.source_version().clone()?;
    Ok(BinaryRow {
        seq: at,
        name: given.name,
        version: given.version,
        source: Text::new(alloc),
        source_version,
        number: 0,
        own: false,
    })
}

/// Adds what is kept of the package of a row, if it can matter.
fn push_package(
    kept: &mut Vec<BinaryRow>,
    row: &rows::BinaryParagraph,
    at: u64,
    arch: &ArchWords,
    wanted: &BTreeSet<Text>,
) -> Result<(), AllocError>
    ensures value { OnOk result (kept.new.items ≡ kept.old.items
        ++ filter (is_binary_wanted (contains text_cmp wanted.now)) (binary_columns arch.now at row.now ∷ [])) }
{
    if arch.name == row.arch || wanted.contains(&row.name) {
        kept.push(package_row(row, at, arch)?)?;
    }
    Ok(())
}

/// Adds what is kept of names that the package of a row provides.
fn push_provided(
    alloc: Global,
    kept: &mut Vec<BinaryRow>,
    row: &rows::BinaryParagraph,
    at: u64,
    provided: Vec<Provided>,
) -> Result<(), AllocError>
    ensures value { OnOk result (kept.new.items
        ≡ kept.old.items ++ map (provided_columns at row.now) provided.items) }
{
    for given in provided {
        kept.push(provided_row(alloc, row, at, given)?)?;
    }
    Ok(())
}

/// What is kept of a row, of which these names are wanted.
fn kept_rows(
    alloc: Global,
    row: &rows::BinaryParagraph,
    at: u64,
    arch: &ArchWords,
    wanted: &BTreeSet<Text>,
) -> Result<Vec<BinaryRow>, AllocError>
    ensures value { IfOk result (λ kept. kept.items
        ≡ filter (is_binary_wanted (contains text_cmp wanted.now)) (kept_of arch.now at row.now)) }
{
    let mut kept = Vec::new(alloc);
    if !row.is_installable_on(arch) {
        return Ok(kept);
    }
    push_package(&mut kept, row, at, arch, wanted)?;
    let provided = Provided::read(alloc, row.provides.as_str(), wanted)?;
    push_provided(alloc, &mut kept, row, at, provided)?;
    Ok(kept)
}

/// What a merge keeps of the paragraph of a Packages list that has these fields, as far as it can
/// matter: a row of its package, if that is of the architecture whose part is merged or is wanted,
/// and one of each wanted name that it provides (Debian Policy 7.5); none if its architecture is
/// neither that one nor `all`. `at` is the number of the paragraph, counted from 1, and that of
/// each of its rows. The errors are `BadListing` of Packages at this number for the first of its
/// fields that is missing or malformed, in the order Package, Version, Architecture, Source (Debian
/// Policy 5.3 and 5.6.1; that these are read, and that a malformed `Provides` only gives nothing,
/// is this project's own), whatever its architecture, and `Memory`, which does not come if the
/// field Package is missing.
#[tactic(auto, unfolding(crate::specs::Scratch::binary_rows_at))]
pub fn binary_rows<F: Fields>(
    alloc: Global,
    fields: &F,
    at: u64,
    arch: &ArchWords,
    wanted: &BTreeSet<Text>,
) -> Result<Vec<BinaryRow>, Refusal>
    ensures value { IfOk result (λ rows.
        wanted_rows_at arch.now (contains text_cmp wanted.now) at (F.fields fields.now) ≡ Ok rows.items) }
    ensures refused { IfErr result (λ refusal. refusal ≢ Memory
        → binary_rows_at arch.now at (F.fields fields.now) ≡ Err refusal) }
    ensures memory { IfErr result (λ refusal. refusal ≡ Memory
        → IsSome (value_named (codes "Package") (F.fields fields.now))) }
{
    match rows::BinaryParagraph::read(alloc, fields) {
        Ok(row) => Ok(kept_rows(alloc, &row, at, arch, wanted)?),
        Err(fault) => Err(refuse(
            ListKind::Packages,
            ListFault {
                paragraph: at,
                fault,
            },
        )),
    }
}
