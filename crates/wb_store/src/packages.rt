//! The source packages and the binary packages of a merge, as the rows of the scratch tables have
//! them.
ghost use Rattle.std.specs.Prelude.{◌≡◌, IfOk, IfErr, map as each};
ghost use Rattle.wb_rows.specs.Scratch.{binary_cells, source_cells};
ghost use Rattle.wb_states.specs.declared.store_fault.Table.TheVariants.{ScratchBinary};
ghost use Rattle.wb_states.specs.declared.store_fault.Table.TheVariants.{ScratchSource};
ghost use Rattle.wb_store.specs.Faults.{IsUnfit};
ghost use Rattle.wb_store.specs.ScratchLookups.{AreBinaries, AreNames, AreSources, DistinctNames};
ghost use Rattle.wb_store.specs.ScratchLookups.{HasBinary, HasSource, VersionsIn};

use crate::fault::unfit;
use crate::reading::names_in;
use deb_text::Text;
use deb_version::Version;
use sqlite::Row;
use std::alloc::AllocError;
use wb_rows::{binary_of, source_of};
use wb_states::{BinaryRow, SourceRow, StoreFault, Table};

/// The source package in a row. The table is damaged if the row is not that of one.
fn source_in(row: &Row) -> Result<SourceRow, StoreFault>
    ensures value { IfOk result (λ made. row.now ≡ source_cells made) }
    ensures err { IfErr result (IsUnfit ScratchSource (HasSource row.now)) }
{
    source_of(row)?.ok_or(unfit(Table::ScratchSource))
}

/// The source packages in these rows. The table is damaged if a row is not that of one.
pub(crate) fn sources_in(rows: Vec<Row>) -> Result<Vec<SourceRow>, StoreFault>
    ensures value { IfOk result (λ made. rows.items ≡ each source_cells made.items) }
    ensures err { IfErr result (IsUnfit ScratchSource (AreSources rows.items)) }
{
    let mut made = Vec::new(*rows.allocator());
    for row in rows {
        made.push(source_in(&row)?)?;
    }
    Ok(made)
}

/// The binary package in a row. The table is damaged if the row is not that of one.
fn binary_in(row: &Row) -> Result<BinaryRow, StoreFault>
    ensures value { IfOk result (λ made. row.now ≡ binary_cells made) }
    ensures err { IfErr result (IsUnfit ScratchBinary (HasBinary row.now)) }
{
    binary_of(row)?.ok_or(unfit(Table::ScratchBinary))
}

/// The binary packages in these rows. The table is damaged if a row is not that of one.
pub(crate) fn binaries_in(rows: Vec<Row>) -> Result<Vec<BinaryRow>, StoreFault>
    ensures value { IfOk result (λ made. rows.items ≡ each binary_cells made.items) }
    ensures err { IfErr result (IsUnfit ScratchBinary (AreBinaries rows.items)) }
{
    let mut made = Vec::new(*rows.allocator());
    for row in rows {
        made.push(binary_in(&row)?)?;
    }
    Ok(made)
}

/// The versions of rows, in their order, or none where there is none.
fn versions_of(rows: Vec<BinaryRow>) -> Result<Vec<Option<Version>>, AllocError>
    ensures value { IfOk result (λ versions. versions.items ≡ each (λ row. row.version) rows.items) }
{
    let mut versions = Vec::new(*rows.allocator());
    for row in rows {
        versions.push(row.version)?;
    }
    Ok(versions)
}

/// The versions in these rows of binary packages and of names that they provide, in their order, or
/// none where there is none. The table is damaged if a row is not that of a package.
pub(crate) fn versions_in(rows: Vec<Row>) -> Result<Vec<Option<Version>>, StoreFault>
    ensures value { IfOk result (λ made. VersionsIn rows.items made.items) }
    ensures err { IfErr result (IsUnfit ScratchBinary (AreBinaries rows.items)) }
{
    let packages = binaries_in(rows)?;
    Ok(versions_of(packages)?)
}

/// The names in these rows, without each that is the same as the one before it. The table is
/// damaged if a row is not that of a name.
pub(crate) fn distinct_names_in(rows: Vec<Row>) -> Result<Vec<Text>, StoreFault>
    ensures value { IfOk result (λ made. DistinctNames rows.items made.items) }
    ensures err { IfErr result (IsUnfit ScratchSource (AreNames rows.items)) }
{
    let mut names = names_in(Table::ScratchSource, rows)?;
    names.dedup();
    Ok(names)
}
