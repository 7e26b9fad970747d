//! A list, read into a table paragraph by paragraph.
ghost use Rattle.std.specs.Prelude.{◌≡◌, ◌+◌, ◌++◌, ◌∷◌, ◌<◌, ◌^◌, [], length, IfOk, OnOk};
ghost use Rattle.std.specs.BTreeSet.{contains};
ghost use Rattle.deb_text.specs.Text.{text_cmp};
ghost use Rattle.wb_states.specs.declared.refusal.ListKind.TheVariants.{Packages, Sources};
ghost use Rattle.wb_merge.specs.Scratch.{binary_rows_at, source_row_at};
ghost use Rattle.wb_archive.specs.Faults.{Advances, StopsAs};
ghost use Rattle.wb_archive.specs.Fills.{IsFilled, binaries_behind, binaries_wanted, binary_kept};
ghost use Rattle.wb_archive.specs.Fills.{is_same_build, is_source_wanted, last_behind, last_kept};
ghost use Rattle.wb_archive.specs.Fills.{numbered, repeats, sources_wanted};
ghost use Rattle.wb_archive.specs.Reads.{IsRefused, MayStandWhere, packages_at, sources_at};
ghost use Rattle.wb_archive.specs.Tables.{Tables, IsAfterBinaries, IsAfterSources, with_binaries};
ghost use Rattle.wb_archive.specs.Tables.{with_sources};

use crate::fault::{BadList, MergeFault, ReadFault, asked};
use crate::rows::{next_binaries, next_source};
use crate::{MergeTables, ReadParagraphs};
use deb_relations::ArchWords;
use deb_text::Text;
use std::alloc::Global;
use std::collections::BTreeSet;
use wb_merge::is_listed_for;
use wb_states::{BinaryRow, SourceRow};

/// The greatest number that a row can have in the tables: a number there is below 2^63.
const LAST_PLACE: u64 = i64::MAX as u64;

// Rows that cannot matter are left out of the tables: of Debian 12 main 16,062 of 34,335 paragraphs
// of Sources are kept, and for amd64 32,325 of 63,440 of Packages. The statements of a merge took
// half to three fifths of the time so. That it changes no record and no count is proved of
// `merge_part`.
/// Whether the row can matter to a merge of these architectures.
fn is_source_wanted(row: &SourceRow, archs: &[ArchWords]) -> bool
    ensures { result ≡ is_source_wanted archs.now row.now }
{
    archs.iter().any(|arch| is_listed_for(row, arch))
}

/// Puts the row into its table if it can matter.
fn keep_source<T: MergeTables>(
    tables: &mut T,
    archs: &[ArchWords],
    row: &SourceRow,
) -> Result<(), MergeFault<T::Fault>>
    requires fits { row.now.seq < 2 ^ 63 }
    ensures value { (at : Tables) → T.is_clean tables.new → T.holds tables.old at → IsAfterSources row.now.seq at.now.sources
        → OnOk result (T.holds tables.new
        (with_sources (at.now.sources ++ sources_wanted archs.now (row.now ∷ [])) at)) }
    ensures calls { Advances T.follows (StopsAs T.follows T.fails) tables.old tables.new result }
{
    if is_source_wanted(row, archs) {
        asked(tables.add_source(row))?;
    }
    Ok(())
}

/// Whether both rows say that the same build was built on the architecture.
fn is_same_build(one: &BinaryRow, other: &BinaryRow) -> bool
    ensures { result ≡ is_same_build one.now other.now }
{
    let are_own = one.own && other.own;
    let is_same_source = one.source.as_str() == other.source.as_str();
    let is_same_version = one.source_version.text() == other.source_version.text();
    are_own && (is_same_source && (is_same_version && one.number == other.number))
}

// In Packages half of an architecture's own packages are built from the same source package, in the
// same version, as the package before them. Only the row that was kept last is compared, so nothing
// grows with the list.
/// Whether the row says of a build what the row that was kept last says, and no record can wait for
/// its name.
fn is_repeat(row: &BinaryRow, last: &Option<BinaryRow>, waited: &BTreeSet<Text>) -> bool
    ensures { result ≡ repeats (contains text_cmp waited.now) last.now row.now }
{
    match last {
        Some(last) => is_same_build(last, row) && !waited.contains(&row.name),
        None => false,
    }
}

/// Puts the row into its table, unless it only repeats the row that was put there last.
fn keep_binary<T: MergeTables>(
    tables: &mut T,
    waited: &BTreeSet<Text>,
    last: &mut Option<BinaryRow>,
    row: BinaryRow,
) -> Result<(), MergeFault<T::Fault>>
    requires fits { row.seq < 2 ^ 63 }
    ensures value { (at : Tables) → T.is_clean tables.new → T.holds tables.old at
        → IsAfterBinaries row.seq at.now.binaries
        → OnOk result (T.holds tables.new
        (with_binaries (at.now.binaries ++ binary_kept (contains text_cmp waited.now) last.old row) at)) }
    ensures last { OnOk result (last.new ≡ last_kept (contains text_cmp waited.now) last.old row) }
    ensures calls { Advances T.follows (StopsAs T.follows T.fails) tables.old tables.new result }
{
    if is_repeat(&row, last, waited) {
        return Ok(());
    }
    asked(tables.add_binary(&row))?;
    *last = Some(row);
    Ok(())
}

/// Puts the rows of a paragraph into their table, numbered after so many, but none that only
/// repeats the row that was put there before it.
fn keep_binaries<T: MergeTables>(
    tables: &mut T,
    waited: &BTreeSet<Text>,
    last: &mut Option<BinaryRow>,
    placed: &mut u64,
    rows: Vec<BinaryRow>,
) -> Result<(), MergeFault<T::Fault>>
    ensures value { (at : Tables) → T.is_clean tables.new → T.holds tables.old at
        → IsAfterBinaries (placed.old + 1) at.now.binaries
        → OnOk result (T.holds tables.new (with_binaries (at.now.binaries
        ++ binaries_behind (contains text_cmp waited.now) last.old (numbered placed.old rows.items)) at)) }
    ensures last { OnOk result (last.new
        ≡ last_behind (contains text_cmp waited.now) last.old (numbered placed.old rows.items)) }
    ensures count { OnOk result (placed.new ≡ placed.old + length rows.items) }
    ensures calls { Advances T.follows (StopsAs T.follows T.fails) tables.old tables.new result }
{
    for row in rows {
        if *placed >= LAST_PLACE {
            return Err(MergeFault::Memory);
        }
        *placed += 1;
        let mut row = row;
        row.seq = *placed;
        keep_binary(tables, waited, last, row)?;
    }
    Ok(())
}

/// Reads a Sources list, of which no paragraph was read before, into its table, which is empty: of
/// its rows those that can matter to a merge of these architectures. Each paragraph is read and
/// checked all the same, and the first faulty one refuses the list, or that its reader broke; the
/// table then has some rows. The errors are `Memory` if memory ran out, or if the list has 2^63 - 1
/// paragraphs or more, which cannot all be numbered, and else the fault of the tables (this
/// project's own).
pub fn fill_sources<T: MergeTables, R: ReadParagraphs>(
    alloc: Global,
    tables: &mut T,
    archs: &[ArchWords],
    list: &mut R,
) -> Result<Option<BadList>, MergeFault<T::Fault>>
    ensures value { (at : Tables) → T.is_clean tables.new → T.holds tables.old at
        → R.passed list.old ≡ 0 → at.now.sources ≡ []
        → IfOk result (λ bad. MayStandWhere R.may_stand_at list.old (λ place. IsFilled (sources_at place)
        (sources_wanted archs.now) (λ rows. T.holds tables.new (with_sources rows at))
        (IsRefused (R.breaks list.old) Sources source_row_at place) bad)) }
    ensures calls { Advances T.follows (StopsAs T.follows T.fails) tables.old tables.new result }
{
    for passed in 0..LAST_PLACE {
        match next_source(alloc, list, passed) {
            Ok(Some(row)) => keep_source(tables, archs, &row)?,
            Ok(None) => return Ok(None),
            Err(ReadFault::Bad(bad)) => return Ok(Some(bad)),
            Err(ReadFault::Memory) => return Err(MergeFault::Memory),
        }
    }
    Err(MergeFault::Memory)
}

/// Reads the Packages list of an architecture, of which no paragraph was read before, into its
/// table, which is empty: of its rows those that can matter, the architecture's own packages and
/// each name that is waited for, also one that a package provides, but none that says of a build
/// only what the row before it says. Each paragraph is read and checked all the same, and the first
/// faulty one refuses the list, or that its reader broke; the table then has some rows. The errors
/// are `Memory` if memory ran out, or if there are 2^63 - 1 paragraphs or rows or more, which
/// cannot all be numbered, and else the fault of the tables (this project's own).
pub fn fill_binaries<T: MergeTables, R: ReadParagraphs>(
    alloc: Global,
    tables: &mut T,
    arch: &ArchWords,
    waited: &BTreeSet<Text>,
    list: &mut R,
) -> Result<Option<BadList>, MergeFault<T::Fault>>
    ensures value { (at : Tables) → T.is_clean tables.new → T.holds tables.old at
        → R.passed list.old ≡ 0 → at.now.binaries ≡ []
        → IfOk result (λ bad. MayStandWhere R.may_stand_at list.old (λ place. IsFilled (packages_at arch.now place)
        (binaries_wanted (contains text_cmp waited.now)) (λ rows. T.holds tables.new (with_binaries rows at))
        (IsRefused (R.breaks list.old) Packages (binary_rows_at arch.now) place) bad)) }
    ensures calls { Advances T.follows (StopsAs T.follows T.fails) tables.old tables.new result }
{
    let mut last = None;
    let mut placed = 0;
    for passed in 0..LAST_PLACE {
        match next_binaries(alloc, list, passed, arch, waited) {
            Ok(Some(rows)) => keep_binaries(tables, waited, &mut last, &mut placed, rows)?,
            Ok(None) => return Ok(None),
            Err(ReadFault::Bad(bad)) => return Ok(Some(bad)),
            Err(ReadFault::Memory) => return Err(MergeFault::Memory),
        }
    }
    Err(MergeFault::Memory)
}
