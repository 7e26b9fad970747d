//! What a merge makes of the record of one source package by the rows that it kept of the archive's lists.
ghost use Rattle.std.specs.Prelude.{◌≡◌, ◌&&◌, bytes_eq, filter, IsSome, IfOk, IfErr, OnErr, IfSome, None};
ghost use Rattle.std.specs.Option.{option_map, option_copied};
ghost use Rattle.std.specs.Map.Iter.{deref};
ghost use Rattle.wb_states.specs.declared.refusal.Refusal.TheVariants.{Memory};
ghost use Rattle.wb_merge.specs.Listing.{best_from, is_better, is_candidate, is_listed, listed_as};
ghost use Rattle.wb_merge.specs.Scratch.{built_in, build_cmp, is_build_of, listed_in, record_found, row_of_kept, version_row_cmp};

use crate::offers::both_joined;
use crate::record::{listed_record, new_record};
use crate::rows::is_listed;
use crate::{Built, Listed};
use deb_relations::ArchWords;
use deb_text::Text;
use deb_version::compare;
use std::alloc::Global;
use wb_states::{BinaryRow, Record, Refusal, SourceRow};

/// Whether the row lists its source package for the architecture (Debian Policy 5.6.8). Takes no memory.
#[tactic(auto, unfolding(crate::specs::Listing::is_listed))]
pub fn is_listed_for(row: &SourceRow, arch: &ArchWords) -> bool
    ensures value { result ≡ is_listed arch.now (row_of_kept row.now) }
{
    is_listed(&row.architecture, row.extra, arch)
}

/// Whether the row lists the source package of this name for the architecture.
#[tactic(auto, unfolding(crate::specs::Listing::is_candidate))]
fn is_candidate(row: &SourceRow, name: &Text, arch: &ArchWords) -> bool
    ensures { result ≡ is_candidate arch.now name.now (row_of_kept row.now) }
{
    name == &row.name && is_listed_for(row, arch)
}

/// Whether the row is of a later version than the best so far.
fn is_later_row(best: Option<&SourceRow>, row: &SourceRow) -> bool
    ensures { result ≡ is_better version_row_cmp (option_copied best.entry) row.now }
{
    match best {
        Some(best) => compare(&row.version, &best.version).is_gt(),
        None => true,
    }
}

/// The row of the greatest version of the source package, and of equal ones the first.
fn latest_row<'a>(rows: &'a [SourceRow], name: &Text, arch: &ArchWords) -> Option<&'a SourceRow>
    ensures { option_copied result ≡ best_from version_row_cmp None
        (filter (λ row. is_candidate arch.now name.now (row_of_kept row)) rows.now) }
{
    let mut best = None;
    for row in rows {
        if is_candidate(row, name, arch) && is_later_row(best, row) {
            best = Some(row);
        }
    }
    best
}

/// What the row lists of its source package for the architecture.
#[tactic(auto, unfolding(crate::specs::Listing::depends_of))]
fn listed_as(alloc: Global, row: &SourceRow, arch: &ArchWords) -> Result<Listed, Refusal>
    ensures value { IfOk result (λ listed. listed ≡ listed_as arch.now (row_of_kept row.now)) }
    ensures refused { IfErr result (λ refusal. refusal ≡ Memory) }
{
    Ok(Listed {
        version: row.version.clone()?,
        priority: row.priority.clone()?,
        section: row.section.clone()?,
        depends: both_joined(alloc, &row.depends, &row.depends_arch, arch)?,
    })
}

/// What the rows list of the source package for the architecture, or none, which takes no memory.
fn listed_in(
    alloc: Global,
    rows: &[SourceRow],
    name: &Text,
    arch: &ArchWords,
) -> Result<Option<Listed>, Refusal>
    ensures value { IfOk result (λ listed. listed ≡ listed_in arch.now rows.now name.now) }
    ensures refused { IfErr result (λ refusal. refusal ≡ Memory) }
    ensures memory { OnErr result (IsSome (listed_in arch.now rows.now name.now)) }
{
    let Some(row) = latest_row(rows, name, arch) else {
        return Ok(None);
    };
    Ok(Some(listed_as(alloc, row, arch)?))
}

/// Whether the row is a package of the source package that was built on the architecture.
fn is_build_of(row: &BinaryRow, name: &Text) -> bool
    ensures { result ≡ is_build_of name.now row.now }
{
    name == &row.source && row.own
}

/// Whether the row is of a later build than the best so far.
fn is_later_build(best: Option<&BinaryRow>, row: &BinaryRow) -> bool
    ensures { result ≡ is_better build_cmp (option_copied best.entry) row.now }
{
    match best {
        Some(best) => compare(&row.source_version, &best.source_version)
            .then(row.number.cmp(&best.number))
            .is_gt(),
        None => true,
    }
}

/// The row of the latest build of the source package, and of equal ones the first.
fn latest_build<'a>(rows: &'a [BinaryRow], name: &Text) -> Option<&'a BinaryRow>
    ensures { option_copied result
        ≡ best_from build_cmp None (filter (is_build_of name.now) rows.now) }
{
    let mut best = None;
    for row in rows {
        if is_build_of(row, name) && is_later_build(best, row) {
            best = Some(row);
        }
    }
    best
}

/// The latest build of the source package, or none.
fn built_in(rows: &[BinaryRow], name: &Text) -> Result<Option<Built>, Refusal>
    ensures value { IfOk result (λ built. built ≡ built_in rows.now name.now) }
    ensures refused { IfErr result (λ refusal. refusal ≡ Memory) }
{
    let Some(row) = latest_build(rows, name) else {
        return Ok(None);
    };
    Ok(Some(Built {
        version: row.source_version.clone()?,
        number: row.number,
    }))
}

/// The record of the source package `name` after a merge, by the rows of it that the merge kept of the archive's
/// lists, given the one that it had, if any; none if none of the rows lists it, which takes no memory. The only error
/// is `Memory`.
///
/// The cases are those of [`crate::after`]. Of the rows of Sources those of this name count, of the rows of Packages
/// those that were built from this source package on the architecture; others play no part. Both are in the order of
/// their numbers, and of rows of equal versions the first counts. `satisfied` says of a record in Dep-Wait whether all
/// that it waits for is available; of others it plays no part (this project's own).
#[tactic(auto, unfolding(crate::specs::Scratch::record_found))]
pub fn after_found(
    alloc: Global,
    current: Option<&Record>,
    name: &Text,
    sources: &[SourceRow],
    binaries: &[BinaryRow],
    satisfied: bool,
    arch: &ArchWords,
) -> Result<Option<Record>, Refusal>
    ensures value { IfOk result (λ new. new ≡ record_found arch.now (option_map deref current.entry)
        name.now sources.now binaries.now satisfied) }
    ensures refused { IfErr result (λ refusal. refusal ≡ Memory) }
    ensures memory { OnErr result (IsSome (listed_in arch.now sources.now name.now)) }
{
    let Some(listed) = listed_in(alloc, sources, name, arch)? else {
        return Ok(None);
    };
    let built = built_in(binaries, name)?;
    let made = match current {
        Some(current) => listed_record(alloc, current, &listed, built.as_ref(), satisfied)?,
        None => new_record(alloc, &listed, built.as_ref())?,
    };
    Ok(Some(made))
}
