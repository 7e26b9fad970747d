//! Whether what a record waits for is available, as the tables of a merge have it.
ghost use Rattle.std.specs.Prelude.{◌≡◌, IfOk, IfSome, OnOk};
ghost use Rattle.std.specs.Option.{option_map};
ghost use Rattle.std.specs.Map.Iter.{deref};
ghost use Rattle.wb_merge.specs.Merge.{SaysWaitsMet, are_waits_met};
ghost use Rattle.wb_merge.specs.Scratch.{available_in, versions_in};
ghost use Rattle.wb_archive.specs.Decides.{pairs_named, with_versions};
ghost use Rattle.wb_archive.specs.Faults.{Advances, StopsAs};
ghost use Rattle.wb_archive.specs.Tables.{Tables};

use crate::MergeTables;
use crate::fault::{MergeFault, asked};
use deb_relations::{Available, RelationFault, Relations};
use deb_text::Text;
use deb_version::Version;
use std::alloc::{AllocError, Global};
use wb_states::{Record, State};

/// Adds a name in these versions, or without one, to what is available.
fn add_versions(
    available: &mut Available,
    name: &Text,
    versions: Vec<Option<Version>>,
) -> Result<(), AllocError>
    ensures value { OnOk result (available.new ≡ with_versions available.old name.now versions.items) }
{
    for version in versions {
        available.provide(name.as_str(), version)?;
    }
    Ok(())
}

/// Adds a name in the versions that are kept of it to what is available.
fn add_named<T: MergeTables>(
    tables: &mut T,
    available: &mut Available,
    name: &Text,
) -> Result<(), MergeFault<T::Fault>>
    ensures value { (at : Tables) → T.is_clean tables.new → T.holds tables.old at
        → OnOk result (available.new ≡ with_versions available.old name.now (versions_in at.now.binaries name.now)) }
    ensures same { (at : Tables) → T.is_clean tables.new → T.holds tables.old at → OnOk result (T.holds tables.new at) }
    ensures calls { Advances T.follows (StopsAs T.follows T.fails) tables.old tables.new result }
{
    let versions = asked(tables.versions_named(name))?;
    add_versions(available, name, versions)?;
    Ok(())
}

/// What is available of these names.
fn available_of<T: MergeTables>(
    alloc: Global,
    tables: &mut T,
    names: &[Text],
) -> Result<Available, MergeFault<T::Fault>>
    ensures value { (at : Tables) → T.is_clean tables.new → T.holds tables.old at
        → IfOk result (λ available. available ≡ pairs_named at.now.binaries names.now) }
    ensures same { (at : Tables) → T.is_clean tables.new → T.holds tables.old at → OnOk result (T.holds tables.new at) }
    ensures calls { Advances T.follows (StopsAs T.follows T.fails) tables.old tables.new result }
{
    let mut available = Available::new(alloc);
    for name in names {
        add_named(tables, &mut available, name)?;
    }
    Ok(available)
}

/// Whether all that is waited for is available among what is kept of Packages.
#[tactic(auto, unfolding(wb_merge::specs::Merge::are_waits_met))]
fn are_waits_met<T: MergeTables>(
    alloc: Global,
    tables: &mut T,
    waits: &Text,
) -> Result<bool, MergeFault<T::Fault>>
    ensures value { (at : Tables) → T.is_clean tables.new → T.holds tables.old at
        → IfOk result (λ is_met. is_met ≡ are_waits_met (available_in at.now.binaries) waits.now) }
    ensures same { (at : Tables) → T.is_clean tables.new → T.holds tables.old at → OnOk result (T.holds tables.new at) }
    ensures calls { Advances T.follows (StopsAs T.follows T.fails) tables.old tables.new result }
{
    let relations = match Relations::parse(alloc, waits.as_str()) {
        Ok(relations) => relations,
        Err(RelationFault::Memory) => return Err(MergeFault::Memory),
        Err(_) => return Ok(false),
    };
    let names = relations.names(alloc)?;
    let available = available_of(alloc, tables, &names)?;
    Ok(relations.satisfied(&available))
}

/// Of a record in Dep-Wait, whether all that it waits for is available among what is kept of
/// Packages.
pub(crate) fn is_met<T: MergeTables>(
    alloc: Global,
    tables: &mut T,
    current: Option<&Record>,
) -> Result<bool, MergeFault<T::Fault>>
    ensures value { (at : Tables) → T.is_clean tables.new → T.holds tables.old at
        → IfOk result (λ is_met. IfSome (option_map deref current.entry)
        (SaysWaitsMet (available_in at.now.binaries) is_met)) }
    ensures same { (at : Tables) → T.is_clean tables.new → T.holds tables.old at → OnOk result (T.holds tables.new at) }
    ensures calls { Advances T.follows (StopsAs T.follows T.fails) tables.old tables.new result }
{
    match current {
        Some(current) if current.state == State::DepWait => {
            are_waits_met(alloc, tables, &current.waits)
        }
        _ => Ok(false),
    }
}
