//! The names for which the records of an architecture wait.
ghost use Rattle.std.specs.Prelude.{◌≡◌, ◌||◌, ℕ, List, map, true, IfOk, OnOk};
ghost use Rattle.std.specs.BTreeSet.{contains};
ghost use Rattle.deb_relations.specs.Satisfaction.{is_among};
ghost use Rattle.deb_text.specs.Lists.{IsIn};
ghost use Rattle.deb_text.specs.Text.{text_cmp};
ghost use Rattle.wb_states.specs.declared.record.Record.{Record};
ghost use Rattle.wb_archive.specs.Faults.{Advances, StopsAs};
ghost use Rattle.wb_archive.specs.Tables.{HaveWaiting, Tables};
ghost use Rattle.wb_archive.specs.Waited.{AreAllWaitedFor, AreWaitedFor};

use crate::MergeTables;
use crate::fault::{MergeFault, asked};
use deb_relations::{RelationFault, Relations};
use deb_text::Text;
use std::alloc::{AllocError, Global};
use std::collections::BTreeSet;
use wb_states::KeyedRecord;

/// Adds these names to others.
pub(crate) fn add_names(waited: &mut BTreeSet<Text>, names: &[Text]) -> Result<(), AllocError>
    ensures value { OnOk result ((name : List ℕ) → contains text_cmp waited.new name
        ≡ (is_among name names.now || contains text_cmp waited.old name)) }
{
    for name in names {
        waited.insert(name.clone()?)?;
    }
    Ok(())
}

/// Adds the names for which these waits wait, if they can be read.
fn add_waits(alloc: Global, waited: &mut BTreeSet<Text>, waits: &Text) -> Result<(), AllocError>
    ensures names { OnOk result (AreWaitedFor (contains text_cmp waited.new) waits.now) }
    ensures others { OnOk result ((name : List ℕ) → contains text_cmp waited.old name ≡ true
        → contains text_cmp waited.new name ≡ true) }
{
    let relations = match Relations::parse(alloc, waits.as_str()) {
        Ok(relations) => relations,
        Err(RelationFault::Memory) => return Err(AllocError),
        Err(_) => return Ok(()),
    };
    let names = relations.names(alloc)?;
    add_names(waited, &names)
}

/// The names for which these records wait.
fn names_of(alloc: Global, rows: &[KeyedRecord]) -> Result<BTreeSet<Text>, AllocError>
    ensures value { IfOk result (λ waited. (current : Record) → IsIn current (map (λ row. row.current) rows.now)
        → AreWaitedFor (contains text_cmp waited) current.waits) }
{
    let mut waited = BTreeSet::new(alloc);
    for row in rows {
        add_waits(alloc, &mut waited, &row.current.waits)?;
    }
    Ok(waited)
}

/// The records of the architecture that are in Dep-Wait.
fn waiting<T: MergeTables>(
    tables: &mut T,
    arch: &Text,
) -> Result<Vec<KeyedRecord>, MergeFault<T::Fault>>
    ensures value { (at : Tables) → T.is_clean tables.new → T.holds tables.old at
        → IfOk result (λ rows. HaveWaiting at.now.machine.records arch.now rows.items) }
    ensures same { (at : Tables) → T.is_clean tables.new → T.holds tables.old at → OnOk result (T.holds tables.new at) }
    ensures calls { Advances T.follows (StopsAs T.follows T.fails) tables.old tables.new result }
{
    asked(tables.waiting(arch))
}

/// The names for which the records of the architecture wait that are in Dep-Wait.
pub(crate) fn waited_names<T: MergeTables>(
    alloc: Global,
    tables: &mut T,
    arch: &Text,
) -> Result<BTreeSet<Text>, MergeFault<T::Fault>>
    ensures value { (at : Tables) → T.is_clean tables.new → T.holds tables.old at
        → IfOk result (λ waited. AreAllWaitedFor at.now.machine.records arch.now (contains text_cmp waited)) }
    ensures same { (at : Tables) → T.is_clean tables.new → T.holds tables.old at → OnOk result (T.holds tables.new at) }
    ensures calls { Advances T.follows (StopsAs T.follows T.fails) tables.old tables.new result }
{
    let rows = waiting(tables, arch)?;
    Ok(names_of(alloc, &rows)?)
}
