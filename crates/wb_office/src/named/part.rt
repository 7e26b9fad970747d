//! An office of what was read of the tables.
ghost use Rattle.std.specs.Prelude.{◌≡◌, IfOk, IfErr, OnOk, map as each};
ghost use Rattle.std.specs.Option.{option_map};
ghost use Rattle.wb_states.specs.declared.store_fault.StoreFault.TheVariants.{Memory};
ghost use Rattle.wb_step.specs.Named.{listed};
ghost use Rattle.wb_states.specs.Lookups.{entry_of};
ghost use Rattle.wb_office.specs.Sought.{office_of, with_archs, with_entries, with_entry};
ghost use Rattle.wb_office.specs.Sought.{with_pairs};

use crate::named::found::FoundPart;
use deb_text::Text;
use std::alloc::Global;
use wb_states::{KeyedRecord, OsCpu, StoreFault};
use wb_step::OfficePart;

/// Adds the architectures: of two with one name, the first. The only error is `Memory`.
fn add_archs(store: &mut OfficePart, archs: Vec<(Text, OsCpu)>) -> Result<(), StoreFault>
    ensures ok { OnOk result (store.new ≡ with_archs store.old archs.items) }
    ensures fault { IfErr result (λ fault. fault ≡ Memory) }
{
    let mut left = archs;
    while let Some((name, words)) = left.pop() {
        store.add_arch(name, words)?;
    }
    Ok(())
}

/// Adds that these builders build for these architectures. The only error is `Memory`.
fn add_pairs(store: &mut OfficePart, pairs: Vec<(Text, Text)>) -> Result<(), StoreFault>
    ensures ok { OnOk result (store.new ≡ with_pairs store.old pairs.items) }
    ensures fault { IfErr result (λ fault. fault ≡ Memory) }
{
    let mut left = pairs;
    while let Some((builder, arch)) = left.pop() {
        store.add_builder(builder, arch)?;
    }
    Ok(())
}

/// Adds a record, and its holder for its architecture. The only error is `Memory`.
fn add_row(store: &mut OfficePart, row: KeyedRecord) -> Result<(), StoreFault>
    ensures ok { OnOk result (store.new ≡ with_entry store.old (entry_of row)) }
    ensures fault { IfErr result (λ fault. fault ≡ Memory) }
{
    if let Some(holder) = &row.current.holder {
        store.add_builder(holder.clone()?, row.arch.clone()?)?;
    }
    store.put(row.arch, row.source, row.current)?;
    Ok(())
}

/// Adds the records and their holders: of two records with one key, the first. The only error is
/// `Memory`.
fn add_rows(store: &mut OfficePart, rows: Vec<KeyedRecord>) -> Result<(), StoreFault>
    ensures ok { OnOk result (store.new ≡ with_entries store.old (each entry_of rows.items)) }
    ensures fault { IfErr result (λ fault. fault ≡ Memory) }
{
    let mut left = rows;
    while let Some(row) = left.pop() {
        add_row(store, row)?;
    }
    Ok(())
}

/// Adds a record, if there is one, and its holder. The only error is `Memory`.
fn add_first(store: &mut OfficePart, first: Option<KeyedRecord>) -> Result<(), StoreFault>
    ensures ok { OnOk result (store.new ≡ with_entries store.old (listed (option_map entry_of first))) }
    ensures fault { IfErr result (λ fault. fault ≡ Memory) }
{
    match first {
        None => Ok(()),
        Some(row) => add_row(store, row),
    }
}

/// The office that has what was found, and the pairs of the records' holders, and nothing else. The
/// only error is `Memory`.
pub(crate) fn part_of(alloc: Global, found: FoundPart) -> Result<OfficePart, StoreFault>
    ensures value { IfOk result (λ part. part ≡ office_of found) }
    ensures fault { IfErr result (λ fault. fault ≡ Memory) }
{
    let mut store = OfficePart::new(alloc);
    store.set_counts(found.counts);
    add_archs(&mut store, found.archs)?;
    add_pairs(&mut store, found.pairs)?;
    add_rows(&mut store, found.others)?;
    add_first(&mut store, found.first)?;
    Ok(store)
}
