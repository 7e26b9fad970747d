//! Rows of the tables that are written or taken out one after another.
ghost use Rattle.std.specs.Prelude.{◌≡◌, ℕ, List, map as each};
ghost use Rattle.deb_text.specs.Lists.{IsIn};
ghost use Rattle.wb_states.specs.Lookups.{entry_of};
ghost use Rattle.wb_states.specs.Machine.{Key};
ghost use Rattle.wb_merge.specs.Reported.{with_rows};
ghost use Rattle.wb_office.specs.RowWrites.{HasTakeOverLimit, PutsOne, TakesOut, without_arch};
ghost use Rattle.wb_office.specs.RowWrites.{without_names, without_pair, without_pairs};
ghost use Rattle.wb_office.specs.Turns.{ChangesInTurn};

use deb_text::Text;
use sqlite::Alter;
use wb_states::{KeyedRecord, StoreFault, Table};
use wb_store::{Writing, has_fitting_take, unfit};

/// Puts these records, one after another; all else stays. The fault is that of the statement that
/// failed, or `Damaged` with row 0 of the records at one whose take number is above the limit.
pub(crate) fn put_all<S: Alter + Drop>(
    writing: &mut Writing<'_, S>,
    rows: &[KeyedRecord],
) -> Result<(), StoreFault>
    ensures same_reference { writing.new.store.ghost_name ≡ writing.old.store.ghost_name }
    ensures changes { ChangesInTurn S.Store (PutsOne (each entry_of rows.now)) (HasTakeOverLimit (each entry_of rows.now))
        (λ machine. record machine { records = with_rows machine.records (each entry_of rows.now) })
        writing.old.store.now writing.new.store.now result }
{
    for row in rows {
        if !has_fitting_take(&row.current) {
            return Err(unfit(Table::SourceRecord));
        }
        writing.put(&row.arch, &row.source, &row.current)?;
    }
    Ok(())
}

/// Takes the records of these source packages of the architecture out, one after another; all else
/// stays. The fault is that of the statement that failed.
fn remove_names<S: Alter + Drop>(
    writing: &mut Writing<'_, S>,
    arch: &Text,
    names: &[Text],
) -> Result<(), StoreFault>
    ensures same_reference { writing.new.store.ghost_name ≡ writing.old.store.ghost_name }
    ensures changes { (pairs : List Key) → ChangesInTurn S.Store (TakesOut arch.now names.now pairs) (λ _. ⊥)
        (λ machine. record machine { records = without_names arch.now names.now machine.records })
        writing.old.store.now writing.new.store.now result }
{
    for name in names {
        writing.remove(arch, name)?;
    }
    Ok(())
}

/// Takes the pair of a builder and an architecture out, if it is of this architecture; all else
/// stays. The fault is that of the statement.
fn remove_pair<S: Alter + Drop>(
    writing: &mut Writing<'_, S>,
    arch: &Text,
    pair: &(Text, Text),
) -> Result<(), StoreFault>
    ensures same_reference { writing.new.store.ghost_name ≡ writing.old.store.ghost_name }
    ensures changes { (names : List (List ℕ)) (pairs : List Key) → IsIn pair.now pairs
        → ChangesInTurn S.Store (TakesOut arch.now names pairs) (λ _. ⊥)
        (λ machine. record machine { builders = without_pair arch.now pair.now machine.builders })
        writing.old.store.now writing.new.store.now result }
{
    if &pair.1 != arch {
        return Ok(());
    }
    writing.remove_builder(&pair.0, &pair.1)
}

/// Takes those of these pairs out that are of the architecture, one after another; all else stays.
/// The fault is that of the statement that failed.
fn remove_pairs<S: Alter + Drop>(
    writing: &mut Writing<'_, S>,
    arch: &Text,
    pairs: &[(Text, Text)],
) -> Result<(), StoreFault>
    ensures same_reference { writing.new.store.ghost_name ≡ writing.old.store.ghost_name }
    ensures changes { (names : List (List ℕ)) → ChangesInTurn S.Store (TakesOut arch.now names pairs.now) (λ _. ⊥)
        (λ machine. record machine { builders = without_pairs arch.now pairs.now machine.builders })
        writing.old.store.now writing.new.store.now result }
{
    for pair in pairs {
        remove_pair(writing, arch, pair)?;
    }
    Ok(())
}

/// Takes the records of these source packages of the architecture out, those of these pairs that
/// are of it, and then the architecture, on which the tables let nothing rest; all else stays. The
/// fault is that of the statement that failed.
pub(crate) fn remove_all<S: Alter + Drop>(
    writing: &mut Writing<'_, S>,
    arch: &Text,
    names: &[Text],
    pairs: &[(Text, Text)],
) -> Result<(), StoreFault>
    ensures same_reference { writing.new.store.ghost_name ≡ writing.old.store.ghost_name }
    ensures changes { ChangesInTurn S.Store (TakesOut arch.now names.now pairs.now) (λ _. ⊥)
        (without_arch arch.now names.now pairs.now)
        writing.old.store.now writing.new.store.now result }
{
    remove_names(writing, arch, names)?;
    remove_pairs(writing, arch, pairs)?;
    writing.remove_arch(arch)
}
