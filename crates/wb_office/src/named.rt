//! The part of an office that a command names, read from its tables.
ghost use Rattle.std.specs.Prelude.{◌≡◌, IfOk, IfErr};
ghost use Rattle.std.specs.Option.{option_map};
ghost use Rattle.wb_states.specs.declared.store_fault.StoreFault.TheVariants.{Memory};
ghost use Rattle.wb_states.specs.Lookups.{entry_of};
ghost use Rattle.wb_office.specs.Answers.{AreOf, IsNamed};
ghost use Rattle.wb_store.specs.Finds.{Finds};
ghost use Rattle.wb_office.specs.Sought.{key_named, office_of};

mod found;
mod names;
mod part;

use deb_text::Text;
use found::find;
pub(crate) use found::{FoundPart, keyed};
use names::{Subject, key_of};
pub(crate) use part::part_of;
use sqlite::Alter;
use std::alloc::Global;
use wb_states::{Command, Counts, OsCpu, StoreFault};
use wb_step::OfficePart;
use wb_store::Store;

/// What a command names of an office: as much of it as decides the answer.
#[derive(Drop)]
pub(crate) struct Named {
    /// The office that has what the command names, and nothing else.
    pub(crate) part: OfficePart,
    /// The key of the record that the command puts if it is accepted.
    pub(crate) key: Option<(Text, Text)>,
}

/// An office of what was found, and the key of the record that is put. The only error is `Memory`.
fn named_of(alloc: Global, names: &Subject<'_>, found: FoundPart) -> Result<Named, StoreFault>
    ensures part { IfOk result (λ named. named.part ≡ office_of found) }
    ensures key { IfOk result (λ named. named.key
        ≡ key_named names.now (option_map entry_of found.first)) }
    ensures fault { IfErr result (λ fault. fault ≡ Memory) }
{
    let key = key_of(names, &found.first)?;
    Ok(Named {
        part: part_of(alloc, found)?,
        key,
    })
}

/// What the command names of an office that has these counts and architectures: they, and what is
/// read from the tables; for a merge that is nothing. The faults are those of the look-ups, and
/// `Memory` if memory runs out. The database stays as it is; only a failed query may take a
/// transaction back. Source: this project's own.
pub(crate) fn named_part<S: Alter + Drop>(
    alloc: Global,
    store: &mut Store<S>,
    counts: Counts,
    archs: Vec<(Text, OsCpu)>,
    command: &Command,
) -> Result<Named, StoreFault>
    ensures finds { Finds S.Store (λ machine named. AreOf counts archs.items machine
        → IsNamed command.now named.part named.key machine) store.old store.new result }
{
    let names = command.names();
    let found = find(alloc, store, counts, archs, command, &names)?;
    named_of(alloc, &names, found)
}
