//! What the office is asked that changes nothing, read from its tables.
ghost use Rattle.std.specs.Prelude.{◌≡◌, false, not, IfErr, IfOk};
ghost use Rattle.deb_text.specs.Lists.{is_nonempty};
ghost use Rattle.wb_states.specs.Holds.{holder_of};
ghost use Rattle.wb_states.specs.Refusals.{is_of_store};
ghost use Rattle.std.specs.Option.{option_and_then};
ghost use Rattle.std.specs.Prelude.{Some};
ghost use Rattle.wb_states.specs.Machine.{Machine, is_unknown_arch};
ghost use Rattle.wb_states.specs.Queries.{answer_in, depends_at, depends_in, found_at, item_in};
ghost use Rattle.wb_states.specs.Queries.{mine_in};
ghost use Rattle.wb_states.specs.Queries.{archs_in, builders_in, office_in, queue_in, records_in};
ghost use Rattle.wb_states.specs.Queries.{summary_in};
ghost use Rattle.wb_states.specs.State.{state_named};
ghost use Rattle.wb_store.specs.Finds.{Finds};
ghost use Rattle.wb_office.specs.Standing.{Knows};

use crate::known::{Known, find_counts};
use deb_text::{Items, Text};
use sqlite::Alter;
use std::alloc::AllocError;
use wb_states::{Answer, KeyedRecord, Query, Record, Refusal, State, StoreFault};
use wb_store::Store;

/// What the office answers to a query of which each name has its form, by what is known of the
/// tables. The faults are those of the look-ups, and `Memory`. The database stays as it is; only a
/// failed look-up may take a transaction back.
pub(crate) fn find_answer<S: Alter + Drop>(
    store: &mut Store<S>,
    known: &mut Known,
    query: &Query,
) -> Result<Result<Answer, Refusal>, StoreFault>
    ensures finds { Finds S.Store (λ machine answer. Knows machine known.old
        → (answer ≡ answer_in machine query.now) × Knows machine known.new)
        store.old store.new result }
    ensures kind { IfOk result (λ answer. IfErr answer (λ refusal. is_of_store refusal ≡ false)) }
    ensures err { IfErr result (λ _. (machine : Machine)
        → Knows machine known.old → Knows machine known.new) }
{
    match query {
        Query::Queue { arch } => find_queue(store, arch),
        Query::ByState { arch, state } => find_by_state(store, arch, state),
        Query::Item { arch, source } => find_item(store, arch, source),
        Query::Mine { builder } => find_mine(store, builder),
        Query::Depends { arch, source } => find_depends(store, arch, source),
        Query::Summary { arch } => find_summary(store, known, arch),
        Query::Office => find_office(store),
        Query::Archs => find_archs(store),
        Query::Builders => find_builders(store),
    }
}

/// Whether the architecture was never added.
fn is_unknown_arch<S: Alter + Drop>(store: &mut Store<S>, arch: &Text) -> Result<bool, StoreFault>
    ensures finds { Finds S.Store (λ machine is_unknown. is_unknown ≡ is_unknown_arch machine arch.now)
        store.old store.new result }
{
    let words = store.arch(arch)?;
    Ok(words.is_none())
}

/// The answer to a query for the queue of the architecture.
fn find_queue<S: Alter + Drop>(
    store: &mut Store<S>,
    arch: &Text,
) -> Result<Result<Answer, Refusal>, StoreFault>
    ensures finds { Finds S.Store (λ machine answer. answer ≡ queue_in machine arch.now)
        store.old store.new result }
    ensures kind { IfOk result (λ answer. IfErr answer (λ refusal. is_of_store refusal ≡ false)) }
{
    let is_unknown = is_unknown_arch(store, arch)?;
    if is_unknown {
        return Ok(Err(Refusal::UnknownArch));
    }
    let records = Items::from(store.queue_of(arch)?);
    let arch = arch.clone()?;
    Ok(Ok(Answer::Queue { arch, records }))
}

/// The same for the records of the architecture that are in the state with this name.
fn find_by_state<S: Alter + Drop>(
    store: &mut Store<S>,
    arch: &Text,
    name: &Text,
) -> Result<Result<Answer, Refusal>, StoreFault>
    ensures finds { Finds S.Store (λ machine answer. answer ≡ records_in machine arch.now (state_named name.now))
        store.old store.new result }
    ensures kind { IfOk result (λ answer. IfErr answer (λ refusal. is_of_store refusal ≡ false)) }
{
    match State::of_name(name.as_str()) {
        Some(state) => find_in_state(store, arch, state),
        None => Ok(Err(Refusal::BadName)),
    }
}

/// The same for the records of the architecture that are in the state.
fn find_in_state<S: Alter + Drop>(
    store: &mut Store<S>,
    arch: &Text,
    state: State,
) -> Result<Result<Answer, Refusal>, StoreFault>
    ensures finds { Finds S.Store (λ machine answer. answer ≡ records_in machine arch.now (Some state))
        store.old store.new result }
    ensures kind { IfOk result (λ answer. IfErr answer (λ refusal. is_of_store refusal ≡ false)) }
{
    let is_unknown = is_unknown_arch(store, arch)?;
    if is_unknown {
        return Ok(Err(Refusal::UnknownArch));
    }
    let records = Items::from(store.in_state(arch, state)?);
    let arch = arch.clone()?;
    Ok(Ok(Answer::ByState {
        arch,
        state,
        records,
    }))
}

/// The same for the record of the source package on the architecture.
fn find_item<S: Alter + Drop>(
    store: &mut Store<S>,
    arch: &Text,
    source: &Text,
) -> Result<Result<Answer, Refusal>, StoreFault>
    ensures finds { Finds S.Store (λ machine answer. answer ≡ item_in machine arch.now source.now)
        store.old store.new result }
    ensures kind { IfOk result (λ answer. IfErr answer (λ refusal. is_of_store refusal ≡ false)) }
{
    let is_unknown = is_unknown_arch(store, arch)?;
    if is_unknown {
        return Ok(Err(Refusal::UnknownArch));
    }
    let found = store.get(arch, source)?;
    Ok(item_found(arch, source, found)?)
}

/// The answer with the record that was found, or that there is none. The error is that there is no
/// memory for it.
fn item_found(
    arch: &Text,
    source: &Text,
    found: Option<Record>,
) -> Result<Result<Answer, Refusal>, AllocError>
    ensures value { IfOk result (λ answer. answer ≡ found_at arch.now source.now found) }
    ensures kind { IfOk result (λ answer. IfErr answer (λ refusal. is_of_store refusal ≡ false)) }
{
    match found {
        None => Ok(Err(Refusal::UnknownSource)),
        Some(current) => Ok(Ok(Answer::Item(KeyedRecord {
            arch: arch.clone()?,
            source: source.clone()?,
            current,
        }))),
    }
}

/// The same for what the builder holds.
fn find_mine<S: Alter + Drop>(
    store: &mut Store<S>,
    builder: &Text,
) -> Result<Result<Answer, Refusal>, StoreFault>
    ensures finds { Finds S.Store (λ machine answer. answer ≡ mine_in machine builder.now)
        store.old store.new result }
    ensures kind { IfOk result (λ answer. IfErr answer (λ refusal. is_of_store refusal ≡ false)) }
{
    let archs = store.archs_of(builder)?;
    let is_unknown = archs.is_empty();
    if is_unknown {
        return Ok(Err(Refusal::UnknownBuilder));
    }
    let records = Items::from(store.held_by(builder)?);
    let builder = builder.clone()?;
    Ok(Ok(Answer::Mine { builder, records }))
}

/// The same for what the source package needs to be built on the architecture.
fn find_depends<S: Alter + Drop>(
    store: &mut Store<S>,
    arch: &Text,
    source: &Text,
) -> Result<Result<Answer, Refusal>, StoreFault>
    ensures finds { Finds S.Store (λ machine answer. answer ≡ depends_in machine arch.now source.now)
        store.old store.new result }
    ensures kind { IfOk result (λ answer. IfErr answer (λ refusal. is_of_store refusal ≡ false)) }
{
    let is_unknown = is_unknown_arch(store, arch)?;
    if is_unknown {
        return Ok(Err(Refusal::UnknownArch));
    }
    let kept = store.get(arch, source)?;
    Ok(depends_found(arch, source, kept)?)
}

/// The answer with what the record that was found needs, or that there is none. The error is that
/// there is no memory for it.
fn depends_found(
    arch: &Text,
    source: &Text,
    found: Option<Record>,
) -> Result<Result<Answer, Refusal>, AllocError>
    ensures value { IfOk result (λ answer. answer ≡ depends_at arch.now source.now found) }
    ensures kind { IfOk result (λ answer. IfErr answer (λ refusal. is_of_store refusal ≡ false)) }
{
    match found {
        None => Ok(Err(Refusal::UnknownSource)),
        Some(current) => Ok(Ok(Answer::Depends {
            arch: arch.clone()?,
            source: source.clone()?,
            depends: current.depends,
        })),
    }
}

/// The same for how many records of the architecture are in each state, which is known then.
fn find_summary<S: Alter + Drop>(
    store: &mut Store<S>,
    known: &mut Known,
    arch: &Text,
) -> Result<Result<Answer, Refusal>, StoreFault>
    ensures finds { Finds S.Store (λ machine answer. Knows machine known.old
        → (answer ≡ summary_in machine arch.now) × Knows machine known.new)
        store.old store.new result }
    ensures kind { IfOk result (λ answer. IfErr answer (λ refusal. is_of_store refusal ≡ false)) }
    ensures err { IfErr result (λ _. (machine : Machine)
        → Knows machine known.old → Knows machine known.new) }
{
    let is_unknown = is_unknown_arch(store, arch)?;
    if is_unknown {
        return Ok(Err(Refusal::UnknownArch));
    }
    let of_office = store.office_row()?;
    let accepted = of_office.accepted;
    let name = arch.clone()?;
    let counts = find_counts(store, known, arch)?;
    Ok(Ok(Answer::Summary {
        accepted,
        arch: name,
        counts,
    }))
}

/// The same for the two counts of the office.
fn find_office<S: Alter + Drop>(store: &mut Store<S>) -> Result<Result<Answer, Refusal>, StoreFault>
    ensures finds { Finds S.Store (λ machine answer. answer ≡ office_in machine)
        store.old store.new result }
    ensures kind { IfOk result (λ answer. IfErr answer (λ refusal. is_of_store refusal ≡ false)) }
{
    let of_office = store.office_row()?;
    Ok(Ok(Answer::Office {
        accepted: of_office.accepted,
        handed: of_office.handed,
    }))
}

/// The same for the architectures of the office.
fn find_archs<S: Alter + Drop>(store: &mut Store<S>) -> Result<Result<Answer, Refusal>, StoreFault>
    ensures finds { Finds S.Store (λ machine answer. answer ≡ archs_in machine)
        store.old store.new result }
    ensures kind { IfOk result (λ answer. IfErr answer (λ refusal. is_of_store refusal ≡ false)) }
{
    let of_office = store.office_row()?;
    let archs = Items::from(store.archs()?);
    Ok(Ok(Answer::Archs {
        accepted: of_office.accepted,
        archs,
    }))
}

/// The same for the builders of the office.
fn find_builders<S: Alter + Drop>(
    store: &mut Store<S>,
) -> Result<Result<Answer, Refusal>, StoreFault>
    ensures finds { Finds S.Store (λ machine answer. answer ≡ builders_in machine)
        store.old store.new result }
    ensures kind { IfOk result (λ answer. IfErr answer (λ refusal. is_of_store refusal ≡ false)) }
{
    let of_office = store.office_row()?;
    let pairs = Items::from(store.builders()?);
    Ok(Ok(Answer::Builders {
        accepted: of_office.accepted,
        pairs,
    }))
}

/// The builder of the record that is held under the take number, or none if nobody holds it. The
/// faults are those of the look-up.
pub(crate) fn find_holder<S: Alter + Drop>(
    store: &mut Store<S>,
    take_number: u64,
) -> Result<Option<Text>, StoreFault>
    ensures finds { Finds S.Store (λ machine holder. holder ≡ holder_of machine take_number)
        store.old store.new result }
{
    let found = store.by_take(take_number)?;
    Ok(holder_in(found))
}

/// The holder of the record that was found, or none if none was found.
fn holder_in(found: Option<KeyedRecord>) -> Option<Text>
    ensures value { result ≡ option_and_then (λ row. row.current.holder) found }
{
    match found {
        Some(row) => {
            let current = row.current;
            current.holder
        }
        None => None,
    }
}
