//! What an accepted command changed in a part of the office, written to the tables of the whole
//! office: one record, one architecture or one pair of a builder and an architecture, and the two
//! counts.

ghost use Rattle.std.specs.Prelude.{◌≡◌, false, None, Some, IfErr, IfOk, OnOk};
ghost use Rattle.std.specs.FinMap as map;
ghost use Rattle.wb_states.specs.declared.store_fault.StoreFault.TheVariants.{Memory};
ghost use Rattle.wb_states.specs.declared.store_fault.Table.TheVariants.{Office, SourceRecord};
ghost use Rattle.wb_step.specs.Locality.{with_entry};
ghost use Rattle.wb_store.specs.Faults.{IsUnfit};
ghost use Rattle.wb_store.specs.Writes as write;
ghost use Rattle.wb_office.specs.Changed.{ChangesBy, IsStepOf, IsThere, IsWriteOf};
ghost use Rattle.wb_office.specs.Changed.{IsWriteOfRecord, Writes};
ghost use Rattle.wb_office.specs.Changed.{before_counts, found_at};
ghost use Rattle.wb_office.specs.Changed.{HasFittingCounts, HasFittingTakeAt, LacksFittingNumbers};

use deb_text::Text;
use sqlite::Alter;
use wb_states::{COUNT_LIMIT, Command, Counts, OsCpu, Record, StoreFault, Table, command};
use wb_step::OfficePart;
use wb_store::{Writing, has_fitting_take, unfit};

/// Writes the change of an accepted command, and the counts after it, in a transaction that is
/// under way. `after` is the part of the office in which the command was carried out, and `key` is
/// that of the record that it put. The fault is that of the statement that failed; or, before any,
/// `Memory`, or `Damaged` with row 0 of the office or of the records if a count or a take number of
/// the part is above [`COUNT_LIMIT`]. The caller then takes the transaction back (this project's
/// own).
pub(crate) fn write_change<S: Alter + Drop>(
    writing: &mut Writing<'_, S>,
    command: &Command,
    key: &Option<(Text, Text)>,
    after: &OfficePart,
) -> Result<(), StoreFault>
    ensures same_reference { writing.new.store.ghost_name ≡ writing.old.store.ghost_name }
    ensures changes { ChangesBy S.Store command.now key.now after.now
        writing.old.store.now writing.new.store.now result }
{
    let counts = counts_after(after)?;
    write_subject(writing, command, key, after)?;
    writing.set_counts(counts)
}

/// The counts of the part of the office, which are those of the whole one, if they fit.
pub(crate) fn counts_after(after: &OfficePart) -> Result<Counts, StoreFault>
    ensures value { IfOk result (λ counts.
        (counts.handed ≡ after.now.handed) × (counts.accepted ≡ after.now.accepted)) }
    ensures fits { OnOk result (HasFittingCounts after.now) }
    ensures err { IfErr result (IsUnfit Office (HasFittingCounts after.now)) }
{
    let counts = after.counts();
    if counts.handed > COUNT_LIMIT || counts.accepted > COUNT_LIMIT {
        return Err(unfit(Table::Office));
    }
    Ok(counts)
}

/// Writes what the command added, put or took away, but not the counts.
fn write_subject<S: Alter + Drop>(
    writing: &mut Writing<'_, S>,
    command: &Command,
    key: &Option<(Text, Text)>,
    after: &OfficePart,
) -> Result<(), StoreFault>
    ensures same_reference { writing.new.store.ghost_name ≡ writing.old.store.ghost_name }
    ensures writes { Writes S.Store (IsWriteOf command.now key.now after.now) (LacksFittingNumbers after.now key.now)
        (λ whole. IsStepOf whole command.now key.now after.now) (before_counts command.now)
        writing.old.store.now writing.new.store.now result }
{
    match command {
        Command::AddArch(command) => write_arch(writing, command),
        Command::AddBuilder(command) => writing.add_builder(&command.name, &command.arch),
        Command::RemoveBuilder(command) => writing.remove_builder(&command.name, &command.arch),
        Command::Forget(command) => writing.remove(&command.arch, &command.source),
        _ => match key {
            Some((arch, source)) => {
                let is_new = matches!(command, Command::Enter(_));
                write_record(writing, arch, source, after, is_new)
            }
            None => Ok(()),
        },
    }
}

/// Adds the architecture of a command.
fn write_arch<S: Alter + Drop>(
    writing: &mut Writing<'_, S>,
    command: &command::AddArch,
) -> Result<(), StoreFault>
    ensures same_reference { writing.new.store.ghost_name ≡ writing.old.store.ghost_name }
    ensures writes { Writes S.Store
        (λ it. it ≡ write.AddsArch (command.now.name, record { os = command.now.os; cpu = command.now.cpu }))
        (λ fault. fault ≡ Memory)
        (λ machine. map.get machine.archs command.now.name ≡ None)
        (λ machine. record machine {
          archs = map.insert machine.archs command.now.name
              (record { os = command.now.os; cpu = command.now.cpu });
        })
        writing.old.store.now writing.new.store.now result }
{
    let words = OsCpu {
        os: command.os.clone()?,
        cpu: command.cpu.clone()?,
    };
    writing.add_arch(&command.name, &words)
}

/// Writes the record that the part of the office has at the key, if there is one: as a new one, or
/// in place of the one that is there, which is quicker.
fn write_record<S: Alter + Drop>(
    writing: &mut Writing<'_, S>,
    arch: &Text,
    source: &Text,
    after: &OfficePart,
    is_new: bool,
) -> Result<(), StoreFault>
    ensures same_reference { writing.new.store.ghost_name ≡ writing.old.store.ghost_name }
    ensures writes { Writes S.Store
        (IsWriteOfRecord is_new (found_at after.now (Some (arch.now, source.now))))
        (IsUnfit SourceRecord (HasFittingTakeAt after.now (Some (arch.now, source.now))))
        (λ machine. is_new ≡ false → IsThere machine (found_at after.now (Some (arch.now, source.now))))
        (λ machine. record machine {
          records = with_entry (found_at after.now (Some (arch.now, source.now))) machine.records;
        })
        writing.old.store.now writing.new.store.now result }
{
    let Some(current) = after.get(arch, source)? else {
        return Ok(());
    };
    if !has_fitting_take(current) {
        return Err(unfit(Table::SourceRecord));
    }
    if is_new {
        writing.put(arch, source, current)
    } else {
        writing.replace(arch, source, current)
    }
}
