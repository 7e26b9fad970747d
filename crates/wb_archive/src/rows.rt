//! What a merge keeps of the paragraphs of the archive's lists, one after another.
ghost use Rattle.std.specs.Prelude.{◌≡◌, ◌≢◌, ◌+◌, ◌-◌, ◌^◌, ◌<◌, [], List, filter, None, Ok, Err};
ghost use Rattle.std.specs.Prelude.{IfOk, IfErr, IfSome, OnOk};
ghost use Rattle.deb_control.specs.declared.fault.ControlFault.{ControlFault as AnyFault};
ghost use Rattle.deb_control.specs.declared.fault.ControlFaultKind.TheVariants.{Memory as NoMemory};
ghost use Rattle.wb_states.specs.declared.refusal.ListKind.TheVariants.{Sources, Packages};
ghost use Rattle.std.specs.BTreeSet.{contains};
ghost use Rattle.deb_text.specs.Text.{text_cmp};
ghost use Rattle.wb_states.specs.declared.scratch.BinaryRow.{BinaryRow as KeptBinary};
ghost use Rattle.wb_merge.specs.Scratch.{binary_rows_at, is_binary_wanted, source_row_at};
ghost use Rattle.wb_archive.specs.Faults.{IfBad, control_bad};
ghost use Rattle.wb_archive.specs.Reads.{GivesRow, IsRefused, MayStandWhere, packages_at};
ghost use Rattle.wb_archive.specs.Reads.{sources_at};
ghost use Rattle.wb_archive.specs.declared.fault.ReadFault.TheVariants.{Bad};

use crate::ReadParagraphs;
use crate::fault::{BadList, ReadFault, read_fault};
use deb_control::{ControlFault, ControlFaultKind};
use deb_relations::ArchWords;
use deb_text::Text;
use std::alloc::Global;
use std::collections::BTreeSet;
use wb_merge::{binary_rows, source_row};
use wb_states::{BinaryRow, ListKind, ListingFault, SourceRow};

/// Why a paragraph of a list was not read, for a fault of its reader.
fn fault_of(which: ListKind, fault: ControlFault) -> ReadFault
    ensures bad { fault.kind ≢ NoMemory → result ≡ Bad (control_bad which fault) }
    ensures is { IfBad result (λ bad. fault.kind ≢ NoMemory × (bad ≡ control_bad which fault)) }
{
    match fault.kind {
        ControlFaultKind::Memory => ReadFault::Memory,
        kind => ReadFault::Bad(BadList {
            which,
            paragraph: fault.paragraph,
            fault: ListingFault::Control { kind },
        }),
    }
}

/// What is kept of the next paragraph of a Sources list, after so many, or none at the end.
pub(crate) fn next_source<R: ReadParagraphs>(
    alloc: Global,
    list: &mut R,
    passed: u64,
) -> Result<Option<SourceRow>, ReadFault>
    requires room { passed < 2 ^ 64 - 1 }
    ensures value { passed ≡ R.passed list.old → IfOk result (λ found. IfSome found (λ row.
        GivesRow R.may_stand_at source_row_at list.old row list.new)) }
    ensures counts { IfOk result (λ found. IfSome found (λ row. R.passed list.new ≡ R.passed list.old + 1)) }
    ensures number { IfOk result (λ found. IfSome found (λ row. row.seq ≡ passed + 1)) }
    ensures earlier { OnOk result ((fault : AnyFault) → R.breaks list.new fault → R.breaks list.old fault) }
    ensures ended { IfOk result (λ found. found ≡ None
        → MayStandWhere R.may_stand_at list.old (λ place. sources_at place ≡ Ok [])) }
    ensures refused { passed ≡ R.passed list.old → IfErr result (λ fault. IfBad fault (λ bad.
        MayStandWhere R.may_stand_at list.old (λ place. IsRefused (R.breaks list.old) Sources source_row_at place bad))) }
{
    match list.next(alloc) {
        Ok(None) => Ok(None),
        Ok(Some(found)) => match source_row(alloc, &found, passed + 1) {
            Ok(row) => Ok(Some(row)),
            Err(refusal) => Err(read_fault(refusal)),
        },
        Err(fault) => Err(fault_of(ListKind::Sources, fault)),
    }
}

/// What is kept of the next paragraph of the Packages list of an architecture, after so many, as
/// far as it can matter to a part of which these names are waited for, or none at the end.
pub(crate) fn next_binaries<R: ReadParagraphs>(
    alloc: Global,
    list: &mut R,
    passed: u64,
    arch: &ArchWords,
    waited: &BTreeSet<Text>,
) -> Result<Option<Vec<BinaryRow>>, ReadFault>
    requires room { passed < 2 ^ 64 - 1 }
    ensures value { passed ≡ R.passed list.old → IfOk result (λ found. IfSome found (λ rows.
        (kept : List KeptBinary) × ((rows.items ≡ filter (is_binary_wanted (contains text_cmp waited.now)) kept)
        × GivesRow R.may_stand_at (binary_rows_at arch.now) list.old kept list.new))) }
    ensures counts { IfOk result (λ found. IfSome found (λ rows. R.passed list.new ≡ R.passed list.old + 1)) }
    ensures earlier { OnOk result ((fault : AnyFault) → R.breaks list.new fault → R.breaks list.old fault) }
    ensures ended { IfOk result (λ found. found ≡ None
        → MayStandWhere R.may_stand_at list.old (λ place. packages_at arch.now place ≡ Ok [])) }
    ensures refused { passed ≡ R.passed list.old → IfErr result (λ fault. IfBad fault (λ bad.
        MayStandWhere R.may_stand_at list.old
        (λ place. IsRefused (R.breaks list.old) Packages (binary_rows_at arch.now) place bad))) }
{
    match list.next(alloc) {
        Ok(None) => Ok(None),
        Ok(Some(found)) => match binary_rows(alloc, &found, passed + 1, arch, waited) {
            Ok(rows) => Ok(Some(rows)),
            Err(refusal) => Err(read_fault(refusal)),
        },
        Err(fault) => Err(fault_of(ListKind::Packages, fault)),
    }
}
