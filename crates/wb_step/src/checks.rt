//! What commands ask of a part of the office, and the checks by what it has.
ghost use Rattle.std.specs.Prelude.{◌≡◌, None, Some, Err, false, nat_le, ◌||◌, IfOk, IfErr, OnOk};
ghost use Rattle.std.specs.FinMap as map;
ghost use Rattle.wb_states.specs.Limits.{count_limit};
ghost use Rattle.wb_states.specs.Machine.{Machine, arch_words};
ghost use Rattle.wb_states.specs.declared.refusal.Refusal.TheVariants.{UnknownArch};
ghost use Rattle.wb_states.specs.Queue.{Entry};
ghost use Rattle.wb_states.specs.Refusals.{IsOfMachine};
ghost use Rattle.wb_step.specs.Checks.{differing, found_refusal, is_for_others, is_number_ahead, when};
ghost use Rattle.wb_step.specs.Outcomes.{sought_step};
ghost use Rattle.wb_step.specs.Step.{Outcome};
ghost use Rattle.wb_states.specs.Machine.{is_unknown_arch, is_unknown_builder};

use crate::OfficePart;
use deb_relations::ArchWords;
use deb_text::Text;
use deb_version::{Version, compare};
use std::alloc::{AllocError, Global};
use wb_states::{COUNT_LIMIT, Record, Refusal};

/// Whether the architecture was never added.
pub(crate) fn lacks_arch(office: &OfficePart, arch: &Text) -> bool
    ensures value { result ≡ is_unknown_arch office.now arch.now }
{
    !office.has_arch(arch)
}

/// Whether the builder was added for no architecture. The only error is that memory ran out.
pub(crate) fn lacks_builder(office: &OfficePart, builder: &Text) -> Result<bool, AllocError>
    ensures value { IfOk result (λ lacks. lacks ≡ is_unknown_builder office.now builder.now) }
{
    Ok(!office.is_builder(builder)?)
}

/// Whether the builder was not added for the architecture. The only error is that memory ran out.
pub(crate) fn is_for_other_archs(
    office: &OfficePart,
    arch: &Text,
    builder: &Text,
) -> Result<bool, AllocError>
    ensures value { IfOk result (λ is_other.
        is_other ≡ is_for_others office.now arch.now builder.now) }
{
    Ok(!office.has_builder(builder, arch)?)
}

/// Whether the take number after which a builder asks was not given yet.
pub(crate) fn is_ahead(handed: u64, after: Option<u64>) -> bool
    ensures value { (machine : Machine) → handed ≡ machine.handed
        → result ≡ is_number_ahead machine after }
{
    match after {
        None => false,
        Some(after) => handed < after,
    }
}

/// Whether no more command can be counted.
pub(crate) fn is_spent(office: &OfficePart) -> bool
    ensures value { result ≡ nat_le count_limit office.now.accepted }
{
    COUNT_LIMIT <= office.counts().accepted
}

/// Whether no more assignment can be counted.
pub(crate) fn is_assignment_spent(office: &OfficePart) -> bool
    ensures value { result
        ≡ (nat_le count_limit office.now.accepted || nat_le count_limit office.now.handed) }
{
    let counts = office.counts();
    COUNT_LIMIT <= counts.accepted || COUNT_LIMIT <= counts.handed
}

/// The architecture with its words, which are empty if it was never added. The only error is that
/// memory ran out.
#[tactic(auto, unfolding(wb_states::specs::Machine::arch_words))]
pub(crate) fn words_of(
    alloc: Global,
    office: &OfficePart,
    arch: &Text,
) -> Result<ArchWords, AllocError>
    ensures value { IfOk result (λ words. words ≡ arch_words office.now arch.now) }
{
    let name = arch.clone()?;
    match office.arch(arch) {
        None => Ok(ArchWords {
            name,
            os: Text::new(alloc),
            cpu: Text::new(alloc),
        }),
        Some(words) => Ok(ArchWords {
            name,
            os: words.os.clone()?,
            cpu: words.cpu.clone()?,
        }),
    }
}

/// The record of the source package, if it is of the version.
pub(crate) fn find_source<'a>(
    alloc: Global,
    office: &'a OfficePart,
    arch: &Text,
    source: &Text,
    version: &Version,
) -> Result<&'a Record, Refusal>
    ensures value { IfOk result (λ current.
        map.get office.now.records (arch.now, source.now) ≡ Some current.now) }
    ensures ok { IfOk result (λ current. differing version.now current.now ≡ None) }
    ensures refused { IfErr result (λ refusal. IsOfMachine refusal
        → found_refusal office.now arch.now source.now version.now ≡ Some refusal) }
{
    let Some(current) = office.get(arch, source)? else {
        return Err(Refusal::UnknownSource);
    };
    if compare(version, &current.version).is_ne() {
        return Err(Refusal::OtherVersion {
            have: Text::copied(alloc, current.version.text())?,
        });
    }
    Ok(current)
}

/// The record of the source package, if the architecture was added and it is of the version.
pub(crate) fn find_known<'a>(
    alloc: Global,
    office: &'a OfficePart,
    arch: &Text,
    source: &Text,
    version: &Version,
) -> Result<&'a Record, Refusal>
    ensures value { IfOk result (λ current.
        map.get office.now.records (arch.now, source.now) ≡ Some current.now) }
    ensures ok { IfOk result (λ current. differing version.now current.now ≡ None) }
    ensures known { OnOk result (is_unknown_arch office.now arch.now ≡ false) }
    ensures refused { IfErr result (λ refusal. IsOfMachine refusal → (done : Entry → Outcome)
        → sought_step (when (is_unknown_arch office.now arch.now) UnknownArch)
        office.now arch.now source.now version.now done ≡ (Err refusal, office.now)) }
{
    if lacks_arch(office, arch) {
        return Err(Refusal::UnknownArch);
    }
    find_source(alloc, office, arch, source, version)
}
