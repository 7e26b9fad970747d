//! The commands that take a builder or a record away.
ghost use Rattle.std.specs.Prelude.{◌≡◌, ◌+◌, None, Some, Ok, Err, false, nat_le, OnOk, IfOk};
ghost use Rattle.std.specs.Prelude.{IfErr};
ghost use Rattle.std.specs.FinMap as map;
ghost use Rattle.wb_states.specs.declared.command.Command.TheVariants as of;
ghost use Rattle.wb_states.specs.declared.refusal.Refusal.TheVariants.{Memory};
ghost use Rattle.wb_states.specs.Limits.{count_limit};
ghost use Rattle.wb_states.specs.Refusals.{IsOfMachine};
ghost use Rattle.wb_step.specs.Carries.{Carries, HasOutcome};
ghost use Rattle.wb_step.specs.Checks.{MayWantMemory, first_refusal};
ghost use Rattle.wb_step.specs.Outcomes.{forgotten_step};
ghost use Rattle.wb_step.specs.Step.{step};

use crate::OfficePart;
use crate::checks::{find_known, is_for_other_archs, is_spent, lacks_arch, lacks_builder};
use crate::forms::has_bad_builder;
use crate::operator::accept_one;
use crate::texts::read_key;
use deb_text::Text;
use deb_version::Version;
use std::alloc::Global;
use wb_states::{Refusal, Reply, command};

/// The checks of a command that takes a builder from an architecture.
fn check_builder(office: &OfficePart, command: &command::RemoveBuilder) -> Result<(), Refusal>
    ensures ok { OnOk result (first_refusal office.now (of.RemoveBuilder command.now) ≡ None) }
    ensures refused { IfErr result (λ refusal. IsOfMachine refusal
        → first_refusal office.now (of.RemoveBuilder command.now) ≡ Some refusal) }
    ensures memory { IfErr result (λ refusal. refusal ≡ Memory
        → MayWantMemory (of.RemoveBuilder command.now)) }
    ensures room { OnOk result (nat_le count_limit office.now.accepted ≡ false) }
{
    if has_bad_builder(&command.name, &command.arch) {
        return Err(Refusal::BadName);
    }
    if lacks_arch(office, &command.arch) {
        return Err(Refusal::UnknownArch);
    }
    let has_none = lacks_builder(office, &command.name)?;
    if has_none {
        return Err(Refusal::UnknownBuilder);
    }
    let is_other = is_for_other_archs(office, &command.arch, &command.name)?;
    if is_other {
        return Err(Refusal::WrongArch);
    }
    if office.holds_on(&command.name, &command.arch) {
        return Err(Refusal::StillHeld);
    }
    if is_spent(office) {
        return Err(Refusal::Spent);
    }
    Ok(())
}

/// Lets a builder build no more for an architecture.
#[tactic(auto, unfolding(crate::specs::Step::step))]
pub(crate) fn remove_builder(
    office: &mut OfficePart,
    command: &command::RemoveBuilder,
) -> Result<Reply, Refusal>
    ensures carries { Carries office.old office.new (of.RemoveBuilder command.now) result }
{
    check_builder(office, command)?;
    office.remove_builder(&command.name, &command.arch)?;
    Ok(accept_one(office))
}

/// Takes the record of a source package away.
pub(crate) fn forget(
    alloc: Global,
    office: &mut OfficePart,
    command: &command::Forget,
) -> Result<Reply, Refusal>
    ensures carries { Carries office.old office.new (of.Forget command.now) result }
{
    let read = read_key(alloc, &command.arch, &command.source, &command.version)?;
    forget_named(alloc, office, &command.arch, &command.source, &read)
}

/// Takes the record of the source package away, if it is of the version and nobody holds it.
fn forget_named(
    alloc: Global,
    office: &mut OfficePart,
    arch: &Text,
    source: &Text,
    version: &Version,
) -> Result<Reply, Refusal>
    ensures reaches { HasOutcome office.old office.new
        (forgotten_step office.old arch.now source.now version.now) result }
{
    let current = find_known(alloc, office, arch, source, version)?;
    if current.holder.is_some() {
        return Err(Refusal::StillHeld);
    }
    if is_spent(office) {
        return Err(Refusal::Spent);
    }
    office.forget(arch, source)?;
    Ok(accept_one(office))
}
