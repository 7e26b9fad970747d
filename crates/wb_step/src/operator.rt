//! The commands that add architectures, builders and source packages.
ghost use Rattle.std.specs.Prelude.{◌≡◌, ◌+◌, None, Some, Err, false, nat_le, OnOk, IfOk, IfErr};
ghost use Rattle.wb_states.specs.declared.command.Command.TheVariants as of;
ghost use Rattle.wb_states.specs.declared.refusal.Refusal.TheVariants.{Memory};
ghost use Rattle.wb_states.specs.declared.reply.Reply.TheVariants.{Done};
ghost use Rattle.wb_states.specs.Limits.{count_limit};
ghost use Rattle.wb_states.specs.Refusals.{IsOfMachine};
ghost use Rattle.wb_step.specs.Carries.{Carries};
ghost use Rattle.wb_step.specs.Checks.{MayWantMemory, first_refusal};
ghost use Rattle.wb_step.specs.Step.{step, counted, entered};

use crate::OfficePart;
use crate::checks::{is_spent, lacks_arch};
use crate::forms::{has_bad_arch, has_bad_builder, has_bad_entry};
use crate::texts::read_version;
use deb_text::Text;
use deb_version::Version;
use std::alloc::Global;
use wb_merge::blank_record;
use wb_states::{Counts, OsCpu, Record, Refusal, Reply, command};

/// Counts one more accepted command.
pub(crate) fn accept_one(office: &mut OfficePart) -> Reply
    requires { nat_le count_limit office.old.accepted ≡ false }
    ensures reply { result ≡ Done (office.old.accepted + 1) }
    ensures ok { office.new ≡ counted office.old office.old }
{
    let counts = office.counts();
    let accepted = counts.accepted + 1;
    office.set_counts(Counts {
        handed: counts.handed,
        accepted,
    });
    Reply::Done { accepted }
}

/// The checks of a command that adds an architecture.
fn check_arch(office: &OfficePart, command: &command::AddArch) -> Result<(), Refusal>
    ensures ok { OnOk result (first_refusal office.now (of.AddArch command.now) ≡ None) }
    ensures refused { IfErr result (λ refusal. IsOfMachine refusal
        → first_refusal office.now (of.AddArch command.now) ≡ Some refusal) }
    ensures memory { IfErr result (λ refusal. refusal ≡ Memory
        → MayWantMemory (of.AddArch command.now)) }
    ensures room { OnOk result (nat_le count_limit office.now.accepted ≡ false) }
{
    if has_bad_arch(&command.name, &command.os, &command.cpu) {
        return Err(Refusal::BadName);
    }
    if office.has_arch(&command.name) {
        return Err(Refusal::AlreadyThere);
    }
    if is_spent(office) {
        return Err(Refusal::Spent);
    }
    Ok(())
}

/// Adds an architecture.
#[tactic(auto, unfolding(crate::specs::Step::step))]
pub(crate) fn add_arch(
    office: &mut OfficePart,
    command: &command::AddArch,
) -> Result<Reply, Refusal>
    ensures carries { Carries office.old office.new (of.AddArch command.now) result }
{
    check_arch(office, command)?;
    let words = OsCpu {
        os: command.os.clone()?,
        cpu: command.cpu.clone()?,
    };
    office.add_arch(command.name.clone()?, words)?;
    Ok(accept_one(office))
}

/// The checks of a command that lets a builder build for an architecture.
fn check_builder(office: &OfficePart, command: &command::AddBuilder) -> Result<(), Refusal>
    ensures ok { OnOk result (first_refusal office.now (of.AddBuilder command.now) ≡ None) }
    ensures refused { IfErr result (λ refusal. IsOfMachine refusal
        → first_refusal office.now (of.AddBuilder command.now) ≡ Some refusal) }
    ensures memory { IfErr result (λ refusal. refusal ≡ Memory
        → MayWantMemory (of.AddBuilder command.now)) }
    ensures room { OnOk result (nat_le count_limit office.now.accepted ≡ false) }
{
    if has_bad_builder(&command.name, &command.arch) {
        return Err(Refusal::BadName);
    }
    if lacks_arch(office, &command.arch) {
        return Err(Refusal::UnknownArch);
    }
    let is_there = office.has_builder(&command.name, &command.arch)?;
    if is_there {
        return Err(Refusal::AlreadyThere);
    }
    if is_spent(office) {
        return Err(Refusal::Spent);
    }
    Ok(())
}

/// Lets a builder build for an architecture.
#[tactic(auto, unfolding(crate::specs::Step::step))]
pub(crate) fn add_builder(
    office: &mut OfficePart,
    command: &command::AddBuilder,
) -> Result<Reply, Refusal>
    ensures carries { Carries office.old office.new (of.AddBuilder command.now) result }
{
    check_builder(office, command)?;
    office.add_builder(command.name.clone()?, command.arch.clone()?)?;
    Ok(accept_one(office))
}

/// The checks of a command that enters a source package, and its version as it is read.
fn check_entry(
    alloc: Global,
    office: &OfficePart,
    command: &command::Enter,
) -> Result<Version, Refusal>
    ensures value { IfOk result (λ read. read ≡ command.now.version) }
    ensures ok { OnOk result (first_refusal office.now (of.Enter command.now) ≡ None) }
    ensures refused { IfErr result (λ refusal. IsOfMachine refusal
        → first_refusal office.now (of.Enter command.now) ≡ Some refusal) }
    ensures memory { IfErr result (λ refusal. refusal ≡ Memory
        → MayWantMemory (of.Enter command.now)) }
    ensures room { OnOk result (nat_le count_limit office.now.accepted ≡ false) }
{
    let command::Enter {
        arch,
        source,
        version,
        priority,
        section,
    } = command;
    if has_bad_entry(arch, source, priority, section) {
        return Err(Refusal::BadName);
    }
    let read = read_version(alloc, version)?;
    if lacks_arch(office, arch) {
        return Err(Refusal::UnknownArch);
    }
    let is_there = office.has_record(arch, source)?;
    if is_there {
        return Err(Refusal::AlreadyThere);
    }
    if is_spent(office) {
        return Err(Refusal::Spent);
    }
    Ok(read)
}

/// Puts a source package without a record into the queue.
#[tactic(auto, unfolding(crate::specs::Step::step))]
pub(crate) fn enter(
    alloc: Global,
    office: &mut OfficePart,
    command: &command::Enter,
) -> Result<Reply, Refusal>
    ensures carries { Carries office.old office.new (of.Enter command.now) result }
{
    let read = check_entry(alloc, office, command)?;
    let arch = command.arch.clone()?;
    let source = command.source.clone()?;
    let waiting = entered_record(alloc, read, &command.priority, &command.section)?;
    office.put(arch, source, waiting)?;
    Ok(accept_one(office))
}

/// The record of a source package that waits for its first build.
fn entered_record(
    alloc: Global,
    version: Version,
    priority: &Text,
    section: &Text,
) -> Result<Record, Refusal>
    ensures value { IfOk result (λ made. made ≡ entered version priority.now section.now) }
    ensures refused { IfErr result (λ refusal. refusal ≡ Memory) }
{
    let own_priority = priority.clone()?;
    let own_section = section.clone()?;
    let mut waiting = blank_record(alloc, version);
    waiting.priority = own_priority;
    waiting.section = own_section;
    waiting.depends = Some(Text::new(alloc));
    Ok(waiting)
}
