//! The command by which operators say which source packages are built first.
ghost use Rattle.std.specs.Prelude.{◌≡◌, IfOk};
ghost use Rattle.wb_states.specs.declared.command.Command.TheVariants as of;
ghost use Rattle.wb_step.specs.Carries.{Carries, HasOutcome};
ghost use Rattle.wb_step.specs.Outcomes.{prioritized_step};

use crate::OfficePart;
use crate::checks::{find_known, is_spent};
use crate::keyed::with_key;
use crate::texts::{self, read_key, read_refusal_or};
use crate::transition::keep_record;
use deb_text::Text;
use deb_version::Version;
use std::alloc::{AllocError, Global};
use wb_states::{Record, Refusal, Reply, command};

/// Gives the record of a source package the build priority that the command names.
pub(crate) fn build_priority(
    alloc: Global,
    office: &mut OfficePart,
    command: &command::BuildPriority,
) -> Result<Reply, Refusal>
    ensures carries { Carries office.old office.new (of.BuildPriority command.now) result }
{
    let command::BuildPriority {
        arch,
        source,
        version,
        value,
    } = command;
    let key = read_key(alloc, arch, source, version);
    let Some(build_priority) = texts::build_priority(*value) else {
        return Err(read_refusal_or(key, Refusal::BadNumber));
    };
    let read = key?;
    prioritize(alloc, office, arch, source, &read, build_priority)
}

/// Gives the record of the source package this build priority, if it is of the version.
fn prioritize(
    alloc: Global,
    office: &mut OfficePart,
    arch: &Text,
    source: &Text,
    version: &Version,
    build_priority: i16,
) -> Result<Reply, Refusal>
    ensures reaches { HasOutcome office.old office.new
        (prioritized_step office.old arch.now source.now version.now build_priority) result }
{
    let current = find_known(alloc, office, arch, source, version)?;
    if is_spent(office) {
        return Err(Refusal::Spent);
    }
    let changed = with_priority(current, build_priority)?;
    let made = with_key(arch, source, changed)?;
    keep_record(office, made)
}

/// The record with this build priority, all else as it was. The only error is that memory ran out.
fn with_priority(current: &Record, build_priority: i16) -> Result<Record, AllocError>
    ensures value { IfOk result (λ made.
        made ≡ record current.now { build_priority = build_priority }) }
{
    let mut made = current.clone()?;
    made.build_priority = build_priority;
    Ok(made)
}
