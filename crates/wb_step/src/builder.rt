//! The commands by which builders take source packages.
ghost use Rattle.std.specs.Prelude.{◌≡◌, ◌+◌, ◌||◌, None, Some, false, nat_le, Ok, Err, OnOk, IfOk, IfErr, OnErr};
ghost use Rattle.std.specs.FinMap as map;
ghost use Rattle.wb_states.specs.declared.command.Command.TheVariants as of;
ghost use Rattle.wb_states.specs.declared.moves.Move.TheVariants as to;
ghost use Rattle.wb_states.specs.declared.refusal.Refusal.TheVariants.{Memory};
ghost use Rattle.wb_states.specs.declared.reply.Reply.TheVariants.{Job};
ghost use Rattle.wb_states.specs.Limits.{count_limit};
ghost use Rattle.wb_states.specs.Moves.{move_refusal, record_after_move};
ghost use Rattle.wb_states.specs.Refusals.{IsOfMachine};
ghost use Rattle.wb_states.specs.Lookups.{entry_of};
ghost use Rattle.wb_step.specs.Carries.{Carries, HasOutcome};
ghost use Rattle.wb_step.specs.Checks.{builder_refusal};
ghost use Rattle.wb_step.specs.Outcomes.{head_step, assignment_step, take_move, take_step};
ghost use Rattle.wb_step.specs.Step.{assignment_of};

use crate::OfficePart;
use crate::again::assignment_again;
use crate::checks::{
    find_source, is_ahead, is_assignment_spent, is_for_other_archs, lacks_arch, lacks_builder,
};
use crate::forms::{has_bad_request, has_bad_take};
use crate::keyed::with_key;
use crate::texts::read_version;
use crate::transition::move_checked;
use deb_text::Text;
use deb_version::Version;
use std::alloc::{AllocError, Global};
use wb_states::{
    Assignment, COUNT_LIMIT, Counts, KeyedRecord, Move, Record, Refusal, Reply, build_text, command,
};

/// A record after a builder took it, and the assignment that answers the builder.
#[derive(Drop)]
pub(crate) struct Assigned {
    pub(crate) made: KeyedRecord,
    pub(crate) assignment: Assignment,
}

/// The assignment of a record under a take number. The only error is that memory ran out.
pub(crate) fn assignment(
    alloc: Global,
    arch: &Text,
    source: &Text,
    current: &Record,
    take_number: u64,
) -> Result<Assignment, AllocError>
    ensures value { IfOk result (λ made. made
        ≡ assignment_of ((arch.now, source.now), current.now) take_number) }
{
    Ok(Assignment {
        arch: arch.clone()?,
        source: source.clone()?,
        version: Text::copied(alloc, current.version.text())?,
        build: build_text(alloc, current)?,
        number: current.number,
        message: current.message.clone()?,
        take: take_number,
    })
}

/// The take number after the last, if one can be given.
fn next_take(office: &OfficePart) -> u64
    ensures value { nat_le count_limit office.now.handed ≡ false
        → result ≡ office.now.handed + 1 }
{
    let counts = office.counts();
    if counts.handed < COUNT_LIMIT {
        counts.handed + 1
    } else {
        counts.handed
    }
}

/// The record after the builder took it under this take number.
fn take_checked(
    alloc: Global,
    current: &Record,
    builder: &Text,
    take_number: u64,
) -> Result<Record, Refusal>
    ensures value { IfOk result (λ after.
        after ≡ record_after_move (to.Take builder.now take_number) current.now) }
    ensures ok { OnOk result (move_refusal (to.Take builder.now take_number) current.now ≡ None) }
    ensures refused { IfErr result (λ refusal. IsOfMachine refusal
        → move_refusal (to.Take builder.now take_number) current.now ≡ Some refusal) }
{
    let change = Move::Take {
        holder: builder.clone()?,
        take_number,
    };
    move_checked(alloc, current, change)
}

/// The record after the builder took it, and the assignment that answers it, if both counts have
/// room. Nothing is written.
pub(crate) fn prepare_assignment(
    alloc: Global,
    office: &OfficePart,
    arch: &Text,
    source: &Text,
    current: &Record,
    builder: &Text,
) -> Result<Assigned, Refusal>
    // what is handed out
    ensures value { IfOk result (λ given. entry_of given.made
        ≡ (
          (arch.now, source.now),
          record_after_move (take_move office.now builder.now) current.now,
        )) }
    ensures reply { IfOk result (λ given. given.assignment
        ≡ assignment_of ((arch.now, source.now), current.now) (office.now.handed + 1)) }
    // that nothing refuses it, or what does
    ensures ok { OnOk result (move_refusal (take_move office.now builder.now) current.now ≡ None) }
    ensures room { OnOk result
        ((nat_le count_limit office.now.accepted || nat_le count_limit office.now.handed) ≡ false) }
    ensures refused { IfErr result (λ refusal. IsOfMachine refusal
        → assignment_step office.now builder.now ((arch.now, source.now), current.now)
        ≡ (Err refusal, office.now)) }
{
    let take_number = next_take(office);
    let after = take_checked(alloc, current, builder, take_number)?;
    if is_assignment_spent(office) {
        return Err(Refusal::Spent);
    }
    Ok(make_assigned(alloc, arch, source, current, after, take_number)?)
}

/// The record after a builder took it, with its key, and the assignment of the record before, which
/// is `current`. The only error is that memory ran out.
fn make_assigned(
    alloc: Global,
    arch: &Text,
    source: &Text,
    current: &Record,
    after: Record,
    take_number: u64,
) -> Result<Assigned, AllocError>
    ensures value { IfOk result (λ given. entry_of given.made ≡ ((arch.now, source.now), after)) }
    ensures reply { IfOk result (λ given. given.assignment
        ≡ assignment_of ((arch.now, source.now), current.now) take_number) }
{
    let made = with_key(arch, source, after)?;
    let assignment = assignment(alloc, arch, source, current, take_number)?;
    Ok(Assigned { made, assignment })
}

/// Writes the record that a builder took, and counts the take number and the command.
pub(crate) fn keep_assignment(office: &mut OfficePart, given: Assigned) -> Result<Reply, Refusal>
    requires { (nat_le count_limit office.old.accepted || nat_le count_limit office.old.handed)
        ≡ false }
    ensures reply { IfOk result (λ reply. reply ≡ Job (office.old.accepted + 1) given.assignment) }
    ensures ok { OnOk result (office.new ≡ record office.old {
      records = map.insert office.old.records (given.made.arch, given.made.source) given.made.current;
      handed = office.old.handed + 1;
      accepted = office.old.accepted + 1;
    }) }
    ensures refused { IfErr result (λ refusal. refusal ≡ Memory) }
    ensures unchanged { OnErr result (office.new ≡ office.old) }
{
    let counts = office.counts();
    let handed = counts.handed + 1;
    let accepted = counts.accepted + 1;
    office.put(given.made.arch, given.made.source, given.made.current)?;
    office.set_counts(Counts { handed, accepted });
    Ok(Reply::Job {
        accepted,
        assignment: given.assignment,
    })
}

/// Whether the builder may build for the architecture.
pub(crate) fn check_builds(office: &OfficePart, arch: &Text, builder: &Text) -> Result<(), Refusal>
    ensures ok { OnOk result (builder_refusal office.now arch.now builder.now ≡ None) }
    ensures refused { IfErr result (λ refusal. IsOfMachine refusal
        → builder_refusal office.now arch.now builder.now ≡ Some refusal) }
{
    if lacks_arch(office, arch) {
        return Err(Refusal::UnknownArch);
    }
    let is_unknown = lacks_builder(office, builder)?;
    if is_unknown {
        return Err(Refusal::UnknownBuilder);
    }
    let is_other = is_for_other_archs(office, arch, builder)?;
    if is_other {
        return Err(Refusal::WrongArch);
    }
    Ok(())
}

/// Hands the head of the architecture's queue to the builder, under the take number after the last.
fn next_head(
    alloc: Global,
    office: &mut OfficePart,
    arch: &Text,
    builder: &Text,
) -> Result<Reply, Refusal>
    ensures reaches { HasOutcome office.old office.new
        (head_step office.old arch.now builder.now) result }
{
    let found = office.head(arch);
    let Some((key, current)) = found else {
        return Err(Refusal::QueueEmpty);
    };
    let given = prepare_assignment(alloc, office, &key.0, &key.1, current, builder)?;
    keep_assignment(office, given)
}

/// Hands the head of the architecture's queue to the builder, or reports to it again what it builds
/// there under the least take number after the one that it knows of.
pub(crate) fn next(
    alloc: Global,
    office: &mut OfficePart,
    command: &command::Next,
) -> Result<Reply, Refusal>
    ensures carries { Carries office.old office.new (of.Next command.now) result }
{
    let (arch, builder) = (&command.arch, &command.builder);
    if has_bad_request(arch, builder) {
        return Err(Refusal::BadName);
    }
    check_builds(office, arch, builder)?;
    let counts = office.counts();
    if is_ahead(counts.handed, command.after) {
        return Err(Refusal::AfterAhead {
            handed: counts.handed,
        });
    }
    let held = assignment_again(alloc, office, arch, builder, command.after)?;
    match held {
        None => next_head(alloc, office, arch, builder),
        Some(assignment) => Ok(Reply::Again {
            accepted: counts.accepted,
            assignment,
        }),
    }
}

/// Hands the source package to the builder, if it is of the version and waits in the queue.
fn take_by_name(
    alloc: Global,
    office: &mut OfficePart,
    arch: &Text,
    builder: &Text,
    source: &Text,
    version: &Version,
) -> Result<Reply, Refusal>
    ensures reaches { HasOutcome office.old office.new
        (take_step office.old arch.now builder.now source.now version.now) result }
{
    check_builds(office, arch, builder)?;
    let current = find_source(alloc, office, arch, source, version)?;
    let given = prepare_assignment(alloc, office, arch, source, current, builder)?;
    keep_assignment(office, given)
}

/// Hands the source package that the builder names to it, under the take number after the last.
pub(crate) fn take(
    alloc: Global,
    office: &mut OfficePart,
    command: &command::Take,
) -> Result<Reply, Refusal>
    ensures carries { Carries office.old office.new (of.Take command.now) result }
{
    let command::Take {
        arch,
        builder,
        source,
        version,
    } = command;
    if has_bad_take(arch, builder, source) {
        return Err(Refusal::BadName);
    }
    let read = read_version(alloc, version)?;
    take_by_name(alloc, office, arch, builder, source, &read)
}
