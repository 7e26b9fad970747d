//! The commands that name a source package, by which operators move its record.
ghost use Rattle.std.specs.Prelude.{◌≡◌, None, Some, IfOk, IfErr, OnOk};
ghost use Rattle.std.specs.Str.{IsUtf8};
ghost use Rattle.wb_states.specs.declared.command.Command.TheVariants as of;
ghost use Rattle.wb_states.specs.declared.refusal.Refusal.TheVariants.{Memory};
ghost use Rattle.wb_states.specs.Refusals.{IsOfMachine};
ghost use Rattle.wb_step.specs.Carries.{Carries, HasOutcome};
ghost use Rattle.wb_step.specs.Checks.{aside_refusal};
ghost use Rattle.wb_step.specs.Outcomes.{named_step};

use crate::OfficePart;
use crate::checks::{find_known, words_of};
use crate::texts::{is_long, read_key, read_refusal_or, read_relations, rebuild_number};
use crate::transition::{keep_record, prepare_move};
use deb_text::Text;
use deb_version::Version;
use std::alloc::Global;
use wb_states::{Move, Refusal, Reply, command};

/// Moves the record of the source package, if it is of the version.
fn move_named(
    alloc: Global,
    office: &mut OfficePart,
    arch: &Text,
    source: &Text,
    version: &Version,
    change: Move,
) -> Result<Reply, Refusal>
    ensures reaches { HasOutcome office.old office.new
        (named_step office.old arch.now source.now version.now change) result }
{
    let current = find_known(alloc, office, arch, source, version)?;
    let made = prepare_move(alloc, office, arch, source, current, change)?;
    keep_record(office, made)
}

/// Puts it back into the queue.
pub(crate) fn give_back(
    alloc: Global,
    office: &mut OfficePart,
    command: &command::GiveBack,
) -> Result<Reply, Refusal>
    ensures carries { Carries office.old office.new (of.GiveBack command.now) result }
{
    let read = read_key(alloc, &command.arch, &command.source, &command.version)?;
    move_named(
        alloc,
        office,
        &command.arch,
        &command.source,
        &read,
        Move::GiveBack,
    )
}

/// Lets it wait for what the relations ask for.
pub(crate) fn dep_wait(
    alloc: Global,
    office: &mut OfficePart,
    command: &command::DepWait,
) -> Result<Reply, Refusal>
    ensures carries { Carries office.old office.new (of.DepWait command.now) result }
{
    let command::DepWait {
        arch,
        source,
        version,
        relations,
    } = command;
    let key = read_key(alloc, arch, source, version);
    let groups = match read_relations(alloc, relations) {
        Ok(groups) => groups,
        Err(refusal) => return Err(read_refusal_or(key, refusal)),
    };
    let read = key?;
    let words = words_of(alloc, office, arch)?;
    let change = Move::DepWait {
        relations: groups,
        arch: words,
    };
    move_named(alloc, office, arch, source, &read, change)
}

/// What a command that sets a source package aside reads: the version that it names, and its note.
#[derive(Drop)]
struct Aside {
    version: Version,
    note: Text,
}

/// The version and the note of a command that sets a source package aside, if its texts are not
/// refused.
fn read_aside(alloc: Global, command: &command::SetAside) -> Result<Aside, Refusal>
    ensures value { IfOk result (λ read.
        (read.version ≡ command.now.version) × (read.note ≡ command.now.note)) }
    ensures ok { OnOk result (aside_refusal command.now.arch command.now.source
        command.now.version command.now.note ≡ None) }
    ensures refused { IfErr result (λ refusal. IsOfMachine refusal
        → aside_refusal command.now.arch command.now.source
        command.now.version command.now.note ≡ Some refusal) }
    ensures memory { IfErr result (λ refusal. refusal ≡ Memory
        → aside_refusal command.now.arch command.now.source
        command.now.version command.now.note ≡ None) }
    ensures utf8 { OnOk result (IsUtf8 command.now.note) }
{
    let command::SetAside {
        arch,
        source,
        version,
        note,
    } = command;
    let key = read_key(alloc, arch, source, version);
    if is_long(note) {
        return Err(read_refusal_or(key, Refusal::TextTooLong));
    }
    let read = key?;
    Ok(Aside {
        version: read,
        note: note.clone()?,
    })
}

/// Says that a person found that its build fails.
pub(crate) fn fail(
    alloc: Global,
    office: &mut OfficePart,
    command: &command::SetAside,
) -> Result<Reply, Refusal>
    ensures carries { Carries office.old office.new (of.Fail command.now) result }
    ensures utf8 { OnOk result (IsUtf8 command.now.note) }
{
    let read = read_aside(alloc, command)?;
    let change = Move::Fail { note: read.note };
    move_named(
        alloc,
        office,
        &command.arch,
        &command.source,
        &read.version,
        change,
    )
}

/// Says that it is not to be built.
pub(crate) fn not_for_us(
    alloc: Global,
    office: &mut OfficePart,
    command: &command::SetAside,
) -> Result<Reply, Refusal>
    ensures carries { Carries office.old office.new (of.NotForUs command.now) result }
    ensures utf8 { OnOk result (IsUtf8 command.now.note) }
{
    let read = read_aside(alloc, command)?;
    let change = Move::NotForUs { note: read.note };
    move_named(
        alloc,
        office,
        &command.arch,
        &command.source,
        &read.version,
        change,
    )
}

/// Builds it once more, as the binary-only rebuild of this number.
pub(crate) fn rebuild(
    alloc: Global,
    office: &mut OfficePart,
    command: &command::Rebuild,
) -> Result<Reply, Refusal>
    ensures carries { Carries office.old office.new (of.Rebuild command.now) result }
    ensures utf8 { OnOk result (IsUtf8 command.now.message) }
{
    let command::Rebuild {
        arch,
        source,
        version,
        number,
        message,
    } = command;
    let key = read_key(alloc, arch, source, version);
    let Some(number) = rebuild_number(*number) else {
        return Err(read_refusal_or(key, Refusal::BadNumber));
    };
    if is_long(message) {
        return Err(read_refusal_or(key, Refusal::TextTooLong));
    }
    let read = key?;
    let change = Move::Rebuild {
        number,
        message: message.clone()?,
    };
    move_named(alloc, office, arch, source, &read, change)
}
