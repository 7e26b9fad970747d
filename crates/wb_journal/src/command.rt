//! Commands as the objects of a journal, with their arguments by name.
ghost use Rattle.std.specs.Prelude.{◌≡◌, codes, map, IfOk};
ghost use Rattle.serde_json.specs.View.{items_of, view};
ghost use Rattle.wb_journal.specs.Commands.{merge_value, named_value, noted_value, number_or_null};
ghost use Rattle.wb_journal.specs.Commands.{part_value, value_of_command, value_of_held};
ghost use Rattle.wb_journal.specs.Commands.{value_of_part};
ghost use Rattle.wb_states.specs.declared.command.Command.TheVariants.{AddArch, AddBuilder};
ghost use Rattle.wb_states.specs.declared.command.Command.TheVariants.{Attempted, BuildPriority};
ghost use Rattle.wb_states.specs.declared.command.Command.TheVariants.{DepWait, Enter, Merge};
ghost use Rattle.wb_states.specs.declared.command.Command.TheVariants.{Next, Rebuild, RemoveArch};
ghost use Rattle.wb_states.specs.declared.command.Command.TheVariants.{RemoveBuilder, Report};
ghost use Rattle.wb_states.specs.declared.command.Command.TheVariants.{Take, Waits};

use deb_text::Text;
use serde_json::{Value, json};
use std::alloc::{AllocError, Global};
use wb_states::{Command, Part, command};

/// The object of a command: its name under `command`, and its arguments under the names that they
/// have in the body of a request. A merge has its architectures alone, and a report the number of
/// its bytes.
pub(crate) fn value_of_command(alloc: Global, command: &Command) -> Result<Value, AllocError>
    ensures value { IfOk result (λ value. view value ≡ value_of_command command.now) }
{
    match command {
        Command::AddArch(given) => value_of_arch(alloc, given),
        Command::AddBuilder(given) => value_of_builder(alloc, given),
        Command::RemoveArch(given) => value_of_arch_removal(alloc, given),
        Command::RemoveBuilder(given) => value_of_builder_removal(alloc, given),
        Command::Enter(given) => value_of_entering(alloc, given),
        Command::Next(given) => value_of_next(alloc, given),
        Command::Take(given) => value_of_take(alloc, given),
        Command::Built(given) => value_of_held(alloc, "built", given),
        Command::Uploaded(given) => value_of_held(alloc, "uploaded", given),
        Command::Waits(given) => value_of_waits(alloc, given),
        Command::PutBack(given) => value_of_held(alloc, "put-back", given),
        Command::Attempted(given) => value_of_attempted(alloc, given),
        Command::GiveBack(given) => {
            named_value(
                alloc,
                "give-back",
                &given.arch,
                &given.source,
                &given.version,
            )
        }
        Command::DepWait(given) => value_of_dep_wait(alloc, given),
        Command::Fail(given) => noted_value(alloc, "fail", given),
        Command::NotForUs(given) => noted_value(alloc, "not-for-us", given),
        Command::Rebuild(given) => value_of_rebuild(alloc, given),
        Command::BuildPriority(given) => value_of_priority(alloc, given),
        Command::Forget(given) => {
            named_value(alloc, "forget", &given.arch, &given.source, &given.version)
        }
        Command::Merge(given) => value_of_merge(alloc, given),
        Command::Report(given) => value_of_report(alloc, given),
    }
}

fn value_of_arch(alloc: Global, given: &command::AddArch) -> Result<Value, AllocError>
    ensures { IfOk result (λ value. view value ≡ value_of_command (AddArch given.now)) }
{
    json!(in alloc; {
        "command": "add-arch",
        "cpu": given.cpu.as_str(),
        "name": given.name.as_str(),
        "os": given.os.as_str()
    })
}

fn value_of_builder(alloc: Global, given: &command::AddBuilder) -> Result<Value, AllocError>
    ensures { IfOk result (λ value. view value ≡ value_of_command (AddBuilder given.now)) }
{
    json!(in alloc; {
        "arch": given.arch.as_str(),
        "command": "add-builder",
        "name": given.name.as_str()
    })
}

fn value_of_arch_removal(alloc: Global, given: &command::RemoveArch) -> Result<Value, AllocError>
    ensures { IfOk result (λ value. view value ≡ value_of_command (RemoveArch given.now)) }
{
    json!(in alloc; {"command": "remove-arch", "name": given.name.as_str()})
}

fn value_of_builder_removal(
    alloc: Global,
    given: &command::RemoveBuilder,
) -> Result<Value, AllocError>
    ensures { IfOk result (λ value. view value ≡ value_of_command (RemoveBuilder given.now)) }
{
    json!(in alloc; {
        "arch": given.arch.as_str(),
        "command": "remove-builder",
        "name": given.name.as_str()
    })
}

fn value_of_entering(alloc: Global, given: &command::Enter) -> Result<Value, AllocError>
    ensures { IfOk result (λ value. view value ≡ value_of_command (Enter given.now)) }
{
    json!(in alloc; {
        "arch": given.arch.as_str(),
        "command": "enter",
        "priority": given.priority.as_str(),
        "section": given.section.as_str(),
        "source": given.source.as_str(),
        "version": given.version.as_str()
    })
}

fn value_of_next(alloc: Global, given: &command::Next) -> Result<Value, AllocError>
    ensures { IfOk result (λ value. view value ≡ value_of_command (Next given.now)) }
{
    let after = number_or_null(given.after);
    json!(in alloc; {
        "after": after,
        "arch": given.arch.as_str(),
        "builder": given.builder.as_str(),
        "command": "next"
    })
}

/// The number, or `null` if it is missing.
fn number_or_null(number: Option<u64>) -> Value
    ensures { view result ≡ number_or_null number }
{
    match number {
        Some(number) => Value::from(number),
        None => Value::Null,
    }
}

fn value_of_take(alloc: Global, given: &command::Take) -> Result<Value, AllocError>
    ensures { IfOk result (λ value. view value ≡ value_of_command (Take given.now)) }
{
    json!(in alloc; {
        "arch": given.arch.as_str(),
        "builder": given.builder.as_str(),
        "command": "take",
        "source": given.source.as_str(),
        "version": given.version.as_str()
    })
}

/// The object of a command of this name that a holder gives by its take number alone.
fn value_of_held(alloc: Global, name: &str, given: &command::Held) -> Result<Value, AllocError>
    ensures { IfOk result (λ value. view value ≡ value_of_held name.now given.now) }
{
    json!(in alloc; {"command": name, "take": given.take_number})
}

fn value_of_waits(alloc: Global, given: &command::Waits) -> Result<Value, AllocError>
    ensures { IfOk result (λ value. view value ≡ value_of_command (Waits given.now)) }
{
    json!(in alloc; {
        "command": "waits",
        "relations": given.relations.as_str(),
        "take": given.take_number
    })
}

fn value_of_attempted(alloc: Global, given: &command::Attempted) -> Result<Value, AllocError>
    ensures { IfOk result (λ value. view value ≡ value_of_command (Attempted given.now)) }
{
    json!(in alloc; {
        "command": "attempted",
        "reason": given.reason.as_str(),
        "take": given.take_number
    })
}

/// The object of a command of this name that names a source package and its version, with nothing
/// more.
fn named_value(
    alloc: Global,
    name: &str,
    arch: &Text,
    source: &Text,
    version: &Text,
) -> Result<Value, AllocError>
    ensures { IfOk result (λ value.
        view value ≡ named_value name.now arch.now source.now version.now) }
{
    json!(in alloc; {
        "arch": arch.as_str(),
        "command": name,
        "source": source.as_str(),
        "version": version.as_str()
    })
}

fn value_of_dep_wait(alloc: Global, given: &command::DepWait) -> Result<Value, AllocError>
    ensures { IfOk result (λ value. view value ≡ value_of_command (DepWait given.now)) }
{
    json!(in alloc; {
        "arch": given.arch.as_str(),
        "command": "dep-wait",
        "relations": given.relations.as_str(),
        "source": given.source.as_str(),
        "version": given.version.as_str()
    })
}

/// The object of a command of this name that names a source package and its version, with a note.
fn noted_value(alloc: Global, name: &str, given: &command::SetAside) -> Result<Value, AllocError>
    ensures { IfOk result (λ value. view value ≡ noted_value name.now given.now) }
{
    json!(in alloc; {
        "arch": given.arch.as_str(),
        "command": name,
        "note": given.note.as_str(),
        "source": given.source.as_str(),
        "version": given.version.as_str()
    })
}

fn value_of_rebuild(alloc: Global, given: &command::Rebuild) -> Result<Value, AllocError>
    ensures { IfOk result (λ value. view value ≡ value_of_command (Rebuild given.now)) }
{
    json!(in alloc; {
        "arch": given.arch.as_str(),
        "command": "rebuild",
        "message": given.message.as_str(),
        "number": given.number,
        "source": given.source.as_str(),
        "version": given.version.as_str()
    })
}

fn value_of_priority(alloc: Global, given: &command::BuildPriority) -> Result<Value, AllocError>
    ensures { IfOk result (λ value. view value ≡ value_of_command (BuildPriority given.now)) }
{
    json!(in alloc; {
        "arch": given.arch.as_str(),
        "command": "build-priority",
        "source": given.source.as_str(),
        "value": given.value,
        "version": given.version.as_str()
    })
}

fn value_of_merge(alloc: Global, given: &command::Merge) -> Result<Value, AllocError>
    ensures { IfOk result (λ value. view value ≡ value_of_command (Merge given.now)) }
{
    merge_value(alloc, values_of_parts(alloc, given.parts.as_slice())?)
}

/// The object of a merge with these objects of its parts.
fn merge_value(alloc: Global, parts: Vec<Value>) -> Result<Value, AllocError>
    ensures { IfOk result (λ value. view value ≡ merge_value (items_of (map view parts.items))) }
{
    let parts = Value::Array(parts);
    json!(in alloc; {"command": "merge", "parts": parts})
}

/// The objects of the parts of a merge, in their order.
fn values_of_parts(alloc: Global, parts: &[Part]) -> Result<Vec<Value>, AllocError>
    ensures { IfOk result (λ values. map view values.items ≡ map value_of_part parts.now) }
{
    let mut values = Vec::new(alloc);
    for part in parts {
        values.push(value_of_part(alloc, part)?)?;
    }
    Ok(values)
}

fn value_of_part(alloc: Global, part: &Part) -> Result<Value, AllocError>
    ensures { IfOk result (λ value. view value ≡ value_of_part part.now) }
{
    part_value(alloc, &part.arch)
}

/// The object of a part of a merge: its architecture.
fn part_value(alloc: Global, arch: &Text) -> Result<Value, AllocError>
    ensures { IfOk result (λ value. view value ≡ part_value arch.now) }
{
    json!(in alloc; {"arch": arch.as_str()})
}

fn value_of_report(alloc: Global, given: &command::Report) -> Result<Value, AllocError>
    ensures { IfOk result (λ value. view value ≡ value_of_command (Report given.now)) }
{
    let bytes = given.text.as_str().len();
    json!(in alloc; {"arch": given.arch.as_str(), "bytes": bytes, "command": "report"})
}
