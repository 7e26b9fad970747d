//! The bodies of requests that give a command: JSON objects (RFC 8259). All that a command needs of
//! its body is found before any of it is copied, so that a key that is missing is never reported as
//! out of memory.
ghost use Rattle.std.specs.Prelude.{◌≡◌, codes, Err, IfOk, IfSome, IsSome, OnErr, option_map};
ghost use Rattle.serde_json.specs.View.{view};
ghost use Rattle.wb_api.specs.Commands.{add_arch_in, add_builder_in, attempted_in};
ghost use Rattle.wb_api.specs.Commands.{build_priority_in, command_in, command_of, dep_wait_in};
ghost use Rattle.wb_api.specs.Commands.{enter_in, fail_in, forget_in};
ghost use Rattle.wb_api.specs.Commands.{give_back_in, integer_in, json_of, next_in, not_for_us_in};
ghost use Rattle.wb_api.specs.Commands.{number_in, or_bad_body};
ghost use Rattle.wb_api.specs.Commands.{number_or_none_in, rebuild_in, remove_arch_in};
ghost use Rattle.wb_api.specs.Commands.{remove_builder_in};
ghost use Rattle.wb_api.specs.Commands.{report_in, named_source_in, take_in, text_in, waits_in};
ghost use Rattle.wb_api.specs.Commands.{IsText, named_source_of};
ghost use Rattle.wb_api.specs.Outcomes.{GivesOr};
ghost use Rattle.wb_api.specs.declared.failure.RequestError.TheVariants.{Memory};

use crate::failure::RequestError;
use crate::route::CommandKind;
use deb_text::Text;
use serde_json::Value;
use std::alloc::{AllocError, Global};
use std::str;
use wb_states::{Command, command};
use wb_streams::Fault;

/// The architecture, the source package and the version that a body names, as they stand in it.
#[derive(Clone, Copy)]
struct NamedSource<'a> {
    arch: &'a str,
    source: &'a str,
    version: &'a str,
}

/// The text under a key, as it stands in the body; `None` if there is no text. Takes no memory.
pub(crate) fn text_in<'a>(key: &str, body: &'a Value) -> Option<&'a str>
    ensures value { option_map (λ text. text.now) result ≡ text_in key.now (view body.now) }
{
    match body.get(key) {
        Some(value) => value.as_str(),
        None => None,
    }
}

/// The whole number under a key; `None` if there is none in digits alone, or one above 64 bits.
fn number_in(key: &str, body: &Value) -> Option<u64>
    ensures value { result ≡ number_in key.now (view body.now) }
{
    body.get(key).and_then(Value::as_u64)
}

/// The integer under a key; `None` if there is none in digits alone or after a minus sign, if it is
/// -0, or if it does not fit 64 bits.
fn integer_in(key: &str, body: &Value) -> Option<i64>
    ensures value { result ≡ integer_in key.now (view body.now) }
{
    body.get(key).and_then(Value::as_i64)
}

/// The whole number under a key, if the key is there and not null; `None` if it has something else.
fn number_or_none_in(key: &str, body: &Value) -> Option<Option<u64>>
    ensures value { result ≡ number_or_none_in key.now (view body.now) }
{
    match body.get(key) {
        Some(value) => {
            if value.is_null() {
                Some(None)
            } else {
                value.as_u64().map(Some)
            }
        }
        None => Some(None),
    }
}

/// The architecture, the source package and the version that a body names; `None` if one of them is
/// missing. Takes no memory.
#[tactic(auto, unfolding(crate::specs::Commands::named_source_in))]
fn named_source_in(body: &Value) -> Option<NamedSource<'_>>
    ensures value { option_map named_source_of result ≡ named_source_in (view body.now) }
{
    let arch = text_in("arch", body)?;
    let source = text_in("source", body)?;
    let version = text_in("version", body)?;
    Some(NamedSource {
        arch,
        source,
        version,
    })
}

#[tactic(auto, unfolding(crate::specs::Commands::add_arch_in))]
fn add_arch_in(alloc: Global, body: &Value) -> Result<Option<Command>, AllocError>
    ensures value { IfOk result (λ command. command ≡ add_arch_in (view body.now)) }
    ensures memory { OnErr result (IsSome (add_arch_in (view body.now))) }
{
    let Some(name) = text_in("name", body) else {
        return Ok(None);
    };
    let Some(os) = text_in("os", body) else {
        return Ok(None);
    };
    let Some(cpu) = text_in("cpu", body) else {
        return Ok(None);
    };
    Ok(Some(Command::AddArch(command::AddArch {
        name: Text::copied(alloc, name)?,
        os: Text::copied(alloc, os)?,
        cpu: Text::copied(alloc, cpu)?,
    })))
}

#[tactic(auto, unfolding(crate::specs::Commands::add_builder_in))]
fn add_builder_in(alloc: Global, body: &Value) -> Result<Option<Command>, AllocError>
    ensures value { IfOk result (λ command. command ≡ add_builder_in (view body.now)) }
    ensures memory { OnErr result (IsSome (add_builder_in (view body.now))) }
{
    let Some(name) = text_in("name", body) else {
        return Ok(None);
    };
    let Some(arch) = text_in("arch", body) else {
        return Ok(None);
    };
    Ok(Some(Command::AddBuilder(command::AddBuilder {
        name: Text::copied(alloc, name)?,
        arch: Text::copied(alloc, arch)?,
    })))
}

#[tactic(auto, unfolding(crate::specs::Commands::remove_arch_in))]
fn remove_arch_in(alloc: Global, body: &Value) -> Result<Option<Command>, AllocError>
    ensures value { IfOk result (λ command. command ≡ remove_arch_in (view body.now)) }
    ensures memory { OnErr result (IsSome (remove_arch_in (view body.now))) }
{
    let Some(name) = text_in("name", body) else {
        return Ok(None);
    };
    Ok(Some(Command::RemoveArch(command::RemoveArch {
        name: Text::copied(alloc, name)?,
    })))
}

#[tactic(auto, unfolding(crate::specs::Commands::remove_builder_in))]
fn remove_builder_in(alloc: Global, body: &Value) -> Result<Option<Command>, AllocError>
    ensures value { IfOk result (λ command. command ≡ remove_builder_in (view body.now)) }
    ensures memory { OnErr result (IsSome (remove_builder_in (view body.now))) }
{
    let Some(name) = text_in("name", body) else {
        return Ok(None);
    };
    let Some(arch) = text_in("arch", body) else {
        return Ok(None);
    };
    Ok(Some(Command::RemoveBuilder(command::RemoveBuilder {
        name: Text::copied(alloc, name)?,
        arch: Text::copied(alloc, arch)?,
    })))
}

#[tactic(auto, unfolding(crate::specs::Commands::enter_in))]
fn enter_in(alloc: Global, body: &Value) -> Result<Option<Command>, AllocError>
    ensures value { IfOk result (λ command. command ≡ enter_in (view body.now)) }
    ensures memory { OnErr result (IsSome (enter_in (view body.now))) }
{
    let Some(subject) = named_source_in(body) else {
        return Ok(None);
    };
    let Some(priority) = text_in("priority", body) else {
        return Ok(None);
    };
    let Some(section) = text_in("section", body) else {
        return Ok(None);
    };
    Ok(Some(Command::Enter(command::Enter {
        arch: Text::copied(alloc, subject.arch)?,
        source: Text::copied(alloc, subject.source)?,
        version: Text::copied(alloc, subject.version)?,
        priority: Text::copied(alloc, priority)?,
        section: Text::copied(alloc, section)?,
    })))
}

#[tactic(auto, unfolding(crate::specs::Commands::next_in))]
fn next_in(alloc: Global, body: &Value) -> Result<Option<Command>, AllocError>
    ensures value { IfOk result (λ command. command ≡ next_in (view body.now)) }
    ensures memory { OnErr result (IsSome (next_in (view body.now))) }
{
    let Some(arch) = text_in("arch", body) else {
        return Ok(None);
    };
    let Some(builder) = text_in("builder", body) else {
        return Ok(None);
    };
    let Some(after) = number_or_none_in("after", body) else {
        return Ok(None);
    };
    Ok(Some(Command::Next(command::Next {
        arch: Text::copied(alloc, arch)?,
        builder: Text::copied(alloc, builder)?,
        after,
    })))
}

#[tactic(auto, unfolding(crate::specs::Commands::take_in))]
fn take_in(alloc: Global, body: &Value) -> Result<Option<Command>, AllocError>
    ensures value { IfOk result (λ command. command ≡ take_in (view body.now)) }
    ensures memory { OnErr result (IsSome (take_in (view body.now))) }
{
    let Some(subject) = named_source_in(body) else {
        return Ok(None);
    };
    let Some(builder) = text_in("builder", body) else {
        return Ok(None);
    };
    Ok(Some(Command::Take(command::Take {
        arch: Text::copied(alloc, subject.arch)?,
        builder: Text::copied(alloc, builder)?,
        source: Text::copied(alloc, subject.source)?,
        version: Text::copied(alloc, subject.version)?,
    })))
}

fn held_in(body: &Value) -> Option<command::Held>
    ensures value { option_map (λ held. held.take_number) result ≡ number_in (codes "take") (view body.now) }
{
    let take_number = number_in("take", body)?;
    Some(command::Held { take_number })
}

#[tactic(auto, unfolding(crate::specs::Commands::waits_in))]
fn waits_in(alloc: Global, body: &Value) -> Result<Option<Command>, AllocError>
    ensures value { IfOk result (λ command. command ≡ waits_in (view body.now)) }
    ensures memory { OnErr result (IsSome (waits_in (view body.now))) }
{
    let Some(take_number) = number_in("take", body) else {
        return Ok(None);
    };
    let Some(relations) = text_in("relations", body) else {
        return Ok(None);
    };
    Ok(Some(Command::Waits(command::Waits {
        take_number,
        relations: Text::copied(alloc, relations)?,
    })))
}

#[tactic(auto, unfolding(crate::specs::Commands::attempted_in))]
fn attempted_in(alloc: Global, body: &Value) -> Result<Option<Command>, AllocError>
    ensures value { IfOk result (λ command. command ≡ attempted_in (view body.now)) }
    ensures memory { OnErr result (IsSome (attempted_in (view body.now))) }
{
    let Some(take_number) = number_in("take", body) else {
        return Ok(None);
    };
    let Some(reason) = text_in("reason", body) else {
        return Ok(None);
    };
    Ok(Some(Command::Attempted(command::Attempted {
        take_number,
        reason: Text::copied(alloc, reason)?,
    })))
}

#[tactic(auto, unfolding(crate::specs::Commands::give_back_in))]
fn give_back_in(alloc: Global, body: &Value) -> Result<Option<Command>, AllocError>
    ensures value { IfOk result (λ command. command ≡ give_back_in (view body.now)) }
    ensures memory { OnErr result (IsSome (give_back_in (view body.now))) }
{
    let Some(subject) = named_source_in(body) else {
        return Ok(None);
    };
    Ok(Some(Command::GiveBack(command::GiveBack {
        arch: Text::copied(alloc, subject.arch)?,
        source: Text::copied(alloc, subject.source)?,
        version: Text::copied(alloc, subject.version)?,
    })))
}

#[tactic(auto, unfolding(crate::specs::Commands::dep_wait_in))]
fn dep_wait_in(alloc: Global, body: &Value) -> Result<Option<Command>, AllocError>
    ensures value { IfOk result (λ command. command ≡ dep_wait_in (view body.now)) }
    ensures memory { OnErr result (IsSome (dep_wait_in (view body.now))) }
{
    let Some(subject) = named_source_in(body) else {
        return Ok(None);
    };
    let Some(relations) = text_in("relations", body) else {
        return Ok(None);
    };
    Ok(Some(Command::DepWait(command::DepWait {
        arch: Text::copied(alloc, subject.arch)?,
        source: Text::copied(alloc, subject.source)?,
        version: Text::copied(alloc, subject.version)?,
        relations: Text::copied(alloc, relations)?,
    })))
}

#[tactic(auto, unfolding(crate::specs::Commands::fail_in))]
fn fail_in(alloc: Global, body: &Value) -> Result<Option<Command>, AllocError>
    ensures value { IfOk result (λ command. command ≡ fail_in (view body.now)) }
    ensures memory { OnErr result (IsSome (fail_in (view body.now))) }
{
    let Some(subject) = named_source_in(body) else {
        return Ok(None);
    };
    let Some(note) = text_in("note", body) else {
        return Ok(None);
    };
    Ok(Some(Command::Fail(command::SetAside {
        arch: Text::copied(alloc, subject.arch)?,
        source: Text::copied(alloc, subject.source)?,
        version: Text::copied(alloc, subject.version)?,
        note: Text::copied(alloc, note)?,
    })))
}

#[tactic(auto, unfolding(crate::specs::Commands::not_for_us_in))]
fn not_for_us_in(alloc: Global, body: &Value) -> Result<Option<Command>, AllocError>
    ensures value { IfOk result (λ command. command ≡ not_for_us_in (view body.now)) }
    ensures memory { OnErr result (IsSome (not_for_us_in (view body.now))) }
{
    let Some(subject) = named_source_in(body) else {
        return Ok(None);
    };
    let Some(note) = text_in("note", body) else {
        return Ok(None);
    };
    Ok(Some(Command::NotForUs(command::SetAside {
        arch: Text::copied(alloc, subject.arch)?,
        source: Text::copied(alloc, subject.source)?,
        version: Text::copied(alloc, subject.version)?,
        note: Text::copied(alloc, note)?,
    })))
}

#[tactic(auto, unfolding(crate::specs::Commands::rebuild_in))]
fn rebuild_in(alloc: Global, body: &Value) -> Result<Option<Command>, AllocError>
    ensures value { IfOk result (λ command. command ≡ rebuild_in (view body.now)) }
    ensures memory { OnErr result (IsSome (rebuild_in (view body.now))) }
{
    let Some(subject) = named_source_in(body) else {
        return Ok(None);
    };
    let Some(number) = number_in("number", body) else {
        return Ok(None);
    };
    let Some(message) = text_in("message", body) else {
        return Ok(None);
    };
    Ok(Some(Command::Rebuild(command::Rebuild {
        arch: Text::copied(alloc, subject.arch)?,
        source: Text::copied(alloc, subject.source)?,
        version: Text::copied(alloc, subject.version)?,
        number,
        message: Text::copied(alloc, message)?,
    })))
}

#[tactic(auto, unfolding(crate::specs::Commands::build_priority_in))]
fn build_priority_in(alloc: Global, body: &Value) -> Result<Option<Command>, AllocError>
    ensures value { IfOk result (λ command. command ≡ build_priority_in (view body.now)) }
    ensures memory { OnErr result (IsSome (build_priority_in (view body.now))) }
{
    let Some(subject) = named_source_in(body) else {
        return Ok(None);
    };
    let Some(value) = integer_in("value", body) else {
        return Ok(None);
    };
    Ok(Some(Command::BuildPriority(command::BuildPriority {
        arch: Text::copied(alloc, subject.arch)?,
        source: Text::copied(alloc, subject.source)?,
        version: Text::copied(alloc, subject.version)?,
        value,
    })))
}

#[tactic(auto, unfolding(crate::specs::Commands::forget_in))]
fn forget_in(alloc: Global, body: &Value) -> Result<Option<Command>, AllocError>
    ensures value { IfOk result (λ command. command ≡ forget_in (view body.now)) }
    ensures memory { OnErr result (IsSome (forget_in (view body.now))) }
{
    let Some(subject) = named_source_in(body) else {
        return Ok(None);
    };
    Ok(Some(Command::Forget(command::Forget {
        arch: Text::copied(alloc, subject.arch)?,
        source: Text::copied(alloc, subject.source)?,
        version: Text::copied(alloc, subject.version)?,
    })))
}

#[tactic(auto, unfolding(crate::specs::Commands::report_in))]
fn report_in(alloc: Global, body: &Value) -> Result<Option<Command>, AllocError>
    ensures value { IfOk result (λ command. command ≡ report_in (view body.now)) }
    ensures memory { OnErr result (IsSome (report_in (view body.now))) }
{
    let Some(arch) = text_in("arch", body) else {
        return Ok(None);
    };
    let Some(text) = text_in("text", body) else {
        return Ok(None);
    };
    Ok(Some(Command::Report(command::Report {
        arch: Text::copied(alloc, arch)?,
        text: Text::copied(alloc, text)?,
    })))
}

/// The command of this kind that a body gives; `None` if a key is missing or has another kind of
/// value. The only error is that memory ran out, for a body that gives one.
fn command_in(alloc: Global, kind: CommandKind, body: &Value) -> Result<Option<Command>, AllocError>
    ensures value { IfOk result (λ command. command ≡ command_in kind (view body.now)) }
    ensures memory { OnErr result (IsSome (command_in kind (view body.now))) }
{
    match kind {
        CommandKind::AddArch => add_arch_in(alloc, body),
        CommandKind::AddBuilder => add_builder_in(alloc, body),
        CommandKind::RemoveArch => remove_arch_in(alloc, body),
        CommandKind::RemoveBuilder => remove_builder_in(alloc, body),
        CommandKind::Enter => enter_in(alloc, body),
        CommandKind::Next => next_in(alloc, body),
        CommandKind::Take => take_in(alloc, body),
        CommandKind::Built => Ok(held_in(body).map(Command::Built)),
        CommandKind::Uploaded => Ok(held_in(body).map(Command::Uploaded)),
        CommandKind::Waits => waits_in(alloc, body),
        CommandKind::PutBack => Ok(held_in(body).map(Command::PutBack)),
        CommandKind::Attempted => attempted_in(alloc, body),
        CommandKind::GiveBack => give_back_in(alloc, body),
        CommandKind::DepWait => dep_wait_in(alloc, body),
        CommandKind::Fail => fail_in(alloc, body),
        CommandKind::NotForUs => not_for_us_in(alloc, body),
        CommandKind::Rebuild => rebuild_in(alloc, body),
        CommandKind::BuildPriority => build_priority_in(alloc, body),
        CommandKind::Forget => forget_in(alloc, body),
        CommandKind::Report => report_in(alloc, body),
    }
}

/// The command of this kind that a body gives. The errors are that a key is missing or has another
/// kind of value, and, for a body that gives a command, that memory ran out.
fn command_from(alloc: Global, kind: CommandKind, body: &Value) -> Result<Command, RequestError>
    ensures value { GivesOr result (or_bad_body (command_in kind (view body.now))) }
    ensures memory { result ≡ Err Memory → IsSome (command_in kind (view body.now)) }
{
    match command_in(alloc, kind, body) {
        Ok(Some(command)) => Ok(command),
        Ok(None) => Err(RequestError::Fault(Fault::BadBody)),
        Err(_) => Err(RequestError::Memory),
    }
}

/// The value that bytes write in JSON; `None` if they write none. The only error is that memory ran
/// out, for bytes that are UTF-8.
pub(crate) fn json_of(alloc: Global, bytes: &[u8]) -> Result<Option<Value>, AllocError>
    ensures value { IfOk result (λ value. option_map view value ≡ json_of bytes.now) }
    ensures text { IfOk result (λ value. IfSome value (λ _. IsText bytes.now)) }
    ensures memory { OnErr result (IsText bytes.now) }
{
    let Ok(text) = str::from_utf8(bytes) else {
        return Ok(None);
    };
    match Value::from_str(alloc, text) {
        Ok(value) => Ok(Some(value)),
        Err(error) => {
            if error.is_memory() {
                Err(AllocError)
            } else {
                Ok(None)
            }
        }
    }
}

/// The command of this kind that the bytes of a body give. The errors are that they give none, and,
/// for bytes that are UTF-8, that memory ran out.
#[tactic(auto, unfolding(crate::specs::Commands::command_of))]
pub(crate) fn command_of(
    alloc: Global,
    kind: CommandKind,
    bytes: &[u8],
) -> Result<Command, RequestError>
    ensures value { GivesOr result (command_of kind bytes.now) }
    ensures memory { result ≡ Err Memory → IsText bytes.now }
{
    let Some(value) = json_of(alloc, bytes)? else {
        return Err(RequestError::Fault(Fault::BadBody));
    };
    command_from(alloc, kind, &value)
}
