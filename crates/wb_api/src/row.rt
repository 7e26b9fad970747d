//! The objects of records in the answers to queries.
ghost use Rattle.std.specs.Prelude.{◌≡◌, IfOk, OnOk};
ghost use Rattle.serde_json.specs.Data.{put as with_member, string};
ghost use Rattle.serde_json.specs.View.{members_view, view};
ghost use Rattle.wb_api.specs.QueryValues.{number_or_null, string_or_null, value_of_fields};
ghost use Rattle.wb_api.specs.QueryValues.{value_of_record, value_of_waiting, with_standing, with_texts};
ghost use Rattle.wb_api.specs.QueryValues.{with_version};

use deb_text::Text;
use serde_json::{Map, Value, json, put};
use std::alloc::{AllocError, Global};
use wb_states::{KeyedRecord, Record, build_text};

/// The object of a record that waits in a queue.
pub(crate) fn value_of_waiting(alloc: Global, row: &KeyedRecord) -> Result<Value, AllocError>
    ensures { IfOk result (λ value. view value ≡ value_of_waiting row.now) }
{
    let build = build_text(alloc, &row.current)?;
    json!(in alloc; {"build": build.as_str(), "source": row.source.as_str()})
}

/// The object of a record, with all that is shown of it.
pub(crate) fn value_of_record(alloc: Global, row: &KeyedRecord) -> Result<Value, AllocError>
    ensures { IfOk result (λ value. view value ≡ value_of_record row.now) }
{
    value_of_fields(alloc, row.arch.as_str(), row.source.as_str(), &row.current)
}

/// The object of the record of this source package on this architecture.
fn value_of_fields(
    alloc: Global,
    arch: &str,
    source: &str,
    current: &Record,
) -> Result<Value, AllocError>
    ensures { IfOk result (λ value.
        view value ≡ value_of_fields arch.now source.now current.now) }
{
    let mut members = Map::new(alloc);
    put_text(alloc, &mut members, "arch", arch)?;
    put_text(alloc, &mut members, "source", source)?;
    put_version(alloc, &mut members, current)?;
    put_standing(alloc, &mut members, current)?;
    put_texts(alloc, &mut members, current)?;
    Ok(Value::Object(members))
}

/// Puts what is built of a record, and its build priority.
fn put_version(
    alloc: Global,
    members: &mut Map<String, Value>,
    current: &Record,
) -> Result<(), AllocError>
    ensures ok { OnOk result (members_view members.new.entries
        ≡ with_version current.now (members_view members.old.entries)) }
{
    let build = build_text(alloc, current)?;
    put_text(alloc, members, "version", current.version.text())?;
    put(members, alloc, "number", Value::from(current.number))?;
    put_text(alloc, members, "build", build.as_str())?;
    put(
        members,
        alloc,
        "build_priority",
        Value::from(current.build_priority),
    )
}

/// Puts where a record stands, and who holds it.
fn put_standing(
    alloc: Global,
    members: &mut Map<String, Value>,
    current: &Record,
) -> Result<(), AllocError>
    ensures ok { OnOk result (members_view members.new.entries
        ≡ with_standing current.now (members_view members.old.entries)) }
{
    let holder = string_or_null(alloc, &current.holder)?;
    put_text(alloc, members, "state", current.state.name())?;
    put(members, alloc, "earlier", Value::from(current.earlier))?;
    put(members, alloc, "holder", holder)?;
    put(members, alloc, "take", number_or_null(current.take))
}

/// Puts what is said of a record.
fn put_texts(
    alloc: Global,
    members: &mut Map<String, Value>,
    current: &Record,
) -> Result<(), AllocError>
    ensures ok { OnOk result (members_view members.new.entries
        ≡ with_texts current.now (members_view members.old.entries)) }
{
    put_text(alloc, members, "priority", current.priority.as_str())?;
    put_text(alloc, members, "section", current.section.as_str())?;
    put_text(alloc, members, "waits", current.waits.as_str())?;
    put_text(alloc, members, "note", current.note.as_str())?;
    put_text(alloc, members, "message", current.message.as_str())
}

/// Puts a text at a key.
fn put_text(
    alloc: Global,
    members: &mut Map<String, Value>,
    key: &str,
    text: &str,
) -> Result<(), AllocError>
    ensures ok { OnOk result (members_view members.new.entries
        ≡ with_member key.now (string text.now) (members_view members.old.entries)) }
{
    let text = Value::try_from_str(alloc, text)?;
    put(members, alloc, key, text)
}

/// The text, or `null` if it is missing.
pub(crate) fn string_or_null(alloc: Global, text: &Option<Text>) -> Result<Value, AllocError>
    ensures { IfOk result (λ value. view value ≡ string_or_null text.now) }
{
    match text {
        Some(text) => Value::try_from_str(alloc, text.as_str()),
        None => Ok(Value::Null),
    }
}

/// The number, or `null` if it is missing.
fn number_or_null(number: Option<u64>) -> Value
    ensures { view result ≡ number_or_null number }
{
    match number {
        Some(number) => Value::from(number),
        None => Value::Null,
    }
}
