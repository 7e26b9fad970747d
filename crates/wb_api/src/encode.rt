//! The replies of the office as compact JSON, with the keys of each object in byte order.
ghost use Rattle.std.specs.Prelude.{◌≡◌, map, IfOk};
ghost use Rattle.std.specs.String.{string_bytes};
ghost use Rattle.serde_json.specs.Data.{array};
ghost use Rattle.serde_json.specs.View.{view, items_view};
ghost use Rattle.wb_api.specs.Encoding.{reply_text};
ghost use Rattle.wb_api.specs.Values.{value_of_counts, value_of_assignment, value_of_part, value_of_reply, values_of_parts, with_arch};

use crate::refusal::value_of_refusal;
use serde_json::{Value, json, put};
use std::alloc::{AllocError, Global};
use wb_states::{Assignment, MergeCounts, PartEnd, PartReply, Reply};

/// The reply to an accepted command as one JSON object (RFC 8259), with no space and no line feed.
///
/// `name` is the command's name and stands under `ok`, save that `again` stands there if the reply
/// repeats what a builder builds. A count and a take number stand in all their digits. The parts of
/// a merge stand in their order, a refused one as its refusal with its architecture. In a text `"`,
/// `\` and the control bytes are escaped, by the short escape if JSON has one, else by `\u00` and
/// two lower-case digits; all other bytes stand as they are. The only error is that there is no
/// memory for the text. The keys are this project's own.
#[tactic(auto, using(crate::proofs::EncodingLemmas::printing))]
pub fn reply_json(alloc: Global, name: &str, reply: &Reply) -> Result<String, AllocError>
    ensures value { IfOk result (λ text. string_bytes text ≡ reply_text name.now reply.now) }
{
    let value = value_of_reply(alloc, name, reply)?;
    value.to_string(alloc)
}

fn value_of_reply(alloc: Global, name: &str, reply: &Reply) -> Result<Value, AllocError>
    ensures { IfOk result (λ value. view value ≡ value_of_reply name.now reply.now) }
{
    match reply {
        Reply::Done { accepted } => json!(in alloc; {"accepted": *accepted, "ok": name}),
        Reply::Job {
            accepted,
            assignment,
        } => value_of_assignment(alloc, name, *accepted, assignment),
        Reply::Again {
            accepted,
            assignment,
        } => value_of_assignment(alloc, "again", *accepted, assignment),
        Reply::Reported { accepted, changed } => {
            json!(in alloc; {"accepted": *accepted, "changed": *changed, "ok": name})
        }
        Reply::Merged { accepted, parts } => {
            let parts = values_of_parts(alloc, parts.as_slice())?;
            json!(in alloc; {"accepted": *accepted, "ok": "merge", "parts": parts})
        }
    }
}

fn value_of_assignment(
    alloc: Global,
    ok: &str,
    accepted: u64,
    assignment: &Assignment,
) -> Result<Value, AllocError>
    ensures { IfOk result (λ value.
        view value ≡ value_of_assignment ok.now accepted assignment.now) }
{
    json!(in alloc; {
        "accepted": accepted,
        "arch": assignment.arch.as_str(),
        "build": assignment.build.as_str(),
        "message": assignment.message.as_str(),
        "number": assignment.number,
        "ok": ok,
        "source": assignment.source.as_str(),
        "take": assignment.take,
        "version": assignment.version.as_str()
    })
}

/// The array of the parts' objects.
fn values_of_parts(alloc: Global, parts: &[PartReply]) -> Result<Value, AllocError>
    ensures { IfOk result (λ value. view value ≡ array (values_of_parts parts.now)) }
{
    Ok(array_of(list_of_parts(alloc, parts)?))
}

/// The array of these values.
pub(crate) fn array_of(values: Vec<Value>) -> Value
    ensures { view result ≡ array (items_view values.items) }
{
    Value::Array(values)
}

/// The parts' objects, in their order.
fn list_of_parts(alloc: Global, parts: &[PartReply]) -> Result<Vec<Value>, AllocError>
    ensures { IfOk result (λ values. map view values.items ≡ map value_of_part parts.now) }
{
    let mut values = Vec::new(alloc);
    for part in parts {
        values.push(value_of_part(alloc, part)?)?;
    }
    Ok(values)
}

fn value_of_part(alloc: Global, part: &PartReply) -> Result<Value, AllocError>
    ensures { IfOk result (λ value. view value ≡ value_of_part part.now) }
{
    let arch = part.arch.as_str();
    match &part.end {
        PartEnd::Merged { counts } => value_of_counts(alloc, arch, counts),
        PartEnd::Refused { refusal } => {
            let value = value_of_refusal(alloc, refusal)?;
            with_arch(alloc, arch, value)
        }
    }
}

fn value_of_counts(alloc: Global, arch: &str, counts: &MergeCounts) -> Result<Value, AllocError>
    ensures { IfOk result (λ value. view value ≡ value_of_counts arch.now counts.now) }
{
    json!(in alloc; {
        "added": counts.added,
        "arch": arch,
        "changed": counts.changed,
        "kept": counts.kept,
        "removed": counts.removed
    })
}

/// The object with the architecture among its members.
fn with_arch(alloc: Global, arch: &str, value: Value) -> Result<Value, AllocError>
    ensures { IfOk result (λ made. view made ≡ with_arch arch.now (view value)) }
{
    match value {
        Value::Object(mut members) => {
            let arch = json!(in alloc; arch)?;
            put(&mut members, alloc, "arch", arch)?;
            Ok(Value::Object(members))
        }
        other => Ok(other),
    }
}
