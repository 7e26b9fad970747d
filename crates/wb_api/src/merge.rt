//! The bodies of requests that name a merge: JSON objects (RFC 8259). All that a merge needs of its
//! body is found before any of it is copied, so that a key that is missing is never reported as out
//! of memory.
ghost use Rattle.std.specs.Prelude.{◌≡◌, Err, IfOk, IfSome, is_some, IsSome, not, OnErr};
ghost use Rattle.std.specs.Prelude.{option_and_then, option_map};
ghost use Rattle.std.specs.List.{list_all};
ghost use Rattle.serde_json.specs.View.{items_view, view};
ghost use Rattle.deb_text.specs.Lists.{begins};
ghost use Rattle.wb_api.specs.Commands.{IsText, or_bad_body};
ghost use Rattle.wb_api.specs.Merges.{all_parts, array_in, is_dot, is_list_name, list_name_in};
ghost use Rattle.wb_api.specs.Merges.{merge_in, merge_of, part_in, part_of, parts_in};
ghost use Rattle.wb_api.specs.Routes.{is_slash};
ghost use Rattle.wb_api.specs.Outcomes.{GivesOr};
ghost use Rattle.wb_api.specs.declared.failure.RequestError.TheVariants.{Memory};

use crate::command::{json_of, text_in};
use crate::failure::RequestError;
use deb_text::{Items, Text};
use serde_json::Value;
use std::alloc::{AllocError, Global};
use wb_lists::{MergeNames, PartNames};
use wb_streams::Fault;

/// An architecture and the name of its Packages list, as they stand in a body.
#[derive(Clone, Copy)]
struct PartTexts<'a> {
    arch: &'a str,
    packages: &'a str,
}

fn begins_with_dot(text: &str) -> bool
    ensures value { result ≡ begins is_dot text.now }
{
    match text.as_bytes() {
        [] => false,
        [first, ..] => *first == b'.',
    }
}

fn has_no_slash(text: &str) -> bool
    ensures value { result ≡ list_all (λ byte. not (is_slash byte)) text.now }
{
    text.bytes().all(|byte| byte != b'/')
}

/// Whether a text is the name of a list: 1 to 255 bytes, none of them a slash, and the first no
/// dot. So it names nothing outside of the folder of the lists. Takes no memory.
#[tactic(auto, unfolding(crate::specs::Merges::is_list_name))]
fn is_list_name(text: &str) -> bool
    ensures value { result ≡ is_list_name text.now }
{
    1 <= text.len() && text.len() <= 255 && !begins_with_dot(text) && has_no_slash(text)
}

/// The name of a list under a key, as it stands in the body; `None` if there is none. Takes no
/// memory.
fn list_name_in<'a>(key: &str, body: &'a Value) -> Option<&'a str>
    ensures value { option_map (λ name. name.now) result ≡ list_name_in key.now (view body.now) }
{
    let name = text_in(key, body)?;
    if is_list_name(name) { Some(name) } else { None }
}

/// The part that a value names; `None` if a text is missing, or is no name of a list. Takes no
/// memory.
#[tactic(auto, unfolding(crate::specs::Merges::part_in))]
fn part_in(value: &Value) -> Option<PartTexts<'_>>
    ensures value { option_map part_of result ≡ part_in (view value.now) }
{
    let arch = text_in("arch", value)?;
    let packages = list_name_in("packages", value)?;
    Some(PartTexts { arch, packages })
}

/// Whether each of the values names a part. Takes no memory.
fn are_parts(values: &[Value]) -> bool
    ensures value { result ≡ is_some (all_parts (items_view values.now)) }
{
    for value in values {
        if part_in(value).is_none() {
            return false;
        }
    }
    true
}

/// The values of the array under a key, as they stand in the body; `None` if there is no array.
fn array_in<'a>(key: &str, body: &'a Value) -> Option<&'a [Value]>
    ensures value { option_map (λ values. items_view values.now) result
        ≡ array_in key.now (view body.now) }
{
    match body.get(key)?.as_array() {
        Some(values) => Some(values.as_slice()),
        None => None,
    }
}

/// The values of the parts that a body names: one or more, and each names a part; `None` if there
/// are none. Takes no memory.
#[tactic(auto, using(crate::proofs::MergeLemmas::some_parts_are))]
fn parts_in(body: &Value) -> Option<&[Value]>
    ensures value { option_and_then (λ values. all_parts (items_view values.now)) result
        ≡ parts_in (view body.now) }
    ensures parts { IfSome result (λ values. IsSome (all_parts (items_view values.now))) }
{
    match array_in("parts", body) {
        Some(values) if !values.is_empty() && are_parts(values) => Some(values),
        _ => None,
    }
}

/// The parts that the values name, in their order; `None` if one of them names none. The only error
/// is that memory ran out.
fn copied_parts(alloc: Global, values: &[Value]) -> Result<Option<Items<PartNames>>, AllocError>
    ensures value { IfOk result (λ parts. parts ≡ all_parts (items_view values.now)) }
{
    let mut parts = Items::new(alloc);
    for value in values {
        let Some(part) = part_in(value) else {
            return Ok(None);
        };
        parts.push(PartNames {
            arch: Text::copied(alloc, part.arch)?,
            packages: Text::copied(alloc, part.packages)?,
        })?;
    }
    Ok(Some(parts))
}

/// The merge that a body names; `None` if a key is missing or has another kind of value, if there
/// is no part, or if a name is none of a list. The only error is that memory ran out, for a body
/// that names one.
#[tactic(auto, unfolding(crate::specs::Merges::merge_in))]
fn merge_in(alloc: Global, body: &Value) -> Result<Option<MergeNames>, AllocError>
    ensures value { IfOk result (λ names. names ≡ merge_in (view body.now)) }
    ensures memory { OnErr result (IsSome (merge_in (view body.now))) }
{
    let Some(sources) = list_name_in("sources", body) else {
        return Ok(None);
    };
    let Some(values) = parts_in(body) else {
        return Ok(None);
    };
    let sources = Text::copied(alloc, sources)?;
    match copied_parts(alloc, values)? {
        Some(parts) => Ok(Some(MergeNames { sources, parts })),
        None => Ok(None),
    }
}

/// The merge that a body names. The errors are that it names none, and, for a body that names one,
/// that memory ran out.
fn merge_from(alloc: Global, body: &Value) -> Result<MergeNames, RequestError>
    ensures value { GivesOr result (or_bad_body (merge_in (view body.now))) }
    ensures memory { result ≡ Err Memory → IsSome (merge_in (view body.now)) }
{
    match merge_in(alloc, body) {
        Ok(Some(names)) => Ok(names),
        Ok(None) => Err(RequestError::Fault(Fault::BadBody)),
        Err(_) => Err(RequestError::Memory),
    }
}

/// The merge that the bytes of a body name. The errors are that they name none, and, for bytes that
/// are UTF-8, that memory ran out.
#[tactic(auto, unfolding(crate::specs::Merges::merge_of))]
pub(crate) fn merge_of(alloc: Global, bytes: &[u8]) -> Result<MergeNames, RequestError>
    ensures value { GivesOr result (merge_of bytes.now) }
    ensures memory { result ≡ Err Memory → IsText bytes.now }
{
    let Some(value) = json_of(alloc, bytes)? else {
        return Err(RequestError::Fault(Fault::BadBody));
    };
    merge_from(alloc, &value)
}
