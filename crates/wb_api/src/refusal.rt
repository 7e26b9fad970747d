//! The refusals of the office as compact JSON, with the keys of each object in byte order.
ghost use Rattle.std.specs.Prelude.{◌≡◌, ◌⊎◌, true, is_some, IfOk, IfSome, Ok};
ghost use Rattle.std.specs.String.{string_bytes};
ghost use Rattle.std.specs.Cow.{cow_str_bytes, IsBorrowedStr};
ghost use Rattle.std.specs.declared.alloc.Global.{Global as AnyGlobal};
ghost use Rattle.std.specs.declared.borrow.CowStr.{CowStr as AnyCowStr};
ghost use Rattle.serde_json.specs.View.{view};
ghost use Rattle.wb_states.specs.declared.refusal.Refusal.TheVariants.{BadReport, Memory, Store};
ghost use Rattle.wb_api.specs.Encoding.{is_plain, name_of_relations_fault, refusal_text};
ghost use Rattle.wb_api.specs.Encoding.{IsMemoryText};
ghost use Rattle.wb_api.specs.Values.{value_of_listing_fault, value_of_plain, value_of_refusal};

use deb_relations::RelationFault;
use serde_json::{Value, json};
use std::alloc::{AllocError, Global};
use std::borrow::CowStr;
use wb_states::{ListKind, ListingFault, Refusal, StoreFault};

/// The text of the refusal `Memory`, which must not need any memory.
const MEMORY: &str = r#"{"code":20,"refused":"Memory"}"#;

// So the commonest answers take no memory, and that it ran out cannot replace them. `refusal_text`
// is that of a text made of number and name for each.
/// The text of a refusal that has no more than its number and its name, which is a constant.
fn constant_text(refusal: &Refusal) -> Option<&'static str>
    ensures value { IfSome result (λ text. text.now ≡ refusal_text refusal.now) }
    ensures some { is_some result ≡ is_plain refusal.now }
{
    match refusal {
        Refusal::UnknownArch => Some(r#"{"code":1,"refused":"UnknownArch"}"#),
        Refusal::UnknownBuilder => Some(r#"{"code":2,"refused":"UnknownBuilder"}"#),
        Refusal::WrongArch => Some(r#"{"code":3,"refused":"WrongArch"}"#),
        Refusal::UnknownSource => Some(r#"{"code":4,"refused":"UnknownSource"}"#),
        Refusal::QueueEmpty => Some(r#"{"code":7,"refused":"QueueEmpty"}"#),
        Refusal::NotHeld => Some(r#"{"code":8,"refused":"NotHeld"}"#),
        Refusal::AlreadyThere => Some(r#"{"code":10,"refused":"AlreadyThere"}"#),
        Refusal::BadName => Some(r#"{"code":11,"refused":"BadName"}"#),
        Refusal::BadNumber => Some(r#"{"code":14,"refused":"BadNumber"}"#),
        Refusal::TextTooLong => Some(r#"{"code":17,"refused":"TextTooLong"}"#),
        Refusal::Spent => Some(r#"{"code":18,"refused":"Spent"}"#),
        Refusal::Closed => Some(r#"{"code":19,"refused":"Closed"}"#),
        Refusal::Memory => Some(MEMORY),
        Refusal::RepeatedArch => Some(r#"{"code":22,"refused":"RepeatedArch"}"#),
        Refusal::StillHeld => Some(r#"{"code":23,"refused":"StillHeld"}"#),
        Refusal::OtherVersion { .. }
        | Refusal::WrongState { .. }
        | Refusal::AfterAhead { .. }
        | Refusal::BadVersion { .. }
        | Refusal::BadRelations { .. }
        | Refusal::BadListing { .. }
        | Refusal::BadReport { .. }
        | Refusal::Store { .. } => None,
    }
}

/// A refusal as one JSON object (RFC 8259), with no space and no line feed: its number, its name
/// and what what else it has, all under the keys of this project.
///
/// The only error is that there is no memory for the text. The text of a refusal with only a number
/// and a name is a constant, which takes no memory.
pub fn try_refusal_json(alloc: Global, refusal: &Refusal) -> Result<CowStr<'static>, AllocError>
    ensures value { IfOk result (λ text. cow_str_bytes text ≡ refusal_text refusal.now) }
    ensures plain { is_plain refusal.now ≡ true
        → (text : AnyCowStr AnyGlobal) × (result ≡ Ok text) × IsBorrowedStr text }
{
    if let Some(text) = constant_text(refusal) {
        return Ok(CowStr::Borrowed(text));
    }
    Ok(CowStr::Owned(text_of_refusal(alloc, refusal)?))
}

/// The same, with no error: if there is no memory for the text, it is that of the refusal `Memory`.
pub fn refusal_json(alloc: Global, refusal: &Refusal) -> CowStr<'static>
    ensures value { (cow_str_bytes result ≡ refusal_text refusal.now) ⊎ IsMemoryText result }
    ensures plain { is_plain refusal.now ≡ true
        → IsBorrowedStr result × (cow_str_bytes result ≡ refusal_text refusal.now) }
    ensures memory { refusal.now ≡ Memory → IsMemoryText result }
{
    match try_refusal_json(alloc, refusal) {
        Ok(text) => text,
        Err(_) => CowStr::Borrowed(MEMORY),
    }
}

#[tactic(auto, using(crate::proofs::EncodingLemmas::printing))]
fn text_of_refusal(alloc: Global, refusal: &Refusal) -> Result<String, AllocError>
    ensures { IfOk result (λ text. string_bytes text ≡ refusal_text refusal.now) }
{
    let value = value_of_refusal(alloc, refusal)?;
    value.to_string(alloc)
}

/// The name of what is wrong with relations: `Nothing` if there is no fault, but nothing of them is
/// left.
fn name_of_relations_fault(fault: &Option<RelationFault>) -> &'static str
    ensures { result.now ≡ name_of_relations_fault fault.now }
{
    match fault {
        Some(fault) => fault.name(),
        None => "Nothing",
    }
}

pub(crate) fn value_of_refusal(alloc: Global, refusal: &Refusal) -> Result<Value, AllocError>
    ensures { IfOk result (λ value. view value ≡ value_of_refusal refusal.now) }
{
    let code = refusal.code();
    let name = refusal.name();
    match refusal {
        Refusal::OtherVersion { have } => {
            json!(in alloc; {"code": code, "have": have.as_str(), "refused": name})
        }
        Refusal::WrongState { state } => {
            json!(in alloc; {"code": code, "refused": name, "state": state.name()})
        }
        Refusal::AfterAhead { handed } => {
            json!(in alloc; {"code": code, "handed": *handed, "refused": name})
        }
        Refusal::BadVersion { fault } => {
            json!(in alloc; {"code": code, "fault": fault.name(), "refused": name})
        }
        Refusal::BadRelations { fault } => {
            json!(in alloc; {
                "code": code,
                "fault": name_of_relations_fault(fault),
                "refused": name
            })
        }
        Refusal::BadListing {
            which,
            paragraph,
            fault,
        } => value_of_listing_fault(alloc, *which, *paragraph, *fault),
        Refusal::BadReport { line } => value_of_report_fault(alloc, *line),
        Refusal::Store { fault } => value_of_store_fault(alloc, *fault),
        _ => value_of_plain(alloc, refusal),
    }
}

/// The object of a refusal that has no more than its number and its name.
fn value_of_plain(alloc: Global, refusal: &Refusal) -> Result<Value, AllocError>
    ensures { IfOk result (λ value. view value ≡ value_of_plain refusal.now) }
{
    json!(in alloc; {"code": refusal.code(), "refused": refusal.name()})
}

/// The object of a fault of the store.
fn value_of_store_fault(alloc: Global, fault: StoreFault) -> Result<Value, AllocError>
    ensures { IfOk result (λ value. view value ≡ value_of_refusal (Store fault)) }
{
    json!(in alloc; {"code": 21u8, "refused": "Store", "store": fault.name()})
}

/// The object of a malformed line of a report.
fn value_of_report_fault(alloc: Global, line: u64) -> Result<Value, AllocError>
    ensures { IfOk result (λ value. view value ≡ value_of_refusal (BadReport line)) }
{
    json!(in alloc; {"code": 16u8, "line": line, "refused": "BadReport"})
}

/// The object of a fault in a paragraph of a list. It names the field if one is missing or
/// malformed.
fn value_of_listing_fault(
    alloc: Global,
    which: ListKind,
    paragraph: u64,
    fault: ListingFault,
) -> Result<Value, AllocError>
    ensures { IfOk result (λ value. view value ≡ value_of_listing_fault which paragraph fault) }
{
    match fault {
        ListingFault::Control { .. } => json!(in alloc; {
            "code": 15u8,
            "fault": fault.name(),
            "paragraph": paragraph,
            "refused": "BadListing",
            "which": which.name()
        }),
        ListingFault::Missing { field } | ListingFault::BadValue { field } => json!(in alloc; {
            "code": 15u8,
            "fault": fault.name(),
            "field": field.name(),
            "paragraph": paragraph,
            "refused": "BadListing",
            "which": which.name()
        }),
    }
}
