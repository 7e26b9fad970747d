//! The texts of commands, each read once.
ghost use Rattle.std.specs.Prelude.{◌≡◌, ◌≢◌, ◌||◌, false, Option, None, Some, Ok, nat_lt, length, OnOk, IfOk, IfErr, if◌then◌else◌};
ghost use Rattle.std.specs.Option.{option_or};
ghost use Rattle.std.specs.Str.{IsUtf8};
ghost use Rattle.deb_version.specs.Syntax.{fault_of};
ghost use Rattle.deb_relations.specs.declared.fault.RelationFault.TheVariants.{Memory as NoMemory};
ghost use Rattle.deb_relations.specs.Reading.{reading_of};
ghost use Rattle.wb_states.specs.declared.refusal.Refusal.{Refusal};
ghost use Rattle.wb_states.specs.declared.refusal.Refusal.TheVariants.{Memory, BadVersion, BadRelations};
ghost use Rattle.wb_states.specs.Limits.{relations_limit};
ghost use Rattle.wb_states.specs.Refusals.{IsOfMachine};
ghost use Rattle.wb_step.specs.Checks.{is_bad_number, is_bad_priority, is_long_text, key_refusal, refusal_of_fault, relations_refusal, version_refusal};

use crate::forms::has_bad_key;
use deb_relations::{RelationFault, Relations};
use deb_text::Text;
use deb_version::{Version, VersionFault};
use std::alloc::Global;
use wb_states::{BUILD_PRIORITY_LIMIT, NOTE_LIMIT, REBUILD_LIMIT, Refusal};

/// The version that a text is.
pub(crate) fn read_version(alloc: Global, text: &Text) -> Result<Version, Refusal>
    ensures value { IfOk result (λ read. read ≡ text.now) }
    ensures ok { OnOk result (fault_of text.now ≡ None) }
    ensures refused { IfErr result (λ refusal. IsOfMachine refusal
        → version_refusal text.now ≡ Some refusal) }
    ensures memory { IfErr result (λ refusal. refusal ≡ Memory → fault_of text.now ≡ None) }
{
    match Version::parse(alloc, text.as_str()) {
        Ok(read) => Ok(read),
        Err(fault) => Err(version_refused(fault)),
    }
}

/// The refusal of a text that gave this fault.
fn version_refused(fault: VersionFault) -> Refusal
    ensures value { result ≡ refusal_of_fault fault }
{
    match fault {
        VersionFault::Memory => Refusal::Memory,
        _ => Refusal::BadVersion { fault },
    }
}

/// The relations that a text is.
pub(crate) fn read_relations(alloc: Global, text: &Text) -> Result<Relations, Refusal>
    ensures value { IfOk result (λ read. reading_of text.now ≡ Ok read) }
    ensures short { OnOk result (nat_lt relations_limit (length text.now) ≡ false) }
    ensures refused { IfErr result (λ refusal. IsOfMachine refusal
        → relations_refusal text.now ≡ Some refusal) }
    ensures memory { IfErr result (λ refusal. refusal ≡ Memory
        → nat_lt relations_limit (length text.now) ≡ false) }
{
    match Relations::parse(alloc, text.as_str()) {
        Ok(read) => Ok(read),
        Err(fault) => Err(relations_refused(fault)),
    }
}

/// The refusal of a text that gave this fault as relations.
fn relations_refused(fault: RelationFault) -> Refusal
    ensures memory { fault ≡ NoMemory → result ≡ Memory }
    ensures others { fault ≢ NoMemory → result ≡ BadRelations (Some fault) }
{
    match fault {
        RelationFault::Memory => Refusal::Memory,
        _ => Refusal::BadRelations { fault: Some(fault) },
    }
}

/// The version of a source package that a command names, if its names have their forms.
pub(crate) fn read_key(
    alloc: Global,
    arch: &Text,
    source: &Text,
    version: &Text,
) -> Result<Version, Refusal>
    ensures value { IfOk result (λ read. read ≡ version.now) }
    ensures ok { OnOk result (key_refusal arch.now source.now version.now ≡ None) }
    ensures refused { IfErr result (λ refusal. IsOfMachine refusal
        → key_refusal arch.now source.now version.now ≡ Some refusal) }
    ensures memory { IfErr result (λ refusal. refusal ≡ Memory
        → key_refusal arch.now source.now version.now ≡ None) }
{
    if has_bad_key(arch, source) {
        return Err(Refusal::BadName);
    }
    read_version(alloc, version)
}

/// The first refusal of a command that a later check refuses: that of what was read before, unless
/// it is out of memory.
pub(crate) fn read_refusal_or<T: Drop>(read: Result<T, Refusal>, later: Refusal) -> Refusal
    ensures value { (first : Option Refusal) → OnOk read (first ≡ None)
        → IfErr read (λ refusal. IsOfMachine refusal → first ≡ Some refusal)
        → IfErr read (λ refusal. refusal ≡ Memory → first ≡ None)
        → option_or first (Some later) ≡ Some result }
    ensures memory { result ≡ Memory → later ≡ Memory }
{
    match read {
        Ok(_) | Err(Refusal::Memory) => later,
        Err(refusal) => refusal,
    }
}

/// Whether a note, a reason or a message, which is UTF-8 as each text is, has more than 1000 bytes.
pub(crate) fn is_long(text: &Text) -> bool
    ensures value { result ≡ is_long_text text.now }
    ensures utf8 { IsUtf8 text.now }
{
    NOTE_LIMIT < text.as_str().len()
}

/// The number of a rebuild as a record keeps it, or none if no rebuild has it.
pub(crate) fn rebuild_number(number: u64) -> Option<u16>
    ensures value { result
        ≡ (if is_bad_number number then None else Some number) }
{
    if number == 0 || number > REBUILD_LIMIT {
        return None;
    }
    Some(number as u16)
}

/// The build priority as a record keeps it, or none if the value is out of range.
pub(crate) fn build_priority(value: i64) -> Option<i16>
    ensures value { result
        ≡ (if is_bad_priority value then None else Some value) }
{
    let limit = i64::from(BUILD_PRIORITY_LIMIT);
    if -limit <= value && value <= limit {
        Some(value as i16)
    } else {
        None
    }
}
