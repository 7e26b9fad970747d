//! What a merge or a report changed, as texts of a journal.
ghost use Rattle.std.specs.Prelude.{◌≡◌, ◌++◌, IfOk, OnOk};
ghost use Rattle.std.specs.FinMap as finite;
ghost use Rattle.std.specs.String.{string_bytes};
ghost use Rattle.json.specs.Print.{quoted};
ghost use Rattle.deb_text.specs.Text.{text_cmp};
ghost use Rattle.wb_journal.specs.Changes.{change_text, changes_of, changes_text, named_text};
ghost use Rattle.wb_journal.specs.Changes.{part_text, report_object_text, state_text, version_text};

use deb_text::Text;
use deb_version::Version;
use itoa::Buffer;
use serde_json::Value;
use std::alloc::{AllocError, Global};
use std::collections::BTreeMap;
use wb_merge::{ArchChanges, RecordChange};
use wb_states::State;
use wb_states::command::Report;

/// Appends the JSON string of a text.
fn push_quoted(alloc: Global, out: &mut String, text: &str) -> Result<(), AllocError>
    ensures ok { OnOk result (string_bytes out.new ≡ string_bytes out.old ++ quoted text.now) }
{
    out.push_str(Value::try_from_str(alloc, text)?.to_string(alloc)?.as_str())?;
    Ok(())
}

/// Appends the name of a state, or `null`.
fn push_state(alloc: Global, out: &mut String, state: Option<State>) -> Result<(), AllocError>
    ensures ok { OnOk result (string_bytes out.new ≡ string_bytes out.old ++ state_text state) }
{
    match state {
        Some(state) => push_quoted(alloc, out, state.name()),
        None => {
            out.push_str("null")?;
            Ok(())
        }
    }
}

/// Appends a version, or `null`.
fn push_version(
    alloc: Global,
    out: &mut String,
    version: &Option<Version>,
) -> Result<(), AllocError>
    ensures ok { OnOk result (string_bytes out.new ≡ string_bytes out.old ++ version_text version.now) }
{
    match version {
        Some(version) => push_quoted(alloc, out, version.text()),
        None => {
            out.push_str("null")?;
            Ok(())
        }
    }
}

/// Appends what became of the record of a source package.
#[tactic(auto, unfolding(crate::specs::Changes::change_text))]
fn push_change(
    alloc: Global,
    out: &mut String,
    name: &Text,
    change: &RecordChange,
) -> Result<(), AllocError>
    ensures ok { OnOk result (string_bytes out.new
        ≡ string_bytes out.old ++ change_text (name.now, change.now)) }
{
    out.push_str("[")?;
    push_quoted(alloc, out, name.as_str())?;
    out.push_str(",")?;
    push_state(alloc, out, change.before)?;
    out.push_str(",")?;
    push_state(alloc, out, change.after)?;
    out.push_str(",")?;
    push_version(alloc, out, &change.version)?;
    out.push_str("]")?;
    Ok(())
}

/// Appends what became of the records of an architecture, by the names of the source packages, with
/// a comma between each two.
fn push_changes(
    alloc: Global,
    out: &mut String,
    changes: &BTreeMap<Text, RecordChange>,
) -> Result<(), AllocError>
    ensures ok { OnOk result (string_bytes out.new ≡ string_bytes out.old
        ++ named_text (finite.entries (finite.from_entries {R = text_cmp} changes.now.entries))) }
{
    let mut others = changes.iter();
    if let Some((first, change)) = others.next() {
        push_change(alloc, out, first, change)?;
        for (name, change) in others {
            out.push_str(",")?;
            push_change(alloc, out, name, change)?;
        }
    }
    Ok(())
}

/// Appends the member with the changes of the architecture among these, if they are known.
fn push_known(
    alloc: Global,
    out: &mut String,
    arch: &Text,
    changes: &[ArchChanges],
) -> Result<(), AllocError>
    ensures ok { OnOk result (string_bytes out.new
        ≡ string_bytes out.old ++ changes_text (changes_of changes.now arch.now)) }
{
    for of_arch in changes {
        if arch == &of_arch.arch {
            out.push_str(",\"changes\":[")?;
            push_changes(alloc, out, &of_arch.records)?;
            out.push_str("]")?;
            return Ok(());
        }
    }
    Ok(())
}

/// Appends the object of a part of a merge, with what it changed, if that is known.
#[tactic(auto, unfolding(crate::specs::Changes::part_text))]
pub(crate) fn push_part(
    alloc: Global,
    out: &mut String,
    arch: &Text,
    changes: &[ArchChanges],
) -> Result<(), AllocError>
    ensures ok { OnOk result (string_bytes out.new ≡ string_bytes out.old ++ part_text changes.now arch.now) }
{
    out.push_str("{\"arch\":")?;
    push_quoted(alloc, out, arch.as_str())?;
    push_known(alloc, out, arch, changes)?;
    out.push_str("}")?;
    Ok(())
}

/// The object of a report, with what it changed, if that is known.
#[tactic(auto, unfolding(crate::specs::Changes::report_object_text))]
pub(crate) fn report_json(
    alloc: Global,
    report: &Report,
    changes: &[ArchChanges],
) -> Result<String, AllocError>
    ensures value { IfOk result (λ text. string_bytes text ≡ report_object_text changes.now report.now) }
{
    let mut out = String::from_str(alloc, "{\"arch\":")?;
    push_quoted(alloc, &mut out, report.arch.as_str())?;
    out.push_str(",\"bytes\":")?;
    out.push_str(Buffer::new().format(report.text.as_str().len()))?;
    push_known(alloc, &mut out, &report.arch, changes)?;
    out.push_str(",\"command\":\"report\"}")?;
    Ok(out)
}
