//! What a report makes of the record of one source package.
ghost use Rattle.std.specs.Prelude.{◌≡◌, [], Some, IfOk, IfErr};
ghost use Rattle.std.specs.Ordering.{is_eq};
ghost use Rattle.deb_version.specs.Order.{version_cmp};
ghost use Rattle.wb_states.specs.declared.refusal.Refusal.TheVariants.{Memory};
ghost use Rattle.wb_states.specs.declared.state.State.TheVariants.{NeedsBuild, BdUninstallable};
ghost use Rattle.wb_states.specs.Moves.{in_state};
ghost use Rattle.wb_merge.specs.Report.{reported, record_after_report};
ghost use Rattle.wb_merge.specs.Reported.{changed_by_line};

use crate::ReportLine;
use crate::merge::is_same_record;
use crate::record::copied;
use deb_text::Text;
use deb_version::compare;
use std::alloc::Global;
use wb_states::{Record, Refusal, State};

/// The record in BD-Uninstallable, for this reason.
fn uninstallable(alloc: Global, mut current: Record, reason: &Text) -> Result<Record, Refusal>
    ensures value { IfOk result (λ new.
        new ≡ record (in_state BdUninstallable current) { note = reason.now }) }
    ensures refused { IfErr result (λ refusal. refusal ≡ Memory) }
{
    current.enter_state(alloc, State::BdUninstallable);
    current.note = reason.clone()?;
    Ok(current)
}

/// The record in Needs-Build, without a note.
fn installable(alloc: Global, mut current: Record) -> Record
    ensures { result ≡ record (in_state NeedsBuild current) { note = [] } }
{
    current.enter_state(alloc, State::NeedsBuild);
    current.note = Text::new(alloc);
    current
}

/// A record of the version that a line names, after the line with this reason.
fn reported(alloc: Global, current: Record, reason: &Option<Text>) -> Result<Record, Refusal>
    ensures value { IfOk result (λ new. new ≡ reported reason.now current) }
    ensures refused { IfErr result (λ refusal. refusal ≡ Memory) }
{
    match (reason, current.state) {
        (Some(reason), State::NeedsBuild | State::BdUninstallable) => {
            uninstallable(alloc, current, reason)
        }
        (None, State::BdUninstallable) => Ok(installable(alloc, current)),
        _ => Ok(current),
    }
}

/// Whether the line names the version of the record, in the order of versions.
fn names_version(line: &ReportLine, current: &Record) -> bool
    ensures { result ≡ is_eq (version_cmp current.now.version line.now.version) }
{
    compare(&current.version, &line.version).is_eq()
}

/// The record of a source package after the line of a report that names the package, on the architecture of the
/// report. The record that was there is left as it is; the only error is `Memory`.
///
/// A line says nothing of a record of another version in the order of versions. Else `uninstallable` brings
/// Needs-Build to BD-Uninstallable with the reason as its note, and gives a record that is BD-Uninstallable
/// already this note; `installable` brings BD-Uninstallable to Needs-Build and empties the note. All else stays
/// as it is: the other fields, and each record in another state.
/// Source: Debian Policy 5.6.12 for the order of versions; wanna-build's states, and the rest is this project's own.
#[tactic(auto, unfolding(crate::specs::Report::record_after_report))]
pub fn after_report(alloc: Global, current: &Record, line: &ReportLine) -> Result<Record, Refusal>
    ensures value { IfOk result (λ new. new ≡ record_after_report line.now current.now) }
    ensures refused { IfErr result (λ refusal. refusal ≡ Memory) }
{
    let copy = copied(current)?;
    if names_version(line, current) {
        reported(alloc, copy, &line.reason)
    } else {
        Ok(copy)
    }
}

/// The record of a source package after the line of a report that names the package, as [`after_report`] makes it, or
/// none if no field of it differs. The record that was there is left as it is; the only error is `Memory`.
/// Source: this project's own.
pub fn changed_by_report(
    alloc: Global,
    current: &Record,
    line: &ReportLine,
) -> Result<Option<Record>, Refusal>
    ensures value { IfOk result (λ new. new ≡ changed_by_line (Some line.now) current.now) }
    ensures refused { IfErr result (λ refusal. refusal ≡ Memory) }
{
    let new = after_report(alloc, current, line)?;
    if is_same_record(current, &new) {
        return Ok(None);
    }
    Ok(Some(new))
}
