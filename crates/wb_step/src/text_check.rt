//! The check of a command's texts, for which nothing of the office is looked up.
ghost use Rattle.std.specs.Prelude.{◌≡◌, ◌≢◌, false, nat_lt, length, [], ◌∷◌, Option, None, Some};
ghost use Rattle.std.specs.Prelude.{IfErr, IfOk, OnOk};
ghost use Rattle.std.specs.Option.{option_or};
ghost use Rattle.std.specs.Str.{IsUtf8};
ghost use Rattle.deb_text.specs.Options.{first_some};
ghost use Rattle.wb_states.specs.declared.command.Command.TheVariants as of;
ghost use Rattle.wb_states.specs.declared.refusal.Refusal.{Refusal as AnyRefusal};
ghost use Rattle.wb_states.specs.declared.refusal.Refusal.TheVariants.{BadName, Memory};
ghost use Rattle.wb_states.specs.Limits.{relations_limit};
ghost use Rattle.wb_states.specs.Refusals.{IsOfMachine};
ghost use Rattle.wb_step.specs.Checks.{is_bad_number, is_bad_priority, key_refusal};
ghost use Rattle.wb_step.specs.Checks.{relations_fault, relations_refusal, version_refusal, when};
ghost use Rattle.wb_step.specs.Step.{lines_said};
ghost use Rattle.wb_step.specs.TextChecks.{ChecksTexts, Tells, report_lines};
ghost use Rattle.wb_step.specs.Utf8.{HasUtf8Texts};

use crate::forms::{
    has_bad_arch, has_bad_builder, has_bad_entry, has_bad_key, has_bad_part, has_bad_request,
    has_bad_take, repeats_arch,
};
use crate::texts::{
    build_priority, is_long, read_refusal_or, read_relations, read_version, rebuild_number,
};
use deb_text::Text;
use std::alloc::Global;
use wb_merge::ReportLines;
use wb_states::{Command, Refusal, command, is_arch};

// An office that is not closed calls this first. So a command whose texts are refused asks no
// table, and is never answered `Store`, and a merge with a malformed name reads no records; what is
// known before memory may run out holds of every office. The step tests the texts again, which
// takes a few tests of names and reads a version or relations a second time: a step without these
// tests would have them as a premise, and its laws would hold of fewer commands.
/// Tests the texts of a command: names, version, relations, number, the lengths of free texts, and
/// the lines of a report, which it hands on, so that a report is read once. Nothing of the office
/// plays a part. The refusal is the first that is true of the texts, in the order of [`Refusal`];
/// `Memory` comes if there is no memory to read the version, the relations or the report, and for
/// no command that another of its texts refuses (this project's own).
pub fn check_texts(alloc: Global, command: &Command) -> Result<Option<ReportLines>, Refusal>
    ensures checks { ChecksTexts command.now result }
    ensures lines { IfOk result (λ lines. lines ≡ report_lines command.now) }
    ensures utf8 { OnOk result (HasUtf8Texts command.now) }
{
    match command {
        Command::Report(report) => Ok(Some(read_report(alloc, report)?)),
        _ => {
            check_other(alloc, command)?;
            Ok(None)
        }
    }
}

/// Tests the texts of a command that is no report.
fn check_other(alloc: Global, command: &Command) -> Result<(), Refusal>
    requires other { report_lines command.now ≡ None }
    ensures checks { ChecksTexts command.now result }
    ensures utf8 { OnOk result (HasUtf8Texts command.now) }
{
    match command {
        Command::AddArch(adds) => {
            let is_bad = has_bad_arch(&adds.name, &adds.os, &adds.cpu);
            unless(Ok(()), is_bad, Refusal::BadName)
        }
        Command::AddBuilder(adds) => {
            let is_bad = has_bad_builder(&adds.name, &adds.arch);
            unless(Ok(()), is_bad, Refusal::BadName)
        }
        Command::RemoveArch(removes) => {
            let is_bad = !is_arch(removes.name.as_str());
            unless(Ok(()), is_bad, Refusal::BadName)
        }
        Command::RemoveBuilder(removes) => {
            let is_bad = has_bad_builder(&removes.name, &removes.arch);
            unless(Ok(()), is_bad, Refusal::BadName)
        }
        Command::Enter(enter) => {
            let is_bad = has_bad_entry(&enter.arch, &enter.source, &enter.priority, &enter.section);
            check_version(alloc, is_bad, &enter.version)
        }
        Command::Next(next) => {
            let is_bad = has_bad_request(&next.arch, &next.builder);
            unless(Ok(()), is_bad, Refusal::BadName)
        }
        Command::Take(take) => {
            let is_bad = has_bad_take(&take.arch, &take.builder, &take.source);
            check_version(alloc, is_bad, &take.version)
        }
        Command::Built(_) | Command::Uploaded(_) | Command::PutBack(_) => Ok(()),
        Command::Waits(waits) => check_waits(alloc, waits),
        Command::Attempted(attempted) => {
            unless(Ok(()), is_long(&attempted.reason), Refusal::TextTooLong)
        }
        Command::GiveBack(back) => check_key(alloc, &back.arch, &back.source, &back.version),
        Command::DepWait(waits) => check_dep_wait(alloc, waits),
        Command::Fail(aside) | Command::NotForUs(aside) => {
            let key = check_key(alloc, &aside.arch, &aside.source, &aside.version);
            unless(key, is_long(&aside.note), Refusal::TextTooLong)
        }
        Command::Rebuild(rebuild) => {
            let key = check_key(alloc, &rebuild.arch, &rebuild.source, &rebuild.version);
            let numbered = unless(key, is_bad_number(rebuild.number), Refusal::BadNumber);
            unless(numbered, is_long(&rebuild.message), Refusal::TextTooLong)
        }
        Command::BuildPriority(priority) => {
            let key = check_key(alloc, &priority.arch, &priority.source, &priority.version);
            unless(key, is_bad_priority(priority.value), Refusal::BadNumber)
        }
        Command::Forget(forget) => {
            check_key(alloc, &forget.arch, &forget.source, &forget.version)
        }
        Command::Merge(merge) => {
            let parts = merge.parts.as_slice();
            let named = unless(Ok(()), has_bad_part(parts), Refusal::BadName);
            unless(named, repeats_arch(parts), Refusal::RepeatedArch)
        }
        Command::Report(_) => unreachable!(),
    }
}

/// Whether no binary-only rebuild has the number.
fn is_bad_number(number: u64) -> bool
    ensures value { result ≡ is_bad_number number }
{
    rebuild_number(number).is_none()
}

/// Whether the value is no build priority.
fn is_bad_priority(value: i64) -> bool
    ensures value { result ≡ is_bad_priority value }
{
    build_priority(value).is_none()
}

/// What was found by checks, and by a later one that takes no memory.
fn unless(checked: Result<(), Refusal>, is_bad: bool, later: Refusal) -> Result<(), Refusal>
    requires { later ≢ Memory }
    ensures tells { (first : Option AnyRefusal) → Tells first checked
        → Tells (option_or first (when is_bad later)) result }
{
    if !is_bad {
        return checked;
    }
    match checked {
        Ok(()) | Err(Refusal::Memory) => Err(later),
        Err(refusal) => Err(refusal),
    }
}

/// Tests names of which one may be malformed, and then a version.
fn check_version(alloc: Global, is_bad: bool, version: &Text) -> Result<(), Refusal>
    ensures tells { Tells (first_some (when is_bad BadName ∷ version_refusal version.now ∷ [])) result }
{
    if is_bad {
        return Err(Refusal::BadName);
    }
    let _ = read_version(alloc, version)?;
    Ok(())
}

/// Tests an architecture, a source package and a version.
fn check_key(alloc: Global, arch: &Text, source: &Text, version: &Text) -> Result<(), Refusal>
    ensures tells { Tells (key_refusal arch.now source.now version.now) result }
{
    check_version(alloc, has_bad_key(arch, source), version)
}

/// Tests relations.
fn check_relations(alloc: Global, relations: &Text) -> Result<(), Refusal>
    ensures ok { OnOk result (relations_fault relations.now ≡ None) }
    ensures short { OnOk result (nat_lt relations_limit (length relations.now) ≡ false) }
    ensures refused { IfErr result (λ refusal. IsOfMachine refusal
        → relations_refusal relations.now ≡ Some refusal) }
    ensures memory { IfErr result (λ refusal. refusal ≡ Memory
        → nat_lt relations_limit (length relations.now) ≡ false) }
{
    let _ = read_relations(alloc, relations)?;
    Ok(())
}

/// Tests the relations for which a holder lets its package wait.
fn check_waits(alloc: Global, waits: &command::Waits) -> Result<(), Refusal>
    ensures checks { ChecksTexts (of.Waits waits.now) result }
{
    check_relations(alloc, &waits.relations)
}

/// Tests a source package and the relations for which it is to wait.
fn check_dep_wait(alloc: Global, waits: &command::DepWait) -> Result<(), Refusal>
    ensures checks { ChecksTexts (of.DepWait waits.now) result }
{
    let key = check_key(alloc, &waits.arch, &waits.source, &waits.version);
    match check_relations(alloc, &waits.relations) {
        Ok(()) => key,
        Err(refusal) => Err(read_refusal_or(key, refusal)),
    }
}

/// Tests the architecture of a report, and reads its lines.
fn read_report(alloc: Global, report: &command::Report) -> Result<ReportLines, Refusal>
    ensures checks { ChecksTexts (of.Report report.now) result }
    ensures value { IfOk result (λ lines. lines ≡ lines_said report.now.text) }
    ensures utf8 { OnOk result (IsUtf8 report.now.text) }
{
    if !is_arch(report.arch.as_str()) {
        return Err(Refusal::BadName);
    }
    Ok(ReportLines::read(alloc, report.text.as_str())?)
}
