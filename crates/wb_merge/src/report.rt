//! Reports that say whether what source packages need to be built can be installed.
ghost use Rattle.std.specs.Prelude.{◌≡◌, ◌≢◌, Ok, Err, true, false, IfOk, IfErr, OnOk, IsSome, IsTrue};
ghost use Rattle.std.specs.Option.{option_copied};
ghost use Rattle.std.specs.FinMap as map;
ghost use Rattle.deb_text.specs.Text.{text_cmp};
ghost use Rattle.wb_merge.specs.declared.report.ReportFault.TheVariants.{BadReport, Memory};
ghost use Rattle.wb_merge.specs.Report.{line_of, is_bad_line, with_line, refusal_of_report, report_of, report_takes_memory};

use crate::report_line::parse_line;
use deb_text::{Text, is_blank_line};
use deb_version::Version;
use std::alloc::{AllocError, AllocFailed, Global};
use std::collections::BTreeMap;
use std::marker::Model;
use thiserror::Error;
use wb_states::Refusal;

/// Why a text is no report.
/// Source: this project's own.
#[derive(Clone, Copy, PartialEq, Eq, Debug, Error)]
pub enum ReportFault {
    /// The line of this number, counted from 1, cannot be read, or it names a source package again.
    #[error("line {line} is malformed, or names a source package again")]
    BadReport { line: u64 },
    /// It is out of memory now.
    #[error("out of memory")]
    Memory,
}

impl From<AllocError> for ReportFault {
    ghost from_gives = { λ _ fault. fault ≡ Memory };

    fn from(_error: AllocError) -> ReportFault {
        ReportFault::Memory
    }
}

impl<T: Drop> From<AllocFailed<T>> for ReportFault {
    ghost from_gives = { λ _ fault. fault ≡ Memory };

    fn from(_failed: AllocFailed<T>) -> ReportFault {
        ReportFault::Memory
    }
}

impl From<ReportFault> for Refusal {
    ghost from_gives = { λ fault refusal. refusal ≡ refusal_of_report fault };

    fn from(fault: ReportFault) -> Refusal {
        match fault {
            ReportFault::BadReport { line } => Refusal::BadReport { line },
            ReportFault::Memory => Refusal::Memory,
        }
    }
}

/// What a report says of a source package in one version.
/// Source: this project's own.
#[derive(Debug, Drop)]
pub struct ReportLine {
    /// The name of the source package (Debian Policy 5.6.1).
    pub source: Text,
    /// The source version (Debian Policy 5.6.12).
    pub version: Version,
    /// Why what it needs to be built cannot be installed, at most 1000 bytes and perhaps empty; none if it can.
    pub reason: Option<Text>,
}

/// The lines of a report, each found by its source package. Clauses see them as a map from the names of the
/// source packages.
/// Source: this project's own.
#[derive(Drop)]
pub struct ReportLines {
    alloc: Global,
    lines: BTreeMap<Text, ReportLine>,
}

impl Model for ReportLines {
    ghost use Rattle.std.specs.FinMap as map;
    ghost use Rattle.deb_text.specs.Text.{coded_text};
    ghost use Rattle.wb_merge.specs.Report.{Lines};
    ghost use Rattle.wb_merge.specs.contracts.report.ReportLine as line;

    ghost Value = { Lines };

    ghost coded = { map.code coded_text line.the_row.coded };

    ghost view = { λ report. map.from_entries report.lines.entries };
}

/// Whether a line names a source package again.
fn is_repeated(lines: &BTreeMap<Text, ReportLine>, line: &ReportLine) -> bool
    ensures { result
        ≡ map.contains_key (map.from_entries {R = text_cmp} lines.now.entries) line.now.source }
{
    lines.contains_key(&line.source)
}

/// Adds a line of this number, if it can be read.
fn add_line(
    alloc: Global,
    lines: &mut BTreeMap<Text, ReportLine>,
    line: &str,
    number: u64,
) -> Result<(), ReportFault>
    ensures value { OnOk result (map.from_entries {R = text_cmp} lines.new.entries
        ≡ with_line (map.from_entries {R = text_cmp} lines.old.entries) line.now) }
    ensures ok { OnOk result
        (is_bad_line (map.from_entries {R = text_cmp} lines.old.entries) line.now ≡ false) }
    ensures bad { IfErr result (λ fault. fault ≢ Memory
        → is_bad_line (map.from_entries {R = text_cmp} lines.old.entries) line.now ≡ true) }
    ensures refused { IfErr result (λ fault. fault ≢ Memory → fault ≡ BadReport number) }
    ensures memory { IfErr result (λ fault. fault ≡ Memory → IsSome (line_of line.now)) }
{
    let Some(read) = parse_line(alloc, line)? else {
        if is_blank_line(line.as_bytes()) {
            return Ok(());
        }
        return Err(ReportFault::BadReport { line: number });
    };
    if is_repeated(lines, &read) {
        return Err(ReportFault::BadReport { line: number });
    }
    lines.insert(read.source.clone()?, read)?;
    Ok(())
}

impl ReportLines {
    /// Reads a report. Each of its lines has a source package, a version and `installable`, or `uninstallable`
    /// and a reason, which is the rest of the line, perhaps empty and of at most 1000 bytes; spaces and tabs
    /// round these are no part of them, and a carriage return is no such blank. Lines of spaces and tabs alone
    /// are skipped.
    ///
    /// The error is `BadReport` with the number of the first line that is not so, or that names a source package
    /// that an earlier one names; blank lines are counted too. `Memory` comes only if a line can be read: there
    /// is none for a report of blank lines. The text is left as it is.
    /// Source: Debian Policy 5.6.1 and 5.6.12 for the names and the versions; the rest is this project's own.
    pub fn read(alloc: Global, text: &str) -> Result<ReportLines, ReportFault>
        ensures value { IfOk result (λ report. report_of text.now ≡ Ok report) }
        ensures refused { IfErr result (λ fault. fault ≢ Memory → report_of text.now ≡ Err fault) }
        ensures memory { IfErr result (λ fault. fault ≡ Memory
            → IsTrue (report_takes_memory text.now)) }
    {
        let mut lines = BTreeMap::new(alloc);
        let mut number = 1;
        let mut left = text;
        while let Some((line, rest)) = left.split_once('\n') {
            add_line(alloc, &mut lines, line, number)?;
            number += 1;
            left = rest;
        }
        add_line(alloc, &mut lines, left, number)?;
        Ok(ReportLines { alloc, lines })
    }

    /// The line of the source package, or none. Takes no memory.
    /// Source: this project's own.
    pub fn line(&self, source: &Text) -> Option<&ReportLine>
        ensures value { option_copied result ≡ map.get self.now source.now }
    {
        self.lines.get(source)
    }

    /// The names of the source packages of which there is a line, in their order. The only error is that there
    /// is no memory for them.
    /// Source: this project's own.
    pub fn sources(&self) -> Result<Vec<Text>, AllocError>
        ensures value { IfOk result (λ names. names.items ≡ map.keys self.now) }
    {
        let mut names = Vec::new(self.alloc);
        for name in self.lines.keys() {
            names.push(name.clone()?)?;
        }
        Ok(names)
    }
}
