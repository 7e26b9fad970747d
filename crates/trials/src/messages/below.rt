//! The faults of versions, control data, relations, words, reports, requests and lines of keys, and
//! the errors of commits.

use crate::messages::show;
use anyhow::Result;
use deb_control::{ControlFault, ControlFaultKind};
use deb_relations::RelationFault;
use deb_version::VersionFault;
use sqlite::{Error, ErrorCode};
use std::io::Write;
use wb_keys::{BadLine, LineFault};
use wb_merge::ReportFault;
use wb_sql::CommitError;
use wb_streams::Fault;
use wb_words::WordsFault;

pub(crate) fn show_versions<W: Write>(output: &mut W) -> Result<()> {
    let faults = [
        VersionFault::Empty,
        VersionFault::EpochEmpty,
        VersionFault::EpochNotNumber,
        VersionFault::EpochTooLarge,
        VersionFault::UpstreamEmpty,
        VersionFault::UpstreamBad(0),
        VersionFault::UpstreamBad(3),
        VersionFault::RevisionEmpty,
        VersionFault::RevisionBad(999),
        VersionFault::TooLong,
        VersionFault::Memory,
    ];
    show("VersionFault", &faults, output)
}

pub(crate) fn show_control<W: Write>(output: &mut W) -> Result<()> {
    let kinds = [
        ControlFaultKind::TooLarge,
        ControlFaultKind::NotUtf8,
        ControlFaultKind::Orphan,
        ControlFaultKind::NoColon,
        ControlFaultKind::BadName,
        ControlFaultKind::Duplicate,
        ControlFaultKind::Read,
        ControlFaultKind::Memory,
        ControlFaultKind::Ended,
    ];
    show("ControlFaultKind", &kinds, output)?;
    let faults = [
        ControlFault {
            paragraph: 1,
            kind: ControlFaultKind::NoColon,
        },
        ControlFault {
            paragraph: u64::MAX,
            kind: ControlFaultKind::Ended,
        },
    ];
    show("ControlFault", &faults, output)
}

pub(crate) fn show_relations<W: Write>(output: &mut W) -> Result<()> {
    let faults = [
        RelationFault::BadName,
        RelationFault::BadOperator,
        RelationFault::BadVersion(VersionFault::Empty),
        RelationFault::BadVersion(VersionFault::RevisionBad(4)),
        RelationFault::Mixed,
        RelationFault::Unclosed,
        RelationFault::EmptyAlternative,
        RelationFault::Stray(0),
        RelationFault::Stray(65535),
        RelationFault::TooLong,
        RelationFault::Memory,
    ];
    show("RelationFault", &faults, output)
}

pub(crate) fn show_words<W: Write>(output: &mut W) -> Result<()> {
    show(
        "WordsFault",
        &[WordsFault::NoCommand, WordsFault::Memory],
        output,
    )
}

pub(crate) fn show_reports<W: Write>(output: &mut W) -> Result<()> {
    let faults = [ReportFault::BadReport { line: 7 }, ReportFault::Memory];
    show("ReportFault", &faults, output)
}

pub(crate) fn show_commits<W: Write>(output: &mut W) -> Result<()> {
    let errors = [
        CommitError::Memory,
        CommitError::InDoubt(Error::SqliteFailure(ErrorCode::DiskFull)),
    ];
    show("CommitError", &errors, output)
}

pub(crate) fn show_requests<W: Write>(output: &mut W) -> Result<()> {
    let faults = [
        Fault::HeadTooLarge,
        Fault::BadHead,
        Fault::FromBrowser,
        Fault::NoKey,
        Fault::NoRoute,
        Fault::WrongMethod,
        Fault::NotAllowed,
        Fault::BadPath,
        Fault::NotSupported,
        Fault::NoLength,
        Fault::BadLength,
        Fault::BodyTooLarge,
        Fault::BodyCut,
        Fault::BadBody,
        Fault::NoList,
    ];
    show("Fault", &faults, output)
}

pub(crate) fn show_keys<W: Write>(output: &mut W) -> Result<()> {
    let faults = [
        LineFault::NotText,
        LineFault::BadName,
        LineFault::BadHash,
        LineFault::NoRight,
        LineFault::UnknownRight,
        LineFault::BadBuilder,
        LineFault::BadArch,
        LineFault::TooMany,
        LineFault::NameTwice,
        LineFault::HashTwice,
        LineFault::AnyoneWithHash,
        LineFault::AnyoneTwice,
    ];
    show("LineFault", &faults, output)?;
    let lines = [
        BadLine {
            line: 1,
            fault: LineFault::BadHash,
        },
        BadLine {
            line: u64::MAX,
            fault: LineFault::NotText,
        },
    ];
    show("BadLine", &lines, output)
}
