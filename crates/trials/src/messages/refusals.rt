//! The faults of lists and of the store, and the refusals.

use crate::messages::show;
use anyhow::Result;
use deb_control::ControlFaultKind;
use deb_relations::RelationFault;
use deb_text::Text;
use deb_version::VersionFault;
use std::alloc::Global;
use std::io::Write;
use wb_states::{ListField, ListKind, ListingFault, Refusal, State, StoreFault, Table};

/// The tables, whose names the message of a damaged one has.
const TABLES: [Table; 7] = [
    Table::Office,
    Table::Arch,
    Table::Builder,
    Table::SourceRecord,
    Table::ScratchSource,
    Table::ScratchBinary,
    Table::SourceState,
];

/// The states, whose names the message of a refused move has.
const STATES: [State; 10] = [
    State::NeedsBuild,
    State::Building,
    State::Built,
    State::Uploaded,
    State::Installed,
    State::DepWait,
    State::BdUninstallable,
    State::Failed,
    State::NotForUs,
    State::BuildAttempted,
];

pub(crate) fn show_lists<W: Write>(output: &mut W) -> Result<()> {
    let faults = [
        ListingFault::Control {
            kind: ControlFaultKind::NoColon,
        },
        ListingFault::Control {
            kind: ControlFaultKind::Duplicate,
        },
        ListingFault::Missing {
            field: ListField::Package,
        },
        ListingFault::BadValue {
            field: ListField::Version,
        },
    ];
    show("ListingFault", &faults, output)
}

pub(crate) fn show_stores<W: Write>(output: &mut W) -> Result<()> {
    let faults = [
        StoreFault::NotOffice,
        StoreFault::NewerSchema,
        StoreFault::Memory,
        StoreFault::Device,
    ];
    show("StoreFault", &faults, output)?;
    for table in TABLES {
        show(
            "StoreFault",
            &[StoreFault::Damaged { table, row: 12 }],
            output,
        )?;
    }
    Ok(())
}

/// Writes the lines of the refusals that carry nothing.
pub(crate) fn show_plain<W: Write>(output: &mut W) -> Result<()> {
    let refusals = [
        Refusal::UnknownArch,
        Refusal::UnknownBuilder,
        Refusal::WrongArch,
        Refusal::UnknownSource,
        Refusal::QueueEmpty,
        Refusal::NotHeld,
        Refusal::AlreadyThere,
        Refusal::BadName,
        Refusal::BadNumber,
        Refusal::TextTooLong,
        Refusal::Spent,
        Refusal::RepeatedArch,
        Refusal::StillHeld,
        Refusal::Closed,
        Refusal::Memory,
    ];
    show("Refusal", &refusals, output)
}

/// Writes the lines of the refusals that carry something.
pub(crate) fn show_carrying<W: Write>(alloc: Global, output: &mut W) -> Result<()> {
    for state in STATES {
        show("Refusal", &[Refusal::WrongState { state }], output)?;
    }
    let refusals = [
        Refusal::OtherVersion {
            have: Text::copied(alloc, "1:2.0-1")?,
        },
        Refusal::AfterAhead { handed: 0 },
        Refusal::AfterAhead { handed: u64::MAX },
        Refusal::BadVersion {
            fault: VersionFault::UpstreamBad(3),
        },
        Refusal::BadRelations {
            fault: Some(RelationFault::BadVersion(VersionFault::EpochEmpty)),
        },
        Refusal::BadRelations { fault: None },
        Refusal::BadListing {
            which: ListKind::Sources,
            paragraph: 7,
            fault: ListingFault::Control {
                kind: ControlFaultKind::Orphan,
            },
        },
        Refusal::BadListing {
            which: ListKind::Packages,
            paragraph: 8,
            fault: ListingFault::Missing {
                field: ListField::Version,
            },
        },
        Refusal::BadReport { line: 9 },
        Refusal::Store {
            fault: StoreFault::NotOffice,
        },
        Refusal::Store {
            fault: StoreFault::Damaged {
                table: Table::Arch,
                row: 2,
            },
        },
    ];
    show("Refusal", &refusals, output)
}
