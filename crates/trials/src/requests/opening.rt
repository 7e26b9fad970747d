//! The office that the requests are sent to.

use crate::office::TrialOffice;
use anyhow::{Context, Result};
use deb_text::{Items, Text};
use std::alloc::{AllocError, Global};
use wb_states::Command;
use wb_states::command::{AddArch, AddBuilder, Merge, Part};

/// The builders, each with an architecture for which it was added.
const BUILDERS: [(&str, &str); 4] = [
    ("b1", "amd64"),
    ("b2", "arm64"),
    ("b3", "amd64"),
    ("b3", "arm64"),
];

/// An office with the architectures amd64 and arm64, the builders b1 for the first, b2 for the second and b3 for both, and the
/// records that these lists give.
pub(crate) fn office_of(
    alloc: Global,
    sources: Vec<u8>,
    amd64: Vec<u8>,
    arm64: Vec<u8>,
) -> Result<TrialOffice> {
    let mut office = TrialOffice::empty(alloc)?;
    for name in ["amd64", "arm64"] {
        carry_out(&mut office, &added_arch(alloc, name)?)?;
    }
    for (name, arch) in &BUILDERS {
        carry_out(&mut office, &added_builder(alloc, name, arch)?)?;
    }
    carry_out(&mut office, &merge_of(alloc, sources, amd64, arm64)?)?;
    Ok(office)
}

fn carry_out(office: &mut TrialOffice, command: &Command) -> Result<()> {
    let _ = office
        .apply(command)
        .context("the office cannot be opened")?;
    Ok(())
}

fn added_arch(alloc: Global, name: &str) -> Result<Command, AllocError> {
    Ok(Command::AddArch(AddArch {
        name: Text::copied(alloc, name)?,
        os: Text::copied(alloc, "linux")?,
        cpu: Text::copied(alloc, name)?,
    }))
}

fn added_builder(alloc: Global, name: &str, arch: &str) -> Result<Command, AllocError> {
    Ok(Command::AddBuilder(AddBuilder {
        name: Text::copied(alloc, name)?,
        arch: Text::copied(alloc, arch)?,
    }))
}

fn merge_of(
    alloc: Global,
    sources: Vec<u8>,
    amd64: Vec<u8>,
    arm64: Vec<u8>,
) -> Result<Command, AllocError> {
    let mut parts = Items::new(alloc);
    parts.push(Part {
        arch: Text::copied(alloc, "amd64")?,
        packages: Items::from(amd64),
    })?;
    parts.push(Part {
        arch: Text::copied(alloc, "arm64")?,
        packages: Items::from(arm64),
    })?;
    Ok(Command::Merge(Merge {
        sources: Items::from(sources),
        parts,
    }))
}
