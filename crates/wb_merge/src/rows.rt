//! The rows that a merge reads from the archive's lists.
ghost use Rattle.std.specs.Prelude.{◌≡◌, ◌≢◌, Ok, Err, Some, None, not, ◌&&◌, true, false, IsSome};
ghost use Rattle.std.specs.Prelude.{IfOk, IfErr, OnOk, codes};
ghost use Rattle.std.specs.List.{list_any};
ghost use Rattle.deb_control.specs.declared.fault.ControlFaultKind.TheVariants.{Memory};
ghost use Rattle.deb_text.specs.Lines.{words_in};
ghost use Rattle.deb_relations.specs.Arch.{arch_matches};
ghost use Rattle.wb_states.specs.declared.refusal.ListingFault.TheVariants.{Control, BadValue};
ghost use Rattle.wb_states.specs.declared.refusal.ListField.TheVariants.{Source};
ghost use Rattle.deb_text.specs.Text.{is_empty_text};
ghost use Rattle.wb_merge.specs.Rows.{value_named, is_source_text, optional_fault, source_fault};
ghost use Rattle.wb_merge.specs.Rows.{source_row_of, binary_row_of, with_source};
ghost use Rattle.wb_merge.specs.Listing.{is_installable_on, is_listed};
ghost use Rattle.wb_merge.specs.Scratch.{source_columns};

use crate::fields::{architectures, label, package_name, package_version, text, value};
use crate::source::{parse_source, rebuild_number};
use deb_control::Fields;
use deb_relations::{ArchWords, arch_matches};
use deb_text::Text;
use deb_version::Version;
use std::alloc::Global;
use std::marker::Model;
use wb_states::{ListField, ListingFault, SourceRow as KeptSource};

/// Whether a part of a text is a word that matches the architecture.
fn is_match(part: &str, arch: &ArchWords) -> bool
    ensures { result ≡ (not (is_empty_text part.now) && arch_matches part.now arch.now) }
{
    !part.is_empty() && arch_matches(part, arch)
}

/// Whether one of the words matches the architecture.
fn has_match(words: &str, arch: &ArchWords) -> bool
    ensures { result ≡ list_any (λ word. arch_matches word arch.now) (words_in words.now) }
{
    words
        .split(' ')
        .flat_map(|part| part.split('\t'))
        .any(|part| is_match(part, arch))
}

/// Whether a source package of these architectures is listed for the architecture (Debian Policy
/// 5.6.8).
pub(crate) fn is_listed(archs: &Text, is_extra: bool, arch: &ArchWords) -> bool
    ensures { result ≡ (list_any (λ word. arch_matches word arch.now) (words_in archs.now) && not is_extra) }
{
    has_match(archs.as_str(), arch) && !is_extra
}

/// What a merge reads from a paragraph of a Sources list (Debian Policy 5.4).
#[derive(Drop)]
pub(crate) struct SourceParagraph {
    pub(crate) name: Text,
    pub(crate) version: Version,
    archs: Text,
    is_extra: bool,
    pub(crate) priority: Text,
    pub(crate) section: Text,
    pub(crate) depends: Text,
    pub(crate) depends_arch: Text,
}

impl Model for SourceParagraph {
    ghost use Rattle.deb_text.specs.Lines.{words_in};
    ghost use Rattle.wb_merge.specs.Rows.{SourceParagraph};

    ghost Value = { SourceParagraph };

    ghost view = { λ row. record {
      name = row.name;
      version = row.version;
      archs = words_in row.archs;
      is_extra = row.is_extra;
      priority = row.priority;
      section = row.section;
      depends = row.depends;
      depends_arch = row.depends_arch;
    } };
}

/// The columns of the paragraph of this number of a Sources list.
#[tactic(auto, unfolding(crate::specs::Rows::source_fault))]
pub(crate) fn source_columns<F: Fields>(
    alloc: Global,
    fields: &F,
    at: u64,
) -> Result<KeptSource, ListingFault>
    ensures value { IfOk result (λ row. row ≡ source_columns at (F.fields fields.now)) }
    ensures ok { OnOk result (source_fault (F.fields fields.now) ≡ None) }
    ensures refused { IfErr result (λ fault. fault ≢ Control Memory
        → source_fault (F.fields fields.now) ≡ Some fault) }
    ensures memory { IfErr result (λ fault. fault ≡ Control Memory
        → IsSome (value_named (codes "Package") (F.fields fields.now))) }
{
    Ok(KeptSource {
        seq: at,
        name: package_name(alloc, fields)?,
        version: package_version(alloc, fields)?,
        architecture: architectures(alloc, fields)?,
        priority: label(alloc, fields, ListField::Priority)?,
        section: label(alloc, fields, ListField::Section)?,
        extra: text(alloc, fields, "Extra-Source-Only")?.as_str() == "yes",
        depends: text(alloc, fields, "Build-Depends")?,
        depends_arch: text(alloc, fields, "Build-Depends-Arch")?,
    })
}

impl SourceParagraph {
    /// Reads a paragraph of a Sources list.
    #[tactic(auto, unfolding(crate::specs::Rows::source_row_of))]
    pub(crate) fn read<F: Fields>(
        alloc: Global,
        fields: &F,
    ) -> Result<SourceParagraph, ListingFault>
        ensures value { IfOk result (λ row. source_row_of (F.fields fields.now) ≡ Ok row) }
        ensures refused { IfErr result (λ fault. fault ≢ Control Memory
            → source_row_of (F.fields fields.now) ≡ Err fault) }
    {
        let kept = source_columns(alloc, fields, 0)?;
        Ok(SourceParagraph {
            name: kept.name,
            version: kept.version,
            archs: kept.architecture,
            is_extra: kept.extra,
            priority: kept.priority,
            section: kept.section,
            depends: kept.depends,
            depends_arch: kept.depends_arch,
        })
    }
}

impl SourceParagraph {
    /// Whether the row lists its source package for the architecture (Debian Policy 5.6.8).
    #[tactic(auto, unfolding(crate::specs::Listing::is_listed))]
    pub(crate) fn is_listed(&self, arch: &ArchWords) -> bool
        ensures { result ≡ is_listed arch.now self.now }
    {
        is_listed(&self.archs, self.is_extra, arch)
    }
}

/// What a merge reads from a paragraph of a Packages list (Debian Policy 5.3).
#[derive(Drop)]
pub(crate) struct BinaryParagraph {
    pub(crate) name: Text,
    pub(crate) version: Version,
    pub(crate) arch: Text,
    pub(crate) source: Option<Text>,
    pub(crate) source_version: Option<Version>,
    pub(crate) number: u16,
    pub(crate) provides: Text,
}

impl Model for BinaryParagraph {
    ghost use Rattle.std.specs.Prelude.{unwrap_or};
    ghost use Rattle.wb_merge.specs.Rows.{BinaryParagraph};

    ghost Value = { BinaryParagraph };

    ghost view = { λ row. record {
      name = row.name;
      version = row.version;
      arch = row.arch;
      source = unwrap_or row.source row.name;
      source_version = unwrap_or row.source_version row.version;
      number = row.number;
      provides = row.provides;
    } };
}

/// The row of a package whose source this text names.
#[tactic(auto, unfolding(crate::specs::Rows::is_source_text))]
fn with_source(
    alloc: Global,
    name: Text,
    version: Version,
    arch: Text,
    source: &str,
    provides: Text,
) -> Result<BinaryParagraph, ListingFault>
    ensures value { IfOk result (λ row.
        row ≡ record (with_source name version arch (Some source.now)) { provides = provides }) }
    ensures ok { OnOk result (is_source_text source.now ≡ true) }
    ensures bad { IfErr result (λ fault. fault ≢ Control Memory
        → is_source_text source.now ≡ false) }
    ensures refused { IfErr result (λ fault. fault ≢ Control Memory → fault ≡ BadValue Source) }
    ensures memory { IfErr result (λ fault. fault ≡ Control Memory
        → is_source_text source.now ≡ true) }
{
    let (source, source_version) = parse_source(alloc, source)?;
    let number = if source_version.is_some() {
        rebuild_number(version.text())
    } else {
        0
    };
    Ok(BinaryParagraph {
        name,
        version,
        arch,
        source: Some(source),
        source_version,
        number,
        provides,
    })
}

impl BinaryParagraph {
    /// Reads a paragraph of a Packages list.
    #[tactic(auto, unfolding(crate::specs::Rows::binary_row_of, crate::specs::Rows::binary_fault, crate::specs::Rows::optional_fault))]
    pub(crate) fn read<F: Fields>(
        alloc: Global,
        fields: &F,
    ) -> Result<BinaryParagraph, ListingFault>
        ensures value { IfOk result (λ row. binary_row_of (F.fields fields.now) ≡ Ok row) }
        ensures refused { IfErr result (λ fault. fault ≢ Control Memory
            → binary_row_of (F.fields fields.now) ≡ Err fault) }
        // what takes memory
        ensures there { OnOk result (IsSome (value_named (codes "Package") (F.fields fields.now))) }
        ensures memory { IfErr result (λ fault. fault ≡ Control Memory
            → IsSome (value_named (codes "Package") (F.fields fields.now))) }
    {
        let name = package_name(alloc, fields)?;
        let version = package_version(alloc, fields)?;
        let arch = architectures(alloc, fields)?;
        let source = value(alloc, fields, "Source")?;
        let provides = text(alloc, fields, "Provides")?;
        match source {
            Some(source) => with_source(alloc, name, version, arch, source.as_str(), provides),
            None => Ok(BinaryParagraph {
                name,
                version,
                arch,
                source: None,
                source_version: None,
                number: 0,
                provides,
            }),
        }
    }

    /// Whether the row is a package that can be installed on the architecture (Debian Policy
    /// 5.6.8).
    #[tactic(auto, unfolding(crate::specs::Listing::is_installable_on))]
    pub(crate) fn is_installable_on(&self, arch: &ArchWords) -> bool
        ensures { result ≡ is_installable_on arch.now self.now }
    {
        self.arch == arch.name || self.arch.as_str() == "all"
    }

    /// The source package that it was built from.
    pub(crate) fn source(&self) -> &Text
        ensures { result.now ≡ self.now.source }
    {
        match &self.source {
            Some(source) => source,
            None => &self.name,
        }
    }

    /// The version of the source package that it was built from.
    pub(crate) fn source_version(&self) -> &Version
        ensures { result.now ≡ self.now.source_version }
    {
        match &self.source_version {
            Some(version) => version,
            None => &self.version,
        }
    }
}
