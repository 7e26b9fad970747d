//! What the archive lists for an architecture.
ghost use Rattle.std.specs.Prelude.{◌≡◌, ◌≢◌, Ok, Err, IfOk, IfErr, IsTrue};
ghost use Rattle.std.specs.Option.{option_copied};
ghost use Rattle.std.specs.FinMap as map;
ghost use Rattle.wb_states.specs.declared.refusal.Refusal.TheVariants.{Memory};
ghost use Rattle.deb_text.specs.Text.{text_cmp};
ghost use Rattle.deb_relations.specs.Satisfaction.{no_pairs};
ghost use Rattle.wb_merge.specs.Rows.{binary_rows, source_rows};
ghost use Rattle.wb_merge.specs.Listing.{listing_of};
ghost use Rattle.wb_merge.specs.Offers.{after_rows, with_listed, with_binary};
ghost use Rattle.wb_merge.specs.Growth.{list_takes_memory, lists_take_memory};

use crate::offers::{offer_build, offer_package, offer_source};
use crate::reader::{next_binary, next_source};
use deb_control::Paragraphs;
use deb_relations::{ArchWords, Available};
use deb_text::Text;
use deb_version::Version;
use std::alloc::Global;
use std::collections::BTreeMap;
use std::marker::Model;
use wb_states::Refusal;

/// What the archive lists of a source package: the paragraph of its greatest version, and of equal
/// ones the first (Debian Policy 5.6.12).
#[derive(Debug, Drop)]
pub struct Listed {
    /// The source version.
    pub version: Version,
    /// The priority, empty if the list gives none.
    pub priority: Text,
    /// The section, empty if the list gives none.
    pub section: Text,
    /// Build-Depends and Build-Depends-Arch (Debian Policy 7.7), reduced for the architecture and
    /// printed; none if one of them cannot be read or the text has more than 65536 bytes.
    pub depends: Option<Text>,
}

/// The latest build of a source package on the architecture that the archive has: by its source
/// version, then by the number of its binary-only rebuild.
#[derive(Debug, Drop)]
pub struct Built {
    /// The source version that was built.
    pub version: Version,
    /// The number of the binary-only rebuild, 0 for none.
    pub number: u16,
}

/// What the archive lists for an architecture: its source packages, what was built of them, and
/// which packages can be installed.
#[derive(Drop)]
pub struct Listing {
    pub(crate) listed: BTreeMap<Text, Listed>,
    pub(crate) built: BTreeMap<Text, Built>,
    pub(crate) available: Available,
}

impl Model for Listing {
    ghost use Rattle.std.specs.FinMap as map;
    ghost use Rattle.wb_merge.specs.Listing.{ArchiveListing};
    ghost use Rattle.wb_merge.specs.Coded.{coded_listing};

    ghost Value = { ArchiveListing };

    ghost coded = { coded_listing };

    ghost view = { λ listing. record {
      listed = map.from_entries listing.listed.entries;
      built = map.from_entries listing.built.entries;
      available = listing.available;
    } };
}

/// What a Sources list says is listed for the architecture.
fn read_sources(
    alloc: Global,
    sources: &[u8],
    arch: &ArchWords,
) -> Result<BTreeMap<Text, Listed>, Refusal>
    ensures value { IfOk result (λ listed.
        after_rows (with_listed arch.now) map.empty (source_rows sources.now)
        ≡ Ok (map.from_entries {R = text_cmp} listed.entries)) }
    ensures refused { IfErr result (λ refusal. refusal ≢ Memory
        → source_rows sources.now ≡ Err refusal) }
    ensures memory { IfErr result (λ refusal. refusal ≡ Memory
        → IsTrue (list_takes_memory sources.now)) }
{
    let mut listed = BTreeMap::new(alloc);
    let mut paragraphs = Paragraphs::of(sources);
    let mut passed = 0;
    while let Some(row) = next_source(alloc, &mut paragraphs, passed)? {
        passed += 1;
        offer_source(alloc, &mut listed, arch, row)?;
    }
    Ok(listed)
}

/// What a Packages list says was built on the architecture, and what it says is available.
fn read_packages(
    alloc: Global,
    packages: &[u8],
    arch: &ArchWords,
) -> Result<(BTreeMap<Text, Built>, Available), Refusal>
    ensures value { IfOk result (λ found.
        after_rows (with_binary arch.now) (map.empty, no_pairs) (binary_rows packages.now)
        ≡ Ok (map.from_entries {R = text_cmp} found.0.entries, found.1)) }
    ensures refused { IfErr result (λ refusal. refusal ≢ Memory
        → binary_rows packages.now ≡ Err refusal) }
    ensures memory { IfErr result (λ refusal. refusal ≡ Memory
        → IsTrue (list_takes_memory packages.now)) }
{
    let mut built = BTreeMap::new(alloc);
    let mut available = Available::new(alloc);
    let mut paragraphs = Paragraphs::of(packages);
    let mut passed = 0;
    while let Some(row) = next_binary(alloc, &mut paragraphs, passed)? {
        passed += 1;
        offer_build(&mut built, arch, &row)?;
        offer_package(alloc, &mut available, arch, row)?;
    }
    Ok((built, available))
}

impl Listing {
    /// Reads a Sources list and the Packages list of the architecture, both uncompressed.
    ///
    /// A source package is listed if its `Architecture` has a word that matches the architecture
    /// (Debian Policy 5.6.8 and 11.1.1) and `Extra-Source-Only` is not `yes`. The error is
    /// `BadListing` for the first paragraph of Sources that is no control data, lacks a field or
    /// has one that is malformed, its fields taken in the order Package, Version, Architecture,
    /// Priority, Section; then for the first of Packages, in the order Package, Version,
    /// Architecture, Source. `Memory` may come after a first line that is a field: a list without
    /// paragraphs takes none.
    pub fn read(
        alloc: Global,
        sources: &[u8],
        packages: &[u8],
        arch: &ArchWords,
    ) -> Result<Listing, Refusal>
        ensures value { IfOk result (λ listing.
            listing_of sources.now packages.now arch.now ≡ Ok listing) }
        ensures refused { IfErr result (λ refusal. refusal ≢ Memory
            → listing_of sources.now packages.now arch.now ≡ Err refusal) }
        ensures memory { IfErr result (λ refusal. refusal ≡ Memory
            → IsTrue (lists_take_memory sources.now packages.now)) }
    {
        let listed = read_sources(alloc, sources, arch)?;
        let (built, available) = read_packages(alloc, packages, arch)?;
        Ok(Listing {
            listed,
            built,
            available,
        })
    }

    /// What is listed of the source package, or none. Takes no memory.
    pub fn listed(&self, name: &Text) -> Option<&Listed>
        ensures value { option_copied result ≡ map.get self.now.listed name.now }
    {
        self.listed.get(name)
    }

    /// The latest build of the source package, or none. Takes no memory.
    pub fn built(&self, name: &Text) -> Option<&Built>
        ensures value { option_copied result ≡ map.get self.now.built name.now }
    {
        self.built.get(name)
    }

    /// The packages that can be installed on the architecture. Takes no memory.
    pub fn available(&self) -> &Available
        ensures value { result.now ≡ self.now.available }
    {
        &self.available
    }
}
