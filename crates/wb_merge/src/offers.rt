//! What a row of the archive's lists adds to a listing.
ghost use Rattle.std.specs.Prelude.{◌≡◌, IfOk, IfErr, OnOk};
ghost use Rattle.std.specs.List.{fold};
ghost use Rattle.std.specs.FinMap as map;
ghost use Rattle.deb_relations.specs.declared.arch.ArchWords.{ArchWords as Arch};
ghost use Rattle.deb_text.specs.Text.{text_cmp};
ghost use Rattle.wb_states.specs.declared.refusal.Refusal.TheVariants.{Memory};
ghost use Rattle.wb_merge.specs.Listing.{printed_for, joined, both_joined, depends_of, listed_as};
ghost use Rattle.wb_merge.specs.Listing.{listed_with, listed_cmp, built_as, built_cmp, is_better};
ghost use Rattle.wb_merge.specs.Listing.{with_offer};
ghost use Rattle.wb_merge.specs.Offers.{with_listed, with_build, with_package};

use crate::rows::{BinaryParagraph, SourceParagraph};
use crate::{Built, Listed};
use deb_relations::{ArchWords, Available, Provided, RELATIONS_LIMIT, RelationFault, Relations};
use deb_text::Text;
use deb_version::compare;
use std::alloc::{AllocError, Global};
use std::collections::BTreeMap;
use wb_states::Refusal;

/// Relations reduced for the architecture and printed, if the text can be read.
#[tactic(auto, unfolding(crate::specs::Listing::printed_for))]
fn printed_for(alloc: Global, text: &Text, arch: &ArchWords) -> Result<Option<Text>, Refusal>
    ensures value { IfOk result (λ printed. printed ≡ printed_for arch.now text.now) }
    ensures refused { IfErr result (λ refusal. refusal ≡ Memory) }
{
    match Relations::parse(alloc, text.as_str()) {
        Ok(relations) => {
            let left = relations.reduce(alloc, arch)?;
            Ok(Some(Text::from(left.print(alloc)?)))
        }
        Err(RelationFault::Memory) => Err(Refusal::Memory),
        Err(_) => Ok(None),
    }
}

/// Two texts, with a comma between them if neither is empty.
fn joined(alloc: Global, first: Text, second: Text) -> Result<Text, AllocError>
    ensures { IfOk result (λ text. text ≡ joined first second) }
{
    if first.as_str().is_empty() {
        return Ok(second);
    }
    if second.as_str().is_empty() {
        return Ok(first);
    }
    let mut text = String::from_str(alloc, first.as_str())?;
    text.push_str(", ")?;
    text.push_str(second.as_str())?;
    Ok(Text::from(text))
}

/// Two texts of relations reduced for the architecture, printed and joined, if both can be read.
pub(crate) fn both_joined(
    alloc: Global,
    depends: &Text,
    depends_arch: &Text,
    arch: &ArchWords,
) -> Result<Option<Text>, Refusal>
    ensures value { IfOk result (λ joined. joined
        ≡ both_joined (printed_for arch.now depends.now) (printed_for arch.now depends_arch.now)) }
    ensures refused { IfErr result (λ refusal. refusal ≡ Memory) }
{
    let Some(first) = printed_for(alloc, depends, arch)? else {
        return Ok(None);
    };
    let Some(second) = printed_for(alloc, depends_arch, arch)? else {
        return Ok(None);
    };
    let text = joined(alloc, first, second)?;
    if text.as_str().len() > RELATIONS_LIMIT {
        return Ok(None);
    }
    Ok(Some(text))
}

/// What the source package needs to be built on the architecture, if that can be read.
#[tactic(auto, unfolding(crate::specs::Listing::depends_of))]
fn depends_of(
    alloc: Global,
    row: &SourceParagraph,
    arch: &ArchWords,
) -> Result<Option<Text>, Refusal>
    ensures value { IfOk result (λ depends. depends ≡ depends_of arch.now row.now) }
    ensures refused { IfErr result (λ refusal. refusal ≡ Memory) }
{
    both_joined(alloc, &row.depends, &row.depends_arch, arch)
}

/// What the row lists, with what its source package needs to be built.
fn listed_with(depends: Option<Text>, row: SourceParagraph) -> Listed
    ensures value { result ≡ listed_with depends row }
{
    Listed {
        version: row.version,
        priority: row.priority,
        section: row.section,
        depends,
    }
}

/// Whether the row is of a later version than what is listed of its source package so far.
fn is_later_source(listed: &BTreeMap<Text, Listed>, row: &SourceParagraph) -> bool
    ensures { (arch : Arch) → result
        ≡ is_better listed_cmp
        (map.get (map.from_entries {R = text_cmp} listed.now.entries) row.now.name)
        (listed_as arch row.now) }
{
    match listed.get(&row.name) {
        Some(best) => compare(&row.version, &best.version).is_gt(),
        None => true,
    }
}

/// Offers a row of Sources to what is listed: of the versions of a source package the greatest is
/// kept, and of equal ones the first.
pub(crate) fn offer_source(
    alloc: Global,
    listed: &mut BTreeMap<Text, Listed>,
    arch: &ArchWords,
    row: SourceParagraph,
) -> Result<(), Refusal>
    ensures value { OnOk result (map.from_entries {R = text_cmp} listed.new.entries
        ≡ with_listed arch.now (map.from_entries {R = text_cmp} listed.old.entries) row) }
    ensures refused { IfErr result (λ refusal. refusal ≡ Memory) }
{
    if !row.is_listed(arch) {
        return Ok(());
    }
    if !is_later_source(listed, &row) {
        return Ok(());
    }
    let depends = depends_of(alloc, &row, arch)?;
    let name = row.name.clone()?;
    listed.insert(name, listed_with(depends, row))?;
    Ok(())
}

/// Whether the row is of a later build than what is built of its source package so far.
fn is_later_build(built: &BTreeMap<Text, Built>, row: &BinaryParagraph) -> bool
    ensures { result
        ≡ is_better built_cmp
        (map.get (map.from_entries {R = text_cmp} built.now.entries) row.now.source)
        (built_as row.now) }
{
    match built.get(row.source()) {
        Some(best) => compare(row.source_version(), &best.version)
            .then(row.number.cmp(&best.number))
            .is_gt(),
        None => true,
    }
}

/// Offers a row of Packages to what is built: of the builds of a source package the latest is kept,
/// and of equal ones the first.
pub(crate) fn offer_build(
    built: &mut BTreeMap<Text, Built>,
    arch: &ArchWords,
    row: &BinaryParagraph,
) -> Result<(), Refusal>
    ensures value { OnOk result (map.from_entries {R = text_cmp} built.new.entries
        ≡ with_build arch.now (map.from_entries {R = text_cmp} built.old.entries) row.now) }
    ensures refused { IfErr result (λ refusal. refusal ≡ Memory) }
{
    if arch.name != row.arch {
        return Ok(());
    }
    if !is_later_build(built, row) {
        return Ok(());
    }
    let found = Built {
        version: row.source_version().clone()?,
        number: row.number,
    };
    built.insert(row.source().clone()?, found)?;
    Ok(())
}

/// Adds the names that a package provides to what is available.
fn offer_provided(available: &mut Available, provided: Vec<Provided>) -> Result<(), AllocError>
    ensures value { OnOk result (available.new ≡ fold with_offer available.old provided.items) }
{
    for given in provided {
        let name = given.name;
        available.provide(name.as_str(), given.version)?;
    }
    Ok(())
}

/// Offers a row of Packages to what is available: its package, and the names that this provides.
#[tactic(auto, unfolding(crate::specs::Offers::with_package))]
pub(crate) fn offer_package(
    alloc: Global,
    available: &mut Available,
    arch: &ArchWords,
    row: BinaryParagraph,
) -> Result<(), Refusal>
    ensures value { OnOk result (available.new ≡ with_package arch.now available.old row) }
    ensures refused { IfErr result (λ refusal. refusal ≡ Memory) }
{
    if !row.is_installable_on(arch) {
        return Ok(());
    }
    let provided = Provided::all(alloc, row.provides.as_str())?;
    let name = row.name;
    available.add(name.as_str(), row.version)?;
    offer_provided(available, provided)?;
    Ok(())
}
