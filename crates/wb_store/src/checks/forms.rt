//! The form of a record, as an opening tests it beside what the other tables hold.
ghost use Rattle.std.specs.Prelude.{◌≡◌, ◌≢◌, ◌↔◌, IfOk, IfSome, IfNone, IsTrue, List, Ok};
ghost use Rattle.std.specs.Option.{option_map};
ghost use Rattle.std.specs.String.{string_bytes};
ghost use Rattle.deb_text.specs.Text.{IsTextWithin};
ghost use Rattle.deb_relations.specs.declared.relations.Alternative.{Alternative};
ghost use Rattle.deb_relations.specs.Grammar.{Reads};
ghost use Rattle.deb_relations.specs.Printing.{printed};
ghost use Rattle.deb_relations.specs.Reading.{reading_of};
ghost use Rattle.deb_relations.specs.Reduction.{reduced};
ghost use Rattle.wb_states.specs.Limits.{relations_limit};
ghost use Rattle.wb_states.specs.Machine.{AreWaits, with_words};
ghost use Rattle.wb_states.specs.Lookups.{entry_of};
ghost use Rattle.wb_store.specs.Schemas.{IsKeptIn};
ghost use Rattle.wb_store.specs.Checks.{HasForms, IsFormedRecord, IsGiven, has_pair, words_among};

use crate::format::Format;
use deb_relations::{ArchWords, RelationFault, Relations};
use deb_text::Text;
use std::alloc::{AllocError, Global};
use wb_rows::is_well_formed;
use wb_states::{KeyedRecord, OsCpu, is_arch, is_source};

/// The format of the records, and what the other tables hold, beside which they are tested.
#[derive(Drop)]
pub(super) struct Kept<'a> {
    pub(super) alloc: Global,
    pub(super) format: Format,
    pub(super) archs: &'a [(Text, OsCpu)],
    pub(super) builders: &'a [(Text, Text)],
    pub(super) handed: u64,
}

/// Whether the record, which its schema can keep, has its form, beside what the other tables hold. The only error is that
/// memory ran out.
pub(super) fn is_record_formed(read: &KeyedRecord, kept: &Kept<'_>) -> Result<bool, AllocError>
    requires kept { IsKeptIn kept.now.format read.now.current }
    ensures value { IfOk result (λ is. IsTrue is
        ↔ IsFormedRecord kept.now.format kept.now.archs.now kept.now.builders.now kept.now.handed (entry_of read.now)) }
{
    if !has_forms(read)
        || !is_builder_of(read, kept.builders)
        || !is_given(read.current.take, kept.handed)
    {
        return Ok(false);
    }
    match words_among(kept.archs, &read.arch) {
        Some(words) => are_waits(kept.alloc, &read.arch, words, &read.current.waits),
        None => Ok(false),
    }
}

/// Whether the names and the fields of the record have their forms.
fn has_forms(read: &KeyedRecord) -> bool
    ensures { IsTrue result ↔ HasForms (entry_of read.now) }
{
    is_arch(read.arch.as_str()) && is_source(read.source.as_str()) && is_well_formed(&read.current)
}

/// Whether the holder of the record, if it has one, is one of these builders, for its architecture.
fn is_builder_of(read: &KeyedRecord, builders: &[(Text, Text)]) -> bool
    ensures { IsTrue result ↔ IfSome read.now.current.holder
        (λ holder. IsTrue (has_pair builders.now (holder, read.now.arch))) }
{
    match &read.current.holder {
        Some(holder) => has_pair(builders, holder, &read.arch),
        None => true,
    }
}

/// Whether the builder and the architecture are one of these pairs.
fn has_pair(builders: &[(Text, Text)], builder: &Text, arch: &Text) -> bool
    ensures { result ≡ has_pair builders.now (builder.now, arch.now) }
{
    builders
        .iter()
        .any(|(name, known)| *name == *builder && *known == *arch)
}

/// Whether the take number, if there is one, is from 1 to the greatest that was given.
fn is_given(take: Option<u64>, handed: u64) -> bool
    ensures { IsTrue result ↔ IsGiven handed take }
{
    match take {
        Some(take_number) => 1 <= take_number && take_number <= handed,
        None => true,
    }
}

/// The words of the architecture, if it is one of these.
fn words_among<'a>(archs: &'a [(Text, OsCpu)], name: &Text) -> Option<&'a OsCpu>
    ensures { option_map (λ words. words.now) result ≡ words_among archs.now name.now }
{
    let (_, words) = archs.iter().find(|(arch, _)| *arch == *name)?;
    Some(words)
}

/// Whether these are no waits, or relations as they are printed when they are reduced for the architecture. The only
/// error is that memory ran out.
fn are_waits(alloc: Global, name: &Text, words: &OsCpu, waits: &Text) -> Result<bool, AllocError>
    requires within { IsTextWithin relations_limit waits.now }
    ensures value { IfOk result (λ are. IsTrue are ↔ AreWaits (with_words name.now words.now) waits.now) }
{
    // Few records wait for packages.
    if waits.as_str().is_empty() {
        return Ok(true);
    }
    match relations_in(alloc, waits)? {
        Some(relations) => {
            let text = print_reduced(alloc, &relations, name, words)?;
            Ok(text.as_str() == waits.as_str())
        }
        None => Ok(false),
    }
}

/// The relations that the waits are read as, if they are read. The only error is that memory ran out.
fn relations_in(alloc: Global, waits: &Text) -> Result<Option<Relations>, AllocError>
    ensures value { IfOk result (λ read. IfSome read (λ relations. Reads waits.now relations)) }
    ensures none { IfOk result (λ read. IfNone read ((relations : List (List Alternative))
        → reading_of waits.now ≢ Ok relations)) }
{
    match Relations::parse(alloc, waits.as_str()) {
        Ok(relations) => Ok(Some(relations)),
        Err(RelationFault::Memory) => Err(AllocError),
        Err(_) => Ok(None),
    }
}

/// The relations as they are printed when they are reduced for the architecture. The only error is that memory ran out.
fn print_reduced(
    alloc: Global,
    relations: &Relations,
    name: &Text,
    words: &OsCpu,
) -> Result<String, AllocError>
    ensures value { IfOk result (λ text.
        string_bytes text ≡ printed (reduced (with_words name.now words.now) relations.now)) }
{
    let arch = ArchWords::new(alloc, name.as_str(), words.os.as_str(), words.cpu.as_str())?;
    relations.reduce(alloc, &arch)?.print(alloc)
}
