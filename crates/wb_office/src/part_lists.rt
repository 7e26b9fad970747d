//! The parts of a merge as lists that are to be read, whether these are in memory or readers give
//! them.
ghost use Rattle.std.specs.Prelude.{◌≡◌, ◌++◌, ◌∷◌, [], IfOk, OnOk};
ghost use Rattle.std.specs.FinMap as map;
ghost use Rattle.std.specs.List.{AllZip};
ghost use Rattle.deb_control.specs.Paragraphs.{ReaderState};
ghost use Rattle.wb_states.specs.Machine.{Machine};
ghost use Rattle.wb_archive.specs.Merges.{BeginsAt, IsPartOf};
ghost use Rattle.wb_archive.specs.Readers.{IsFeedOf};
ghost use Rattle.wb_office.specs.PartLists.{Stands};

use deb_control::{Feed, Paragraphs};
use deb_text::Text;
use std::alloc::{AllocError, Global};
use std::io::BufRead;
use wb_archive::{ArchList, PartList};
use wb_states::OsCpu;
use wb_states::command::Part;

/// The words of an architecture, if it is among these.
fn words_of(archs: &[(Text, OsCpu)], arch: &Text) -> Result<Option<OsCpu>, AllocError>
    ensures value { IfOk result (λ words. (machine : Machine) → archs.now ≡ map.entries machine.archs
        → words ≡ map.get machine.archs arch.now) }
{
    for (name, words) in archs {
        if arch == name {
            return Ok(Some(words.clone()?));
        }
    }
    Ok(None)
}

/// A part, with the words that its architecture has among these.
fn part_list<'a>(
    archs: &[(Text, OsCpu)],
    part: &'a Part,
) -> Result<PartList<Paragraphs<'a>>, AllocError>
    ensures value { IfOk result (λ list. (machine : Machine) → archs.now ≡ map.entries machine.archs
        → IsPartOf (BeginsAt Stands) machine list part.now) }
{
    Ok(PartList {
        arch: part.arch.clone()?,
        words: words_of(archs, &part.arch)?,
        packages: Paragraphs::of(part.packages.as_slice()),
    })
}

/// Adds a part after the others.
fn push_part<R: Drop>(lists: &mut Vec<PartList<R>>, list: PartList<R>) -> Result<(), AllocError>
    ensures value { OnOk result (lists.new.items ≡ lists.old.items ++ list ∷ []) }
{
    lists.push(list)?;
    Ok(())
}

/// The parts of a merge in an office that has these architectures. The only error is that there is
/// no memory for them.
pub(crate) fn part_lists<'a>(
    alloc: Global,
    archs: &[(Text, OsCpu)],
    parts: &'a [Part],
) -> Result<Vec<PartList<Paragraphs<'a>>>, AllocError>
    ensures value { IfOk result (λ lists. (machine : Machine) → archs.now ≡ map.entries machine.archs
        → AllZip (IsPartOf (BeginsAt Stands) machine) lists.items parts.now) }
{
    let mut lists = Vec::new(alloc);
    for part in parts {
        let list = part_list(archs, part)?;
        push_part(&mut lists, list)?;
    }
    Ok(lists)
}

/// A list that a reader gives, with the words that its architecture has among these. Nothing is
/// read of it.
fn feed_list<R: BufRead + Drop>(
    archs: &[(Text, OsCpu)],
    list: ArchList<R>,
) -> Result<PartList<Feed<R>>, AllocError>
    ensures value { IfOk result (λ feed. (machine : Machine) → archs.now ≡ map.entries machine.archs
        → IsFeedOf R.remaining machine list feed) }
{
    let ArchList { arch, packages } = list;
    let words = words_of(archs, &arch)?;
    Ok(PartList {
        arch,
        words,
        packages: Feed::of(packages),
    })
}

/// The lists that readers give, in an office that has these architectures. The only error is that
/// there is no memory for them.
pub(crate) fn feed_lists<R: BufRead + Drop>(
    alloc: Global,
    archs: &[(Text, OsCpu)],
    lists: Vec<ArchList<R>>,
) -> Result<Vec<PartList<Feed<R>>>, AllocError>
    ensures value { IfOk result (λ feeds. (machine : Machine) → archs.now ≡ map.entries machine.archs
        → AllZip (IsFeedOf R.remaining machine) lists.items feeds.items) }
{
    let mut feeds = Vec::new(alloc);
    for list in lists {
        let feed = feed_list(archs, list)?;
        push_part(&mut feeds, feed)?;
    }
    Ok(feeds)
}
