//! The files that a merge names, which are opened before an office is asked.
ghost use Rattle.std.specs.Prelude.{⊤, IfNone, IfOk, IfSome};
ghost use Rattle.wb_lists.specs.Lists.{any_lists, MayRead, MayReadLess};
ghost use Rattle.wb_lists.specs.Lists.{LacksMerge, LacksPart, OpensList, OpensMerge, OpensPart, OpensParts};

use crate::names::PartNames;
use deb_text::Text;
use std::alloc::{AllocError, Global};
use std::io::BufRead;
use wb_archive::ArchList;

// `may_read` says of each name what its file may be read as, and whether it may fail to be opened:
// a merge is answered by a fault of a file only if one of its lists may fail. The program's files
// say nothing of themselves, so any may fail; that nobody makes such a fault up holds because it is
// proved for every `Lists`. A flag like that of a reader would speak of a whole run and not of one
// list.
/// Where the files are that a merge or a report names (this project's own).
pub trait Lists {
    /// What reads the bytes of a file.
    type List: BufRead + Drop;

    // What is known of the files: nothing, if an implementation does not say.
    ghost may_read: { Self → MayRead } = { λ _. any_lists };

    // Whether a read of this opened file may fail: any may, if an implementation does not say.
    ghost breaks: { Self.List → Type 0 } = { λ _. ⊤ };

    /// A reader over the file of this name, of which nothing was read; none if it cannot be opened.
    /// The error is that there is no memory for it.
    fn open(&mut self, alloc: Global, name: &str) -> Result<Option<Self::List>, AllocError>
        ensures value { IfOk result (λ found. IfSome found (λ list.
            OpensList (may_read self.old) name.now (Self.List.remaining list))) }
        ensures err { IfOk result (λ found. IfSome found (λ list.
            breaks list → (may_read self.old).fails name.now)) }
        ensures refused { IfOk result (λ found. IfNone found ((may_read self.old).fails name.now)) }
        ensures kept { MayReadLess (may_read self.old) (may_read self.new) };
}

/// The opened lists of a merge.
#[derive(Drop)]
pub struct MergeLists<R: Drop> {
    /// A reader of the Sources list, of which nothing was read.
    pub sources: R,
    /// The Packages lists.
    pub parts: Vec<ArchList<R>>,
}

/// The list of a part of a merge, opened; none if it cannot be.
fn part_of<L: Lists>(
    alloc: Global,
    lists: &mut L,
    names: &PartNames,
) -> Result<Option<ArchList<L::List>>, AllocError>
    ensures value { IfOk result (λ found. IfSome found (λ list.
        OpensPart (L.may_read lists.old) L.List.remaining names.now list)) }
    ensures refused { IfOk result (λ found. IfNone found ((L.may_read lists.old).fails names.now.packages)) }
    ensures kept { MayReadLess (L.may_read lists.old) (L.may_read lists.new) }
{
    let Some(packages) = lists.open(alloc, names.packages.as_str())? else {
        return Ok(None);
    };
    Ok(Some(ArchList {
        arch: names.arch.clone()?,
        packages,
    }))
}

/// The lists of the parts of a merge, opened in their order; none from the first on that cannot be.
fn parts_of<L: Lists>(
    alloc: Global,
    lists: &mut L,
    names: &[PartNames],
) -> Result<Option<Vec<ArchList<L::List>>>, AllocError>
    ensures value { IfOk result (λ found. IfSome found (λ parts.
        OpensParts (L.may_read lists.old) L.List.remaining names.now parts.items)) }
    ensures refused { IfOk result (λ found. IfNone found (LacksPart (L.may_read lists.old) names.now)) }
    ensures kept { MayReadLess (L.may_read lists.old) (L.may_read lists.new) }
{
    let mut parts = Vec::new(alloc);
    for part_names in names {
        match part_of(alloc, lists, part_names)? {
            Some(part) => parts.push(part)?,
            None => return Ok(None),
        }
    }
    Ok(Some(parts))
}

/// The lists of these names, which are opened in their order, the Sources list first; none if one of them cannot be
/// opened. The error is that there is no memory for them.
pub fn lists_of<L: Lists>(
    alloc: Global,
    lists: &mut L,
    sources: &Text,
    parts: &[PartNames],
) -> Result<Option<MergeLists<L::List>>, AllocError>
    ensures value { IfOk result (λ found. IfSome found (λ opened.
        OpensMerge (L.may_read lists.old) L.List.remaining sources.now parts.now opened)) }
    ensures refused { IfOk result (λ found. IfNone found
        (LacksMerge (L.may_read lists.old) sources.now parts.now)) }
    ensures kept { MayReadLess (L.may_read lists.old) (L.may_read lists.new) }
{
    let Some(sources) = lists.open(alloc, sources.as_str())? else {
        return Ok(None);
    };
    let Some(parts) = parts_of(alloc, lists, parts)? else {
        return Ok(None);
    };
    Ok(Some(MergeLists { sources, parts }))
}
