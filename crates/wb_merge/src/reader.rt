//! The rows of the archive's lists, one after another.
ghost use Rattle.std.specs.Prelude.{◌≡◌, ◌≢◌, [], None, Ok, Err, IfOk, IfErr, IfSome, IsTrue};
ghost use Rattle.deb_control.specs.declared.fault.ControlFaultKind.TheVariants.{Memory as NoMemory};
ghost use Rattle.wb_states.specs.declared.refusal.Refusal.TheVariants.{BadListing, Memory};
ghost use Rattle.wb_states.specs.declared.refusal.ListKind.TheVariants.{Sources, Packages};
ghost use Rattle.wb_states.specs.declared.refusal.ListingFault.TheVariants.{Control};
ghost use Rattle.wb_merge.specs.Rows.{source_paragraph, binary_paragraph};
ghost use Rattle.wb_merge.specs.Offers.{rows_at, HasPassed, GivesRow};
ghost use Rattle.wb_merge.specs.Growth.{ahead_takes_memory};

use crate::rows::{BinaryParagraph, SourceParagraph};
use deb_control::{ControlFaultKind, Paragraphs};
use std::alloc::Global;
use wb_states::{ListKind, ListingFault, Refusal};

/// The first fault of a list, with the number of its paragraph, counted from 1; or that the list ran out of
/// memory there, as the memory fault of control data.
#[derive(Clone, Copy, Debug)]
pub(crate) struct ListFault {
    pub(crate) paragraph: u64,
    pub(crate) fault: ListingFault,
}

/// The refusal of a list for its first fault, or for being out of memory.
pub(crate) fn refuse(which: ListKind, bad: ListFault) -> Refusal
    ensures memory { bad.fault ≡ Control NoMemory → result ≡ Memory }
    ensures refused { bad.fault ≢ Control NoMemory
        → result ≡ BadListing which bad.paragraph bad.fault }
{
    match bad.fault {
        ListingFault::Control {
            kind: ControlFaultKind::Memory,
        } => Refusal::Memory,
        fault => Refusal::BadListing {
            which,
            paragraph: bad.paragraph,
            fault,
        },
    }
}

// `next_binary` differs in the type of the row alone. A function over any type of row was not
// proved to give the first fault.
/// The row of the next paragraph of a Sources list, after so many paragraphs.
pub(crate) fn next_source(
    alloc: Global,
    paragraphs: &mut Paragraphs<'_>,
    passed: u64,
) -> Result<Option<SourceParagraph>, Refusal>
    requires { HasPassed paragraphs.old passed }
    ensures value { IfOk result (λ found. IfSome found (λ row.
        GivesRow source_paragraph Sources paragraphs.old row paragraphs.new)) }
    ensures ended { IfOk result (λ found. found ≡ None
        → rows_at source_paragraph Sources paragraphs.old ≡ Ok []) }
    ensures refused { IfErr result (λ refusal. refusal ≢ Memory
        → rows_at source_paragraph Sources paragraphs.old ≡ Err refusal) }
    // what the paragraph takes memory for
    ensures grown { IfOk result (λ found. IfSome found (λ row.
        IsTrue (ahead_takes_memory paragraphs.old.ahead))) }
    ensures memory { IfErr result (λ refusal. refusal ≡ Memory
        → IsTrue (ahead_takes_memory paragraphs.old.ahead)) }
{
    let bad = match paragraphs.next(alloc) {
        Ok(None) => return Ok(None),
        Ok(Some(paragraph)) => match SourceParagraph::read(alloc, &paragraph) {
            Ok(row) => return Ok(Some(row)),
            Err(fault) => ListFault {
                paragraph: passed + 1,
                fault,
            },
        },
        Err(fault) => ListFault {
            paragraph: fault.paragraph,
            fault: ListingFault::Control { kind: fault.kind },
        },
    };
    Err(refuse(ListKind::Sources, bad))
}

/// The row of the next paragraph of a Packages list, after so many paragraphs.
pub(crate) fn next_binary(
    alloc: Global,
    paragraphs: &mut Paragraphs<'_>,
    passed: u64,
) -> Result<Option<BinaryParagraph>, Refusal>
    requires { HasPassed paragraphs.old passed }
    ensures value { IfOk result (λ found. IfSome found (λ row.
        GivesRow binary_paragraph Packages paragraphs.old row paragraphs.new)) }
    ensures ended { IfOk result (λ found. found ≡ None
        → rows_at binary_paragraph Packages paragraphs.old ≡ Ok []) }
    ensures refused { IfErr result (λ refusal. refusal ≢ Memory
        → rows_at binary_paragraph Packages paragraphs.old ≡ Err refusal) }
    // what the paragraph takes memory for
    ensures grown { IfOk result (λ found. IfSome found (λ row.
        IsTrue (ahead_takes_memory paragraphs.old.ahead))) }
    ensures memory { IfErr result (λ refusal. refusal ≡ Memory
        → IsTrue (ahead_takes_memory paragraphs.old.ahead)) }
{
    let bad = match paragraphs.next(alloc) {
        Ok(None) => return Ok(None),
        Ok(Some(paragraph)) => match BinaryParagraph::read(alloc, &paragraph) {
            Ok(row) => return Ok(Some(row)),
            Err(fault) => ListFault {
                paragraph: passed + 1,
                fault,
            },
        },
        Err(fault) => ListFault {
            paragraph: fault.paragraph,
            fault: ListingFault::Control { kind: fault.kind },
        },
    };
    Err(refuse(ListKind::Packages, bad))
}
