//! Why a merge stops, and why a list is refused.
ghost use Rattle.std.specs.Prelude.{◌≡◌};
ghost use Rattle.std.specs.Result.{result_map_both};
ghost use Rattle.wb_archive.specs.Faults.{IfBad, refusal_of};
ghost use Rattle.wb_archive.specs.declared.fault.BadList.{BadList};
ghost use Rattle.wb_archive.specs.declared.fault.ReadFault.TheVariants.{Bad};
ghost use Rattle.wb_archive.specs.declared.fault.MergeFault.TheVariants.{Memory as NoMemory, Tables as OfTables};

use std::alloc::AllocError;
use wb_states::{ListKind, ListingFault, Refusal};

/// The first fault of a list.
#[derive(Clone, Copy, Debug)]
pub struct BadList {
    /// The list.
    pub which: ListKind,
    /// The number of the paragraph, counted from 1.
    pub paragraph: u64,
    /// What is wrong with it.
    pub fault: ListingFault,
}

impl BadList {
    /// The refusal of a merge for this fault.
    pub fn refusal(self) -> Refusal
        ensures value { result ≡ refusal_of self }
    {
        Refusal::BadListing {
            which: self.which,
            paragraph: self.paragraph,
            fault: self.fault,
        }
    }
}

/// Why a merge stops before its end; `F` is a fault of the tables.
#[derive(Debug, Drop)]
pub enum MergeFault<F: Drop> {
    /// Memory ran out, or a list has 2^63 - 1 paragraphs or more, which cannot all be numbered. Each call on the tables
    /// succeeded.
    Memory,
    /// A call on the tables failed with this fault, and each call before it succeeded.
    Tables(F),
}

impl<F: Drop> From<AllocError> for MergeFault<F> {
    ghost from_gives = { λ _ fault. fault ≡ NoMemory };

    fn from(_error: AllocError) -> MergeFault<F> {
        MergeFault::Memory
    }
}

/// What a call on the tables answered, with its fault as that of a merge.
pub(crate) fn asked<X: Drop, F: Drop>(answer: Result<X, F>) -> Result<X, MergeFault<F>>
    ensures { result ≡ result_map_both (λ x. x) OfTables answer }
{
    match answer {
        Ok(found) => Ok(found),
        Err(fault) => Err(MergeFault::Tables(fault)),
    }
}

/// Why a paragraph of a list was not read.
#[derive(Clone, Copy, Debug)]
pub(crate) enum ReadFault {
    /// Memory ran out.
    Memory,
    /// The list is refused.
    Bad(BadList),
}

/// Why the paragraph of a list was not read, if it was refused so.
pub(crate) fn read_fault(refusal: Refusal) -> ReadFault
    ensures bad { (bad : BadList) → refusal ≡ refusal_of bad → result ≡ Bad bad }
    ensures is { IfBad result (λ bad. refusal ≡ refusal_of bad) }
{
    match refusal {
        Refusal::BadListing {
            which,
            paragraph,
            fault,
        } => ReadFault::Bad(BadList {
            which,
            paragraph,
            fault,
        }),
        _ => ReadFault::Memory,
    }
}
