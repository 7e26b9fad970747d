//! What a merge asks of a reader of paragraphs.
ghost use Rattle.std.specs.Prelude.{◌≡◌, ◌≢◌, ◌⊎◌, ℕ, ◌+◌, ◌<◌, IsTrue, IfOk, IfErr, IfSome, OnOk, Ok, Err, length, option_map, refl};
ghost use Rattle.std.proofs.Common.{sym};
ghost use Rattle.deb_control.specs.declared.fault.ControlFault.{ControlFault};
ghost use Rattle.deb_control.specs.declared.fault.ControlFaultKind.TheVariants.{Memory};
ghost use Rattle.deb_control.specs.Feed.{MayStandAt};
ghost use Rattle.deb_control.specs.Paragraphs.{ReaderState, step, wants_memory};
ghost use Rattle.deb_control.proofs.StandLemmas.{stands-counted, stands-somewhere};
ghost use Rattle.wb_archive.specs.Feeds.{IsFeedBreak};
ghost use Rattle.wb_archive.specs.Reads.{AnswersFrom, MayStandWhere};

use deb_control::{ControlFault, Feed, Fields, OwnedParagraph, Paragraph, Paragraphs};
use std::alloc::Global;
use std::io::BufRead;

/// A reader of the paragraphs of control data, in their order (Debian Policy 5.1). What its bytes are need not be known before
/// they are read: its clauses say of each place at which it may stand after a call where it may have stood before it.
pub trait ReadParagraphs: Drop {
    /// A paragraph that was read.
    type Found: Fields + Drop;

    // The reader may stand at this place among the paragraphs of its bytes, by what it read so far.
    ghost may_stand_at: { Self → ReaderState → Type 0 };

    // How many paragraphs the reader went through.
    ghost passed: { Self → ℕ };

    // The reader broke with this fault when it was read on, which is none of a paragraph: its bytes could not be read.
    ghost breaks: { Self → ControlFault → Type 0 };

    // The next call may take memory.
    ghost may_want_memory: { Self → Type 0 };

    /// The next paragraph, or none at the end. The error is the fault of the paragraph with its number, counted from 1,
    /// that the reader broke, or that memory ran out, for which it was taken; the reader then ends.
    fn next(&mut self, alloc: Global) -> Result<Option<Self::Found>, ControlFault>
        ensures ok { IfOk result (λ found.
            AnswersFrom may_stand_at self.old self.new (Ok (option_map Self.Found.fields found))) }
        ensures refused { IfErr result (λ fault. fault.kind ≢ Memory
            → (breaks self.old fault × (fault.paragraph ≡ passed self.old + 1))
            ⊎ MayStandWhere may_stand_at self.old (λ place. (step place).0 ≡ Err fault)) }
        ensures earlier { OnOk result ((fault : ControlFault) → breaks self.new fault → breaks self.old fault) }
        ensures memory { IfErr result (λ fault. fault.kind ≡ Memory → may_want_memory self.old) };

    // A reader may stand somewhere.
    ghost stands: { (reader : Self) → (place : ReaderState) × may_stand_at reader place };

    // Wherever a reader may stand, it went through so many paragraphs.
    ghost counts: { (reader : Self) (place : ReaderState) → may_stand_at reader place → place.passed ≡ passed reader };
}

impl<'a> ReadParagraphs for Paragraphs<'a> {
    type Found = Paragraph<'a>;

    ghost may_stand_at = { λ it place. it ≡ place };

    ghost passed = { λ it. it.passed };

    ghost breaks = { λ _ _. ⊥ };

    ghost may_want_memory = { λ it. IsTrue (wants_memory it.ahead) };

    ghost stands = { λ it. (it, refl) };

    ghost counts = { λ it place here. λ i. (sym here i).passed };

    fn next(&mut self, alloc: Global) -> Result<Option<Paragraph<'a>>, ControlFault> {
        Paragraphs::next(self, alloc)
    }
}

impl<B: BufRead + Drop> ReadParagraphs for Feed<B> {
    type Found = OwnedParagraph;

    ghost may_stand_at = { MayStandAt };

    ghost passed = { λ feed. feed.passed };

    ghost breaks = { IsFeedBreak };

    ghost may_want_memory = { λ feed. IfSome feed.source.bytes (λ text. 0 < length text) };

    ghost stands = { stands-somewhere };

    ghost counts = { stands-counted };

    fn next(&mut self, alloc: Global) -> Result<Option<OwnedParagraph>, ControlFault> {
        Feed::next(self, alloc)
    }
}
