//! The paragraphs of what a reader gives, piece by piece.
ghost use Rattle.std.specs.Prelude.{◌≡◌, ◌≢◌, ◌<◌, [], true, false, None, Some, Ok, Err, length, IfOk, IfErr, OnOk, IfSome, IsSome, is_err};
ghost use Rattle.deb_control.specs.declared.fault.ControlFaultKind.TheVariants.{Ended, Memory, Read, TooLarge};
ghost use Rattle.deb_control.specs.Source.{Gives, IsCut, TakesSome};
ghost use Rattle.deb_control.specs.Unfinished.{StopsUnfinished};
ghost use Rattle.deb_control.specs.FeedState.{fresh};
ghost use Rattle.deb_control.specs.Feed.{AnswersAs, AnswersFor, FeedMemoryEnds, GivesNext, ReadEnds, RefusesNext};

use crate::owned::OwnedParagraph;
use crate::source::{BoundedReader, RunRead};
use crate::{ControlFault, ControlFaultKind};
use std::alloc::Global;
use std::io::BufRead;
use std::marker::Model;

/// The greatest number of bytes that a feed reads.
const FEED_LIMIT: usize = 2147483648;

/// Reads the next paragraph of a reader; none at the end of its input.
fn read_next<R: BufRead + Drop>(
    source: &mut BoundedReader<R>,
    alloc: Global,
) -> Result<Option<OwnedParagraph>, ControlFaultKind>
    ensures ok { IfOk result (λ found. Gives source.old source.new (GivesNext found)) }
    ensures refused { IfErr result (λ kind. kind ≢ Memory → kind ≢ Read →
        Gives source.old source.new (λ text _. RefusesNext kind text)) }
    ensures read { IfErr result (λ kind. kind ≡ Read → IsCut source.old source.new
        × Gives source.old source.new StopsUnfinished) }
    ensures going { IfErr result (λ kind. kind ≢ Ended) }
    ensures memory { IfErr result (λ kind. kind ≡ Memory →
        IfSome source.old.bytes (λ left. 0 < length left)) }
    // of the reader
    ensures finished { IfOk result (λ found. found ≡ None → source.new.bytes ≡ Some []) }
    ensures fewer { IfOk result (λ found. IsSome found → source.new.room < source.old.room) }
    ensures kept { OnOk result (source.new.failed ≡ source.old.failed) }
    ensures same { IfErr result (λ kind. kind ≢ Read → kind ≢ TooLarge →
        source.new.failed ≡ source.old.failed) }
{
    match source.read_paragraph(alloc)? {
        RunRead::Failed => Err(ControlFaultKind::Read),
        RunRead::End => Ok(None),
        RunRead::Paragraph(bytes) => {
            let paragraph = OwnedParagraph::read(alloc, bytes)?;
            Ok(Some(paragraph))
        }
        RunRead::TooLarge => Err(ControlFaultKind::TooLarge),
    }
}

// No clause of `BufRead` says when a reader fails, so `BoundedReader` has a flag, which its one
// look at the reader sets. What is said of the bytes is said of those that were taken off the
// reader's front, with whatever may be left after them: of a file or a pipe no clause says what a
// look shows, so no clause compares the bytes that were taken with the file. A reader at its end is
// not asked again: a file that grows would give a last line a second half after it was answered.
// std's `read_until` asks again after an interruption, and holds a line of any length.
/// A reader of the paragraphs of control data that another reader gives, in their order (Debian Policy 5.1). It holds one
/// paragraph at a time, reads at most 2147483648 bytes, and ends at the first refusal. A reader that showed no byte is at its end
/// and is not asked again, so a file that grows later ends where it ended.
#[derive(Drop)]
pub struct Feed<R: BufRead + Drop> {
    source: BoundedReader<R>,
    passed: u64,
    ended: bool,
}

impl<R: BufRead + Drop> Model for Feed<R> {
    ghost use Rattle.std.specs.Prelude.{◌≡◌, ◌+◌, ◌≤◌, false};
    ghost use Rattle.deb_control.specs.FeedState.{FeedState, feed_limit};

    ghost Value = { FeedState };

    ghost view = { λ f. record { passed = f.passed; ended = f.ended; source = f.source } };

    ghost invariant = { λ f. f.ended ≡ false → f.passed + f.source.room ≤ feed_limit };
}

impl<R: BufRead + Drop> Feed<R> {
    /// Stands before the first paragraph of what this reader gives. Reads nothing and takes no memory.
    pub fn of(reader: R) -> Self
        ensures { result ≡ fresh (R.remaining reader) }
    {
        Feed {
            source: BoundedReader::new(reader, FEED_LIMIT),
            passed: 0,
            ended: false,
        }
    }

    /// The next paragraph, or none at the end, and again none after it: what
    /// [`Paragraphs`](crate::Paragraphs) answers for the same bytes, however the reader cuts them. They are the bytes that the
    /// reader gave, with whatever it may give later: if they are not known before they are read, as those of a file or a pipe,
    /// the answers are those for the bytes that were taken of it.
    ///
    /// Refuses a paragraph that is not one of Debian Policy 5.1, as `ControlFaultKind` says. `Read` comes if a read failed,
    /// an interrupted one too, or if more than 2147483648 bytes would have to be read, before the paragraph ended, whatever
    /// stands in it; but a paragraph of which more than 4194304 bytes came is `TooLarge`. `Memory` comes if there is no memory
    /// for the paragraph or a line before it; of a paragraph, and of a line, no more than 4194305 bytes are held. After a
    /// refusal each call answers `Ended`, and the feed stays as it is.
    pub fn next(&mut self, alloc: Global) -> Result<Option<OwnedParagraph>, ControlFault>
        // of the bytes, if they are known
        ensures ok { IfOk result (λ found. AnswersAs (Ok found) self.old self.new) }
        ensures refused { IfErr result (λ fault. fault.kind ≢ Memory → fault.kind ≢ Read →
            AnswersAs (Err fault) self.old self.new) }
        ensures read { IfErr result (λ fault. fault.kind ≡ Read → ReadEnds self.old fault self.new) }
        ensures memory { IfErr result (λ fault. fault.kind ≡ Memory →
            FeedMemoryEnds self.old fault self.new) }
        // of the bytes that the reader gave, and whatever may be left after them
        ensures gave { IfOk result (λ found. AnswersFor (Ok found) self.old self.new) }
        ensures refuses { IfErr result (λ fault. fault.kind ≢ Memory → fault.kind ≢ Read →
            AnswersFor (Err fault) self.old self.new) }
        ensures stops { IfErr result (λ fault. fault.kind ≡ Read →
            Gives self.old.source self.new.source StopsUnfinished) }
        ensures finished { IfOk result (λ found. found ≡ None → self.new.source.bytes ≡ Some []) }
        // of all readers
        ensures ended { self.old.ended ≡ true → (self.new ≡ self.old)
            × (result ≡ Err (record { paragraph = self.old.passed; kind = Ended })) }
        ensures only { IfErr result (λ fault. fault.kind ≡ Ended → self.old.ended ≡ true) }
        ensures ends { self.new.ended ≡ is_err result }
        ensures taken { OnOk result (TakesSome self.old.source self.new.source) }
        ensures lost { IfErr result (λ fault. fault.kind ≢ Memory →
            TakesSome self.old.source self.new.source) }
        ensures kept { OnOk result (self.new.source.failed ≡ self.old.source.failed) }
        ensures same { IfErr result (λ fault. fault.kind ≢ Read → fault.kind ≢ TooLarge →
            self.new.source.failed ≡ self.old.source.failed) }
    {
        if self.ended {
            return Err(ControlFault {
                paragraph: self.passed,
                kind: ControlFaultKind::Ended,
            });
        }
        match read_next(&mut self.source, alloc) {
            Ok(None) => Ok(None),
            Ok(Some(paragraph)) => {
                self.passed += 1;
                Ok(Some(paragraph))
            }
            Err(kind) => {
                self.passed += 1;
                self.ended = true;
                Err(ControlFault {
                    paragraph: self.passed,
                    kind,
                })
            }
        }
    }
}
