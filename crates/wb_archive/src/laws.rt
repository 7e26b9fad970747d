//! Laws of a merge of an archive's lists, each on a function that does nothing.
ghost use Rattle.std.specs.Prelude.{◌≡◌, ◌⊎◌, ◌<◌, ℕ, true, length, List, Option, None, Some};
ghost use Rattle.std.specs.List.{AllByRecursion, AllZip};
ghost use Rattle.deb_control.specs.declared.fault.ControlFault.{ControlFault};
ghost use Rattle.deb_control.specs.Feed.{MayStandAt};
ghost use Rattle.deb_control.specs.FeedState.{feed_limit, fresh};
ghost use Rattle.deb_control.specs.Lines.{lines_of, paragraphs_in};
ghost use Rattle.deb_control.specs.Paragraphs.{ReaderState, begun};
ghost use Rattle.wb_states.specs.declared.command.Part.{Part};
ghost use Rattle.wb_states.specs.declared.reply.PartReply.{PartReply};
ghost use Rattle.wb_states.specs.Forms.{Merge};
ghost use Rattle.wb_states.specs.Machine.{Machine};
ghost use Rattle.wb_merge.specs.Merged.{Records};
ghost use Rattle.wb_step.specs.Checks.{text_refusal};
ghost use Rattle.wb_step.specs.Parts.{part_listing, part_replies, records_after};
ghost use Rattle.wb_step.specs.Step.{Outcome, step};
ghost use Rattle.wb_archive.specs.Merges.{ArePartsDone, BeginsAt, BreaksFor, IsGiven, IsMergeOfKnown, IsMergeOfLists, IsPartOf, IsPartUnread, IsSourcesRead, IsUnread};
ghost use Rattle.wb_archive.specs.Readers.{IsAsStep, IsMergeOf, IsMergeOfTexts, IsOfRead, IsReadFault, merge_outcome};
ghost use Rattle.wb_archive.specs.declared.fault.BadList.{BadList};
ghost use Rattle.wb_archive.specs.declared.merge.PartList.{PartList};
ghost use Rattle.wb_archive.specs.declared.merge_from.ArchList.{ArchList};

use crate::ReadParagraphs;
use deb_control::Paragraphs;
use std::io::BufRead;

/// If no reader breaks, as none does that reads a text in memory, what a merge makes of its parts is what the lists say: the
/// replies are those of the parts in their order, and the records those after them.
pub fn merges_are_those_of_the_lists<R: ReadParagraphs>()
    ensures value { ((reader : R) (fault : ControlFault) → R.breaks reader fault → ⊥)
        → (sources : R) (parts : List (PartList R)) (machine : Machine) (text : List ℕ) (bad : Option BadList)
        (given : List Part) (records last : Records) (replies : List PartReply)
        → IsSourcesRead (R.breaks sources) text bad
        → ArePartsDone (IsGiven (BreaksFor R.breaks parts) machine text bad) given records replies last
        → (replies ≡ part_replies machine text given records) × (last ≡ records_after machine text given records) }
{}

/// What a merge makes of lists of which each reader begins at a text and may begin at no other, as those of texts in memory do, is
/// what it makes of these texts.
pub fn merges_of_known_lists_are_those_of_their_texts<R: ReadParagraphs>()
    ensures unread { (machine : Machine) (sources : R) (parts : List (PartList R)) (text : List ℕ) (given : List Part)
        → BeginsAt R.may_stand_at sources text → AllZip (IsPartOf (BeginsAt R.may_stand_at) machine) parts given
        → IsUnread R.may_stand_at sources × AllByRecursion (IsPartUnread R.may_stand_at machine) parts }
    ensures value { (machine : Machine) (sources : R) (parts : List (PartList R)) (text : List ℕ) (given : List Part)
        (records last : Records) (replies : List PartReply)
        → BeginsAt R.may_stand_at sources text → AllZip (IsPartOf (BeginsAt R.may_stand_at) machine) parts given
        → IsMergeOfLists R.may_stand_at R.breaks machine (λ end. end ≡ last) sources parts records replies
        → IsMergeOfKnown (R.breaks sources) (BreaksFor R.breaks parts) machine (λ end. end ≡ last) text given records replies }
{}

/// A reader of a text in memory begins at that text, and may begin at no other; and it never breaks.
pub fn texts_in_memory_are_known()
    ensures begins { (text : List ℕ) → BeginsAt ⟦<Paragraphs<'static> as ReadParagraphs>⟧.may_stand_at
        (begun (paragraphs_in (lines_of text))) text }
    ensures breaks { (reader : ReaderState) (fault : ControlFault)
        → ⟦<Paragraphs<'static> as ReadParagraphs>⟧.breaks reader fault → ⊥ }
{}

/// A feed before its first call was not read, whatever its reader is; and if the bytes of its reader are known, it begins at them,
/// and may begin at no other text.
pub fn feeds_begin_at_their_bytes()
    ensures unread { (bytes : Option (List ℕ)) → IsUnread MayStandAt (fresh bytes) }
    ensures begins { (text : List ℕ) → BeginsAt MayStandAt (fresh (Some text)) text }
{}

/// A list could not be read on only if a read of its reader failed, or if it has more than 2147483648 bytes.
pub fn lists_are_read_to_their_limit<R: BufRead + Drop>()
    ensures value { (reader : R) (text : List ℕ) (fault : ControlFault) → R.remaining reader ≡ Some text
        → (broke : IsReadFault R.remaining reader fault)
        → (broke.last.source.failed ≡ true) ⊎ (feed_limit < length text) }
{}

/// A merge of what readers give leaves the office as the step of a command does, the merge of the same lists, with a list that is
/// refused in place of each that could not be read on; and it is accepted only if that is.
pub fn merges_of_readers_are_steps<R: BufRead + Drop>()
    ensures texts { (sources : R) (lists : List (ArchList R)) (machine : Machine) (outcome : Outcome)
        → (merge : IsMergeOf R.remaining sources lists machine outcome)
        → IsMergeOfTexts IsOfRead (λ _. IsOfRead) merge.text merge.parts machine outcome }
    ensures value { (text : List ℕ) (parts : List Part) (machine : Machine) (outcome : Outcome)
        → IsMergeOfTexts IsOfRead (λ _. IsOfRead) text parts machine outcome → IsAsStep text parts machine outcome }
{}

/// If all lists could be read, a merge of what readers give is answered as the step answers the merge of the bytes that they gave, and
/// leaves the office as it does.
pub fn merges_of_lists_that_were_read_are_the_step()
    ensures value { (text : List ℕ) (parts : List Part) (machine : Machine) (replies : List PartReply) (last : Records)
        → text_refusal (Merge text parts) ≡ None
        → ArePartsDone (λ of given. given ≡ part_listing machine text of) parts machine.records replies last
        → merge_outcome machine replies last ≡ step machine (Merge text parts) }
{}
