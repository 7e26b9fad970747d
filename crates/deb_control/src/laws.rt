//! Laws of the definitions that the contracts cite.
ghost use Rattle.std.specs.Prelude.{◌≡◌, ◌≢◌, ◌+◌, ◌<◌, ◌⊎◌, ◌∷◌, ◌++◌, [], ℕ, List, Option, codes, true, false, None, Some, Ok, Err, length};
ghost use Rattle.std.specs.List.{list_all};
ghost use Rattle.deb_control.specs.declared.fault.ControlFault.{ControlFault};
ghost use Rattle.deb_control.specs.declared.fault.ControlFaultKind.{ControlFaultKind};
ghost use Rattle.deb_control.specs.declared.fault.ControlFaultKind.TheVariants.{BadName, Duplicate, Ended, Memory, NoColon, Orphan, Read};
ghost use Rattle.deb_control.specs.Lines.{lines_of, HaveLines, paragraphs_in, HaveParagraphs};
ghost use Rattle.std.specs.Str.{str_to_ascii_lowercase};
ghost use Rattle.deb_control.specs.Fields.{FieldText, field_named, folded_of, reading_of, IsReading, IsFault};
ghost use Rattle.deb_control.specs.Paragraphs.{Answer, ReaderState, begun, step, has_reading, answer_after, answer_for, answers_of};
ghost use Rattle.deb_control.specs.Source.{Gives, Takes, TakesSome};
ghost use Rattle.deb_control.specs.FeedState.{FeedState, feed_limit, fresh};
ghost use Rattle.deb_control.specs.Feed.{AnswersFor, HaveAnswers, HaveAnswersFor, MayStandAt, ReadEnds};

/// The lines of a text are its pieces, each with the line feed that ends it,
/// which the last may lack (Debian Policy 5.1).
pub fn texts_are_lines()
    ensures are { (text : List ℕ) → HaveLines text (lines_of text) }
    ensures only { (text : List ℕ) (lines : List (List ℕ)) →
        HaveLines text lines → lines_of text ≡ lines }
{}

/// The paragraphs of lines are the longest runs of lines that are no
/// separators (Debian Policy 5.1).
pub fn paragraphs_are_runs()
    ensures are { (lines : List (List ℕ)) → HaveParagraphs lines (paragraphs_in lines) }
    ensures only { (lines : List (List ℕ)) (paragraphs : List (List (List ℕ))) →
        HaveParagraphs lines paragraphs → paragraphs_in lines ≡ paragraphs }
{}

/// A paragraph is read as these fields if its lines are the fields, and only
/// then (Debian Policy 5.1).
pub fn paragraph_is_fields()
    ensures is { (lines : List (List ℕ)) (fields : List FieldText) →
        reading_of lines ≡ Ok fields → IsReading lines fields }
    ensures only { (lines : List (List ℕ)) (fields : List FieldText) →
        IsReading lines fields → reading_of lines ≡ Ok fields }
{}

/// A paragraph has the fault that it is too large, or else that it is not
/// UTF-8, or else that of its first bad line (this project's own order).
pub fn paragraph_has_fault()
    ensures is { (lines : List (List ℕ)) (kind : ControlFaultKind) →
        reading_of lines ≡ Err kind → IsFault kind lines }
    ensures only { (lines : List (List ℕ)) (kind : ControlFaultKind) →
        IsFault kind lines → reading_of lines ≡ Err kind }
{}

/// Each field of a paragraph is found by its name, without regard to case
/// (Debian Policy 5.1).
pub fn fields_are_found()
    ensures { (lines : List (List ℕ)) (before after : List FieldText) (field : FieldText)
        (name : List ℕ) → reading_of lines ≡ Ok (before ++ field ∷ after) →
        str_to_ascii_lowercase name ≡ str_to_ascii_lowercase field.name →
        field_named name (before ++ field ∷ after) ≡ Some field }
{}

/// Call by call a reader answers the paragraphs in their order, each by its
/// reading, up to and including the first without one; after the last it
/// answers none, after a refusal `Ended` (this project's own).
pub fn calls_give_paragraphs()
    ensures value { (before : List (List (List ℕ))) (lines : List (List ℕ))
        (later : List (List (List ℕ))) → list_all has_reading before ≡ true →
        answer_after (length before) (begun (before ++ lines ∷ later))
        ≡ answer_for (length before + 1) lines }
    ensures end { (paragraphs : List (List (List ℕ))) (more : ℕ) →
        list_all has_reading paragraphs ≡ true →
        answer_after (length paragraphs + more) (begun paragraphs) ≡ Ok None }
    ensures ended { (before : List (List (List ℕ))) (lines : List (List ℕ))
        (later : List (List (List ℕ))) (more : ℕ) → list_all has_reading before ≡ true →
        has_reading lines ≡ false →
        answer_after (length before + 1 + more) (begun (before ++ lines ∷ later))
        ≡ Err (record { paragraph = length before + 1; kind = Ended }) }
{}

/// Call by call a feed answers for the bytes of its reader, however the reader cuts them, what a reader of the same bytes in
/// memory answers (this project's own).
pub fn feeds_answer_as_paragraphs()
    ensures { (text : List ℕ) (answers : List Answer) (last : FeedState) →
        HaveAnswers answers (fresh (Some text)) last →
        answers ≡ answers_of (length answers) (begun (paragraphs_in (lines_of text))) }
{}

/// Call by call a feed answers for the bytes that its reader gave, with whatever may be left after them, what a reader of the
/// same bytes in memory answers; if the bytes of the reader are not known before they are read, as those of a file or a pipe, any
/// may be left, and none once it answered that it is at its end: the bytes that it gave are then its whole input (this project's
/// own).
pub fn feeds_answer_for_what_was_given()
    ensures given { (bytes : Option (List ℕ)) (answers : List Answer) (last : FeedState) →
        HaveAnswersFor answers (fresh bytes) last → Gives (fresh bytes).source last.source
        (λ text _. answers ≡ answers_of (length answers) (begun (paragraphs_in (lines_of text)))) }
    ensures whole { (bytes : Option (List ℕ)) (answers : List Answer) (last : FeedState) →
        HaveAnswersFor answers (fresh bytes) last → last.source.bytes ≡ Some [] →
        (text : List ℕ) × (Takes (fresh bytes).source last.source text
        × (answers ≡ answers_of (length answers) (begun (paragraphs_in (lines_of text))))) }
{}

/// A feed may stand somewhere, and went through as many paragraphs wherever it may stand. Wherever it may stand after a call,
/// it may have stood before the call at a place of which a reader in memory answers the same and goes on to there (this
/// project's own).
pub fn feeds_stand_among_paragraphs()
    ensures stands { (feed : FeedState) → (place : ReaderState) × MayStandAt feed place }
    ensures counts { (feed : FeedState) (place : ReaderState) →
        MayStandAt feed place → place.passed ≡ feed.passed }
    ensures before { (answer : Answer) (old new : FeedState) (after : ReaderState) →
        AnswersFor answer old new → MayStandAt new after →
        (before : ReaderState) × (MayStandAt old before × (step before ≡ (answer, after))) }
{}

/// A feed answers `Read` only if a read failed, or if its reader has more bytes than a feed reads (this project's own).
pub fn feeds_read_to_their_limit()
    ensures { (text : List ℕ) (old new : FeedState) (fault : ControlFault) →
        TakesSome (fresh (Some text)).source old.source → TakesSome old.source new.source →
        ReadEnds old fault new → (new.source.failed ≡ true) ⊎ (feed_limit < length text) }
{}

/// No paragraph has the fault `Read`, `Memory` or `Ended`, which say why none was
/// read (this project's own).
pub fn faults_are_of_text()
    ensures read { (lines : List (List ℕ)) → reading_of lines ≢ Err Read }
    ensures memory { (lines : List (List ℕ)) → reading_of lines ≢ Err Memory }
    ensures ended { (lines : List (List ℕ)) → reading_of lines ≢ Err Ended }
{}

/// Examples of paragraphs by their lines: the fields that they have, and the fault of lines that are no fields.
/// Source: Debian Policy 5.1, of which the first is an example.
pub fn examples_of_paragraphs()
    ensures field { reading_of (codes "Package: libc6" ∷ [])
        ≡ Ok (record { name = codes "Package"; first = codes "libc6"; lines = [] } ∷ []) }
    // blanks at the ends of a value play no part, and a line that begins with a blank continues the field before it
    ensures fields { reading_of (codes "Package:libc6 " ∷ codes "Depends: libgcc-s1," ∷ codes "  tzdata " ∷ [])
        ≡ Ok (record { name = codes "Package"; first = codes "libc6"; lines = [] }
        ∷ record { name = codes "Depends"; first = codes "libgcc-s1,"; lines = codes " tzdata" ∷ [] } ∷ []) }
    ensures folded { folded_of (record { name = codes "Depends"; first = codes "libgcc-s1,"; lines = codes " tzdata" ∷ [] })
        ≡ codes "libgcc-s1, tzdata" }
    ensures faults { (reading_of (codes " tzdata" ∷ []) ≡ Err Orphan)
        × (reading_of (codes "Package" ∷ []) ≡ Err NoColon)
        × (reading_of (codes "-Package: libc6" ∷ []) ≡ Err BadName)
        × (reading_of (codes "Package: libc6" ∷ codes "package: libc6" ∷ []) ≡ Err Duplicate) }
    // of two paragraphs, with a blank line between them
    ensures paragraphs { paragraphs_in (codes "Package: a" ∷ [] ∷ codes "Package: b" ∷ [])
        ≡ (codes "Package: a" ∷ []) ∷ (codes "Package: b" ∷ []) ∷ [] }
{}
