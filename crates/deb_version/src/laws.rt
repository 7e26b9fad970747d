//! Laws of the definitions, each on a function with nothing to run.

ghost use Rattle.std.specs.Prelude.{◌≡◌, ◌<◌, [], ◌∷◌, Err, List, Ok, codes, false, length, slice_index, ℕ};
ghost use Rattle.std.specs.declared.cmp.Ordering.TheVariants.{Equal};
ghost use Rattle.deb_version.specs.declared.fault.VersionFault.TheVariants.{RevisionBad, UpstreamBad};
ghost use Rattle.deb_version.specs.Grammar.{IsVersion};
ghost use Rattle.deb_version.specs.Syntax.{Parts, TextIsItsParts, is_revision_char, is_upstream_char, reading_of};
ghost use Rattle.deb_version.specs.Order.{part_cmp, version_cmp};
ghost use Rattle.deb_version.specs.OrderLaws.{Ascend, KeyIsByRuns, LettersAreEarlier, PartsCompareByRuns, TildeIsEarlier, ZerosKeepTheOrder, ZerosSayNothing};

/// A text is its parts, joined by the colon and the hyphen that cut them: `[epoch:]upstream[-revision]`.
/// Source: Debian Policy 5.6.12.
pub fn text_is_its_parts()
    ensures { TextIsItsParts }
{}

/// A text is read as these parts if it is a version of them, and only then.
/// Source: Debian Policy 5.6.12.
pub fn versions_are_read()
    ensures is { (text : List ℕ) (parts : Parts)
        → reading_of text ≡ Ok parts → IsVersion text parts }
    ensures only { (text : List ℕ) (parts : Parts)
        → IsVersion text parts → reading_of text ≡ Ok parts }
{}

/// The character for which an upstream version or a revision is refused stands at the place of the fault in
/// the whole text, and may not stand there.
/// Source: Debian Policy 5.6.12.
pub fn bad_characters_stand_in_the_text()
    ensures upstream { (text : List ℕ) (place : ℕ)
        → reading_of text ≡ Err (UpstreamBad place)
        → (place < length text) × (is_upstream_char (slice_index text place) ≡ false) }
    ensures revision { (text : List ℕ) (place : ℕ)
        → reading_of text ≡ Err (RevisionBad place)
        → (place < length text) × (is_revision_char (slice_index text place) ≡ false) }
{}

/// A part is compared as a run of non-digits, then a run of digits as one number, and so on.
/// Source: Debian Policy 5.6.12.
pub fn order_is_by_runs()
    ensures { KeyIsByRuns }
{}

/// Zeros before the digits of a number change nothing.
/// Source: Debian Policy 5.6.12.
pub fn zeros_say_nothing()
    ensures { ZerosSayNothing }
{}

/// A part with `~` and anything more after its end is earlier than the part.
/// Source: Debian Policy 5.6.12.
pub fn tilde_is_earlier()
    ensures { TildeIsEarlier }
{}

/// Letters are earlier than all characters but `~` that are no digits.
/// Source: Debian Policy 5.6.12.
pub fn letters_are_earlier()
    ensures { LettersAreEarlier }
{}

/// Parts compare by their first non-digit runs, then by the numbers after these, then by what follows;
/// zeros before a number change nothing.
/// Source: Debian Policy 5.6.12.
pub fn parts_compare_by_runs()
    ensures runs { PartsCompareByRuns }
    ensures zeros { ZerosKeepTheOrder }
{}

/// Examples of the order of versions, each earlier than the next; the first two lists are those of Debian Policy.
/// Source: Debian Policy 5.6.12.
pub fn examples_of_the_order()
    // of Policy: a tilde is before the end of a part, and the end before a letter
    ensures parts { Ascend part_cmp (codes "~~" ∷ codes "~~a" ∷ codes "~" ∷ [] ∷ codes "a" ∷ []) }
    ensures tildes { Ascend version_cmp
        (codes "1.0~beta1~svn1245" ∷ codes "1.0~beta1" ∷ codes "1.0" ∷ []) }
    // of each part of a version
    ensures versions { Ascend version_cmp
        (codes "1.0~rc1" ∷ codes "1.0" ∷ codes "1.0-1" ∷ codes "1:0" ∷ []) }
    ensures letters { Ascend version_cmp
        (codes "1.0" ∷ codes "1.0a" ∷ codes "1.0b" ∷ codes "1.0+a" ∷ codes "1.0.a" ∷ []) }
    ensures numbers { Ascend version_cmp
        (codes "1.2" ∷ codes "1.10" ∷ codes "1.10+b1" ∷ codes "1.10+b10" ∷ []) }
    // of the same order: zeros before a number, and a revision and an epoch of zero
    ensures equal { (version_cmp (codes "1.02") (codes "1.2") ≡ Equal)
        × (version_cmp (codes "1.0-0") (codes "1.0") ≡ Equal)
        × (version_cmp (codes "0:1.0") (codes "1.0") ≡ Equal) }
{}
