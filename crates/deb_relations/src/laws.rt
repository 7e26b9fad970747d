//! Laws of the definitions, each on a function with nothing to run.

ghost use Rattle.std.specs.Prelude.{◌≡◌, ◌≢◌, ◌↔◌, ◌⊎◌, ◌<◌, ◌≤◌, ◌∷◌, [], Contains, List, ℕ};
ghost use Rattle.std.specs.Prelude.{codes, true, false, None, Some, Ok, Err, length, slice_index};
ghost use Rattle.deb_version.specs.declared.fault.VersionFault.{VersionFault};
ghost use Rattle.deb_relations.specs.declared.arch.ArchWords.{ArchWords};
ghost use Rattle.deb_relations.specs.declared.relations.Alternative.{Alternative};
ghost use Rattle.deb_relations.specs.declared.fault.RelationFault.TheVariants.{BadVersion, Stray};
ghost use Rattle.deb_relations.specs.declared.fault.RelationFault.TheVariants.{TooLong, Memory};
ghost use Rattle.std.specs.List.{list_all};
ghost use Rattle.deb_relations.specs.Examples.{amd64, hurd_i386, i386, is_met, left_for};
ghost use Rattle.deb_relations.specs.Grammar.{is_white, Reads, relations_limit};
ghost use Rattle.deb_relations.specs.Printing.{printed};
ghost use Rattle.deb_relations.specs.Reading.{reading_of, HasBadVersion};
ghost use Rattle.deb_relations.specs.Reduction.{has_no_lists, reduced};
ghost use Rattle.deb_relations.specs.Satisfaction.{HaveSamePairs, Offer, Pairs, all_names};
ghost use Rattle.deb_relations.specs.Satisfaction.{each_once, names_of, no_pairs, satisfied};
ghost use Rattle.deb_relations.specs.Satisfaction.{versions_of, with_pair};

/// What was read, and what it is reduced to, prints as a text that reads back as the same, if that
/// text is within the limit; and each text has at most one reading.
/// Source: Debian Policy 7.1.
pub fn printed_reads()
    ensures same { (text : List ℕ)
        → (groups : List (List Alternative))
        → Reads text groups
        → length (printed groups) ≤ relations_limit
        → Reads (printed groups) groups }
    ensures reduced { (text : List ℕ)
        → (groups : List (List Alternative))
        → (arch : ArchWords)
        → Reads text groups
        → length (printed (reduced arch groups)) ≤ relations_limit
        → Reads (printed (reduced arch groups)) (reduced arch groups) }
    ensures one { (text : List ℕ)
        → (a b : List (List Alternative))
        → Reads text a
        → Reads text b
        → a ≡ b }
{}

/// A text is read as the groups that the grammar gives it, and has a fault if it gives none:
/// `TooLong` exactly above 65536 bytes, never `Memory`, and `BadVersion` only with the fault of a
/// text that stands after an operator in parentheses.
/// Source: Debian Policy 7.1; the limit is this project's own.
pub fn readings_are_of_grammar()
    ensures reads { (text : List ℕ)
        → (groups : List (List Alternative))
        → reading_of text ≡ Ok groups
        → Reads text groups }
    ensures only { (text : List ℕ)
        → (groups : List (List Alternative))
        → Reads text groups
        → reading_of text ≡ Ok groups }
    ensures long { (text : List ℕ)
        → (reading_of text ≡ Err TooLong) ↔ (relations_limit < length text) }
    ensures memory { (text : List ℕ) → reading_of text ≢ Err Memory }
    ensures version { (text : List ℕ)
        → (fault : VersionFault)
        → reading_of text ≡ Err (BadVersion fault)
        → HasBadVersion text fault }
{}

/// What is available is a set of pairs of a name and a version: at first none, then one more with
/// each that is added, where a name that is provided without a version has none; and relations that
/// were satisfied stay so.
/// Source: Debian Policy 7.1 and 7.5.
pub fn pairs_are_a_set()
    ensures none { (name : List ℕ) (version : Offer) → ¬ (Contains (versions_of no_pairs name) version) }
    ensures one { (pairs : Pairs) (name other : List ℕ) (version wanted : Offer)
        → Contains (versions_of (with_pair pairs name version) other) wanted
        ↔ (Contains (versions_of pairs other) wanted ⊎ ((other ≡ name) × (wanted ≡ version))) }
    ensures stays { (pairs : Pairs) (name : List ℕ) (version : Offer) (groups : List (List Alternative))
        → satisfied pairs groups ≡ true
        → satisfied (with_pair pairs name version) groups ≡ true }
{}

/// Whether relations are satisfied depends only on their package names: what has the same pairs for
/// each of these satisfies the same relations.
/// Source: Debian Policy 7.1.
pub fn satisfied_by_names()
    ensures same { (one other : Pairs) (groups : List (List Alternative))
        → HaveSamePairs one other (names_of groups)
        → satisfied one groups ≡ satisfied other groups }
{}

/// What is reduced has neither architectures nor build profiles left, and reducing it again, for
/// whichever architecture, changes nothing.
/// Source: Debian Policy 7.1.
pub fn reduced_is_bare()
    ensures bare { (arch : ArchWords) (groups : List (List Alternative))
        → list_all (λ group. list_all has_no_lists group) (reduced arch groups) ≡ true }
    ensures again { (arch other : ArchWords) (groups : List (List Alternative))
        → reduced other (reduced arch groups) ≡ reduced arch groups }
{}

/// What is reported as stray stands at its place in the whole text, and is no white space.
/// Source: this project's own.
pub fn strays_stand_in_the_text()
    ensures { (text : List ℕ) (place : ℕ)
        → reading_of text ≡ Err (Stray place)
        → (place < length text) × (is_white (slice_index text place) ≡ false) }
{}

/// Examples of relations, of which the first three are those of Debian Policy: what is left of them
/// for an architecture, and when they are satisfied, also by names that are provided with a version
/// or without one.
/// Source: Debian Policy 7.1 and 7.5.
pub fn examples_of_relations()
    ensures sources { (left_for i386 (codes "kernel-headers-2.2.10 [!hurd-i386], hurd-dev [hurd-i386], gnumach-dev [hurd-i386]")
        ≡ Some (codes "kernel-headers-2.2.10"))
        × (left_for hurd_i386 (codes "kernel-headers-2.2.10 [!hurd-i386], hurd-dev [hurd-i386], gnumach-dev [hurd-i386]")
        ≡ Some (codes "hurd-dev, gnumach-dev")) }
    ensures alternatives { (left_for i386 (codes "foo [!i386] | bar [!amd64]") ≡ Some (codes "bar"))
        × (left_for amd64 (codes "foo [!i386] | bar [!amd64]") ≡ Some (codes "foo"))
        × (left_for hurd_i386 (codes "foo [!i386] | bar [!amd64]") ≡ Some (codes "foo | bar")) }
    ensures wildcards { (left_for amd64 (codes "foo [linux-any], bar [any-i386], baz [!linux-any]") ≡ Some (codes "foo"))
        × (left_for i386 (codes "foo [linux-any], bar [any-i386], baz [!linux-any]") ≡ Some (codes "foo, bar"))
        × (left_for hurd_i386 (codes "foo [linux-any], bar [any-i386], baz [!linux-any]") ≡ Some (codes "bar, baz")) }
    ensures versions { (pairs : Pairs)
        → versions_of pairs (codes "libc6") ≡ Some (codes "2.10") ∷ []
        → versions_of pairs (codes "exim") ≡ []
        → (is_met pairs (reading_of (codes "libc6 (>= 2.2.1)")) ≡ Some true)
        × (is_met pairs (reading_of (codes "libc6 (>= 2.10.1)")) ≡ Some false)
        × (is_met pairs (reading_of (codes "exim | libc6")) ≡ Some true)
        × (is_met pairs (reading_of (codes "exim, libc6")) ≡ Some false) }
    ensures provided { (pairs : Pairs)
        → versions_of pairs (codes "mail-transport-agent") ≡ None ∷ []
        → versions_of pairs (codes "virtual-foo") ≡ Some (codes "2.0") ∷ []
        → (is_met pairs (reading_of (codes "mail-transport-agent")) ≡ Some true)
        × (is_met pairs (reading_of (codes "mail-transport-agent (>= 1)")) ≡ Some false)
        × (is_met pairs (reading_of (codes "virtual-foo (>= 1)")) ≡ Some true)
        × (is_met pairs (reading_of (codes "virtual-foo (>= 3)")) ≡ Some false) }
    ensures unread { (left_for amd64 (codes "foo [i386") ≡ None)
        × (left_for amd64 (codes "foo [i386 !amd64]") ≡ None)
        × (left_for amd64 (codes "foo (2.0)") ≡ None) }
{}
