//! Laws of the definitions, each on a function that does nothing.
ghost use Rattle.std.specs.Prelude.{◌≡◌, ◌≢◌, ◌↔◌, ◌≤◌, ℕ, List, IsTrue, Some, None, Ok, codes, false, pos, true};
ghost use Rattle.std.specs.Prelude.{IsPermutation, bytes_eq, filter, length};
ghost use Rattle.std.specs.Ordering.{nat_cmp, ordering_then};
ghost use Rattle.deb_text.specs.Text.{text_cmp};
ghost use Rattle.std.specs.FinMap as map;
ghost use Rattle.std.specs.FinSet as set;
ghost use Rattle.std.specs.List.{IsDistinct, flat_map};
ghost use Rattle.std.specs.List.Sorted.{IsStrictlySortedBy};
ghost use Rattle.std.specs.Cmp.{IsTotalOrder};
ghost use Rattle.std.specs.declared.cmp.Ordering.TheVariants.{Less, Equal};
ghost use Rattle.wb_states.specs.declared.keyed.KeyedRecord.{KeyedRecord};
ghost use Rattle.wb_states.specs.declared.query.Answer.{Answer};
ghost use Rattle.wb_states.specs.declared.query.Answer.TheVariants.{Item};
ghost use Rattle.wb_states.specs.declared.query.Query.{Query};
ghost use Rattle.wb_states.specs.declared.query.Query.TheVariants as asked;
ghost use Rattle.wb_states.specs.declared.record.Record.{Record};
ghost use Rattle.wb_states.specs.declared.moves.Move.{Move};
ghost use Rattle.wb_states.specs.declared.refusal.Refusal.{Refusal};
ghost use Rattle.wb_states.specs.declared.state.State.{State};
ghost use Rattle.wb_states.specs.declared.state.State.TheVariants.{NeedsBuild};
ghost use Rattle.wb_states.specs.Examples.{with_place};
ghost use Rattle.wb_states.specs.Holds.{IsBuildingAfter, building_after, held_of, take_cmp, take_of, taken_as};
ghost use Rattle.wb_states.specs.Machine.{AreRelations, HasDistinctTakes, IsConsistent, Key};
ghost use Rattle.wb_states.specs.Machine.{Machine, arch_words, builder_pairs};
ghost use Rattle.wb_states.specs.Moves.{may_go, move_outcome};
ghost use Rattle.wb_states.specs.Queries.{answer_of, listed_in};
ghost use Rattle.wb_states.specs.Queue.{Entry, IsWaitingAt, entry_cmp, head_of, queue_of, place_cmp, place_of, rank_of};
ghost use Rattle.deb_text.specs.Lists.{IsIn};
ghost use Rattle.wb_states.specs.Record.{IsWellFormed};
ghost use Rattle.wb_states.specs.Refusals.{code_of_refusal, name_of_refusal};
ghost use Rattle.wb_states.specs.Lookups.{counts_of, rows_in, rows_of, total_of};
ghost use Rattle.wb_states.specs.State.{code_of, is_held, name_of, states};
ghost use Rattle.wb_states.specs.MoveTable.{HasForm, row_of};

/// The queue of an architecture has each of its records that wait for a builder, and no other, and
/// they ascend strictly, so that each stands once.
pub fn queue_has_each_waiting_record_once()
    ensures members { (machine : Machine) (arch : List ℕ) (entry : Entry)
        → IsIn entry (queue_of machine arch) ↔ IsWaitingAt machine arch entry }
    ensures ascending { (machine : Machine) (arch : List ℕ)
        → IsStrictlySortedBy entry_cmp (queue_of machine arch) }
{}

/// The head of a queue is a record that waits for a builder, and no other that waits on the
/// architecture is to be built before it; if there is no head, none waits.
pub fn the_head_is_built_first()
    ensures waits { (machine : Machine) (arch : List ℕ) (entry : Entry)
        → head_of machine arch ≡ Some entry → IsWaitingAt machine arch entry }
    ensures first { (machine : Machine) (arch : List ℕ) (entry other : Entry)
        → head_of machine arch ≡ Some entry → IsWaitingAt machine arch other
        → entry_cmp other entry ≢ Less }
    ensures none { (machine : Machine) (arch : List ℕ) (entry : Entry)
        → head_of machine arch ≡ None → ¬ (IsWaitingAt machine arch entry) }
{}

/// The order of places is total, and two source packages of one architecture never have equal
/// places.
pub fn places_differ()
    ensures total { IsTotalOrder place_cmp }
    ensures names { (one other : Record) (name another : List ℕ)
        → place_cmp (place_of one name) (place_of other another) ≡ Equal → name ≡ another }
{}

/// The order of the queue is the order of ranks and, among equal ranks, that of the bytes of the
/// names, so that a table ordered by both gives the queue; a record in its form has a rank of at
/// most 696347 (this project's own).
pub fn ranks_order_the_queue()
    ensures order { (one other : Record) (name another : List ℕ) → IsWellFormed one → IsWellFormed other
        → place_cmp (place_of one name) (place_of other another)
        ≡ ordering_then (nat_cmp (rank_of one) (rank_of other)) (text_cmp name another) }
    ensures limit { (one : Record) → IsWellFormed one → rank_of one ≤ 696347 }
{}

/// What a record of a consistent office waits for can be read again: as relations that are reduced
/// for its architecture already, and that print as they are kept. So no record waits for a text
/// that nobody can read. Source: this project's own.
pub fn kept_waits_are_read()
    ensures { (machine : Machine) (arch source : List ℕ) (current : Record)
        → IsConsistent machine → map.get machine.records (arch, source) ≡ Some current
        → AreRelations (arch_words machine arch) current.waits }
{}

/// A move that is not refused goes from a state that its row of the table names, and makes of a
/// record whose fields have their forms what the row says; all that the row does not name stays as
/// it was. If what the move brings has its form, the fields keep theirs (this project's own, in
/// wanna-build's terms).
pub fn moves_follow_the_table()
    ensures from { (move : Move) (old new : Record)
        → move_outcome move old ≡ Ok new → IsTrue (may_go move old.state) }
    ensures row { (move : Move) (old new : Record)
        → IsWellFormed old → move_outcome move old ≡ Ok new → new ≡ row_of move old }
    ensures form { (move : Move) (old new : Record) → IsWellFormed old → HasForm move
        → move_outcome move old ≡ Ok new → IsWellFormed new }
{}

/// A take number finds the record that is held under it: if no take number is held twice, that
/// record and no other; if it finds none, there is none.
pub fn a_take_number_finds_its_record()
    ensures found { (machine : Machine) (take_number : ℕ) (entry : Entry) → HasDistinctTakes machine
        → (taken_as machine take_number ≡ Some entry)
        ↔ ((map.get machine.records entry.0 ≡ Some entry.1) × (entry.1.take ≡ Some take_number)) }
    ensures none { (machine : Machine) (take_number : ℕ) (entry : Entry)
        → taken_as machine take_number ≡ None → map.get machine.records entry.0 ≡ Some entry.1
        → entry.1.take ≢ Some take_number }
{}

/// What a builder holds are the records that name it, and in a consistent office they ascend
/// strictly by take number, so that each stands once. What is reported to it again is the one with
/// the least later take number among those that it builds on the architecture, or nothing if there
/// is none.
pub fn holds_are_by_take_number()
    ensures members { (machine : Machine) (builder : List ℕ) (entry : Entry)
        → IsIn entry (held_of machine builder)
        ↔ ((map.get machine.records entry.0 ≡ Some entry.1) × (entry.1.holder ≡ Some builder)) }
    ensures ascending { (machine : Machine) (builder : List ℕ)
        → IsConsistent machine → IsStrictlySortedBy take_cmp (held_of machine builder) }
    ensures building { (machine : Machine) (arch builder : List ℕ) (after : ℕ) (entry : Entry)
        → building_after machine arch builder after ≡ Some entry
        → IsBuildingAfter machine arch builder after entry }
    ensures least { (machine : Machine) (arch builder : List ℕ) (after : ℕ) (entry other : Entry)
        → building_after machine arch builder after ≡ Some entry
        → IsBuildingAfter machine arch builder after other → take_of entry ≤ take_of other }
    ensures none { (machine : Machine) (arch builder : List ℕ) (after : ℕ) (entry : Entry)
        → building_after machine arch builder after ≡ None
        → ¬ (IsBuildingAfter machine arch builder after entry) }
{}

/// The states share out the records of an architecture: the records in a state are those of the
/// architecture that are in it; listed state by state, they are all of its records, each once; and
/// so the numbers of records in the states add up to the number of its records.
pub fn states_share_out_the_records()
    ensures members { (machine : Machine) (arch : List ℕ) (state : State) (entry : Entry)
        → IsIn entry (rows_in machine arch state)
        ↔ (IsIn entry (rows_of machine arch) × (entry.1.state ≡ state)) }
    ensures once { (machine : Machine) (arch : List ℕ)
        → IsPermutation (rows_of machine arch) (flat_map (rows_in machine arch) states) }
    ensures total { (machine : Machine) (arch : List ℕ)
        → total_of (counts_of machine arch) ≡ length (rows_of machine arch) }
{}

/// The queue of an architecture has its records in Needs-Build, each once, in another order.
pub fn the_queue_is_what_needs_a_build()
    ensures { (machine : Machine) (arch : List ℕ)
        → IsPermutation (rows_in machine arch NeedsBuild) (queue_of machine arch) }
{}

/// The builders share out the held records of a consistent office: what all builders hold, listed
/// builder by builder, are the records that are held, each once.
pub fn builders_share_out_the_held_records()
    ensures { (machine : Machine) (builders : List (List ℕ)) → IsConsistent machine
        → IsDistinct bytes_eq builders
        → ((builder arch : List ℕ) → IsTrue (set.contains machine.builders (builder, arch))
        → IsIn builder builders)
        → IsPermutation (filter (λ entry. is_held entry.1.state) (map.entries machine.records))
        (flat_map (held_of machine) builders) }
{}

/// What a query for a record shows is what lists show of it: a record that it shows is listed among
/// those in its state, and among those of its holder if it has one; and each record that a list of
/// a consistent office has is what the query for it shows.
pub fn lists_show_what_items_show()
    ensures by_state { (machine : Machine) (arch source : List ℕ) (row : KeyedRecord)
        → answer_of machine (asked.Item arch source) ≡ Ok (Item row)
        → (answer : Answer)
        × (answer_of machine (asked.ByState arch (name_of row.current.state)) ≡ Ok answer)
        × IsIn row (listed_in answer) }
    ensures mine { (machine : Machine) (arch source builder : List ℕ) (row : KeyedRecord)
        → IsConsistent machine → answer_of machine (asked.Item arch source) ≡ Ok (Item row)
        → row.current.holder ≡ Some builder
        → (answer : Answer) × (answer_of machine (asked.Mine builder) ≡ Ok answer)
        × IsIn row (listed_in answer) }
    ensures shown { (machine : Machine) (query : Query) (answer : Answer) (row : KeyedRecord)
        → IsConsistent machine → answer_of machine query ≡ Ok answer → IsIn row (listed_in answer)
        → answer_of machine (asked.Item row.arch row.source) ≡ Ok (Item row) }
{}

/// The query for builders lists each builder with each architecture for which it was added, and no
/// other pair.
pub fn builders_are_listed()
    ensures { (machine : Machine) (pair : Key)
        → IsIn pair (builder_pairs machine) ↔ IsTrue (set.contains machine.builders pair) }
{}

/// No two states share a number or a name, and two refusals share a number exactly if they share a
/// name (the numbers and the names of refusals are this project's own).
pub fn codes_differ()
    ensures states { (one other : State) → code_of one ≡ code_of other → one ≡ other }
    ensures names { (one other : State) → name_of one ≡ name_of other → one ≡ other }
    ensures refusals { (one other : Refusal) → (code_of_refusal one ≡ code_of_refusal other)
        ↔ (name_of_refusal one ≡ name_of_refusal other) }
{}

/// Examples of ranks, and of which of two waiting source packages is built first: by build
/// priority, then what was built earlier, then by priority, by section, and by name; an archive
/// area does not count, and a section that is not among the known ones comes last. Source: this
/// project's own.
pub fn examples_of_the_queue()
    ensures ranks { (one : Record)
        → (rank_of (with_place one (pos 1000) true (codes "required") (codes "libs")) ≡ 0)
        × (rank_of (with_place one (pos 0) true (codes "required") (codes "libs")) ≡ 348000)
        × (rank_of (with_place one (pos 0) false (codes "optional") (codes "devel")) ≡ 348263)
        × (rank_of (with_place one (pos 0) false (codes "optional") (codes "non-free/devel")) ≡ 348263)
        × (rank_of (with_place one (pos 0) false (codes "other") (codes "other")) ≡ 348347) }
    ensures by_build_priority { (one : Record)
        → place_cmp (place_of (with_place one (pos 1) false (codes "extra") (codes "games")) (codes "zz"))
        (place_of (with_place one (pos 0) true (codes "required") (codes "libs")) (codes "aa")) ≡ Less }
    ensures by_age { (one : Record)
        → place_cmp (place_of (with_place one (pos 0) true (codes "extra") (codes "games")) (codes "zz"))
        (place_of (with_place one (pos 0) false (codes "required") (codes "libs")) (codes "aa")) ≡ Less }
    ensures by_priority { (one : Record)
        → place_cmp (place_of (with_place one (pos 0) true (codes "required") (codes "games")) (codes "zz"))
        (place_of (with_place one (pos 0) true (codes "important") (codes "libs")) (codes "aa")) ≡ Less }
    ensures by_section { (one : Record)
        → place_cmp (place_of (with_place one (pos 0) true (codes "optional") (codes "libs")) (codes "zz"))
        (place_of (with_place one (pos 0) true (codes "optional") (codes "contrib/devel")) (codes "aa")) ≡ Less }
    ensures by_name { (one : Record)
        → place_cmp (place_of (with_place one (pos 0) true (codes "optional") (codes "libs")) (codes "aa"))
        (place_of (with_place one (pos 0) true (codes "optional") (codes "contrib/libs")) (codes "ab")) ≡ Less }
{}
