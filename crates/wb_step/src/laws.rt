//! Laws of the definitions, each on a function that does nothing.
ghost use Rattle.std.specs.Prelude.{◌≡◌, ℕ, ◌≤◌, true, false, List, ◌++◌, ◌∷◌, Option, Some, None};
ghost use Rattle.std.specs.Prelude.{Ok, Err, IfErr};
ghost use Rattle.std.specs.Prelude.{IsTrue, is_ok, is_some};
ghost use Rattle.std.specs.FinMap as map;
ghost use Rattle.wb_states.specs.Machine.{IsConsistent, Machine, empty_office};
ghost use Rattle.wb_states.specs.declared.command.Command.{Command};
ghost use Rattle.wb_states.specs.declared.command.Part.{Part};
ghost use Rattle.wb_states.specs.declared.record.Record.{Record};
ghost use Rattle.wb_states.specs.declared.refusal.Refusal.{Refusal};
ghost use Rattle.wb_states.specs.declared.refusal.Refusal.TheVariants.{NotHeld};
ghost use Rattle.wb_states.specs.Holds.{taken_as};
ghost use Rattle.wb_states.specs.declared.reply.Assignment.{Assignment};
ghost use Rattle.wb_states.specs.declared.reply.Reply.TheVariants.{Again, Job};
ghost use Rattle.wb_states.specs.Queue.{queue_of};
ghost use Rattle.wb_states.specs.Refusals.{IsOfMachine, is_of_store};
ghost use Rattle.wb_step.specs.Arguments.{arguments_of};
ghost use Rattle.wb_step.specs.Checks.{first_refusal, take_named};
ghost use Rattle.wb_step.specs.HandOuts.{HandOut, IsBeingBuilt, HasTakesByState, Ends, Rise};
ghost use Rattle.wb_step.specs.HandOuts.{hand_out, hand_outs};
ghost use Rattle.wb_step.specs.Locality.{HasAllNamed, IsPartOf, IsSingle, LooksAlike, changed};
ghost use Rattle.wb_step.specs.Locality.{entry_put};
ghost use Rattle.wb_step.specs.Targets.{MayChange, MayTakeAway, again_of};
ghost use Rattle.wb_step.specs.MergedParts.{IsJoined, is_part_for, part_for_merge};
ghost use Rattle.wb_step.specs.Named.{part_named};
ghost use Rattle.wb_step.specs.Parts.{part_listing, records_with};
ghost use Rattle.wb_step.specs.Replay.{replay};
ghost use Rattle.wb_states.specs.Forms.{Built, Merge, Next};
ghost use Rattle.wb_step.specs.Step.{step};
ghost use Rattle.wb_step.specs.Utf8.{HasUtf8Texts, HaveUtf8Texts};

/// Every step keeps the invariant of the office, over every state and command, and so does every
/// list of commands from the empty office on: a source package on an architecture has at most one
/// holder, which was added for that architecture, no take number is held twice, and all that is
/// kept has its form. The free texts of a command are UTF-8, as each text of a program is.
pub fn steps_keep_consistency()
    ensures empty { IsConsistent empty_office }
    ensures step { (machine : Machine) (command : Command) → HasUtf8Texts command
        → IsConsistent machine → IsConsistent (step machine command).1 }
    ensures replay { (machine : Machine) (commands : List Command) → HaveUtf8Texts commands
        → IsConsistent machine → IsConsistent (replay machine commands) }
{}

/// Every step keeps that a record has a take number exactly in the states in which a builder holds
/// it, from the empty office on; and so it is in each office of which the invariant holds.
pub fn takes_stand_by_state()
    ensures empty { HasTakesByState empty_office }
    ensures consistent { (machine : Machine) → IsConsistent machine → HasTakesByState machine }
    ensures step { (machine : Machine) (command : Command)
        → HasTakesByState machine → HasTakesByState (step machine command).1 }
{}

/// The take numbers of what is handed out rise strictly from above the last one that was given, so
/// that none is given twice. If one source package is handed out twice on an architecture, a
/// command between the two was accepted and ended the first hold: a report of its holder, such as
/// `attempted`, a command that names it, or a merge.
pub fn takes_rise()
    ensures rise { (machine : Machine) (commands : List Command)
        → Rise machine.handed (hand_outs machine commands) }
    ensures ends { (machine : Machine)
        (before : List Command) (first : Command) (between : List Command) (second : Command)
        (given later : HandOut)
        → HasTakesByState machine
        → hand_out (replay machine before) first ≡ Some given
        → hand_out (replay machine (before ++ first ∷ between)) second ≡ Some later
        → given.key ≡ later.key → Ends (step (replay machine before) first).1 between given }
{}

/// The two counts never fall, and a command that is refused changes nothing.
pub fn counts_never_fall()
    ensures handed { (machine : Machine) (command : Command)
        → machine.handed ≤ (step machine command).1.handed }
    ensures accepted { (machine : Machine) (command : Command)
        → machine.accepted ≤ (step machine command).1.accepted }
    ensures unchanged { (machine : Machine) (command : Command) (refusal : Refusal)
        → (step machine command).0 ≡ Err refusal → (step machine command).1 ≡ machine }
{}

/// What a reply hands out is held after it: the record of the source package is being built, by the
/// builder to which it was handed, under the reply's take number.
pub fn hand_outs_are_held()
    ensures held { (machine : Machine) (command : Command) (given : HandOut)
        → hand_out machine command ≡ Some given
        → (current : Record) × ((map.get (step machine command).1.records given.key ≡ Some current)
        × IsBeingBuilt given current) }
{}

/// If a builder asks again at once for the head of a queue, with the take number that it asked
/// with, it gets the same assignment, and nothing changes. In a consistent office this is so if it
/// lost the answer and asks after the last number that was given before, whatever it asked with the
/// first time.
pub fn retries_are_idempotent()
    ensures again { (machine : Machine) (arch builder : List ℕ) (after accepted : ℕ)
        (given : Assignment)
        → (step machine (Next arch builder (Some after))).0 ≡ Ok (Job accepted given)
        → step (step machine (Next arch builder (Some after))).1 (Next arch builder (Some after))
        ≡ (Ok (Again accepted given), (step machine (Next arch builder (Some after))).1) }
    ensures lost { (machine : Machine) (arch builder : List ℕ) (after : Option ℕ) (accepted : ℕ)
        (given : Assignment) → IsConsistent machine
        → (step machine (Next arch builder after)).0 ≡ Ok (Job accepted given)
        → step (step machine (Next arch builder after)).1 (Next arch builder (Some machine.handed))
        ≡ (Ok (Again accepted given), (step machine (Next arch builder after)).1) }
{}

/// A take number is a fencing token: one that was given and under which nothing is held is never
/// held again, so that each later command under it is refused, however late it comes.
pub fn ended_takes_stay_ended()
    ensures ended { (machine : Machine) (commands : List Command) (take_number : ℕ)
        → take_number ≤ machine.handed → taken_as machine take_number ≡ None
        → taken_as (replay machine commands) take_number ≡ None }
    ensures refused { (machine : Machine) (commands : List Command) (take_number : ℕ)
        (command : Command)
        → take_number ≤ machine.handed → taken_as machine take_number ≡ None
        → take_named command ≡ Some take_number
        → is_ok (step (replay machine commands) command).0 ≡ false }
    ensures not_held { (machine : Machine) (commands : List Command) (take_number : ℕ)
        → take_number ≤ machine.handed → taken_as machine take_number ≡ None
        → (step (replay machine commands) (Built take_number)).0 ≡ Err NotHeld }
{}

/// A command changes no record but the one that it enters, moves, gives a build priority or
/// forgets; a merge changes only records of its parts' architectures, a report only those of its
/// architecture that its lines name, and an architecture that is taken away takes only its own
/// records with it.
pub fn commands_leave_other_records()
    ensures others { (machine : Machine) (command : Command) (key : List ℕ × List ℕ)
        → (MayChange machine command key → ⊥)
        → map.get (step machine command).1.records key ≡ map.get machine.records key }
{}

/// A source package that has a record keeps one, unless the command merges its architecture, takes
/// its architecture away or forgets it: neither a builder nor a report loses a package.
pub fn records_stay()
    ensures stays { (machine : Machine) (command : Command) (key : List ℕ × List ℕ)
        → (MayTakeAway (arguments_of command).imports (arguments_of command).removes key → ⊥)
        → IsTrue (is_some (map.get machine.records key))
        → IsTrue (is_some (map.get (step machine command).1.records key)) }
{}

/// A builder that asks for the head of a queue is handed the first of the queue, and the rest stays
/// in its order.
pub fn next_takes_the_head()
    ensures queue { (machine : Machine) (arch builder : List ℕ) (after : Option ℕ) (accepted : ℕ)
        (given : Assignment)
        → (step machine (Next arch builder after)).0 ≡ Ok (Job accepted given)
        → (current : Record) × (queue_of machine arch
        ≡ ((arch, given.source), current)
        ∷ queue_of (step machine (Next arch builder after)).1 arch) }
{}

/// The parts of an accepted merge are independent: the records of a part's architecture are
/// afterwards what that part alone makes of the records before the merge, or as they were if it is
/// refused.
pub fn parts_are_merged_apart()
    ensures part { (machine : Machine) (sources : List ℕ) (before : List Part) (part : Part)
        (behind : List Part) (key : List ℕ × List ℕ)
        → is_ok (step machine (Merge sources (before ++ part ∷ behind))).0 ≡ true
        → key.0 ≡ part.arch
        → map.get (step machine (Merge sources (before ++ part ∷ behind))).1.records key
        ≡ map.get (records_with machine.records part.arch (part_listing machine sources part)) key }
{}

/// A command that imports nothing, as a merge and a report do, and takes no architecture away looks
/// at the counts, the architectures, the architectures of its builder, and the records that it
/// names: by key, by take number, at the head of a queue, or as what its builder builds or holds.
/// Two offices in which these are the same give it the same answer, and it puts the same record
/// into both. It changes nothing else.
pub fn commands_look_only_at_what_they_name()
    ensures answer { (command : Command) (one other : Machine) → LooksAlike command one other
        → (step one command).0 ≡ (step other command).0 }
    ensures entry { (command : Command) (one other : Machine) → LooksAlike command one other
        → entry_put one command ≡ entry_put other command }
    ensures change { (command : Command) (machine : Machine) → IsSingle command
        → first_refusal machine command ≡ None → again_of machine command ≡ None
        → (step machine command).1 ≡ changed machine command }
{}

/// A part of a consistent office is consistent, and if it has all that a command names, it looks
/// alike to the command. So a command can be carried out over the rows that it names alone.
pub fn parts_of_an_office_answer_alike()
    ensures consistent { (part whole : Machine) → IsPartOf part whole → IsConsistent whole → IsConsistent part }
    ensures alike { (part whole : Machine) → IsPartOf part whole → (command : Command)
        → IsConsistent whole → HasAllNamed command part whole → LooksAlike command part whole }
    ensures part { (machine : Machine) (command : Command) → IsConsistent machine
        → IsPartOf (part_named machine command) machine }
    ensures named { (machine : Machine) (command : Command) → IsConsistent machine
        → IsSingle command → HasAllNamed command (part_named machine command) machine }
{}

/// A merge looks at the counts, the architectures, and the records of the architectures that its
/// parts are for. The part of a consistent office that has these alone is consistent, and gives a
/// merge the same answer. It has afterwards the records that the whole office has of these
/// architectures, and no other; and the whole office has the rest as it was. So a merge can be
/// carried out over the rows of its architectures alone.
pub fn merges_look_only_at_their_architectures()
    ensures part { (machine : Machine) (parts : List Part) → IsConsistent machine
        → IsPartOf (part_for_merge machine parts) machine }
    ensures consistent { (machine : Machine) (parts : List Part) → IsConsistent machine
        → IsConsistent (part_for_merge machine parts) }
    ensures answer { (machine : Machine) (sources : List ℕ) (parts : List Part)
        → (step (part_for_merge machine parts) (Merge sources parts)).0
        ≡ (step machine (Merge sources parts)).0 }
    ensures joined { (machine : Machine) (sources : List ℕ) (parts : List Part)
        → IsJoined parts (step (part_for_merge machine parts) (Merge sources parts)).1
        machine (step machine (Merge sources parts)).1 }
    ensures alone { (machine : Machine) (sources : List ℕ) (parts : List Part) (key : List ℕ × List ℕ)
        → is_part_for parts key.0 ≡ false
        → map.get (step (part_for_merge machine parts) (Merge sources parts)).1.records key ≡ None }
{}

/// A command is refused by its texts or by what the office has: no step answers that the office is
/// closed, that its store failed or that memory ran out.
pub fn refusals_are_of_the_state()
    ensures value { (machine : Machine) (command : Command) → IfErr (step machine command).0
        (λ refusal. (is_of_store refusal ≡ false) × IsOfMachine refusal) }
{}
