//! What an office promises of the commands and the queries that it is given, wherever it keeps its
//! state.
ghost use Rattle.std.specs.Prelude.{◌≡◌, ◌↔◌, IfOk, IfErr, IsTrue, Ok, Err, false, true};
ghost use Rattle.wb_states.specs.declared.refusal.Refusal.TheVariants.{Closed, Memory, Store};
ghost use Rattle.wb_states.specs.declared.store_fault.StoreFault.{StoreFault};
ghost use Rattle.wb_states.specs.Holds.{holder_of};
ghost use Rattle.wb_states.specs.Machine.{IsConsistent, Machine};
ghost use Rattle.wb_states.specs.Refusals.{IsOfMachine};
ghost use Rattle.wb_step.specs.Checks.{MayWantMemory};
ghost use Rattle.wb_states.specs.Refusals.{is_of_store};
ghost use Rattle.wb_states.specs.Queries.{answer_of, has_malformed_name};
ghost use Rattle.wb_step.specs.Offices.{StandsOn};
ghost use Rattle.wb_step.specs.Step.{step};

use deb_text::Text;
use wb_states::{Answer, Command, Query, Refusal, Reply};

/// An office that carries out commands and answers queries. Its clauses speak of a state of the
/// office at which it stands, and say what is so of each such state (this project's own).
pub trait CarryOut {
    // What was read of the store is what was written to it: for files this is so if nobody else
    // writes them and the disk gives back what it was given.
    ghost is_clean: { Self → Type 0 };

    // The office is in this state, which is consistent. If the office is closed, a crash leaves
    // this state.
    ghost stands_at: { Self → Machine → Type 0 };

    // The office is closed: it answers `Closed` to each command until it is opened again.
    ghost is_closed: { Self → Type 0 };

    // The office is closed, since its store failed with this fault, and a crash leaves one of these
    // two states.
    ghost leaves: { Self → Machine → Machine → StoreFault → Type 0 };

    // The store of the office cannot be used on: it failed at a call that does nothing, or at the
    // one that was to take a transaction back.
    ghost cannot_go_on: { Self → Type 0 };

    /// How many commands were accepted. Takes no memory (this project's own).
    fn accepted_count(&self) -> u64
        ensures value { (machine : Machine) → is_clean self.now → stands_at self.now machine
            → result ≡ machine.accepted };

    /// Whether the office is closed: it answers `Closed` to each command and query, until it is
    /// opened again. Takes no memory (this project's own).
    fn closed(&self) -> bool
        ensures value { IsTrue result ↔ is_closed self.now };

    /// Carries out one command, whole or not at all, and answers it.
    ///
    /// The refusal is the first that is true of the command in the order of [`Refusal`], and the
    /// office is then as it was. `Memory` comes if there is no memory for it, and for no command
    /// that a check of its texts refuses without memory; the office is then as it was, and is
    /// closed only if its store cannot be used on. `Store` comes if the store failed, and only once
    /// the texts were tested: the office is closed, and a crash leaves the state before the command
    /// or the state after it, whole. A closed office, and no other, answers `Closed` to each
    /// command (this project's own).
    fn carry_out(&mut self, command: &Command) -> Result<Reply, Refusal>
        // whatever the store gives back
        ensures shut { is_closed self.old → (result ≡ Err Closed) × is_closed self.new }
        ensures told { result ≡ Err Closed → is_closed self.old }
        ensures stands { ¬ is_closed self.old → StandsOn (is_closed self.new) result }
        // at each state at which it stands
        ensures clean { is_clean self.new → is_clean self.old }
        ensures reply { (machine : Machine) → is_clean self.new → stands_at self.old machine
            → IfOk result (λ reply. ((step machine command.now).0 ≡ Ok reply)
            × stands_at self.new (step machine command.now).1) }
        ensures refused { (machine : Machine) → is_clean self.new → stands_at self.old machine
            → IfErr result (λ refusal. IsOfMachine refusal → is_of_store refusal ≡ false
            → ((step machine command.now).0 ≡ Err refusal) × stands_at self.new machine) }
        ensures memory { (machine : Machine) → is_clean self.new → stands_at self.old machine
            → result ≡ Err Memory → MayWantMemory command.now × stands_at self.new machine }
        ensures cause { (machine : Machine) → is_clean self.new → stands_at self.old machine → ¬ is_closed self.old
            → result ≡ Err Memory → is_closed self.new → cannot_go_on self.new }
        ensures closed { (machine : Machine) → is_clean self.new → stands_at self.old machine
            → result ≡ Err Closed → is_closed self.new × stands_at self.new machine }
        ensures store { (machine : Machine) → is_clean self.new → stands_at self.old machine → (fault : StoreFault)
            → result ≡ Err (Store fault) → leaves self.new machine (step machine command.now).1 fault };

    /// Answers a query, which changes nothing: the queue of an architecture, its records in a state
    /// or how many are in each, a record or what it needs to be built, or what a builder holds by
    /// take number.
    ///
    /// The refusals come in this order: `Closed`, `BadName` if a name is malformed or no state has
    /// the state's name, `UnknownArch` if the architecture was never added, `UnknownBuilder` if the
    /// builder was added for no architecture, `UnknownSource` if the source package has no record
    /// there. `Memory` and `Store` come as for [`carry_out`](CarryOut::carry_out), but not for a
    /// malformed name. The office is as it was after each answer; after `Store` it is closed, and a
    /// crash leaves the state that it had (this project's own).
    fn ask(&mut self, query: &Query) -> Result<Answer, Refusal>
        // whatever the store gives back
        ensures shut { is_closed self.old → (result ≡ Err Closed) × is_closed self.new }
        ensures told { result ≡ Err Closed → is_closed self.old }
        ensures stands { ¬ is_closed self.old → StandsOn (is_closed self.new) result }
        // at each state at which it stands
        ensures clean { is_clean self.new → is_clean self.old }
        ensures answer { (machine : Machine) → is_clean self.new → stands_at self.old machine
            → IfOk result (λ answer. (answer_of machine query.now ≡ Ok answer)
            × stands_at self.new machine) }
        ensures refused { (machine : Machine) → is_clean self.new → stands_at self.old machine
            → IfErr result (λ refusal. IsOfMachine refusal → is_of_store refusal ≡ false
            → (answer_of machine query.now ≡ Err refusal) × stands_at self.new machine) }
        ensures memory { (machine : Machine) → is_clean self.new → stands_at self.old machine
            → result ≡ Err Memory
            → (has_malformed_name query.now ≡ false) × stands_at self.new machine }
        ensures cause { (machine : Machine) → is_clean self.new → stands_at self.old machine → ¬ is_closed self.old
            → result ≡ Err Memory → is_closed self.new → cannot_go_on self.new }
        ensures closed { (machine : Machine) → is_clean self.new → stands_at self.old machine
            → result ≡ Err Closed → is_closed self.new × stands_at self.new machine }
        ensures store { (machine : Machine) → is_clean self.new → stands_at self.old machine → (fault : StoreFault)
            → result ≡ Err (Store fault) → leaves self.new machine machine fault };

    /// The builder of the record that is held under this take number, or none if nobody holds it,
    /// as for a number that was never given.
    ///
    /// `Closed` comes of a closed office, and of no other. `Memory` comes if there is no memory for
    /// what is read; the office is then as it was, and is closed only if its store cannot be used
    /// on. `Store` comes if the store failed: the office is closed, and a crash leaves the state
    /// that it had. No other refusal comes, and nothing changes (this project's own).
    fn holder_of(&mut self, take_number: u64) -> Result<Option<Text>, Refusal>
        // whatever the store gives back
        ensures shut { is_closed self.old → (result ≡ Err Closed) × is_closed self.new }
        ensures told { result ≡ Err Closed → is_closed self.old }
        ensures stands { ¬ is_closed self.old → StandsOn (is_closed self.new) result }
        ensures refused { IfErr result (λ refusal. IsOfMachine refusal → is_of_store refusal ≡ true) }
        // at each state at which it stands
        ensures clean { is_clean self.new → is_clean self.old }
        ensures holder { (machine : Machine) → is_clean self.new → stands_at self.old machine
            → IfOk result (λ holder. (holder ≡ holder_of machine take_number) × stands_at self.new machine) }
        ensures memory { (machine : Machine) → is_clean self.new → stands_at self.old machine
            → result ≡ Err Memory → stands_at self.new machine }
        ensures cause { (machine : Machine) → is_clean self.new → stands_at self.old machine → ¬ is_closed self.old
            → result ≡ Err Memory → is_closed self.new → cannot_go_on self.new }
        ensures closed { (machine : Machine) → is_clean self.new → stands_at self.old machine
            → result ≡ Err Closed → is_closed self.new × stands_at self.new machine }
        ensures store { (machine : Machine) → is_clean self.new → stands_at self.old machine → (fault : StoreFault)
            → result ≡ Err (Store fault) → leaves self.new machine machine fault };

    /// Says who gives the commands that come next, as far as that is known: the name on the line of
    /// their key, or none. An office may note it; it changes nothing else. Takes no memory (this
    /// project's own).
    fn asked_by(&mut self, name: Option<&Text>)
        ensures clean { is_clean self.new ↔ is_clean self.old }
        ensures closed { is_closed self.new ↔ is_closed self.old }
        ensures stands { (machine : Machine) → stands_at self.new machine ↔ stands_at self.old machine }
        ensures leaves { (before after : Machine) (fault : StoreFault)
            → leaves self.new before after fault ↔ leaves self.old before after fault }
        ensures goes_on { cannot_go_on self.new ↔ cannot_go_on self.old };

    // A state at which an office stands is consistent.
    // An opening finds it out by the rows that it tests, and each command keeps it. So the calls
    // need no premise for what must never break, which every caller would have to carry along, and
    // conditions of the tables can be met by their callers.
    ghost consistent: { (office : Self) (machine : Machine) → stands_at office machine → IsConsistent machine };
}
