//! The layer around an office that writes its journal.
ghost use Rattle.std.specs.Prelude.{◌≡◌, ◌↔◌, ◌∷◌, ◌++◌, List, [], Err, IfErr, IfOk, None, Ok};
ghost use Rattle.std.specs.Prelude.{Some, false, map, true};
ghost use Rattle.std.specs.Option.{option_copied};
ghost use Rattle.wb_archive.specs.Readers.{IsMergeOf, MayLeave, archs_refusal};
ghost use Rattle.wb_journal.specs.Appended.{Entry, asker_of, entries_of_command, entries_of_merge};
ghost use Rattle.wb_journal.specs.Appended.{is_new, merge_of_readers, noted};
ghost use Rattle.wb_states.specs.declared.refusal.Refusal.{Refusal as AnyRefusal};
ghost use Rattle.wb_states.specs.declared.refusal.Refusal.TheVariants.{Closed, Memory};
ghost use Rattle.wb_states.specs.declared.refusal.Refusal.TheVariants.{Store as OfStore};
ghost use Rattle.wb_states.specs.declared.store_fault.StoreFault.{StoreFault};
ghost use Rattle.wb_states.specs.Holds.{holder_of};
ghost use Rattle.wb_states.specs.Machine.{Machine};
ghost use Rattle.wb_states.specs.Queries.{answer_of, has_malformed_name};
ghost use Rattle.wb_states.specs.Refusals.{IsOfMachine, is_of_store};
ghost use Rattle.wb_step.specs.Checks.{MayWantMemory};
ghost use Rattle.wb_step.specs.Offices.{StandsOn};
ghost use Rattle.wb_step.specs.Step.{step};

use crate::Asker;
use deb_text::Text;
use std::io::BufRead;
use wb_archive::{ArchList, MergeFrom, TellChanges};
use wb_merge::ArchChanges;
use wb_states::{Answer, Command, Query, Refusal, Reply};
use wb_step::CarryOut;

/// Where entries go. What becomes of an entry that cannot be written is the journal's own affair:
/// nothing of the office depends on it (this project's own).
pub trait Journal {
    // The entries that were given, the oldest first: commands that an office accepted, each with
    // who gave it, its reply and what it changed.
    ghost entries: { Self → List Entry };

    /// Appends the entry of a command that the office accepted, and committed, with who gave it,
    /// its reply, and what it changed, architecture by architecture, or nothing if that is not
    /// known.
    fn append(&mut self, by: &Asker, command: &Command, reply: &Reply, changes: &[ArchChanges])
        ensures appended { entries self.new ≡ entries self.old
            ++ record {
              by = by.now;
              command = command.now;
              reply = reply.now;
              changes = map noted changes.now;
            } ∷ [] };

    /// Appends the entry of a merge of lists that readers gave, which the office accepted, and
    /// committed, with who gave it, its reply and what it changed.
    fn append_merge(&mut self, by: &Asker, reply: &Reply, changes: &[ArchChanges])
        ensures appended { entries self.new ≡ entries self.old
            ++ record {
              by = by.now;
              command = merge_of_readers;
              reply = reply.now;
              changes = map noted changes.now;
            } ∷ [] };
}

/// An office that has each command that it accepts appended to a journal once it is committed, with
/// who gave it as it was told last, and with what the office tells of its changes. It promises what
/// the office promises. A retry, which is answered with what the builder has already, is no new
/// command and has no entry (this project's own).
#[derive(Drop)]
pub struct Journaled<'a, O: TellChanges, J: Journal + Drop> {
    office: &'a mut O,
    /// The journal.
    pub journal: J,
    /// Who gives the commands that come next.
    pub by: Asker,
}

impl<'a, O: TellChanges, J: Journal + Drop> Journaled<'a, O, J> {
    /// The office with its journal, and nobody who is known to give commands. Takes no memory.
    pub fn new(office: &'a mut O, journal: J) -> Self
        ensures value { result.journal ≡ journal }
        ensures by { result.by ≡ None }
    {
        Journaled {
            office,
            journal,
            by: Asker::nobody(),
        }
    }
}

/// Whether the reply is to a command that was carried out, and not to a retry.
fn is_new(reply: &Reply) -> bool
    ensures { result ≡ is_new reply.now }
{
    !matches!(reply, Reply::Again { .. })
}

impl<'a, O: TellChanges, J: Journal + Drop> CarryOut for Journaled<'a, O, J> {
    ghost is_clean = { λ journaled. O.CarryOut.is_clean journaled.office.now };

    ghost stands_at = { λ journaled machine. O.CarryOut.stands_at journaled.office.now machine };

    ghost is_closed = { λ journaled. O.CarryOut.is_closed journaled.office.now };

    ghost leaves = { λ journaled before after fault. O.CarryOut.leaves journaled.office.now before after fault };

    ghost cannot_go_on = { λ journaled. O.CarryOut.cannot_go_on journaled.office.now };

    fn accepted_count(&self) -> u64 {
        self.office.accepted_count()
    }

    fn closed(&self) -> bool {
        self.office.closed()
    }

    // It promises what its office promises, of the same states, and has an entry more for a command
    // that was accepted.
    fn carry_out(&mut self, command: &Command) -> Result<Reply, Refusal>
        // whatever the store gives back
        ensures shut { O.CarryOut.is_closed self.old.office.now
            → (result ≡ Err Closed) × O.CarryOut.is_closed self.new.office.now }
        ensures told { result ≡ Err Closed → O.CarryOut.is_closed self.old.office.now }
        ensures stands { ¬ O.CarryOut.is_closed self.old.office.now
            → StandsOn (O.CarryOut.is_closed self.new.office.now) result }
        ensures entries { J.Journal.entries self.new.journal
            ≡ J.Journal.entries self.old.journal ++ entries_of_command self.old.by command.now
            (O.TellChanges.told self.new.office.now) result }
        ensures by { self.new.by ≡ self.old.by }
        // at each state at which the office stands
        ensures clean { O.CarryOut.is_clean self.new.office.now → O.CarryOut.is_clean self.old.office.now }
        ensures reply { (machine : Machine) → O.CarryOut.is_clean self.new.office.now
            → O.CarryOut.stands_at self.old.office.now machine
            → IfOk result (λ reply. ((step machine command.now).0 ≡ Ok reply)
            × O.CarryOut.stands_at self.new.office.now (step machine command.now).1) }
        ensures refused { (machine : Machine) → O.CarryOut.is_clean self.new.office.now
            → O.CarryOut.stands_at self.old.office.now machine
            → IfErr result (λ refusal. IsOfMachine refusal → is_of_store refusal ≡ false
            → ((step machine command.now).0 ≡ Err refusal)
            × O.CarryOut.stands_at self.new.office.now machine) }
        ensures memory { (machine : Machine) → O.CarryOut.is_clean self.new.office.now
            → O.CarryOut.stands_at self.old.office.now machine
            → result ≡ Err Memory
            → MayWantMemory command.now × O.CarryOut.stands_at self.new.office.now machine }
        ensures cause { (machine : Machine) → O.CarryOut.is_clean self.new.office.now
            → O.CarryOut.stands_at self.old.office.now machine → ¬ O.CarryOut.is_closed self.old.office.now
            → result ≡ Err Memory → O.CarryOut.is_closed self.new.office.now
            → O.CarryOut.cannot_go_on self.new.office.now }
        ensures closed { (machine : Machine) → O.CarryOut.is_clean self.new.office.now
            → O.CarryOut.stands_at self.old.office.now machine
            → result ≡ Err Closed
            → O.CarryOut.is_closed self.new.office.now × O.CarryOut.stands_at self.new.office.now machine }
        ensures store { (machine : Machine) → O.CarryOut.is_clean self.new.office.now
            → O.CarryOut.stands_at self.old.office.now machine
            → (fault : StoreFault) → result ≡ Err (OfStore fault)
            → O.CarryOut.leaves self.new.office.now machine (step machine command.now).1 fault }
    {
        let answer = self.office.carry_out(command);
        if let Ok(reply) = &answer {
            if is_new(reply) {
                self.journal
                    .append(&self.by, command, reply, self.office.changes());
            }
        }
        answer
    }

    // It promises what its office promises, of the same states, and the journal stays as it is.
    fn ask(&mut self, query: &Query) -> Result<Answer, Refusal>
        // whatever the store gives back
        ensures shut { O.CarryOut.is_closed self.old.office.now
            → (result ≡ Err Closed) × O.CarryOut.is_closed self.new.office.now }
        ensures told { result ≡ Err Closed → O.CarryOut.is_closed self.old.office.now }
        ensures stands { ¬ O.CarryOut.is_closed self.old.office.now
            → StandsOn (O.CarryOut.is_closed self.new.office.now) result }
        ensures kept { (J.Journal.entries self.new.journal ≡ J.Journal.entries self.old.journal)
            × (self.new.by ≡ self.old.by) }
        // at each state at which the office stands
        ensures clean { O.CarryOut.is_clean self.new.office.now → O.CarryOut.is_clean self.old.office.now }
        ensures answer { (machine : Machine) → O.CarryOut.is_clean self.new.office.now
            → O.CarryOut.stands_at self.old.office.now machine
            → IfOk result (λ answer. (answer_of machine query.now ≡ Ok answer)
            × O.CarryOut.stands_at self.new.office.now machine) }
        ensures refused { (machine : Machine) → O.CarryOut.is_clean self.new.office.now
            → O.CarryOut.stands_at self.old.office.now machine
            → IfErr result (λ refusal. IsOfMachine refusal → is_of_store refusal ≡ false
            → (answer_of machine query.now ≡ Err refusal) × O.CarryOut.stands_at self.new.office.now machine) }
        ensures memory { (machine : Machine) → O.CarryOut.is_clean self.new.office.now
            → O.CarryOut.stands_at self.old.office.now machine
            → result ≡ Err Memory
            → (has_malformed_name query.now ≡ false) × O.CarryOut.stands_at self.new.office.now machine }
        ensures cause { (machine : Machine) → O.CarryOut.is_clean self.new.office.now
            → O.CarryOut.stands_at self.old.office.now machine → ¬ O.CarryOut.is_closed self.old.office.now
            → result ≡ Err Memory → O.CarryOut.is_closed self.new.office.now
            → O.CarryOut.cannot_go_on self.new.office.now }
        ensures closed { (machine : Machine) → O.CarryOut.is_clean self.new.office.now
            → O.CarryOut.stands_at self.old.office.now machine
            → result ≡ Err Closed
            → O.CarryOut.is_closed self.new.office.now × O.CarryOut.stands_at self.new.office.now machine }
        ensures store { (machine : Machine) → O.CarryOut.is_clean self.new.office.now
            → O.CarryOut.stands_at self.old.office.now machine
            → (fault : StoreFault) → result ≡ Err (OfStore fault)
            → O.CarryOut.leaves self.new.office.now machine machine fault }
    {
        self.office.ask(query)
    }

    // It promises what its office promises, of the same states, and the journal stays as it is.
    fn holder_of(&mut self, take_number: u64) -> Result<Option<Text>, Refusal>
        // whatever the store gives back
        ensures shut { O.CarryOut.is_closed self.old.office.now
            → (result ≡ Err Closed) × O.CarryOut.is_closed self.new.office.now }
        ensures told { result ≡ Err Closed → O.CarryOut.is_closed self.old.office.now }
        ensures stands { ¬ O.CarryOut.is_closed self.old.office.now
            → StandsOn (O.CarryOut.is_closed self.new.office.now) result }
        ensures refused { IfErr result (λ refusal. IsOfMachine refusal → is_of_store refusal ≡ true) }
        ensures kept { (J.Journal.entries self.new.journal ≡ J.Journal.entries self.old.journal)
            × (self.new.by ≡ self.old.by) }
        // at each state at which the office stands
        ensures clean { O.CarryOut.is_clean self.new.office.now → O.CarryOut.is_clean self.old.office.now }
        ensures holder { (machine : Machine) → O.CarryOut.is_clean self.new.office.now
            → O.CarryOut.stands_at self.old.office.now machine
            → IfOk result (λ holder. (holder ≡ holder_of machine take_number)
            × O.CarryOut.stands_at self.new.office.now machine) }
        ensures memory { (machine : Machine) → O.CarryOut.is_clean self.new.office.now
            → O.CarryOut.stands_at self.old.office.now machine
            → result ≡ Err Memory → O.CarryOut.stands_at self.new.office.now machine }
        ensures cause { (machine : Machine) → O.CarryOut.is_clean self.new.office.now
            → O.CarryOut.stands_at self.old.office.now machine → ¬ O.CarryOut.is_closed self.old.office.now
            → result ≡ Err Memory → O.CarryOut.is_closed self.new.office.now
            → O.CarryOut.cannot_go_on self.new.office.now }
        ensures closed { (machine : Machine) → O.CarryOut.is_clean self.new.office.now
            → O.CarryOut.stands_at self.old.office.now machine
            → result ≡ Err Closed
            → O.CarryOut.is_closed self.new.office.now × O.CarryOut.stands_at self.new.office.now machine }
        ensures store { (machine : Machine) → O.CarryOut.is_clean self.new.office.now
            → O.CarryOut.stands_at self.old.office.now machine
            → (fault : StoreFault) → result ≡ Err (OfStore fault)
            → O.CarryOut.leaves self.new.office.now machine machine fault }
    {
        self.office.holder_of(take_number)
    }

    // It promises what its office promises, and notes who gives the commands that come next.
    fn asked_by(&mut self, name: Option<&Text>)
        ensures clean { O.CarryOut.is_clean self.new.office.now ↔ O.CarryOut.is_clean self.old.office.now }
        ensures closed { O.CarryOut.is_closed self.new.office.now ↔ O.CarryOut.is_closed self.old.office.now }
        ensures stands { (machine : Machine)
            → O.CarryOut.stands_at self.new.office.now machine ↔ O.CarryOut.stands_at self.old.office.now machine }
        ensures leaves { (before after : Machine) (fault : StoreFault)
            → O.CarryOut.leaves self.new.office.now before after fault
            ↔ O.CarryOut.leaves self.old.office.now before after fault }
        ensures goes_on { O.CarryOut.cannot_go_on self.new.office.now ↔ O.CarryOut.cannot_go_on self.old.office.now }
        ensures by { self.new.by ≡ asker_of (option_copied name.entry) }
        ensures entries { J.Journal.entries self.new.journal ≡ J.Journal.entries self.old.journal }
    {
        self.by = Asker::of(name);
        self.office.asked_by(name);
    }

    ghost consistent = { λ journaled machine stands. O.CarryOut.consistent journaled.office.now machine stands };
}

impl<'a, O: MergeFrom + TellChanges, J: Journal + Drop> MergeFrom for Journaled<'a, O, J> {
    // It promises what its office promises, of the same states, and has an entry more for a merge
    // that was accepted.
    fn merge_from<R: BufRead + Drop>(
        &mut self,
        sources: R,
        parts: Vec<ArchList<R>>,
    ) -> Result<Reply, Refusal>
        // whatever the store gives back
        ensures shut { O.CarryOut.is_closed self.old.office.now
            → (result ≡ Err Closed) × O.CarryOut.is_closed self.new.office.now }
        ensures told { result ≡ Err Closed → O.CarryOut.is_closed self.old.office.now }
        ensures stands { ¬ O.CarryOut.is_closed self.old.office.now
            → StandsOn (O.CarryOut.is_closed self.new.office.now) result }
        ensures names { ¬ O.CarryOut.is_closed self.old.office.now → (refusal : AnyRefusal)
            → archs_refusal parts.items ≡ Some refusal → result ≡ Err refusal }
        ensures entries { J.Journal.entries self.new.journal
            ≡ J.Journal.entries self.old.journal ++ entries_of_merge self.old.by
            (O.TellChanges.told self.new.office.now) result }
        ensures by { self.new.by ≡ self.old.by }
        // at each state at which the office stands
        ensures clean { O.CarryOut.is_clean self.new.office.now → O.CarryOut.is_clean self.old.office.now }
        ensures reply { (machine : Machine) → O.CarryOut.is_clean self.new.office.now
            → O.CarryOut.stands_at self.old.office.now machine
            → IfOk result (λ reply. (after : Machine)
            × (IsMergeOf R.remaining sources parts.items machine (Ok reply, after)
            × O.CarryOut.stands_at self.new.office.now after)) }
        ensures refused { (machine : Machine) → O.CarryOut.is_clean self.new.office.now
            → O.CarryOut.stands_at self.old.office.now machine
            → IfErr result (λ refusal. IsOfMachine refusal → is_of_store refusal ≡ false
            → IsMergeOf R.remaining sources parts.items machine (Err refusal, machine)
            × O.CarryOut.stands_at self.new.office.now machine) }
        ensures memory { (machine : Machine) → O.CarryOut.is_clean self.new.office.now
            → O.CarryOut.stands_at self.old.office.now machine
            → result ≡ Err Memory → O.CarryOut.stands_at self.new.office.now machine }
        ensures cause { (machine : Machine) → O.CarryOut.is_clean self.new.office.now
            → O.CarryOut.stands_at self.old.office.now machine → ¬ O.CarryOut.is_closed self.old.office.now
            → result ≡ Err Memory → O.CarryOut.is_closed self.new.office.now
            → O.CarryOut.cannot_go_on self.new.office.now }
        ensures closed { (machine : Machine) → O.CarryOut.is_clean self.new.office.now
            → O.CarryOut.stands_at self.old.office.now machine
            → result ≡ Err Closed
            → O.CarryOut.is_closed self.new.office.now × O.CarryOut.stands_at self.new.office.now machine }
        ensures store { (machine : Machine) → O.CarryOut.is_clean self.new.office.now
            → O.CarryOut.stands_at self.old.office.now machine
            → (fault : StoreFault) → result ≡ Err (OfStore fault) → (after : Machine)
            × (MayLeave R.remaining sources parts.items machine after
            × O.CarryOut.leaves self.new.office.now machine after fault) }
    {
        let answer = self.office.merge_from(sources, parts);
        if let Ok(reply) = &answer {
            self.journal
                .append_merge(&self.by, reply, self.office.changes());
        }
        answer
    }
}
