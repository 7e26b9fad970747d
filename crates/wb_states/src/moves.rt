//! The moves of a record from state to state.
ghost use Rattle.std.specs.Prelude.{◌≡◌, ◌≢◌, None, Some, Ok, Err, IsTrue, IfOk, IfErr, OnOk, OnErr, if◌then◌else◌};
ghost use Rattle.wb_states.specs.declared.refusal.Refusal.TheVariants.{Memory};
ghost use Rattle.wb_states.specs.Moves.{may_go, goal_of, set_by, note_of, note_after, in_state, waits_for, waits_refusal, value_refusal, has_higher_number, MayWantMemory, move_refusal, record_after_move, move_outcome, build_text_of};

use crate::{Record, Refusal, State};
use deb_relations::{ArchWords, RELATIONS_LIMIT, RelationFault, Relations};
use deb_text::Text;
use std::alloc::{AllocError, Global};

// A move takes relations, words and a number that were read: texts are read, and their faults
// found, before a record is moved. So a move refuses only what it needs the record to know: the
// state, waits of which nothing is left for the architecture (reduced, they print as no text), and
// a number that is not above the record's. `next` and `take` are one move, since they differ in how
// the record is found.
/// A move of a record, with what it brings. The names are those of the commands that ask for it.
#[derive(Debug, Drop)]
pub enum Move {
    /// A builder takes a source package that waits, under this take number.
    Take {
        holder: Text,
        take_number: u64,
    },
    /// The holder built it.
    Built,
    /// The holder uploaded it.
    Uploaded,
    /// The holder found that it waits for these relations on the architecture.
    Waits {
        relations: Relations,
        arch: ArchWords,
    },
    /// The holder puts it back into the queue.
    PutBack,
    /// The holder reports that its build failed, for the reason given, of at most 1000 bytes.
    Attempted {
        reason: Text,
    },
    /// An operator puts it back into the queue.
    GiveBack,
    /// It waits for these relations on the architecture.
    DepWait {
        relations: Relations,
        arch: ArchWords,
    },
    /// A person found that its build fails, as the note says, of at most 1000 bytes.
    Fail {
        note: Text,
    },
    /// It is not to be built, as the note says, of at most 1000 bytes.
    NotForUs {
        note: Text,
    },
    /// It is built once more, as the binary-only rebuild of this number, from 1 to 999, for the
    /// reason that the message gives, of at most 1000 bytes.
    Rebuild {
        number: u16,
        message: Text,
    },
}

impl Move {
    #[tactic(auto, unfolding(crate::specs::Moves::may_go))]
    fn may_go(&self, state: State) -> bool
        ensures { result ≡ may_go self.now state }
    {
        match self {
            Move::Take { .. } => matches!(state, State::NeedsBuild),
            Move::Built | Move::Waits { .. } | Move::PutBack | Move::Attempted { .. } => {
                matches!(state, State::Building)
            }
            Move::Uploaded => matches!(state, State::Building | State::Built),
            Move::GiveBack => !matches!(state, State::NeedsBuild | State::Installed),
            Move::DepWait { .. } => matches!(
                state,
                State::NeedsBuild
                    | State::Building
                    | State::BdUninstallable
                    | State::Failed
                    | State::BuildAttempted
            ),
            Move::Fail { .. } => matches!(
                state,
                State::NeedsBuild
                    | State::Building
                    | State::Built
                    | State::DepWait
                    | State::BdUninstallable
                    | State::BuildAttempted
            ),
            Move::NotForUs { .. } => matches!(
                state,
                State::NeedsBuild
                    | State::Building
                    | State::DepWait
                    | State::BdUninstallable
                    | State::Failed
                    | State::BuildAttempted
            ),
            Move::Rebuild { .. } => matches!(state, State::Installed),
        }
    }

    fn goal(&self) -> State
        ensures { result ≡ goal_of self.now }
    {
        match self {
            Move::Take { .. } => State::Building,
            Move::Built => State::Built,
            Move::Uploaded => State::Uploaded,
            Move::Waits { .. } | Move::DepWait { .. } => State::DepWait,
            Move::PutBack | Move::GiveBack | Move::Rebuild { .. } => State::NeedsBuild,
            Move::Attempted { .. } => State::BuildAttempted,
            Move::Fail { .. } => State::Failed,
            Move::NotForUs { .. } => State::NotForUs,
        }
    }

    /// Sets what the move brings, besides the state and the note.
    fn set(&self, alloc: Global, current: &mut Record) -> Result<(), Refusal>
        ensures ok { OnOk result (current.new ≡ set_by self.now current.old) }
        ensures refused { IfErr result (λ refusal. refusal ≡ Memory) }
    {
        match self {
            Move::Take {
                holder,
                take_number,
            } => {
                current.holder = Some(holder.clone()?);
                current.take = Some(*take_number);
            }
            Move::Waits { relations, arch } | Move::DepWait { relations, arch } => {
                current.waits = waits_for(alloc, relations, arch)?;
            }
            Move::Rebuild { number, message } => {
                current.earlier = true;
                current.number = *number;
                current.message = message.clone()?;
            }
            _ => {}
        }
        Ok(())
    }

    /// Why the move is refused for its relations or its number, if not for its state.
    fn refuse_value(&self, alloc: Global, current: &Record) -> Result<(), Refusal>
        ensures ok { OnOk result (value_refusal self.now current.now ≡ None) }
        ensures above { OnOk result (IsTrue (has_higher_number self.now current.now)) }
        ensures refused { IfErr result (λ refusal. refusal ≢ Memory
            → value_refusal self.now current.now ≡ Some refusal) }
        ensures memory { IfErr result (λ refusal. refusal ≡ Memory
            → IsTrue (has_higher_number self.now current.now)) }
    {
        match self {
            Move::Waits { relations, arch } | Move::DepWait { relations, arch } => {
                refuse_waits(&waits_for(alloc, relations, arch)?)
            }
            Move::Rebuild { number, .. } if *number <= current.number => Err(Refusal::BadNumber),
            _ => Ok(()),
        }
    }

    /// The note of the record in the state in which the move ends.
    fn note(&self, alloc: Global, current: &Record) -> Result<Text, AllocError>
        ensures { IfOk result (λ note.
            note ≡ note_after (note_of self.now) (goal_of self.now) current.now) }
    {
        match self {
            Move::Attempted { reason } => reason.clone(),
            Move::Fail { note } | Move::NotForUs { note } => note.clone(),
            _ if self.goal() == current.state => current.note.clone(),
            _ => Ok(Text::new(alloc)),
        }
    }
}

/// The relations as they are waited for.
fn waits_for(alloc: Global, relations: &Relations, arch: &ArchWords) -> Result<Text, AllocError>
    ensures { IfOk result (λ text. text ≡ waits_for relations.now arch.now) }
{
    let left = relations.reduce(alloc, arch)?;
    Ok(Text::from(left.print(alloc)?))
}

fn refuse_waits(waits: &Text) -> Result<(), Refusal>
    ensures ok { OnOk result (waits_refusal waits.now ≡ None) }
    ensures refused { IfErr result (λ refusal. waits_refusal waits.now ≡ Some refusal) }
{
    let text = waits.as_str();
    if text.is_empty() {
        return Err(Refusal::BadRelations { fault: None });
    }
    if text.len() > RELATIONS_LIMIT {
        return Err(Refusal::BadRelations {
            fault: Some(RelationFault::TooLong),
        });
    }
    Ok(())
}

impl Record {
    /// Brings the record into a state, and clears what that state does not have: the holder and the
    /// take number if nobody holds it, and the waits if it does not wait. Takes no memory. The
    /// states are wanna-build's.
    pub fn enter_state(&mut self, alloc: Global, state: State)
        ensures value { self.new ≡ in_state state self.old }
    {
        self.state = state;
        if !matches!(state, State::Building | State::Built | State::Uploaded) {
            self.holder = None;
            self.take = None;
        }
        if !matches!(state, State::DepWait) {
            self.waits = Text::new(alloc);
        }
    }
}

/// The record after the move. The move is refused with `WrongState` if the record is in a state
/// from which it does not go; then with `BadRelations` if nothing is left of its relations for the
/// architecture, or more than 65536 bytes, and with `BadNumber` if its number is not above the
/// record's; and with `Memory`, which comes only after `WrongState` and `BadNumber`, since neither
/// takes memory. The forms of notes and numbers are not looked at. The table of moves is this
/// project's own, in wanna-build's terms.
#[tactic(auto, unfolding(crate::specs::Moves::move_refusal, crate::specs::Moves::move_outcome))]
pub fn move_record(alloc: Global, current: &Record, change: &Move) -> Result<Record, Refusal>
    ensures value { IfOk result (λ record_after_move. move_outcome change.now current.now ≡ Ok record_after_move) }
    ensures refused { IfErr result (λ refusal. refusal ≢ Memory
        → move_outcome change.now current.now ≡ Err refusal) }
    ensures memory { IfErr result (λ refusal. refusal ≡ Memory
        → MayWantMemory change.now current.now) }
{
    if !change.may_go(current.state) {
        return Err(Refusal::WrongState {
            state: current.state,
        });
    }
    change.refuse_value(alloc, current)?;
    moved_record(alloc, current, change)
}

/// The record after a move that nothing refuses.
#[tactic(auto, unfolding(crate::specs::Moves::record_after_move))]
fn moved_record(alloc: Global, current: &Record, change: &Move) -> Result<Record, Refusal>
    ensures value { IfOk result (λ after. after ≡ record_after_move change.now current.now) }
    ensures refused { IfErr result (λ refusal. refusal ≡ Memory) }
{
    let mut after = current.clone()?;
    change.set(alloc, &mut after)?;
    after.enter_state(alloc, change.goal());
    after.note = change.note(alloc, current)?;
    Ok(after)
}

/// The version of the binaries that are built from the record's source: its version, followed by
/// `+bN` if the number N of the binary-only rebuild is above 0 (Debian Policy 5.6.12.2). The only
/// error is that there is no memory for it.
pub fn build_text(alloc: Global, current: &Record) -> Result<Text, AllocError>
    ensures { IfOk result (λ text. text ≡ build_text_of current.now) }
{
    let version = current.version.text();
    let number = current.number;
    if number == 0 {
        return Text::copied(alloc, version);
    }
    let text = format!(in alloc; "{version}+b{number}")?;
    Ok(Text::from(text))
}
