//! Commands that are carried out one after another.
ghost use Rattle.std.specs.Prelude.{◌≡◌, ◌+◌, ◌++◌, ◌∷◌, [], ◌<◌, ◌≤◌, length, vec_capacity};
ghost use Rattle.std.specs.Prelude.{vec_len};
ghost use Rattle.wb_office.specs.Asked.{IsLedThrough};

use crate::Office;
use sqlite::Alter;
use wb_states::{Command, Refusal, Reply};

/// What a command was answered.
pub type Outcome = Result<Reply, Refusal>;

/// Asks the office each of the commands, one after another, and adds each answer to the outcomes,
/// for which there is room. Once the office is closed, it answers each command left that it is
/// closed.
pub(crate) fn carry_out_all<S: Alter + Drop>(
    office: &mut Office<S>,
    commands: &[Command],
    outcomes: &mut Vec<Outcome>,
)
    requires room { vec_len outcomes.old + length commands.now ≤ vec_capacity outcomes.old }
    ensures leads { IsLedThrough S.Store commands.now outcomes.old.items outcomes.new.items office.old office.new }
{
    for command in commands {
        let outcome = office.apply(command);
        keep(outcomes, outcome);
    }
}

/// Adds an answer to the outcomes, for which there is room.
fn keep(outcomes: &mut Vec<Outcome>, outcome: Outcome)
    requires room { vec_len outcomes.old < vec_capacity outcomes.old }
    ensures added { outcomes.new.items ≡ outcomes.old.items ++ outcome ∷ [] }
    ensures length { vec_len outcomes.new ≡ vec_len outcomes.old + 1 }
    ensures room { vec_capacity outcomes.old ≤ vec_capacity outcomes.new }
{
    let _kept = outcomes.push(outcome);
}
