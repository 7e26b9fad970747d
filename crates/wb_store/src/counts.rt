//! How many records of an architecture are in each state, as the tables have them.
ghost use Rattle.std.specs.Prelude.{◌≡◌, List, ℕ, filter, length, nat_eq, map as each, IsPermutation};
ghost use Rattle.wb_states.specs.Lookups.{counts_of, rows_of};
ghost use Rattle.wb_states.specs.Machine.{Machine};
ghost use Rattle.wb_states.specs.State.{code_of};
ghost use Rattle.wb_store.specs.Calls.{LooksUp};
ghost use Rattle.wb_store.specs.Queries as ask;

use crate::reading::{rows_of, states_in};
use crate::store::Store;
use deb_text::Text;
use sqlite::{Alter, Connection, params};
use wb_sql::statements;
use wb_states::{State, StateCounts, StoreFault, Table};

impl<S: Alter + Drop> Store<S> {
    /// How many records of the architecture are in each state: none in any if it was never added. No record is read,
    /// only the index that has their states.
    pub fn counts(&mut self, arch: &Text) -> Result<StateCounts, StoreFault>
        ensures looks_up { LooksUp S.Store (ask.StatesOf arch.now) (λ machine counts.
            counts ≡ counts_of machine arch.now) self.old self.new result }
    {
        let states = states_of(&mut self.conn, arch)?;
        Ok(state_counts_in(&states))
    }
}

/// The state of each record of the architecture, in some order.
fn states_of<S: Alter>(conn: &mut Connection<S>, arch: &Text) -> Result<Vec<State>, StoreFault>
    ensures looks_up { LooksUp S.Store (ask.StatesOf arch.now) (λ machine states. IsPermutation
        (each (λ entry. entry.1.state) (rows_of machine arch.now)) states.items) conn.old conn.new result }
{
    let rows = rows_of(
        conn,
        Table::SourceRecord,
        statements::states_of_arch(),
        params![arch.as_str()],
    )?;
    states_in(rows)
}

/// How many of these states of records are each state.
fn state_counts_in(states: &[State]) -> StateCounts
    ensures value { (machine : Machine) (arch : List ℕ)
        → IsPermutation (each (λ entry. entry.1.state) (rows_of machine arch)) states.now
        → result ≡ counts_of machine arch }
{
    StateCounts {
        needs_build: number_in(states, State::NeedsBuild),
        building: number_in(states, State::Building),
        built: number_in(states, State::Built),
        uploaded: number_in(states, State::Uploaded),
        installed: number_in(states, State::Installed),
        dep_wait: number_in(states, State::DepWait),
        bd_uninstallable: number_in(states, State::BdUninstallable),
        failed: number_in(states, State::Failed),
        not_for_us: number_in(states, State::NotForUs),
        build_attempted: number_in(states, State::BuildAttempted),
    }
}

/// How many of these states are this one.
fn number_in(states: &[State], state: State) -> u64
    ensures { result ≡ length (filter (λ one. nat_eq (code_of one) (code_of state)) states.now) }
{
    let found = states.iter().filter(|one| **one == state);
    found.count() as u64
}
