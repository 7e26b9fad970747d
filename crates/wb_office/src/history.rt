//! The lives of an office over files, one after another.
ghost use Rattle.std.specs.Prelude.{◌≡◌, ◌+◌, ◌++◌, ◌∷◌, [], ◌<◌, ◌≤◌, length, vec_capacity};
ghost use Rattle.std.specs.Prelude.{vec_len, IfOk, IfErr, IsSomeAnd, IsTrue};
ghost use Rattle.wb_states.specs.declared.store_fault.StoreFault.TheVariants.{Memory};
ghost use Rattle.wb_office.specs.History.{AreLivedInTurn, HasLived, IsCutAfter, IsLivedOnce};

use crate::commands::Outcome;
use crate::life::open_and_live;
use crate::power::{Power, cut_power};
use deb_text::Items;
use sqlite::{Files, Options};
use sqlite_disk::Disk;
use std::alloc::Global;
use wb_rows::TableRow;
use wb_states::{Command, StoreFault};
use wb_store::RefusedFiles;

// A copy of all rows, as values that a caller can compare with what another program reads. It takes
// as much memory as the tables, and no program that serves an office calls `lives`. An office
// handed out at the end would say of one opening what is to be said of each.
/// What the opening of a life finds, and what the life is answered.
#[derive(Drop)]
pub enum Found {
    /// The office was opened.
    Opened {
        /// How many commands were accepted, those of earlier lives and those before the first among
        /// them.
        accepted: u64,
        /// Each row of the office's tables, once, as [`Store::rows`](wb_store::Store::rows) has
        /// them.
        rows: Items<TableRow>,
        /// What each command of the life was answered.
        outcomes: Items<Outcome>,
    },
    /// The opening was refused, or there was no memory for the rows or the outcomes.
    Refused(StoreFault),
}

/// What lives of an office find and leave.
#[derive(Drop)]
pub struct LivesEnd<D: Disk + Drop> {
    /// What was found, life by life, up to the first whose opening was refused or whose office was
    /// not closed.
    pub found: Items<Found>,
    /// The files after the last power cut, those that were handed in if there is no life. They are
    /// always there, also if an opening was refused or an office was not closed.
    pub files: Option<Files<D>>,
}

/// Has an office live once for each list of commands: it is opened, carries out the commands as in
/// [`session`](crate::session), and is closed, and then the power is cut. So the next life begins
/// with files that a crash may leave, and there have to be as many cuts [left](Power::left) as
/// there are lives. The lives end with the first whose opening is refused or whose office is not
/// closed; what was found is told all the same, the power is cut, and the files are handed back.
/// The room for what is found is taken first: the error is `Memory` alone, and then nothing was
/// opened and no power was cut (this project's own).
pub fn lives<D: Disk + Drop, P: Power<D>>(
    alloc: Global,
    files: Files<D>,
    options: Options,
    power: &mut P,
    lives: &[Items<Command>],
) -> Result<LivesEnd<D>, StoreFault>
    requires log { IsTrue (D.Disk.is_usable files.log) }
    requires db { IsTrue (D.Disk.is_usable files.db) }
    requires cuts { length lives.now ≤ P.cuts_left power.old }
    ensures in_turn { IfOk result (λ end. IsSomeAnd end.files (λ back. AreLivedInTurn D.Disk P.hands_back files power.old
        lives.now end.found back power.new)) }
    ensures lived { IfOk result (λ end. IsSomeAnd end.files (HasLived D.Disk files lives.now end.found)) }
    ensures cut { IfOk result (λ end. P.cuts_left power.old ≡ P.cuts_left power.new + length end.found) }
    ensures refused { IfErr result (λ fault. (fault ≡ Memory) × (P.cuts_left power.new ≡ P.cuts_left power.old)) }
{
    let mut found = Vec::with_capacity(alloc, lives.len())?;
    let files = live_all(alloc, files, options, power, lives, &mut found);
    Ok(LivesEnd {
        found: Items::from(found),
        files: Some(files),
    })
}

/// Has an office live once for each list of commands, and adds what each life finds, for which
/// there is room.
fn live_all<D: Disk + Drop, P: Power<D>>(
    alloc: Global,
    files: Files<D>,
    options: Options,
    power: &mut P,
    lives: &[Items<Command>],
    found: &mut Vec<Found>,
) -> Files<D>
    requires log { IsTrue (D.Disk.is_usable files.log) }
    requires db { IsTrue (D.Disk.is_usable files.db) }
    requires cuts { length lives.now ≤ P.cuts_left power.old }
    requires room { length lives.now ≤ vec_capacity found.old }
    requires empty { found.old.items ≡ [] }
    ensures in_turn { AreLivedInTurn D.Disk P.hands_back files power.old lives.now found.new.items result power.new }
    ensures cut { P.cuts_left power.old ≡ P.cuts_left power.new + length found.new.items }
{
    let mut current = files;
    for commands in lives {
        let (one, back, goes_on) = live_once(alloc, current, options, power, commands.as_slice());
        keep(found, one);
        if !goes_on {
            return back;
        }
        current = back;
    }
    current
}

/// Has an office live once, and cuts the power after it. Lives do not go on if its opening was
/// refused or it was not closed.
fn live_once<D: Disk + Drop, P: Power<D>>(
    alloc: Global,
    files: Files<D>,
    options: Options,
    power: &mut P,
    commands: &[Command],
) -> (Found, Files<D>, bool)
    requires log { IsTrue (D.Disk.is_usable files.log) }
    requires db { IsTrue (D.Disk.is_usable files.db) }
    requires some { 0 < P.cuts_left power.old }
    ensures lived { IsLivedOnce D.Disk P.hands_back files power.old commands.now result.0 result.2 result.1 power.new }
    ensures cut { P.cuts_left power.old ≡ P.cuts_left power.new + 1 }
    ensures usable { IsTrue (D.Disk.is_usable result.1.log) × IsTrue (D.Disk.is_usable result.1.db) }
{
    match open_and_live(alloc, files, options, commands) {
        Ok(life) => {
            let (back, goes_on) = cut_after(power, life.given);
            let found = Found::Opened {
                accepted: life.accepted,
                rows: life.rows,
                outcomes: life.outcomes,
            };
            (found, back, goes_on)
        }
        Err(refused) => {
            let back = cut_power(power, refused.files);
            (Found::Refused(refused.fault), back, false)
        }
    }
}

/// Cuts the power after a life, and says whether lives go on: its office was closed or given up.
fn cut_after<D: Disk + Drop, P: Power<D>>(
    power: &mut P,
    given: Result<Files<D>, RefusedFiles<D>>,
) -> (Files<D>, bool)
    requires some { 0 < P.cuts_left power.old }
    ensures back { IsCutAfter D.Disk P.hands_back given power.old result.1 result.0 power.new }
    ensures cut { P.cuts_left power.old ≡ P.cuts_left power.new + 1 }
    ensures usable { IsTrue (D.Disk.is_usable result.0.log) × IsTrue (D.Disk.is_usable result.0.db) }
{
    match given {
        Ok(left) => (cut_power(power, left), true),
        Err(refused) => (cut_power(power, refused.files), false),
    }
}

/// Adds what a life finds, for which there is room.
fn keep(found: &mut Vec<Found>, one: Found)
    requires room { vec_len found.old < vec_capacity found.old }
    ensures added { found.new.items ≡ found.old.items ++ one ∷ [] }
    ensures length { vec_len found.new ≡ vec_len found.old + 1 }
    ensures room { vec_capacity found.old ≤ vec_capacity found.new }
{
    let _kept = found.push(one);
}
