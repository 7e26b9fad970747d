//! One life of an office over files.
ghost use Rattle.std.specs.Prelude.{◌≡◌, ◌⊎◌, ◌≤◌, [], false, length, vec_capacity, IfOk, IfErr};
ghost use Rattle.std.specs.Prelude.{IfSome, IsTrue};
ghost use Rattle.sqlite_wal.specs.Reads.{AreClean};
ghost use Rattle.wb_states.specs.Machine.{Machine};
ghost use Rattle.wb_states.specs.declared.store_fault.StoreFault.TheVariants.{Memory};
ghost use Rattle.wb_store.specs.Files.{IsFaultOfOpening};
ghost use Rattle.wb_office.specs.Files.{GivesUp, HoldOne, IsFaultOfLife, IsGivenUp, IsLife};
ghost use Rattle.wb_office.specs.Files.{IsSession, LeavesLife, LivesFound, LivesOn};

use crate::Office;
use crate::commands::{Outcome, carry_out_all};
use deb_text::Items;
use sqlite::{FileStore, Files, Options};
use sqlite_disk::Disk;
use std::alloc::Global;
use wb_rows::TableRow;
use wb_states::{Command, StoreFault};
use wb_step::CarryOut;
use wb_store::RefusedFiles;

/// What a life of an office leaves.
#[derive(Drop)]
pub struct SessionEnd<D: Disk + Drop> {
    /// What each command was answered.
    pub outcomes: Items<Outcome>,
    /// The files. None if the office was open and its closing failed, which drops them.
    pub files: Option<Files<D>>,
}

/// What the opening of a life finds, and what the life leaves.
#[derive(Drop)]
pub(crate) struct Lived<D: Disk + Drop> {
    pub(crate) accepted: u64,
    pub(crate) rows: Items<TableRow>,
    pub(crate) outcomes: Items<Outcome>,
    /// The files, with a fault if the office was open and its closing failed.
    pub(crate) given: Result<Files<D>, RefusedFiles<D>>,
}

/// What the commands of a life were answered, and the files after it.
#[derive(Drop)]
struct Ended<D: Disk + Drop> {
    outcomes: Items<Outcome>,
    given: Result<Files<D>, RefusedFiles<D>>,
}

// Room for the answers is taken first, so that no accepted command is lost because memory ran out.
// `sqlite` refuses to close a connection after a fault of the disk, so an office that a fault
// closed is given up: its files are those of the last commit or, in doubt, of one of two. To give
// up each office would leave the log to the next opening.
/// Opens the office that the files hold, has it carry out the commands, one after another, and
/// closes it; one that a fault closed is given up as it is. Each command has an answer: after one
/// at which the store failed each is `Closed`. The room for the answers is taken before the files
/// are opened. The faults are those of [`Office::open`], and `Memory` if there is no room for the
/// answers; nothing is then carried out (this project's own).
pub fn session<D: Disk + Drop>(
    alloc: Global,
    files: Files<D>,
    options: Options,
    commands: &[Command],
) -> Result<SessionEnd<D>, StoreFault>
    requires log { IsTrue (D.Disk.is_usable files.log) }
    requires db { IsTrue (D.Disk.is_usable files.db) }
    ensures lived { IfOk result (λ session. IsSession D.Disk files commands.now session.outcomes session.files) }
    ensures left { IfOk result (λ session. IfSome session.files (λ left. AreClean D.Disk left.log left.db
        → (one other : Machine) → HoldOne D.Disk files one other
        → LeavesLife D.Disk one other commands.now session.outcomes left)) }
    ensures refused { IfErr result (λ fault. (fault ≡ Memory) ⊎ IsFaultOfOpening D.Disk files fault) }
{
    let outcomes = Vec::with_capacity(alloc, commands.len())?;
    let office = Office::open(alloc, files, options)?;
    let ended = live(office, commands, outcomes);
    Ok(SessionEnd {
        outcomes: ended.outcomes,
        files: ended.given.ok(),
    })
}

/// The same, with what the opening finds: how many commands were accepted, and each row of the
/// office's tables. The faults are also those of the rows. After each the files are handed back.
pub(crate) fn open_and_live<D: Disk + Drop>(
    alloc: Global,
    files: Files<D>,
    options: Options,
    commands: &[Command],
) -> Result<Lived<D>, RefusedFiles<D>>
    requires log { IsTrue (D.Disk.is_usable files.log) }
    requires db { IsTrue (D.Disk.is_usable files.db) }
    ensures lived { IfOk result (λ life. IsLife D.Disk files commands.now life.accepted life.rows life.outcomes life.given) }
    ensures refused { IfErr result (λ refused. IsFaultOfLife D.Disk files refused.fault refused.files) }
{
    match Vec::with_capacity(alloc, commands.len()) {
        Ok(outcomes) => match Office::try_open(alloc, files, options) {
            Ok(office) => live_on(office, commands, outcomes),
            Err(refused) => Err(refused),
        },
        Err(_) => Err(RefusedFiles {
            fault: StoreFault::Memory,
            files,
        }),
    }
}

/// Finds what an office that was opened shows, has it carry out the commands, and closes it; if its
/// rows are not shown, it is given up. There is room for the answers.
fn live_on<D: Disk + Drop>(
    office: Office<FileStore<D>>,
    commands: &[Command],
    outcomes: Vec<Outcome>,
) -> Result<Lived<D>, RefusedFiles<D>>
    requires opened { office.is_closed ≡ false }
    requires empty { outcomes.items ≡ [] }
    requires room { length commands.now ≤ vec_capacity outcomes }
    ensures lived { IfOk result (λ life. LivesFound D.Disk office commands.now life.accepted life.rows life.outcomes
        life.given) }
    ensures unshown { IfErr result (λ refused. IsGivenUp D.Disk office refused.fault refused.files) }
{
    let mut office = office;
    let accepted = office.accepted_count();
    match office.rows() {
        Ok(rows) => {
            let ended = live(office, commands, outcomes);
            Ok(Lived {
                accepted,
                rows,
                outcomes: ended.outcomes,
                given: ended.given,
            })
        }
        Err(fault) => Err(RefusedFiles {
            fault,
            files: office.surrender(),
        }),
    }
}

/// Has an open office carry out the commands, and closes it. There is room for the answers.
fn live<D: Disk + Drop>(
    office: Office<FileStore<D>>,
    commands: &[Command],
    outcomes: Vec<Outcome>,
) -> Ended<D>
    requires opened { office.is_closed ≡ false }
    requires empty { outcomes.items ≡ [] }
    requires room { length commands.now ≤ vec_capacity outcomes }
    ensures lives { LivesOn D.Disk office commands.now result.outcomes result.given }
{
    let mut office = office;
    let mut outcomes = outcomes;
    carry_out_all(&mut office, commands, &mut outcomes);
    Ended {
        outcomes: Items::from(outcomes),
        given: give_up(office),
    }
}

/// Closes an office, and hands out its files; one that a fault closed is given up as it is.
fn give_up<D: Disk + Drop>(office: Office<FileStore<D>>) -> Result<Files<D>, RefusedFiles<D>>
    ensures gives_up { GivesUp D.Disk office result }
{
    if office.closed() {
        return Ok(office.surrender());
    }
    office.try_close()
}
