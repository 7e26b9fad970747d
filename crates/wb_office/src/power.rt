//! A power cut, after which the files are one of those that a crash may leave.

ghost use Rattle.std.specs.Prelude.{◌≡◌, ℕ, ◌+◌, ◌<◌, ⊤, IsTrue};
ghost use Rattle.sqlite.specs.WalFiles.{outcomes};
ghost use Rattle.sqlite.specs.WalReads.{AreClean};
ghost use Rattle.sqlite_disk.specs.declared.Files.{Files as Pair};
ghost use Rattle.wb_sql.specs.Settled.{AreSettled};

use sqlite::Files;
use sqlite_disk::{Crash, Disk};

// A crash after a cut leaves no more than one before it, and not just one content: so disks in
// memory that have no memory for a copy can be made to crash (`Crashes`). The next opening decides,
// since a crash of its connection leaves what it found alone. Cuts are counted, so a body that cuts
// no power is refused; a list of the contents at each cut would take copies. `back` cannot fail: a
// power that makes its cut in memory takes the memory before.
/// What cuts the power, so many times, and hands back the files as they are once it is back (this
/// project's own).
pub trait Power<D: Disk> {
    // How many times it can still cut the power.
    ghost cuts_left: { Self → ℕ };

    // One cut: these files were left before it, and those were handed back after it.
    ghost hands_back: { Self → Pair D → Pair D → Self → Type 0 } = { λ _ _ _ _. ⊤ };

    /// How many times it can still cut the power. Takes no memory.
    fn left(&self) -> u64
        ensures value { result ≡ cuts_left self.now };

    /// Cuts the power once, and hands the files back. They can be used, and a crash of them leaves
    /// no more than one before could. A power that hands back one content alone, so that a crash
    /// leaves that, is a special case.
    fn back(&mut self, files: Files<D>) -> Files<D>
        requires some { 0 < cuts_left self.old }
        ensures counted { cuts_left self.old ≡ cuts_left self.new + 1 }
        ensures told { hands_back self.old files result self.new }
        ensures fewer { (image : _) → outcomes D.Disk result.log result.db image → outcomes D.Disk files.log files.db image }
        ensures clean { AreClean D.Disk result.log result.db → AreClean D.Disk files.log files.db }
        ensures usable { IsTrue (D.Disk.is_usable result.log) × IsTrue (D.Disk.is_usable result.db) };
}

/// The power of disks that can be made to crash: each cut is a crash of both (this project's own).
#[derive(Clone, Copy, Debug)]
pub struct Crashes {
    /// How many times it can still be cut.
    pub left: u64,
}

impl<D: Crash> Power<D> for Crashes {
    ghost cuts_left = { λ power. power.left };

    fn left(&self) -> u64 {
        self.left
    }

    fn back(&mut self, files: Files<D>) -> Files<D>
        requires some { 0 < self.old.left }
        ensures counted { self.old.left ≡ self.new.left + 1 }
        ensures fewer { (image : _) → outcomes D.Disk result.log result.db image → outcomes D.Disk files.log files.db image }
        ensures clean { AreClean D.Disk result.log result.db → AreClean D.Disk files.log files.db }
        ensures usable { IsTrue (D.Disk.is_usable result.log) × IsTrue (D.Disk.is_usable result.db) }
    {
        self.left -= 1;
        let Files { mut log, mut db } = files;
        log.crash();
        db.crash();
        Files { log, db }
    }
}

/// Cuts the power once. A crash after it leaves no more than a crash before it, so files that were
/// settled still are.
pub fn cut_power<D: Disk, P: Power<D>>(power: &mut P, files: Files<D>) -> Files<D>
    requires some { 0 < P.cuts_left power.old }
    ensures counted { P.cuts_left power.old ≡ P.cuts_left power.new + 1 }
    ensures told { P.hands_back power.old files result power.new }
    ensures fewer { (image : _) → outcomes D.Disk result.log result.db image → outcomes D.Disk files.log files.db image }
    ensures settled { (db : _) → AreSettled D.Disk files db → AreSettled D.Disk result db }
    ensures clean { AreClean D.Disk result.log result.db → AreClean D.Disk files.log files.db }
    ensures usable { IsTrue (D.Disk.is_usable result.log) × IsTrue (D.Disk.is_usable result.db) }
{
    power.back(files)
}
