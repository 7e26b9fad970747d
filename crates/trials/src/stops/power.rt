//! A power that looks at the files of an office, and hands those of the second life back so that they stop.

ghost use Rattle.std.specs.Prelude.{◌≡◌, ◌<◌, ◌+◌, IsTrue};
ghost use Rattle.sqlite.specs.WalFiles.{outcomes};
ghost use Rattle.sqlite.specs.WalReads.{AreClean};

use crate::images::{Fused, Images};
use crate::office::TrialOffice;
use crate::refusing::{go_on, pause};
use anyhow::Result;
use sqlite::Files;
use sqlite_disk::Disk;
use std::alloc::Global;
use wb_office::{Crashes, Power};

/// After how many calls the files of a life stop.
#[derive(Clone, Copy)]
pub(crate) struct Calls {
    pub(crate) log: u64,
    pub(crate) db: u64,
}

/// A power that looks at what is left after each cut.
#[derive(Drop)]
pub(crate) struct Watching {
    alloc: Global,
    crashes: Crashes,
    /// When the files stop that the next cut hands back, if they do.
    stops: Option<Calls>,
    /// How many commands were accepted by what was left, cut by cut. None if it could not be opened.
    found: Vec<Option<u64>>,
}

impl Watching {
    /// A power that can be cut so many times, and after the first cut hands back files that stop after these calls.
    pub(crate) fn new(alloc: Global, cuts: u64, stops: Calls) -> Watching
        ensures cuts { result.crashes.left ≡ cuts }
    {
        Watching {
            alloc,
            crashes: Crashes { left: cuts },
            stops: Some(stops),
            found: Vec::new(alloc),
        }
    }

    /// How many times it can still be cut.
    pub(crate) fn cuts_left(&self) -> u64 {
        self.crashes.left
    }

    /// How many commands were accepted by what was left, cut by cut. None if it could not be opened.
    pub(crate) fn found(&self) -> &[Option<u64>] {
        &self.found
    }

    /// Opens a copy of the files, and notes what is found.
    fn look<D: Fused>(&mut self, files: &Files<D>)
        ensures crashes { self.new.crashes ≡ self.old.crashes }
    {
        let accepted = accepted_in(self.alloc, files).ok();
        let _ = self.found.push(accepted);
    }
}

impl<D: Fused> Power<D> for Watching {
    ghost cuts_left = { λ power. power.crashes.left };

    fn left(&self) -> u64 {
        self.crashes.left
    }

    fn back(&mut self, files: Files<D>) -> Files<D>
        requires some { 0 < self.old.crashes.left }
        ensures counted { self.old.crashes.left ≡ self.new.crashes.left + 1 }
        ensures fewer { (image : _) → outcomes D.Disk result.log result.db image → outcomes D.Disk files.log files.db image }
        ensures clean { AreClean D.Disk result.log result.db → AreClean D.Disk files.log files.db }
        ensures usable { IsTrue (D.Disk.is_usable result.log) × IsTrue (D.Disk.is_usable result.db) }
    {
        let left = self.crashes.back(files);
        pause(self.alloc);
        self.look(&left);
        let given = match self.stops.take() {
            Some(calls) => stopping(self.alloc, left, calls),
            None => left,
        };
        go_on(self.alloc);
        given
    }
}

/// How many commands the office in a copy of the files accepted.
fn accepted_in<D: Fused>(alloc: Global, files: &Files<D>) -> Result<u64> {
    let images = Images::of(alloc, files)?;
    let office = TrialOffice::open(alloc, images.files(alloc, u64::MAX, u64::MAX)?)?;
    Ok(office.accepted_count())
}

/// The files, which stop after these calls.
fn stopping<D: Fused>(alloc: Global, files: Files<D>, calls: Calls) -> Files<D>
    requires log { IsTrue (D.Disk.is_usable files.log) }
    requires db { IsTrue (D.Disk.is_usable files.db) }
    ensures fewer { (image : _) → outcomes D.Disk result.log result.db image → outcomes D.Disk files.log files.db image }
    ensures clean { AreClean D.Disk result.log result.db → AreClean D.Disk files.log files.db }
    ensures usable { IsTrue (D.Disk.is_usable result.log) × IsTrue (D.Disk.is_usable result.db) }
{
    let Files { log, db } = files;
    Files {
        log: log.fused(alloc, calls.log),
        db: db.fused(alloc, calls.db),
    }
}
