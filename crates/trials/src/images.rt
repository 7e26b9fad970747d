//! Two files in memory, a database and its log, which can be made to stop at a call.

ghost use Rattle.std.specs.Prelude.{◌≡◌, ◌↔◌, ℕ, List, IsTrue, IfOk};
ghost use Rattle.sqlite_disk.specs.Disk.{Only};
ghost use Rattle.sqlite_disk.specs.Memory.{memory_bytes, memory_is_usable};

use crate::device::Device;
use sqlite::Files;
use sqlite_disk::{Crash, Disk, Fuse, Memory};
use std::alloc::{AllocError, Global};
use std::io;

/// A file in memory that stops at a call, and stands for a device.
pub(crate) type Stopping = Device<Fuse<Memory>>;

/// When a file stops, and what is left of it.
#[derive(Clone, Copy)]
pub(crate) struct Stop {
    /// How many calls it takes.
    pub(crate) calls: u64,
    /// Whether all that was written is left, or only what was synced.
    pub(crate) is_kept: bool,
}

/// What the two files hold.
#[derive(Drop)]
pub(crate) struct Images {
    log: Vec<u8>,
    db: Vec<u8>,
}

impl Images {
    /// Empty files.
    pub(crate) fn none(alloc: Global) -> Images {
        Images {
            log: Vec::new(alloc),
            db: Vec::new(alloc),
        }
    }

    /// A database of these bytes, and an empty log.
    pub(crate) fn begun(alloc: Global, db: Vec<u8>) -> Images {
        Images {
            log: Vec::new(alloc),
            db,
        }
    }

    /// The same once more.
    pub(crate) fn copied(&self) -> Result<Images, AllocError> {
        Ok(Images {
            log: self.log.clone()?,
            db: self.db.clone()?,
        })
    }

    /// Files that hold this, and take so many calls.
    pub(crate) fn files(
        &self,
        alloc: Global,
        log_calls: u64,
        db_calls: u64,
    ) -> io::Result<Files<Stopping>> {
        Ok(Files {
            log: disk_of(alloc, &self.log, log_calls)?,
            db: disk_of(alloc, &self.db, db_calls)?,
        })
    }

    /// What the files hold.
    pub(crate) fn of<D: Fused>(alloc: Global, files: &Files<D>) -> Result<Images, AllocError> {
        let mut images = Images::none(alloc);
        images.log.extend_from_slice(files.log.bytes())?;
        images.db.extend_from_slice(files.db.bytes())?;
        Ok(images)
    }

    /// What is left of the files after these stops.
    pub(crate) fn left(
        alloc: Global,
        files: Files<Stopping>,
        log: Stop,
        db: Stop,
    ) -> Result<Images, AllocError> {
        Ok(Images {
            log: bytes_left(alloc, files.log, log)?,
            db: bytes_left(alloc, files.db, db)?,
        })
    }
}

/// A file that can be made to stop.
pub(crate) trait Fused: Crash {
    /// What the file holds.
    fn bytes(&self) -> &[u8];

    /// A file that holds the same, synced, and takes so many calls; or the file as it is, if there is no memory.
    fn fused(self, alloc: Global, calls: u64) -> Self
        requires usable { IsTrue (Self.Disk.is_usable self) }
        ensures fewer { (content : List ℕ) → Self.Disk.may_leave result content → Self.Disk.may_leave self content }
        ensures clean { IsTrue (Self.Disk.is_clean result) → IsTrue (Self.Disk.is_clean self) }
        ensures usable { IsTrue (Self.Disk.is_usable result) };
}

impl<D: Fused> Fused for Device<D> {
    fn bytes(&self) -> &[u8] {
        self.inner.bytes()
    }

    fn fused(self, alloc: Global, calls: u64) -> Device<D> {
        let Device { alloc: kept, inner } = self;
        Device {
            alloc: kept,
            inner: inner.fused(alloc, calls),
        }
    }
}

impl Fused for Fuse<Memory> {
    fn bytes(&self) -> &[u8] {
        self.inner().bytes()
    }

    fn fused(self, alloc: Global, calls: u64) -> Fuse<Memory> {
        if let Ok(disk) = memory_of(alloc, self.inner().bytes()) {
            if are_same(disk.bytes(), self.inner().bytes()) {
                return Fuse::new(disk, calls);
            }
        }
        self
    }
}

/// A file that holds these bytes, synced, and takes so many calls.
fn disk_of(alloc: Global, bytes: &[u8], calls: u64) -> io::Result<Stopping> {
    Ok(Device {
        alloc,
        inner: Fuse::new(memory_of(alloc, bytes)?, calls),
    })
}

/// Whether two files hold the same.
fn are_same(one: &[u8], other: &[u8]) -> bool
    ensures value { IsTrue result ↔ (one.now ≡ other.now) }
{
    one == other
}

/// A file that holds these bytes, synced.
fn memory_of(alloc: Global, bytes: &[u8]) -> io::Result<Memory>
    ensures usable { IfOk result (λ disk. IsTrue (memory_is_usable disk)) }
    ensures synced { IfOk result (λ disk. Only (memory_bytes disk) (⟦<Memory as Disk>⟧.may_leave disk)) }
{
    let mut disk = Memory::new(alloc);
    disk.write_at(0, bytes)?;
    disk.sync()?;
    Ok(disk)
}

/// What a file holds after its stop.
fn bytes_left(alloc: Global, mut disk: Stopping, stop: Stop) -> Result<Vec<u8>, AllocError> {
    if !stop.is_kept {
        disk.crash();
    }
    let mut bytes = Vec::new(alloc);
    bytes.extend_from_slice(disk.bytes())?;
    Ok(bytes)
}
