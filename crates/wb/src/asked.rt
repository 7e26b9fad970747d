//! The files of an office that is only asked, to which nothing is written.

// Each opening of the kit's `sqlite` writes to the log, and its closing to the database. So a query
// that is words of the program reads the database through a `Disk` that refuses each write, and a
// copy in memory stands for its log. An opening as for commands leaves the log with other bytes,
// and fails where the file may only be read.

ghost use Rattle.std.specs.Prelude.{◌≡◌, ◌+◌, false, IfOk, IsErr, IsTrue};
ghost use Rattle.sqlite_disk.specs.Disk.{CountsFault};
ghost use Rattle.sqlite_disk.specs.Memory.{memory_bytes, memory_is_usable};
ghost use Rattle.wb.specs.Asked.{asked_bytes, asked_is_usable};
ghost use Rattle.sqlite_disk.specs.Refusal.{finds_no_room};

use sqlite_disk::{Disk, Files, Memory, Tally};
use std::alloc::Global;
use std::io;

/// A file that is read alone: each call that would change it is refused, and none is passed on.
#[derive(Drop)]
pub(crate) struct ReadOnly<D: Disk> {
    file: D,
    refused: u64,
}

impl<D: Disk> ReadOnly<D> {
    /// The file, to be read alone.
    fn new(file: D) -> ReadOnly<D>
        ensures { result.file ≡ file }
    {
        ReadOnly { file, refused: 0 }
    }
}

/// Refuses a call, and counts it.
fn refuse(refused: &mut u64) -> io::Result<()>
    ensures faults { CountsFault result refused.old refused.new }
    ensures kind { finds_no_room result ≡ false }
    ensures refused { IsErr result }
{
    *refused = refused.saturating_add(1);
    Err(io::Error::other("the file is read alone"))
}

impl<D: Disk> Disk for ReadOnly<D> {
    ghost seen = { λ f. D.Disk.seen f.file };

    ghost may_leave = { λ f. D.Disk.may_leave f.file };

    ghost is_usable = { λ f. D.Disk.is_usable f.file };

    ghost faults = { λ f. D.Disk.faults f.file + f.refused };

    ghost tally_of = { λ f. D.Disk.tally_of f.file };

    ghost is_rotten = { λ f. D.Disk.is_rotten f.file };

    ghost key_of = { λ f. D.Disk.key_of f.file };

    ghost is_clean = { λ f. D.Disk.is_clean f.file };

    ghost is_fair = { λ f. D.Disk.is_fair f.file };

    ghost fair_if_clean = { λ f. D.Disk.fair_if_clean f.file };

    ghost seen_may_stay = { λ f. D.Disk.seen_may_stay f.file };

    ghost is_mixing = { λ f. D.Disk.is_mixing f.file };

    fn mixes(&self) -> bool {
        self.file.mixes()
    }

    fn key(&self) -> u64 {
        self.file.key()
    }

    fn tally(&self) -> Tally {
        self.file.tally()
    }

    fn may_be_used(&self) -> bool {
        self.file.may_be_used()
    }

    fn len(&mut self) -> io::Result<usize> {
        self.file.len()
    }

    fn read_at(&mut self, at: usize, buf: &mut [u8]) -> io::Result<()> {
        self.file.read_at(at, buf)
    }

    fn read_checked(&mut self, key: u64, want: u64, at: usize, buf: &mut [u8]) -> io::Result<()> {
        self.file.read_checked(key, want, at, buf)
    }

    fn write_at(&mut self, _at: usize, _bytes: &[u8]) -> io::Result<()> {
        refuse(&mut self.refused)
    }

    fn set_len(&mut self, _len: usize) -> io::Result<()> {
        refuse(&mut self.refused)
    }

    // A sync changes nothing that is read.
    fn sync(&mut self) -> io::Result<()> {
        self.file.sync()
    }
}

/// A file of an office that is only asked: it is read alone, or a copy in memory stands for it.
#[derive(Drop)]
pub(crate) enum AskedFile<F: Disk, C: Disk> {
    /// The file.
    Kept(F),
    /// The copy, which alone changes.
    Copied(C),
}

impl<F: Disk, C: Disk> Disk for AskedFile<F, C> {
    ghost use Rattle.wb.specs.Asked.{either, either_leaves, either_fair, either_stays};

    ghost seen = { either F.Disk.seen C.Disk.seen };

    ghost may_leave = { either_leaves F.Disk.may_leave C.Disk.may_leave };

    ghost is_usable = { either F.Disk.is_usable C.Disk.is_usable };

    ghost faults = { either F.Disk.faults C.Disk.faults };

    ghost tally_of = { either F.Disk.tally_of C.Disk.tally_of };

    ghost is_rotten = { either F.Disk.is_rotten C.Disk.is_rotten };

    ghost key_of = { either F.Disk.key_of C.Disk.key_of };

    ghost is_clean = { either F.Disk.is_clean C.Disk.is_clean };

    ghost is_fair = { either F.Disk.is_fair C.Disk.is_fair };

    ghost fair_if_clean = { either_fair F.Disk.is_clean F.Disk.is_fair C.Disk.is_clean C.Disk.is_fair F.Disk.fair_if_clean C.Disk.fair_if_clean };

    ghost seen_may_stay = { either_stays F.Disk.may_leave F.Disk.seen C.Disk.may_leave C.Disk.seen F.Disk.seen_may_stay C.Disk.seen_may_stay };

    ghost is_mixing = { either F.Disk.is_mixing C.Disk.is_mixing };

    fn mixes(&self) -> bool {
        match self {
            AskedFile::Kept(file) => file.mixes(),
            AskedFile::Copied(copy) => copy.mixes(),
        }
    }

    fn key(&self) -> u64 {
        match self {
            AskedFile::Kept(file) => file.key(),
            AskedFile::Copied(copy) => copy.key(),
        }
    }

    fn tally(&self) -> Tally {
        match self {
            AskedFile::Kept(file) => file.tally(),
            AskedFile::Copied(copy) => copy.tally(),
        }
    }

    fn may_be_used(&self) -> bool {
        match self {
            AskedFile::Kept(file) => file.may_be_used(),
            AskedFile::Copied(copy) => copy.may_be_used(),
        }
    }

    fn len(&mut self) -> io::Result<usize> {
        match self {
            AskedFile::Kept(file) => file.len(),
            AskedFile::Copied(copy) => copy.len(),
        }
    }

    fn read_at(&mut self, at: usize, buf: &mut [u8]) -> io::Result<()> {
        match self {
            AskedFile::Kept(file) => file.read_at(at, buf),
            AskedFile::Copied(copy) => copy.read_at(at, buf),
        }
    }

    fn read_checked(&mut self, key: u64, want: u64, at: usize, buf: &mut [u8]) -> io::Result<()> {
        match self {
            AskedFile::Kept(file) => file.read_checked(key, want, at, buf),
            AskedFile::Copied(copy) => copy.read_checked(key, want, at, buf),
        }
    }

    fn write_at(&mut self, at: usize, bytes: &[u8]) -> io::Result<()> {
        match self {
            AskedFile::Kept(file) => file.write_at(at, bytes),
            AskedFile::Copied(copy) => copy.write_at(at, bytes),
        }
    }

    fn set_len(&mut self, len: usize) -> io::Result<()> {
        match self {
            AskedFile::Kept(file) => file.set_len(len),
            AskedFile::Copied(copy) => copy.set_len(len),
        }
    }

    fn sync(&mut self) -> io::Result<()> {
        match self {
            AskedFile::Kept(file) => file.sync(),
            AskedFile::Copied(copy) => copy.sync(),
        }
    }
}

/// A copy in memory of what the file holds, which is only read.
fn copy_of<D: Disk>(alloc: Global, file: &mut D) -> io::Result<Memory>
    requires { IsTrue (D.Disk.is_usable file.old) }
    ensures copy { IfOk result (λ copy. IsTrue (memory_is_usable copy)) }
    ensures value { IfOk result (λ copy. IsTrue (D.Disk.is_clean file.new) → memory_bytes copy ≡ D.Disk.seen file.old) }
    ensures clean { IsTrue (D.Disk.is_clean file.new) → IsTrue (D.Disk.is_clean file.old) }
    ensures seen { D.Disk.seen file.new ≡ D.Disk.seen file.old }
    ensures usable { IsTrue (D.Disk.is_usable file.new) }
{
    let len = file.len()?;
    if len == 0 {
        return Ok(Memory::new(alloc));
    }
    let mut bytes = vec![in alloc; 0u8; len]?;
    file.read_at(0, &mut bytes)?;
    let mut copy = Memory::new(alloc);
    copy.write_at(0, &bytes)?;
    Ok(copy)
}

/// The files of an office that is only asked: the database is read alone, and a copy in memory
/// stands for its log, to which each opening writes.
pub(crate) fn asked_files<D: Disk + Drop>(
    alloc: Global,
    log: &mut D,
    db: D,
) -> io::Result<Files<AskedFile<ReadOnly<D>, Memory>>>
    requires log { IsTrue (D.Disk.is_usable log.old) }
    requires db { IsTrue (D.Disk.is_usable db) }
    ensures usable { IfOk result (λ asked. IsTrue (asked_is_usable D.Disk.is_usable asked.log)
        × IsTrue (asked_is_usable D.Disk.is_usable asked.db)) }
    ensures log { IfOk result (λ asked. IsTrue (D.Disk.is_clean log.new)
        → asked_bytes D.Disk.seen asked.log ≡ D.Disk.seen log.old) }
    ensures db { IfOk result (λ asked. asked_bytes D.Disk.seen asked.db ≡ D.Disk.seen db) }
{
    let copy = copy_of(alloc, log)?;
    Ok(Files {
        log: AskedFile::Copied(copy),
        db: AskedFile::Kept(ReadOnly::new(db)),
    })
}
