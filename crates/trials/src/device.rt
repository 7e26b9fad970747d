//! A file whose own memory is never refused.

use crate::refusing::{go_on, pause};
use sqlite_disk::{Crash, Disk, Tally};
use std::alloc::Global;
use std::io;

/// A file that stands for a device: what it asks for is never refused.
#[derive(Drop)]
pub(crate) struct Device<D: Disk> {
    pub(crate) alloc: Global,
    pub(crate) inner: D,
}

impl<D: Disk> Disk for Device<D> {
    ghost seen = { λ f. D.Disk.seen f.inner };

    ghost may_leave = { λ f. D.Disk.may_leave f.inner };

    ghost is_usable = { λ f. D.Disk.is_usable f.inner };

    ghost faults = { λ f. D.Disk.faults f.inner };

    ghost tally_of = { λ f. D.Disk.tally_of f.inner };

    ghost key_of = { λ f. D.Disk.key_of f.inner };

    ghost is_clean = { λ f. D.Disk.is_clean f.inner };

    ghost is_fair = { λ f. D.Disk.is_fair f.inner };

    ghost fair_if_clean = { λ f. D.Disk.fair_if_clean f.inner };

    ghost seen_may_stay = { λ f. D.Disk.seen_may_stay f.inner };

    fn mixes(&self) -> bool {
        false
    }

    fn key(&self) -> u64 {
        self.inner.key()
    }

    fn tally(&self) -> Tally {
        self.inner.tally()
    }

    fn may_be_used(&self) -> bool {
        self.inner.may_be_used()
    }

    fn len(&mut self) -> io::Result<usize> {
        self.inner.len()
    }

    fn read_at(&mut self, at: usize, buf: &mut [u8]) -> io::Result<()> {
        self.inner.read_at(at, buf)
    }

    fn read_checked(&mut self, key: u64, want: u64, at: usize, buf: &mut [u8]) -> io::Result<()> {
        self.inner.read_checked(key, want, at, buf)
    }

    fn write_at(&mut self, at: usize, bytes: &[u8]) -> io::Result<()> {
        pause(self.alloc);
        let written = self.inner.write_at(at, bytes);
        go_on(self.alloc);
        written
    }

    fn set_len(&mut self, len: usize) -> io::Result<()> {
        pause(self.alloc);
        let cut = self.inner.set_len(len);
        go_on(self.alloc);
        cut
    }

    fn sync(&mut self) -> io::Result<()> {
        pause(self.alloc);
        let synced = self.inner.sync();
        go_on(self.alloc);
        synced
    }
}

/// Loses all that was not synced.
impl<D: Crash> Crash for Device<D> {
    fn crash(&mut self) {
        pause(self.alloc);
        self.inner.crash();
        go_on(self.alloc);
    }
}
