//! The office over tables in memory, which end with the program.

// The tables of a file, over the kit's file store and two disks in memory: so `wb run` takes the
// path that the theorem on lives is about. There are no checksums, which nobody would test. The
// kit's database in memory has transactions that cost the more the more rows there are. Over 35,000
// records `enter` takes 0.31 ms of the processor so, `next` 0.45 and `uploaded` 0.17; the start
// takes 14 ms, and the records 35 MB. A merge has its log in memory too, with the rows of its
// lists.

use crate::store::said_store;
use crate::{Work, act};
use sqlite::{Files, Options};
use sqlite_disk::Memory;
use wb_office::Office;

/// How many pages of 4,096 bytes are kept apart after they were read, and how many that a command
/// wrote before they go to the log.
const PAGES_AT_HAND: usize = 2_000;

/// How many pages the log has before it is copied into the database and begun anew. Each commit
/// copies the log, and each of these copies the database, so that a file in memory knows what was
/// synced.
const PAGES_IN_LOG: usize = 100;

/// The salt of the log, which nobody else writes.
const SEED: u64 = 1;

/// Has a new office over tables in memory do its work.
pub(crate) fn open_for(rt: &HostRuntime, work: Work<'_>) -> u8 {
    let files = Files {
        log: Memory::new(rt.alloc()),
        db: Memory::new(rt.alloc()),
    };
    let options = Options {
        cache_pages: PAGES_AT_HAND,
        spill_pages: PAGES_AT_HAND,
        checkpoint_frames: PAGES_IN_LOG,
        seed: SEED,
    };
    match Office::open(rt.alloc(), files, options) {
        Ok(mut office) => act(rt, &mut office, work),
        Err(fault) => said_store(rt, fault.name()),
    }
}
