//! What the office answers to a merge of lists that readers give, over its tables: the lists are
//! read paragraph by paragraph into the tables, and the records that they change are written, in
//! one transaction.
ghost use Rattle.std.specs.Prelude.{◌≡◌, None, IfOk};
ghost use Rattle.sqlite.specs.Held.{state};
ghost use Rattle.sqlite.specs.State.{HasCleanDisk};
ghost use Rattle.wb_states.specs.Machine.{IsConsistent, Machine};
ghost use Rattle.wb_archive.specs.Readers.{archs_refusal};
ghost use Rattle.wb_store.specs.Settled.{IsSettled};
ghost use Rattle.wb_office.specs.ListAnswers.{NotesLists, RespondsLists};
ghost use Rattle.wb_office.specs.Standing.{Knows};

use crate::answer::{Answered, Failure};
use crate::known::{Known, find_archs, learn_merged};
use crate::merging::{carry_lists, merged};
use crate::part_lists::feed_lists;
use deb_control::Feed;
use sqlite::Alter;
use std::alloc::Global;
use std::io::BufRead;
use wb_archive::ArchList;
use wb_merge::ArchChanges;
use wb_states::{Refusal, Reply, Table};
use wb_store::{Store, unfit};

/// Merges lists that readers give, by what is known of the tables, takes over what is known then,
/// and notes what the merge changes. The names of their architectures are not refused.
pub(crate) fn answer_lists<S: Alter + Drop, R: BufRead + Drop>(
    alloc: Global,
    store: &mut Store<S>,
    known: &mut Known,
    sources: R,
    lists: Vec<ArchList<R>>,
    notes: &mut Option<Vec<ArchChanges>>,
) -> Result<Reply, Failure>
    requires names { archs_refusal lists.items ≡ None }
    ensures responds { RespondsLists S.Store R.remaining sources lists.items known.old store.old known.new store.new result }
    ensures noted { HasCleanDisk (state S.Store store.new) → (machine : Machine) → IsConsistent machine
        → IsSettled machine (state S.Store store.old) → Knows machine known.old
        → IfOk result (NotesLists S.Store R.remaining sources lists.items machine known.new notes.old notes.new store.new) }
{
    let archs = match find_archs(alloc, store, known) {
        Ok(archs) => archs,
        Err(fault) => return Err(Failure::Unread(fault)),
    };
    if !store.is_idle() {
        return Err(Failure::Unread(unfit(Table::Office)));
    }
    let Ok(feeds) = feed_lists(alloc, &archs, lists) else {
        return Err(Failure::Refused(Refusal::Memory));
    };
    let mut sources = Feed::of(sources);
    let replies = carry_lists(alloc, store, known.counts, &mut sources, feeds, notes)?;
    let Answered { reply, counts } = merged(known.counts, replies);
    learn_merged(known, counts);
    Ok(reply)
}
