//! The order in which waiting source packages are built.
ghost use Rattle.std.specs.Prelude.{◌≡◌, ℕ, bytes_eq};
ghost use Rattle.std.specs.List.{position_or_len};
ghost use Rattle.std.specs.Ordering.{as_partial_cmp, eq_by_cmp};
ghost use Rattle.std.specs.Cmp.{eq_by_cmp_equiv, partial_equiv_from_equiv, po};
ghost use Rattle.std.specs.Cmp.Rules.{comparing};
ghost use Rattle.std.proofs.Common.{rules, refl};
ghost use Rattle.wb_states.specs.Queue.{place_of, place_cmp, place_cmp_total, priorities, rank_of, sections, without_area};

use crate::{BUILD_PRIORITY_LIMIT, Record};
use std::cmp::Ordering;
use std::marker::Model;

/// Where a source package stands in the queue of its architecture: by build priority, the greatest
/// first, what was built earlier before what is new, then by priority, by section without its
/// archive area, and by the bytes of the name (wanna-build's states page; build priorities and the
/// order of sections are this project's own). The least is built first.
#[derive(Debug, Drop)]
pub struct QueueKey<'a> {
    build_priority: i16,
    is_new: bool,
    priority: u8,
    section: u8,
    name: &'a str,
}

impl<'a> Model for QueueKey<'a> {
    ghost use Rattle.wb_states.specs.Queue.{Place};

    ghost Value = { Place };

    ghost view = { λ k. record {
      build_priority = k.build_priority;
      is_new = k.is_new;
      priority = k.priority;
      section = k.section;
      name = k.name.now;
    } };
}

impl<'a> QueueKey<'a> {
    /// The key of the source package `name` with this record. Takes no memory.
    pub fn of(current: &Record, name: &'a str) -> QueueKey<'a>
        ensures { result ≡ place_of current.now name.now }
    {
        QueueKey {
            build_priority: current.build_priority,
            is_new: !current.earlier,
            priority: priority_place(current.priority.as_str()),
            section: section_place(without_area(current.section.as_str())),
            name,
        }
    }
}

impl<'a> PartialEq for QueueKey<'a> {
    ghost eq = { eq_by_cmp place_cmp };

    ghost laws = { partial_equiv_from_equiv (eq_by_cmp_equiv place_cmp_total) };

    fn eq(&self, other: &QueueKey<'a>) -> bool {
        self.cmp(other) == Ordering::Equal
    }
}

impl<'a> Eq for QueueKey<'a> {
    ghost laws = { eq_by_cmp_equiv place_cmp_total };
}

impl<'a> Ord for QueueKey<'a> {
    ghost cmp = { place_cmp };

    ghost total = { place_cmp_total };

    ghost matches_partial_cmp = { λ x y. refl };

    ghost matches_eq = { λ x y. refl };

    fn cmp(&self, other: &QueueKey<'a>) -> Ordering {
        other
            .build_priority
            .cmp(&self.build_priority)
            .then(self.is_new.cmp(&other.is_new))
            .then(self.priority.cmp(&other.priority))
            .then(self.section.cmp(&other.section))
            .then(self.name.cmp(other.name))
    }
}

impl<'a> PartialOrd for QueueKey<'a> {
    ghost partial_cmp = { as_partial_cmp place_cmp };

    ghost laws = { po place_cmp_total (λ x y. refl) };

    fn partial_cmp(&self, other: &QueueKey<'a>) -> Option<Ordering> {
        Some(self.cmp(other))
    }
}

// For each step of build priority there are 2 * 6 * 29 = 348 places: built earlier or not, the
// priorities, the sections. `laws::ranks_order_the_queue` says that the order of the queue is that
// of the ranks and then of the names. So the index `record_order` of the tables has the queue, if
// each row has the rank of its record. It stands here, since the proofs of the tables would else
// have to speak of SQL and of the queue's order at once.
/// The number by which a table orders the records that wait on an architecture, those of one number
/// by the bytes of their names, which is the order of [`QueueKey`]: the least is built first. For a
/// record in its form it lies between 0 and 696347. Takes no memory (this project's own).
pub fn rank(current: &Record) -> u32
    ensures value { result ≡ rank_of current.now }
{
    let greatest = i32::from(BUILD_PRIORITY_LIMIT);
    let below = (greatest - i32::from(current.build_priority)).unsigned_abs();
    let is_new = u32::from(!current.earlier);
    let priority = u32::from(priority_place(current.priority.as_str()));
    let section = u32::from(section_place(without_area(current.section.as_str())));
    below * 348 + (is_new * 6 + priority) * 29 + section
}

fn priority_place(priority: &str) -> u8
    ensures { result ≡ position_or_len (bytes_eq priority.now) priorities }
{
    match priority {
        "required" => 0,
        "important" => 1,
        "standard" => 2,
        "optional" => 3,
        "extra" => 4,
        _ => 5,
    }
}

fn without_area(section: &str) -> &str
    ensures { result.now ≡ without_area section.now }
{
    match section.split_once('/') {
        Some((_, rest)) => rest,
        None => section,
    }
}

fn section_place(section: &str) -> u8
    ensures { result ≡ position_or_len (bytes_eq section.now) sections }
{
    match section {
        "libs" => 0,
        "base" => 1,
        "devel" => 2,
        "kernel" => 3,
        "shells" => 4,
        "perl" => 5,
        "python" => 6,
        "admin" => 7,
        "utils" => 8,
        "text" => 9,
        "net" => 10,
        "web" => 11,
        "mail" => 12,
        "database" => 13,
        "editors" => 14,
        "interpreters" => 15,
        "graphics" => 16,
        "sound" => 17,
        "video" => 18,
        "x11" => 19,
        "gnome" => 20,
        "kde" => 21,
        "science" => 22,
        "math" => 23,
        "doc" => 24,
        "misc" => 25,
        "oldlibs" => 26,
        "games" => 27,
        _ => 28,
    }
}
