//! The order of versions.

use deb_version::{Version, VersionFault, compare};
use std::alloc::Global;
use std::cmp::Ordering;
use std::fmt;

/// How many comparisons found the first earlier, equal and later.
#[derive(Clone, Copy)]
pub(crate) struct OrderCounts {
    earlier: u64,
    equal: u64,
    later: u64,
}

impl fmt::Display for OrderCounts {
    fn fmt<W: fmt::Write>(&self, f: &mut fmt::Formatter<W>) -> fmt::Result {
        let OrderCounts {
            earlier,
            equal,
            later,
        } = *self;
        write!(f, "{earlier} earlier, {equal} equal, {later} later")
    }
}

/// The versions that the lines of the text are, in their order.
pub(crate) fn parsed(alloc: Global, text: &str) -> Result<Vec<Version>, VersionFault> {
    let mut versions = Vec::new(alloc);
    for line in text.lines() {
        versions.push(Version::parse(alloc, line)?)?;
    }
    Ok(versions)
}

/// Each version against the one that stands `distance` places after it.
fn compared(versions: &[Version], distance: usize, mut found: OrderCounts) -> OrderCounts {
    let Some(later) = versions.get(distance..) else {
        return found;
    };
    for (left, right) in versions.iter().zip(later) {
        match compare(left, right) {
            Ordering::Less => found.earlier = found.earlier.saturating_add(1),
            Ordering::Equal => found.equal = found.equal.saturating_add(1),
            Ordering::Greater => found.later = found.later.saturating_add(1),
        }
    }
    found
}

/// Each version against each of the ten that stand after it.
pub(crate) fn compared_ten_times(versions: &[Version]) -> OrderCounts {
    let mut found = OrderCounts {
        earlier: 0,
        equal: 0,
        later: 0,
    };
    for distance in 1..11 {
        found = compared(versions, distance, found);
    }
    found
}
