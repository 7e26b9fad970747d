//! How two versions compare.

ghost use Rattle.std.specs.Prelude.{◌≡◌, ◌≢◌, ◌+◌, ◌+ℤ◌, ◌<◌, pos, true, length, drop, take, slice_index};
ghost use Rattle.std.specs.Char.{is_ascii_digit};
ghost use Rattle.std.specs.List.{list_all, prefix_len};
ghost use Rattle.std.specs.Ordering.{nat_cmp};
ghost use Rattle.deb_version.specs.Syntax.{parts_of, value_of, all_digits};
ghost use Rattle.deb_version.specs.Order.{first_weight, part_cmp, revision_or_zero, version_cmp};

use crate::version::Version;
use std::cmp::Ordering;

// One more than the weight of `~`, which is the least; the end of a non-digit run has weight 0.
const RUN_END: u16 = 1;

// One more than the first weight of what is left of a part.
#[tactic(auto, unfolding(crate::specs::Order::first_weight, crate::specs::Order::weight_of))]
fn rank(part: &[u8]) -> u16
    ensures value { pos result ≡ first_weight part.now +ℤ pos 1 }
    ensures some { result ≢ 1 → 0 < length part.now }
{
    match part {
        [] => RUN_END,
        [c, ..] if c.is_ascii_digit() => RUN_END,
        [b'~', ..] => 0,
        [c, ..] if c.is_ascii_alphabetic() => u16::from(*c) + 1,
        [c, ..] => u16::from(*c) + 257,
    }
}

// How many digits a part begins with.
fn digits_len(part: &[u8]) -> usize
    ensures { result ≡ prefix_len is_ascii_digit part.now }
{
    for (n, byte) in part.iter().enumerate() {
        if !byte.is_ascii_digit() {
            return n;
        }
    }
    part.len()
}

// The digits that a part begins with, and what follows them.
fn split_digits(part: &[u8]) -> (&[u8], &[u8])
    ensures front { result.0.now ≡ take (prefix_len is_ascii_digit part.now) part.now }
    ensures back { result.1.now ≡ drop (prefix_len is_ascii_digit part.now) part.now }
    ensures digits { all_digits result.0.now ≡ true }
{
    part.split_at(digits_len(part))
}

// The digits without the zeros before them.
fn without_zeros(digits: &[u8]) -> &[u8]
    ensures value { value_of result.now ≡ value_of digits.now }
    ensures kept { all_digits digits.now ≡ true → all_digits result.now ≡ true }
    ensures first { slice_index result.now 0 ≢ 48 }
{
    let mut rest = digits;
    while let [b'0', others @ ..] = rest {
        rest = others;
    }
    rest
}

// Numbers of any length compare by their digits: the longer is the greater.
fn compare_numbers(left: &[u8], right: &[u8]) -> Ordering
    requires left_digits { all_digits left.now ≡ true }
    requires right_digits { all_digits right.now ≡ true }
    ensures { result ≡ nat_cmp (value_of left.now) (value_of right.now) }
{
    let a = without_zeros(left);
    let b = without_zeros(right);
    match a.len().cmp(&b.len()) {
        Ordering::Equal => a.cmp(b),
        decided => decided,
    }
}

// Two upstream versions, or two revisions.
fn compare_parts(left: &[u8], right: &[u8]) -> Ordering
    ensures { result ≡ part_cmp left.now right.now }
{
    let mut a = left;
    let mut b = right;
    while !(a.is_empty() && b.is_empty()) {
        let a_rank = rank(a);
        let b_rank = rank(b);
        if a_rank != b_rank {
            return a_rank.cmp(&b_rank);
        }
        if a_rank != RUN_END {
            a = a.split_at(1).1;
            b = b.split_at(1).1;
            continue;
        }
        let (a_digits, a_rest) = split_digits(a);
        let (b_digits, b_rest) = split_digits(b);
        let by_number = compare_numbers(a_digits, b_digits);
        if by_number.is_ne() {
            return by_number;
        }
        a = a_rest;
        b = b_rest;
    }
    Ordering::Equal
}

// The revision of a version, or `0`.
#[tactic(auto, unfolding(crate::specs::Order::revision_or_zero))]
fn revision_bytes(version: &Version) -> &[u8]
    ensures { result.now ≡ revision_or_zero (parts_of version.now) }
{
    match version.revision() {
        Some(revision) => revision.as_bytes(),
        None => b"0",
    }
}

/// How two versions compare: by epoch as numbers, then by upstream version, then by revision, where an
/// absent revision is `0`. A part is compared as a run of non-digits, then a run of digits as a number
/// of any length, and so on; in a run of non-digits letters are before all other characters, and `~` is before
/// everything, even the end of the run. Versions with different texts may be equal. It takes no memory.
/// Source: Debian Policy 5.6.12.
#[tactic(auto, unfolding(crate::specs::Order::version_cmp, crate::specs::Order::parts_cmp))]
pub fn compare(left: &Version, right: &Version) -> Ordering
    ensures { result ≡ version_cmp left.now right.now }
{
    let by_epoch = left.epoch().cmp(&right.epoch());
    if by_epoch.is_ne() {
        return by_epoch;
    }
    let by_upstream = compare_parts(left.upstream().as_bytes(), right.upstream().as_bytes());
    if by_upstream.is_ne() {
        return by_upstream;
    }
    compare_parts(revision_bytes(left), revision_bytes(right))
}

/// A version as a key in the order of `compare`: versions of different texts may be `==`.
/// Source: Debian Policy 5.6.12.
#[derive(Clone, Copy, Debug)]
pub struct ByOrder<'a>(pub &'a Version);

impl PartialEq for ByOrder<'_> {
    ghost use Rattle.std.specs.Ordering.{on, eq_by_cmp};
    ghost use Rattle.std.specs.Cmp.{partial_equiv_from_equiv, on_equiv, eq_by_cmp_equiv};
    ghost use Rattle.deb_version.specs.Order.{version_cmp};
    ghost use Rattle.deb_version.specs.OrderLaws.{version_cmp_total};

    ghost eq = { on (λ v. v.0.now) (eq_by_cmp version_cmp) };

    ghost laws = { partial_equiv_from_equiv
        (on_equiv (λ v. v.0.now) (eq_by_cmp_equiv version_cmp_total)) };

    fn eq(&self, other: &Self) -> bool {
        compare(self.0, other.0).is_eq()
    }
}

impl Eq for ByOrder<'_> {
    ghost use Rattle.std.specs.Cmp.{on_equiv, eq_by_cmp_equiv};
    ghost use Rattle.deb_version.specs.OrderLaws.{version_cmp_total};

    ghost laws = { on_equiv (λ v. v.0.now) (eq_by_cmp_equiv version_cmp_total) };
}

impl PartialOrd for ByOrder<'_> {
    ghost use Rattle.std.specs.Prelude.{refl};
    ghost use Rattle.std.specs.Ordering.{on, as_partial_cmp};
    ghost use Rattle.std.specs.Cmp.{po, on_total};
    ghost use Rattle.deb_version.specs.Order.{version_cmp};
    ghost use Rattle.deb_version.specs.OrderLaws.{version_cmp_total};

    ghost partial_cmp = { as_partial_cmp (on (λ v. v.0.now) version_cmp) };

    ghost laws = { po (on_total (λ v. v.0.now) version_cmp_total) (λ x y. refl) };

    fn partial_cmp(&self, other: &Self) -> Option<Ordering> {
        Some(self.cmp(other))
    }
}

impl Ord for ByOrder<'_> {
    ghost use Rattle.std.specs.Prelude.{refl};
    ghost use Rattle.std.specs.Ordering.{on};
    ghost use Rattle.std.specs.Cmp.{on_total};
    ghost use Rattle.deb_version.specs.Order.{version_cmp};
    ghost use Rattle.deb_version.specs.OrderLaws.{version_cmp_total};

    ghost cmp = { on (λ v. v.0.now) version_cmp };

    ghost total = { on_total (λ v. v.0.now) version_cmp_total };

    ghost matches_partial_cmp = { λ x y. refl };

    ghost matches_eq = { λ x y. refl };

    fn cmp(&self, other: &Self) -> Ordering {
        compare(self.0, other.0)
    }
}
