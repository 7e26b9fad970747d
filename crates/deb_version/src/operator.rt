//! The comparisons that a relation between packages may ask for.

ghost use Rattle.std.specs.Prelude.{◌≡◌};
ghost use Rattle.deb_version.specs.Operator.{meets};

use crate::order::compare;
use crate::version::Version;

/// How the version at hand is to stand to the one that is asked for: `<<`, `<=`, `=`, `>=`, `>>`.
/// Source: Debian Policy 7.1.
#[derive(Clone, Copy, PartialEq, Eq, Debug)]
pub enum Op {
    /// `<<`, strictly earlier.
    Earlier,
    /// `<=`, earlier or equal.
    EarlierOrEqual,
    /// `=`, exactly equal.
    Equal,
    /// `>=`, later or equal.
    LaterOrEqual,
    /// `>>`, strictly later.
    Later,
}

/// Whether the version at hand stands to the one asked for as the operator says. It takes no memory.
/// Source: Debian Policy 7.1, and 5.6.12 for the order.
#[tactic(auto, unfolding(crate::specs::Operator::meets))]
pub fn meets(op: Op, have: &Version, want: &Version) -> bool
    ensures { result ≡ meets op have.now want.now }
{
    let order = compare(have, want);
    match op {
        Op::Earlier => order.is_lt(),
        Op::EarlierOrEqual => order.is_le(),
        Op::Equal => order.is_eq(),
        Op::LaterOrEqual => order.is_ge(),
        Op::Later => order.is_gt(),
    }
}
