//! What is tested of a command by what is known of the office.
ghost use Rattle.std.specs.Prelude.{◌≡◌, bytes_eq, nat_le};
ghost use Rattle.std.specs.List.{list_any};
ghost use Rattle.wb_states.specs.Limits.{count_limit};

use deb_text::Text;
use wb_states::{COUNT_LIMIT, Counts, OsCpu};

/// Whether the architecture is among these.
pub(crate) fn has_arch(archs: &[(Text, OsCpu)], arch: &Text) -> bool
    ensures value { result ≡ list_any (λ entry. bytes_eq arch.now entry.0) archs.now }
{
    archs.iter().any(|entry| arch == &entry.0)
}

/// Whether no more command can be counted.
pub(crate) fn is_spent(counts: Counts) -> bool
    ensures value { result ≡ nat_le count_limit counts.accepted }
{
    COUNT_LIMIT <= counts.accepted
}
