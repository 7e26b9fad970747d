//! Records with their keys, as changes give them.
ghost use Rattle.std.specs.Prelude.{◌≡◌, IfOk};
ghost use Rattle.wb_states.specs.Lookups.{entry_of};

use deb_text::Text;
use std::alloc::AllocError;
use wb_states::{KeyedRecord, Record};

/// The key of two texts: a copy of each. The only error is that memory ran out.
pub(crate) fn key_of(first: &Text, second: &Text) -> Result<(Text, Text), AllocError>
    ensures value { IfOk result (λ key. key ≡ (first.now, second.now)) }
{
    Ok((first.clone()?, second.clone()?))
}

/// A record with a copy of its key. The only error is that memory ran out.
pub(crate) fn with_key(
    arch: &Text,
    source: &Text,
    current: Record,
) -> Result<KeyedRecord, AllocError>
    ensures value { IfOk result (λ made. entry_of made ≡ ((arch.now, source.now), current)) }
{
    Ok(KeyedRecord {
        arch: arch.clone()?,
        source: source.clone()?,
        current,
    })
}
