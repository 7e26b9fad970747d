//! The key of the record that a command puts, by the records that it names.
ghost use Rattle.std.specs.Prelude.{◌≡◌, IfOk};
ghost use Rattle.std.specs.Option.{option_map};
ghost use Rattle.wb_states.specs.Lookups.{entry_of};
ghost use Rattle.wb_office.specs.Sought.{key_named};

use deb_text::Text;
use std::alloc::AllocError;
use wb_states::KeyedRecord;
pub(crate) use wb_states::Subject;

/// The key of the record that is put, if the first record that is named is this one. The only error
/// is that there is no memory for it.
pub(crate) fn key_of(
    names: &Subject<'_>,
    first: &Option<KeyedRecord>,
) -> Result<Option<(Text, Text)>, AllocError>
    ensures value { IfOk result (λ key. key ≡ key_named names.now (option_map entry_of first.now)) }
{
    match *names {
        Subject::Nothing | Subject::Held(_) => Ok(None),
        Subject::Source(arch, source) => Ok(Some((arch.clone()?, source.clone()?))),
        Subject::Taken(_) | Subject::Head(_) => match first {
            None => Ok(None),
            Some(row) => Ok(Some((row.arch.clone()?, row.source.clone()?))),
        },
    }
}
