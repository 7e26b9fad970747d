//! Why no command was read.
ghost use Rattle.std.specs.Prelude.{◌≡◌};

use clap::error::ErrorKind;
use std::alloc::{AllocError, AllocFailed};
use thiserror::Error;

/// Why the words of a line gave no command.
#[derive(Clone, Copy, Debug, PartialEq, Eq, Error)]
pub enum WordsFault {
    /// The words are no command. The subcommand is missing or unknown, or is help; an argument is
    /// missing, or is malformed as a number or as a part; or there is a word too many, an unknown
    /// option, or `--after` twice or without its number.
    #[error("the words are no command")]
    NoCommand,
    /// There is no memory to read them now.
    #[error("there is no memory for it now")]
    Memory,
}

impl From<AllocError> for WordsFault {
    ghost use Rattle.wb_words.specs.declared.fault.WordsFault.TheVariants.{Memory};

    ghost from_gives = { λ _ fault. fault ≡ Memory };

    fn from(_refused: AllocError) -> WordsFault {
        WordsFault::Memory
    }
}

impl<T: Drop> From<AllocFailed<T>> for WordsFault {
    ghost use Rattle.wb_words.specs.declared.fault.WordsFault.TheVariants.{Memory};

    ghost from_gives = { λ _ fault. fault ≡ Memory };

    fn from(_refused: AllocFailed<T>) -> WordsFault {
        WordsFault::Memory
    }
}

/// Out of memory stays out of memory; each other error says that the words are no command.
impl From<clap::Error> for WordsFault {
    ghost use Rattle.std.specs.Prelude.{◌↔◌};
    ghost use Rattle.clap.specs.Words.{kind_of};
    ghost use Rattle.clap.specs.declared.error.kind.ErrorKind.TheVariants.{OutOfMemory};
    ghost use Rattle.wb_words.specs.declared.fault.WordsFault.TheVariants.{Memory};

    ghost from_gives = { λ error fault. (fault ≡ Memory) ↔ (kind_of error ≡ OutOfMemory) };

    fn from(error: clap::Error) -> WordsFault {
        match error.kind() {
            ErrorKind::OutOfMemory => WordsFault::Memory,
            _ => WordsFault::NoCommand,
        }
    }
}
