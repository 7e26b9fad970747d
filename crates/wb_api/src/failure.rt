//! Why a part of a request was not read.
ghost use Rattle.std.specs.Prelude.{◌≡◌};
ghost use Rattle.wb_api.specs.declared.failure.RequestError.TheVariants.{Memory};

use std::alloc::AllocError;
use wb_streams::Fault;

/// Why a part of a request was not read.
#[derive(Clone, Copy)]
pub(crate) enum RequestError {
    /// The request is not to be carried out.
    Fault(Fault),
    /// There is no memory for it.
    Memory,
}

impl From<AllocError> for RequestError {
    ghost from_gives = { λ _ error. error ≡ Memory };

    fn from(_error: AllocError) -> RequestError {
        RequestError::Memory
    }
}
