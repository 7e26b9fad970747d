//! What is served, and to whom.
ghost use Rattle.std.specs.Prelude.{◌≡◌};
ghost use Rattle.wb_api.specs.Requests.{plain};

use wb_keys::Access;

/// What is served, and to whom (this project's own).
#[derive(Debug, Drop)]
pub struct Service {
    /// Whether there are lists, so that merges are served.
    pub has_lists: bool,
    /// Who may ask for what.
    pub access: Access,
}

impl Service {
    /// Without lists and without keys: everything but merges, to everybody. Takes no memory.
    pub fn plain() -> Service
        ensures value { result ≡ plain }
    {
        Service {
            has_lists: false,
            access: Access::Everybody,
        }
    }
}
