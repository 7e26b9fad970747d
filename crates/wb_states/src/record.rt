//! What the office keeps of one source package on one architecture.
ghost use Rattle.std.specs.Prelude.{◌≡◌};

use crate::State;
use deb_text::Text;
use deb_version::Version;

/// The record of a source package on an architecture (this project's own).
///
/// Exactly the states Building, Built and Uploaded have a holder and a take number, and exactly
/// Dep-Wait has waits.
#[derive(Clone, Debug, Drop)]
pub struct Record {
    /// Where the package stands.
    pub state: State,
    /// The source version that is to be built, or was.
    pub version: Version,
    /// The priority (Debian Policy 2.5): 1 to 64 bytes from `!` to `~`, or empty if a list gave
    /// none.
    pub priority: Text,
    /// The section (Debian Policy 2.4), in the form of the priority.
    pub section: Text,
    /// Whether some version of it was built on the architecture before.
    pub earlier: bool,
    /// The number of the binary-only rebuild, 0 for none, at most 999.
    pub number: u16,
    /// The builder that holds it.
    pub holder: Option<Text>,
    /// The take number under which it is held, a fencing token: at least 1, and each is given once.
    pub take: Option<u64>,
    // Kept as text: a merge reads them again, and what is printed reads back as the same. Waits
    // that could not be read would count as not met.
    /// The relations that it waits for, reduced for the architecture and printed.
    pub waits: Text,
    /// What it needs to be built, reduced and printed, or none if that could not be read.
    pub depends: Option<Text>,
    /// What an operator, its holder or a report said of its state, at most 1000 bytes.
    pub note: Text,
    /// Why it is rebuilt, at most 1000 bytes.
    pub message: Text,
    /// The build priority that an operator gave it, from -1000 to 1000 and 0 at first: of two
    /// waiting packages, the one with the greater is built first.
    pub build_priority: i16,
}
