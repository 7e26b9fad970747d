//! The counts of the office.

/// The two counts of the office, each at most [`crate::COUNT_LIMIT`] (this project's own). Neither
/// ever falls.
#[derive(Clone, Copy, Debug, PartialEq, Eq)]
pub struct Counts {
    /// The greatest take number that was given, 0 before the first.
    pub handed: u64,
    /// How many commands were accepted.
    pub accepted: u64,
}

/// How many records of an architecture are in each state (this project's own).
#[derive(Clone, Copy, Debug, PartialEq, Eq)]
pub struct StateCounts {
    /// Those that wait in the queue for a builder.
    pub needs_build: u64,
    /// Those that a builder holds and builds.
    pub building: u64,
    /// Those that their holder built and has not uploaded yet.
    pub built: u64,
    /// Those that their holder uploaded and the archive has not listed yet.
    pub uploaded: u64,
    /// Those that the archive has.
    pub installed: u64,
    /// Those that wait until the archive has what they need to be built.
    pub dep_wait: u64,
    /// Those whose build needs what cannot be installed.
    pub bd_uninstallable: u64,
    /// Those whose failed build a person has to look at.
    pub failed: u64,
    /// Those that are not to be built on the architecture.
    pub not_for_us: u64,
    /// Those whose holder reported a failed build that nobody has looked at yet.
    pub build_attempted: u64,
}
