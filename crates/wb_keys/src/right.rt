//! The rights of a line of a key file, and the kinds of requests.

use deb_text::Text;

/// What whoever has it may ask of an office (this project's own).
#[derive(Debug, Drop)]
pub enum Right {
    /// `read`: every query.
    Read,
    /// `build=BUILDER`: to take source packages in the name of this builder, and to report under
    /// the take numbers that it holds or nobody holds.
    Build(Text),
    /// `port=ARCH`: to move the source packages of this architecture.
    Port(Text),
    /// `operate`: everything.
    Operate,
}

/// The rights of a request (this project's own).
#[derive(Clone, Copy, Debug)]
pub enum Rights<'a> {
    /// To everything, which is the right `operate` alone: those of everybody in an office without
    /// keys.
    Everything,
    /// Those of a line of a key file.
    These(&'a [Right]),
}

/// Which right a request needs, as far as its path says, before its body is read (this project's
/// own).
#[derive(Clone, Copy, Debug, PartialEq, Eq)]
pub enum Kind {
    /// A query, for which any right is enough.
    Query,
    /// A command of a builder: it takes a source package, or reports under a take number.
    Builder,
    /// A command for the source packages of an architecture.
    Porter,
    /// Every other command, for which `operate` is needed.
    Operator,
}
