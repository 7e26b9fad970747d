//! What a merge keeps of the archive's lists while it runs.

use deb_text::Text;
use deb_version::Version;

/// What a merge keeps of a paragraph of a Sources list (Debian Policy 5.4; that these fields are
/// kept is this project's own).
#[derive(Debug, Drop)]
pub struct SourceRow {
    /// The number of the paragraph, counted from 1.
    pub seq: u64,
    /// The source package.
    pub name: Text,
    /// The source version.
    pub version: Version,
    /// The words of Architecture, as they stand: spaces and tabs separate them.
    pub architecture: Text,
    /// Whether the source package is only kept for others: whether Extra-Source-Only is `yes`.
    pub extra: bool,
    /// The priority, empty if the list gives none.
    pub priority: Text,
    /// The section, empty if the list gives none.
    pub section: Text,
    /// Build-Depends for every architecture, as it stands, empty if the list gives none.
    pub depends: Text,
    /// Build-Depends-Arch for every architecture, as it stands, empty if the list gives none.
    pub depends_arch: Text,
}

/// What a merge keeps of a paragraph of a Packages list that can be installed on the architecture
/// whose part is merged: one row of the package itself, and one of each name that it provides
/// (Debian Policy 5.3 and 7.5; that these fields are kept is this project's own).
#[derive(Debug, Drop)]
pub struct BinaryRow {
    /// The number of the row among those that are kept, counted from 1; until it is kept, that of
    /// its paragraph.
    pub seq: u64,
    /// The binary package, or the name that it provides.
    pub name: Text,
    /// The version of the binary package, or that in which it provides the name, if it gives one.
    pub version: Option<Version>,
    /// The source package that it was built from, empty for a name that it provides.
    pub source: Text,
    /// The version of the source package that it was built from.
    pub source_version: Version,
    /// The number of the binary-only rebuild, 0 for none, at most 999.
    pub number: u16,
    /// Whether it was built on the architecture; if not, its architecture is `all`, or the row is
    /// of a name that it provides.
    pub own: bool,
}
