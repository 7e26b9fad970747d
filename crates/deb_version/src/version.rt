//! A version, which keeps its text and where its parts are cut.

ghost use Rattle.std.specs.Prelude.{◌≡◌, ◌≢◌, IfOk, IfErr, IsOk};
ghost use Rattle.std.specs.Option.{option_copied};
ghost use Rattle.deb_version.specs.Syntax.{parts_of, reading_of};
ghost use Rattle.deb_version.specs.declared.fault.VersionFault.TheVariants.{Memory};

use crate::fault::VersionFault;
use crate::parse::cut_of;
use std::alloc::{AllocError, Global};
use std::marker::Model;

/// A version of a package. Contracts see it as its text, a list of bytes, and each
/// value has a text that is a version: `[epoch:]upstream[-revision]`.
/// Two versions are `==` if their texts are; the order of versions is `compare`'s.
/// Source: Debian Policy 5.6.12.
#[derive(Debug, Drop)]
pub struct Version {
    text: String,
    epoch: u32,
    upstream_start: usize,
    upstream_end: usize,
}

impl Model for Version {
    ghost use Rattle.std.specs.Prelude.{List, ℕ};
    ghost use Rattle.std.specs.String.{string_bytes};
    ghost use Rattle.deb_version.specs.Syntax.{HasCuts};

    ghost Value = { List ℕ };

    ghost view = { λ v. string_bytes v.text };

    ghost invariant = { λ v.
        HasCuts (string_bytes v.text) v.epoch v.upstream_start v.upstream_end };
}

impl Version {
    /// Reads the text of a version, of 1 to 1000 bytes.
    ///
    /// The epoch ends at the first colon, the revision begins after the last hyphen.
    /// The epoch is one or more digits with a value of at most 2147483647. The upstream
    /// version holds ASCII letters, digits and `.` `+` `-` `~` `:`, and need not begin with
    /// a digit; the revision holds letters, digits and `+` `.` `~`. That a colon may stand in an
    /// upstream version after an epoch, and a letter at its start, is this project's own.
    ///
    /// Errors: the first fault of the text in the order of [`VersionFault`], and `Memory` if
    /// the text is a version and memory ran out; the text is not changed.
    /// Source: Debian Policy 5.6.12; the limits are this project's own.
    pub fn parse(alloc: Global, text: &str) -> Result<Version, VersionFault>
        ensures value { IfOk result (λ version. version ≡ text.now) }
        ensures ok { IfOk result (λ _. IsOk (reading_of text.now)) }
        ensures refused { IfErr result (λ fault. fault ≢ Memory → reading_of text.now ≡ Err fault) }
        ensures memory { IfErr result (λ fault. fault ≡ Memory → IsOk (reading_of text.now)) }
    {
        let cut = cut_of(text.as_bytes())?;
        Ok(Version {
            text: String::from_str(alloc, text)?,
            epoch: cut.epoch,
            upstream_start: cut.start,
            upstream_end: cut.end,
        })
    }

    /// The whole text, as it was read.
    /// Source: Debian Policy 5.6.12.
    pub fn text(&self) -> &str
        ensures value { result.now ≡ self.now }
        ensures ok { IsOk (reading_of self.now) }
    {
        self.text.as_str()
    }

    /// The epoch, 0 to 2147483647, and 0 if none is written.
    /// Source: Debian Policy 5.6.12.
    pub fn epoch(&self) -> u32
        ensures { result ≡ (parts_of self.now).epoch }
    {
        self.epoch
    }

    /// The upstream version, never empty.
    /// Source: Debian Policy 5.6.12.
    pub fn upstream(&self) -> &str
        ensures { result.now ≡ (parts_of self.now).upstream }
    {
        &self.text.as_str()[self.upstream_start..self.upstream_end]
    }

    /// The revision, never empty, or `None` if none is written.
    /// Source: Debian Policy 5.6.12.
    pub fn revision(&self) -> Option<&str>
        ensures { option_copied result ≡ (parts_of self.now).revision }
    {
        let text = self.text.as_str();
        if self.upstream_end < text.len() {
            Some(&text[self.upstream_end + 1..])
        } else {
            None
        }
    }
}

impl Clone for Version {
    ghost is_clone = { λ source copy. copy ≡ source };

    fn clone(&self) -> Result<Version, AllocError> {
        Ok(Version {
            text: self.text.clone()?,
            epoch: self.epoch,
            upstream_start: self.upstream_start,
            upstream_end: self.upstream_end,
        })
    }
}

impl PartialEq for Version {
    ghost use Rattle.std.specs.Str.{bytes_eq};
    ghost use Rattle.std.specs.Cmp.Rules.{comparing};
    ghost use Rattle.std.proofs.Common.{rules};

    ghost eq = { bytes_eq };

    ghost laws = { Prim.search (comparing, rules) };

    fn eq(&self, other: &Version) -> bool {
        self.text() == other.text()
    }
}

impl Eq for Version {
    ghost use Rattle.std.specs.Cmp.Rules.{comparing};
    ghost use Rattle.std.proofs.Common.{rules};

    ghost laws = { Prim.search (comparing, rules) };
}
