//! Relations between packages, as they are kept.

use deb_text::{Items, Text};
use deb_version::{Op, Version};
use std::marker::Model;

/// The most bytes that the text of relations may have.
/// Source: this project's own.
pub const RELATIONS_LIMIT: usize = 65536;

/// Which words a list has: those of architectures, or build profiles.
/// Source: Debian Policy 7.1, and of build profiles dpkg's deb-src-control(5).
#[derive(Clone, Copy, Debug)]
pub enum Kind {
    /// Architecture words, in square brackets.
    Arch,
    /// Build profiles, in angle brackets.
    Profile,
}

/// A word of a list, plain or negated by `!`: an architecture word or a build profile.
/// Source: Debian Policy 7.1, and of build profiles dpkg's deb-src-control(5).
#[derive(Debug, Drop)]
pub struct Term {
    pub(crate) negated: bool,
    pub(crate) word: Text,
}

/// The version that is asked for, and how the available one is to stand to it.
/// Source: Debian Policy 7.1.
#[derive(Debug, Drop)]
pub struct Restriction {
    pub(crate) op: Op,
    pub(crate) version: Version,
}

/// One package of a group: its name, the qualifier of its architecture, the version asked for, the architectures
/// and the lists of build profiles for which it is asked. An empty list is one that is not written.
/// Source: Debian Policy 7.1, and of qualifiers and build profiles dpkg's deb-src-control(5).
#[derive(Debug, Drop)]
pub struct Alternative {
    pub(crate) name: Text,
    pub(crate) qualifier: Option<Text>,
    pub(crate) restriction: Option<Restriction>,
    pub(crate) archs: Items<Term>,
    pub(crate) profiles: Items<Items<Term>>,
}

/// Relations between packages: groups that are all asked for, each of which is satisfied by one of its alternatives.
/// Contracts see the list of the groups, each the list of its alternatives.
/// Source: Debian Policy 7.1.
#[derive(Debug, Drop)]
pub struct Relations {
    pub(crate) groups: Items<Items<Alternative>>,
}

impl Model for Relations {
    ghost use Rattle.std.specs.Prelude.{List};
    ghost use Rattle.std.specs.Coded.{coded_list};
    ghost use Rattle.deb_relations.specs.declared.relations.Alternative.{Alternative};
    ghost use Rattle.deb_relations.specs.contracts.relations.Alternative.{the_row};

    ghost Value = { List (List Alternative) };

    ghost coded = { coded_list (coded_list the_row.coded) };

    ghost view = { λ relations. relations.groups };
}
