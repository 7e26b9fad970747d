//! The packages that are available, by their own names and by those that they provide, and whether
//! they satisfy relations.

ghost use Rattle.std.specs.Prelude.{◌≡◌, OnOk, OnErr, Some};
ghost use Rattle.std.specs.List.{list_any};
ghost use Rattle.deb_relations.specs.Satisfaction.{no_pairs, with_pair, versions_of};
ghost use Rattle.deb_relations.specs.Satisfaction.{meets_restriction, is_alternative_met};
ghost use Rattle.deb_relations.specs.Satisfaction.{is_group_met, satisfied};

use crate::relations::{Alternative, Relations, Restriction};
use deb_text::{Items, Text};
use deb_version::{Version, meets};
use std::alloc::{AllocError, Global};
use std::collections::BTreeMap;
use std::marker::Model;

/// The packages that are available: pairs of a name and a version, kept by name. A name that is
/// provided without a version has none.
/// Contracts see the map from each name to its versions, in the order in which they were added.
/// Source: Debian Policy 7.5; this project's own.
#[derive(Drop)]
pub struct Available {
    alloc: Global,
    versions: BTreeMap<Text, Items<Option<Version>>>,
}

impl Model for Available {
    ghost use Rattle.std.specs.FinMap as map;
    ghost use Rattle.deb_relations.specs.Satisfaction.{Pairs, coded_pairs};

    ghost Value = { Pairs };

    ghost coded = { coded_pairs };

    ghost view = { λ available. map.from_entries available.versions.entries };
}

impl Available {
    /// Nothing is available. It takes no memory; the allocator is kept for the calls that follow.
    /// Source: this project's own.
    pub fn new(alloc: Global) -> Available
        ensures value { result ≡ no_pairs }
    {
        Available {
            alloc,
            versions: BTreeMap::new(alloc),
        }
    }

    /// Adds a package of a name in a version, which may be there already; the name may have any
    /// form. The only error is that memory ran out; what is available then stays as it was.
    /// Source: this project's own.
    pub fn add(&mut self, name: &str, version: Version) -> Result<(), AllocError>
        ensures value { OnOk result (self.new ≡ with_pair self.old name.now (Some version)) }
        ensures unchanged { OnErr result (self.new ≡ self.old) }
    {
        self.provide(name, Some(version))
    }

    /// Adds a name that a package provides, in a version or without one, which may be there
    /// already; the name may have any form. The only error is that memory ran out; what is
    /// available then stays as it was.
    /// Source: Debian Policy 7.5.
    pub fn provide(&mut self, name: &str, version: Option<Version>) -> Result<(), AllocError>
        ensures value { OnOk result (self.new ≡ with_pair self.old name.now version) }
        ensures unchanged { OnErr result (self.new ≡ self.old) }
    {
        let name = Text::copied(self.alloc, name)?;
        match self.versions.get_mut(&name) {
            Some(list) => list.push(version),
            None => {
                let mut list = Items::new(self.alloc);
                list.push(version)?;
                match self.versions.insert(name, list) {
                    Ok(_) => Ok(()),
                    Err(_) => Err(AllocError),
                }
            }
        }
    }

    // The versions in which the name is available.
    fn versions_of(&self, name: &Text) -> &[Option<Version>]
        ensures { result.now ≡ versions_of self.now name.now }
    {
        match self.versions.get(name) {
            Some(list) => list.as_slice(),
            None => &[],
        }
    }
}

// Whether it is available in the version that is asked for, if one is.
fn is_asked(asked: &Option<Restriction>, version: &Option<Version>) -> bool
    ensures { result ≡ meets_restriction asked.now version.now }
{
    match (asked, version) {
        (None, _) => true,
        (Some(_), None) => false,
        (Some(asked), Some(version)) => meets(asked.op, version, &asked.version),
    }
}

#[tactic(auto, unfolding(crate::specs::Satisfaction::is_alternative_met))]
fn is_alternative_met(available: &Available, a: &Alternative) -> bool
    ensures { result ≡ is_alternative_met available.now a.now }
{
    for version in available.versions_of(&a.name) {
        if is_asked(&a.restriction, version) {
            return true;
        }
    }
    false
}

#[tactic(auto, unfolding(crate::specs::Satisfaction::is_group_met))]
fn is_group_met(available: &Available, group: &[Alternative]) -> bool
    ensures { result ≡ is_group_met available.now group.now }
{
    for a in group {
        if is_alternative_met(available, a) {
            return true;
        }
    }
    false
}

impl Relations {
    /// Whether each group has an alternative whose name is available in a version that the
    /// alternative asks for. Qualifiers, architectures and build profiles play no part. It takes no
    /// memory.
    /// Source: Debian Policy 7.1 and 7.5.
    #[tactic(auto, unfolding(crate::specs::Satisfaction::satisfied))]
    pub fn satisfied(&self, available: &Available) -> bool
        ensures value { result ≡ satisfied available.now self.now }
    {
        for group in self.groups.as_slice() {
            if !is_group_met(available, group.as_slice()) {
                return false;
            }
        }
        true
    }
}
