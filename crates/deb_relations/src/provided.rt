//! The names that packages provide.

ghost use Rattle.std.specs.Prelude.{◌≡◌, ◌≢◌, [], ◌++◌, filter, IfOk, OnErr, OnOk};
ghost use Rattle.std.specs.List.{filter_map};
ghost use Rattle.std.specs.BTreeSet.{contains};
ghost use Rattle.std.specs.Option.{option_to_list};
ghost use Rattle.deb_text.specs.Text.{text_cmp};
ghost use Rattle.deb_relations.specs.declared.fault.RelationFault.TheVariants.{Memory};
ghost use Rattle.deb_relations.specs.Provided.{given_as, given_by, given_by_group, given_in};
ghost use Rattle.deb_relations.specs.Provided.{provided_in, wanted_by};

use crate::fault::RelationFault;
use crate::parse::read_groups;
use crate::relations::{Alternative, Restriction};
use deb_text::{Items, Text};
use deb_version::{Op, Version};
use std::alloc::{AllocError, Global};
use std::collections::BTreeSet;

/// A name that a package provides.
/// Source: Debian Policy 7.5.
#[derive(Debug, Drop)]
pub struct Provided {
    /// The name.
    pub name: Text,
    /// The version in which it is provided, or none if it is provided without one.
    pub version: Option<Version>,
}

/// The name that is given with this operator and version: `=` alone has a version to give.
fn given_as(name: &Text, asked: &Restriction) -> Result<Option<Provided>, AllocError>
    ensures value { IfOk result (λ given. given ≡ given_as name.now asked.now.op asked.now.version) }
{
    match asked.op {
        Op::Equal => Ok(Some(Provided {
            name: name.clone()?,
            version: Some(asked.version.clone()?),
        })),
        Op::Earlier | Op::EarlierOrEqual | Op::LaterOrEqual | Op::Later => Ok(None),
    }
}

/// The name that the alternative gives, if it gives one.
#[tactic(auto, unfolding(crate::specs::Provided::given_by))]
fn given_by(a: &Alternative) -> Result<Option<Provided>, AllocError>
    ensures value { IfOk result (λ given. given ≡ given_by a.now) }
{
    if !a.archs.as_slice().is_empty() || !a.profiles.as_slice().is_empty() {
        return Ok(None);
    }
    match &a.restriction {
        None => Ok(Some(Provided {
            name: a.name.clone()?,
            version: None,
        })),
        Some(asked) => given_as(&a.name, asked),
    }
}

/// The name that the group gives, if it gives one that is wanted.
fn wanted_by(group: &[Alternative], wanted: &BTreeSet<Text>) -> Result<Option<Provided>, AllocError>
    ensures value { IfOk result (λ given. given ≡ wanted_by (contains text_cmp wanted.now) group.now) }
{
    match group {
        [a] if wanted.contains(&a.name) => given_by(a),
        _ => Ok(None),
    }
}

/// The name that the group gives, if it gives one.
fn given_by_group(group: &[Alternative]) -> Result<Option<Provided>, AllocError>
    ensures value { IfOk result (λ given. given ≡ given_by_group group.now) }
{
    match group {
        [a] => given_by(a),
        _ => Ok(None),
    }
}

/// Adds the name after others, if there is one.
fn push_given(found: &mut Vec<Provided>, given: Option<Provided>) -> Result<(), AllocError>
    ensures ok { OnOk result (found.new.items ≡ found.old.items ++ option_to_list given) }
{
    if let Some(given) = given {
        found.push(given)?;
    }
    Ok(())
}

/// The wanted names that groups give, in their order.
fn wanted_in(
    alloc: Global,
    groups: &[Items<Alternative>],
    wanted: &BTreeSet<Text>,
) -> Result<Vec<Provided>, AllocError>
    ensures value { IfOk result (λ found.
        found.items ≡ filter_map (wanted_by (contains text_cmp wanted.now)) groups.now) }
{
    let mut found = Vec::new(alloc);
    for group in groups {
        let given = wanted_by(group.as_slice(), wanted)?;
        push_given(&mut found, given)?;
    }
    Ok(found)
}

/// The names that groups give, in their order.
#[tactic(auto, unfolding(crate::specs::Provided::given_in))]
fn given_in(alloc: Global, groups: &[Items<Alternative>]) -> Result<Vec<Provided>, AllocError>
    ensures value { IfOk result (λ found. found.items ≡ given_in groups.now) }
{
    let mut found = Vec::new(alloc);
    for group in groups {
        let given = given_by_group(group.as_slice())?;
        push_given(&mut found, given)?;
    }
    Ok(found)
}

/// What a text gives that has no reading for this fault. The only error is that memory ran out.
fn nothing_given(alloc: Global, fault: RelationFault) -> Result<Vec<Provided>, AllocError>
    ensures nothing { IfOk result (λ found. found.items ≡ []) }
    ensures unread { IfOk result (λ _. fault ≢ Memory) }
{
    match fault {
        RelationFault::Memory => Err(AllocError),
        _ => Ok(Vec::new(alloc)),
    }
}

impl Provided {
    /// The names that the text of a field `Provides` gives, in their order, each as often as it
    /// stands there: as [`Provided::read`], whatever is wanted. The only error is that memory ran
    /// out.
    /// Source: Debian Policy 7.5; that the whole of a malformed text gives nothing is this
    /// project's own.
    pub fn all(alloc: Global, text: &str) -> Result<Vec<Provided>, AllocError>
        ensures value { IfOk result (λ found. found.items ≡ provided_in text.now) }
    {
        match read_groups(alloc, text) {
            Ok(groups) => given_in(alloc, groups.as_slice()),
            Err(fault) => nothing_given(alloc, fault),
        }
    }

    /// The wanted names that the text of a field `Provides` gives, in their order, each as often as
    /// it stands there: with its version where it has one, as in `name (= version)`. A group with
    /// another operator, of several alternatives, or with architectures or build profiles gives
    /// nothing, and a text that has no reading as relations gives nothing at all; it may be longer
    /// than relations are elsewhere. The only error is that memory ran out, which does not come if
    /// no name is wanted.
    /// Source: Debian Policy 7.5; that the whole of a malformed text gives nothing is this
    /// project's own.
    pub fn read(
        alloc: Global,
        text: &str,
        wanted: &BTreeSet<Text>,
    ) -> Result<Vec<Provided>, AllocError>
        ensures value { IfOk result (λ found. found.items
            ≡ filter (λ given. contains text_cmp wanted.now given.name) (provided_in text.now)) }
        ensures memory { OnErr result (wanted.now.keys ≢ []) }
    {
        if wanted.is_empty() {
            return Ok(Vec::new(alloc));
        }
        match read_groups(alloc, text) {
            Ok(groups) => wanted_in(alloc, groups.as_slice(), wanted),
            Err(fault) => nothing_given(alloc, fault),
        }
    }
}
