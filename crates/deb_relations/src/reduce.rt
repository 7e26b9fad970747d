//! What is left of relations for an architecture.

ghost use Rattle.std.specs.Prelude.{◌≡◌, ◌++◌, [], true, map, filter, IfOk, OnErr};
ghost use Rattle.std.specs.List.{list_any, list_all};
ghost use Rattle.deb_text.specs.Lists.{is_nonempty};
ghost use Rattle.deb_relations.specs.Reduction.{has_match, is_for_arch, holds_without_profiles, is_for_no_profile, is_kept, without_lists, reduced_group, reduced};

use crate::arch::{ArchWords, arch_matches};
use crate::relations::{Alternative, Relations, Restriction, Term};
use deb_text::{Items, Text};
use std::alloc::{AllocError, Global};

#[tactic(auto, unfolding(crate::specs::Reduction::has_match))]
fn has_match(arch: &ArchWords, terms: &[Term]) -> bool
    ensures { result ≡ has_match arch.now terms.now }
{
    for term in terms {
        if arch_matches(term.word.as_str(), arch) {
            return true;
        }
    }
    false
}

fn is_for_arch(arch: &ArchWords, terms: &[Term]) -> bool
    ensures { result ≡ is_for_arch arch.now terms.now }
{
    match terms {
        [] => true,
        [first, ..] => has_match(arch, terms) != first.negated,
    }
}

#[tactic(auto, unfolding(crate::specs::Reduction::holds_without_profiles))]
fn holds_without_profiles(terms: &[Term]) -> bool
    ensures { result ≡ holds_without_profiles terms.now }
{
    for term in terms {
        if !term.negated {
            return false;
        }
    }
    true
}

fn has_held(lists: &[Items<Term>]) -> bool
    ensures { result ≡ list_any holds_without_profiles lists.now }
{
    for terms in lists {
        if holds_without_profiles(terms.as_slice()) {
            return true;
        }
    }
    false
}

fn is_for_no_profile(lists: &[Items<Term>]) -> bool
    ensures { result ≡ is_for_no_profile lists.now }
{
    lists.is_empty() || has_held(lists)
}

#[tactic(auto, unfolding(crate::specs::Reduction::is_kept))]
fn is_kept(arch: &ArchWords, a: &Alternative) -> bool
    ensures { result ≡ is_kept arch.now a.now }
{
    is_for_arch(arch, a.archs.as_slice()) && is_for_no_profile(a.profiles.as_slice())
}

fn copy_qualifier(qualifier: &Option<Text>) -> Result<Option<Text>, AllocError>
    ensures { IfOk result (λ made. made ≡ qualifier.now) }
{
    match qualifier {
        Some(word) => Ok(Some(word.clone()?)),
        None => Ok(None),
    }
}

fn copy_restriction(asked: &Option<Restriction>) -> Result<Option<Restriction>, AllocError>
    ensures { IfOk result (λ made. made ≡ asked.now) }
{
    match asked {
        Some(asked) => Ok(Some(Restriction {
            op: asked.op,
            version: asked.version.clone()?,
        })),
        None => Ok(None),
    }
}

fn copy_without_lists(alloc: Global, a: &Alternative) -> Result<Alternative, AllocError>
    ensures { IfOk result (λ made. made ≡ without_lists a.now) }
{
    Ok(Alternative {
        name: a.name.clone()?,
        qualifier: copy_qualifier(&a.qualifier)?,
        restriction: copy_restriction(&a.restriction)?,
        archs: Items::new(alloc),
        profiles: Items::new(alloc),
    })
}

#[tactic(auto, unfolding(crate::specs::Reduction::reduced_group))]
fn reduce_group(
    alloc: Global,
    group: &[Alternative],
    arch: &ArchWords,
) -> Result<Items<Alternative>, AllocError>
    ensures value { IfOk result (λ made. made ≡ reduced_group arch.now group.now) }
    ensures memory { OnErr result (is_nonempty (reduced_group arch.now group.now) ≡ true) }
{
    let mut made = Items::new(alloc);
    for a in group {
        if is_kept(arch, a) {
            made.push(copy_without_lists(alloc, a)?)?;
        }
    }
    Ok(made)
}

impl Relations {
    /// The relations that are asked for on an architecture, if no build profile is active. An
    /// alternative is dropped if it has plain architecture words and none matches, if a negated one
    /// matches, or if it has lists of build profiles and none holds. What remains has no lists, and a
    /// group of which nothing remains is dropped. A list of build profiles holds if all its words are
    /// negated. Qualifiers are kept. The only error is that memory ran out; it takes none if nothing is left.
    /// Source: Debian Policy 7.1, and of build profiles dpkg's deb-src-control(5); that no build profile is active is this project's own.
    #[tactic(auto, unfolding(crate::specs::Reduction::reduced))]
    pub fn reduce(&self, alloc: Global, arch: &ArchWords) -> Result<Relations, AllocError>
        ensures value { IfOk result (λ left. left ≡ reduced arch.now self.now) }
        ensures memory { OnErr result (is_nonempty (reduced arch.now self.now) ≡ true) }
    {
        let mut made = Items::new(alloc);
        for group in self.groups.as_slice() {
            let left = reduce_group(alloc, group.as_slice(), arch)?;
            if !left.as_slice().is_empty() {
                made.push(left)?;
            }
        }
        Ok(Relations { groups: made })
    }
}
