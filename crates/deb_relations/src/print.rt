//! The printed form of relations.

ghost use Rattle.std.specs.Prelude.{◌≡◌, ◌++◌, ◌∷◌, true, IfOk, OnOk, OnErr, codes};
ghost use Rattle.std.specs.String.{string_bytes};
ghost use Rattle.std.specs.List.{flat_map};
ghost use Rattle.deb_text.specs.Lists.{is_nonempty};
ghost use Rattle.deb_relations.specs.Printing.{term_text, terms_text, op_text, qualifier_text, restriction_text, archs_text, profile_text, profiles_text, alternative_text, group_text, printed};

use crate::relations::{Alternative, Relations, Restriction, Term};
use deb_text::{Items, Text};
use deb_version::Op;
use std::alloc::{AllocError, Global};

fn write_term(out: &mut String, term: &Term) -> Result<(), AllocError>
    ensures { OnOk result (string_bytes out.new ≡ string_bytes out.old ++ term_text term.now) }
{
    if term.negated {
        out.push_str("!")?;
    }
    out.push_str(term.word.as_str())
}

#[tactic(auto, unfolding(crate::specs::Printing::terms_text))]
fn write_terms(out: &mut String, terms: &[Term]) -> Result<(), AllocError>
    ensures { OnOk result (string_bytes out.new ≡ string_bytes out.old ++ terms_text terms.now) }
{
    if let [first, others @ ..] = terms {
        write_term(out, first)?;
        for term in others {
            out.push_str(" ")?;
            write_term(out, term)?;
        }
    }
    Ok(())
}

fn op_str(op: Op) -> &'static str
    ensures { result.now ≡ op_text op }
{
    match op {
        Op::Earlier => "<<",
        Op::EarlierOrEqual => "<=",
        Op::Equal => "=",
        Op::LaterOrEqual => ">=",
        Op::Later => ">>",
    }
}

fn write_qualifier(out: &mut String, qualifier: &Option<Text>) -> Result<(), AllocError>
    ensures { OnOk result (string_bytes out.new
        ≡ string_bytes out.old ++ qualifier_text qualifier.now) }
{
    if let Some(word) = qualifier {
        out.push_str(":")?;
        out.push_str(word.as_str())?;
    }
    Ok(())
}

fn write_restriction(out: &mut String, asked: &Option<Restriction>) -> Result<(), AllocError>
    ensures { OnOk result (string_bytes out.new
        ≡ string_bytes out.old ++ restriction_text asked.now) }
{
    if let Some(asked) = asked {
        out.push_str(" (")?;
        out.push_str(op_str(asked.op))?;
        out.push_str(" ")?;
        out.push_str(asked.version.text())?;
        out.push_str(")")?;
    }
    Ok(())
}

fn write_archs(out: &mut String, terms: &[Term]) -> Result<(), AllocError>
    ensures { OnOk result (string_bytes out.new ≡ string_bytes out.old ++ archs_text terms.now) }
{
    if !terms.is_empty() {
        out.push_str(" [")?;
        write_terms(out, terms)?;
        out.push_str("]")?;
    }
    Ok(())
}

fn write_profile(out: &mut String, terms: &[Term]) -> Result<(), AllocError>
    ensures { OnOk result (string_bytes out.new ≡ string_bytes out.old ++ profile_text terms.now) }
{
    out.push_str(" <")?;
    write_terms(out, terms)?;
    out.push_str(">")
}

fn write_profiles(out: &mut String, lists: &[Items<Term>]) -> Result<(), AllocError>
    ensures { OnOk result (string_bytes out.new ≡ string_bytes out.old ++ profiles_text lists.now) }
{
    for terms in lists {
        write_profile(out, terms.as_slice())?;
    }
    Ok(())
}

#[tactic(auto, unfolding(crate::specs::Printing::alternative_text))]
fn write_alternative(out: &mut String, a: &Alternative) -> Result<(), AllocError>
    ensures { OnOk result (string_bytes out.new ≡ string_bytes out.old ++ alternative_text a.now) }
{
    out.push_str(a.name.as_str())?;
    write_qualifier(out, &a.qualifier)?;
    write_restriction(out, &a.restriction)?;
    write_archs(out, a.archs.as_slice())?;
    write_profiles(out, a.profiles.as_slice())
}

#[tactic(auto, unfolding(crate::specs::Printing::group_text))]
fn write_group(out: &mut String, group: &[Alternative]) -> Result<(), AllocError>
    ensures { OnOk result (string_bytes out.new ≡ string_bytes out.old ++ group_text group.now) }
{
    if let [first, others @ ..] = group {
        write_alternative(out, first)?;
        for a in others {
            out.push_str(" | ")?;
            write_alternative(out, a)?;
        }
    }
    Ok(())
}

#[tactic(auto, unfolding(crate::specs::Printing::printed))]
fn write_groups(out: &mut String, groups: &[Items<Alternative>]) -> Result<(), AllocError>
    ensures value { OnOk result (string_bytes out.new ≡ string_bytes out.old ++ printed groups.now) }
    ensures memory { OnErr result (is_nonempty groups.now ≡ true) }
{
    if let [first, others @ ..] = groups {
        write_group(out, first.as_slice())?;
        for group in others {
            out.push_str(", ")?;
            write_group(out, group.as_slice())?;
        }
    }
    Ok(())
}

impl Relations {
    /// The text of the relations: groups are joined by `, ` and alternatives by ` | `; a qualifier
    /// stands as `:any`, an operator and a version as ` (>= 2)`, lists as ` [a b]` and ` <x !y>`.
    /// No relations print as the empty text, which takes no memory. The only error is that memory ran out.
    /// Source: Debian Policy 7.1, and of qualifiers and build profiles dpkg's deb-src-control(5).
    pub fn print(&self, alloc: Global) -> Result<String, AllocError>
        ensures value { IfOk result (λ text. string_bytes text ≡ printed self.now) }
        ensures memory { OnErr result (is_nonempty self.now ≡ true) }
    {
        let mut out = String::new(alloc);
        write_groups(&mut out, self.groups.as_slice())?;
        Ok(out)
    }
}
