//! The reading of relations, part by part.

ghost use Rattle.std.specs.Prelude.{◌≡◌, ◌≢◌, ◌<◌, ◌==◌, true, false, not, List, ℕ, Some, None};
ghost use Rattle.std.specs.Prelude.{is_some, length, filter, IfOk, IfErr, if◌then◌else◌};
ghost use Rattle.std.specs.Option.{option_map};
ghost use Rattle.std.specs.List.{list_all, slice_split};
ghost use Rattle.deb_version.specs.Syntax.{fault_of, is_version_text};
ghost use Rattle.deb_relations.specs.Grammar.{is_blank_text, is_word, op_of, words, are_alike};
ghost use Rattle.deb_relations.specs.Grammar.{is_not_blank, is_right_angle, Reads, relations_limit};
ghost use Rattle.deb_relations.specs.Reader.{between, read_name, read_qualifier, restriction_of};
ghost use Rattle.deb_relations.specs.Reader.{read_restriction, signed, term_of, terms_of};
ghost use Rattle.deb_relations.specs.Reader.{with_group, arch_terms_of, read_archs, profile_of};
ghost use Rattle.deb_relations.specs.Reader.{read_profiles, read_alternative, read_group};
ghost use Rattle.deb_relations.specs.Reader.{read_groups};
ghost use Rattle.deb_text.specs.Options.{all_some};
ghost use Rattle.deb_relations.specs.Scanner.{halves_of};
ghost use Rattle.deb_relations.specs.Faults.{fault_from_version};
ghost use Rattle.deb_relations.specs.Reading.{place_of, end_before, name_fault, version_fault};
ghost use Rattle.deb_relations.specs.Reading.{asked_fault, restriction_fault, words_fault};
ghost use Rattle.deb_relations.specs.Reading.{archs_fault, list_fault, profiles_fault};
ghost use Rattle.deb_relations.specs.Reading.{alternative_fault, group_fault, groups_fault};
ghost use Rattle.deb_relations.specs.Reading.{reading_of, begins_with_name, is_group_begun};
ghost use Rattle.deb_relations.specs.Reading.{takes_memory, begins_asked, begins_inside};
ghost use Rattle.deb_relations.specs.Reading.{begins_with_term, begins_profile};
ghost use Rattle.deb_relations.specs.declared.relations.Kind.TheVariants.{Arch};
ghost use Rattle.deb_text.specs.Lists.{begins};
ghost use Rattle.deb_relations.specs.declared.relations.Alternative.{Alternative};
ghost use Rattle.deb_relations.specs.declared.fault.RelationFault.TheVariants.{BadName, Unclosed};
ghost use Rattle.deb_relations.specs.declared.fault.RelationFault.TheVariants.{TooLong, Memory};

use crate::fault::RelationFault;
use crate::names::{is_arch_word, is_package_name};
use crate::relations::{Alternative, Kind, RELATIONS_LIMIT, Relations, Restriction, Term};
use crate::scanner::{Class, cut_at, is_all, skip_white, split_leading, strip};
use deb_text::{Items, Text};
use deb_version::{Op, Version, VersionFault};
use std::alloc::Global;

#[tactic(auto, unfolding(crate::specs::Grammar::is_word))]
fn is_word(kind: Kind, word: &str) -> bool
    ensures { result ≡ is_word kind word.now }
{
    match kind {
        Kind::Arch => is_arch_word(word),
        Kind::Profile => !word.is_empty() && is_all(Class::Profile, word),
    }
}

// Where a text begins that ends at this place.
fn place_of(text: &str, end: usize) -> usize
    ensures { result ≡ place_of end text.now }
{
    end.saturating_sub(text.len())
}

// Where the text before a mark ends, if the text after it ends at this place.
fn end_before(behind: &str, end: usize) -> usize
    ensures { result ≡ end_before end behind.now }
{
    place_of(behind, end).saturating_sub(1)
}

#[tactic(auto, unfolding(crate::specs::Reader::read_name, crate::specs::Reading::name_fault, crate::specs::Reading::begins_with_name))]
fn read_name(alloc: Global, text: &str) -> Result<(Text, &str), RelationFault>
    ensures ok { IfOk result (λ found. read_name text.now ≡ Some (found.0, found.1.now)) }
    ensures none { IfErr result (λ fault. fault ≢ Memory → read_name text.now ≡ None) }
    ensures refused { IfErr result (λ fault. fault ≢ Memory → fault ≡ name_fault text.now) }
    ensures memory { IfErr result (λ fault. fault ≡ Memory → begins_with_name text.now ≡ true) }
{
    let front = skip_white(text);
    let (name, rest) = split_leading(Class::Package, front);
    if !is_package_name(name) {
        return Err(if front.is_empty() {
            RelationFault::EmptyAlternative
        } else {
            RelationFault::BadName
        });
    }
    Ok((Text::copied(alloc, name)?, rest))
}

#[tactic(auto, unfolding(crate::specs::Reader::read_qualifier))]
fn read_qualifier(alloc: Global, text: &str) -> Result<(Option<Text>, &str), RelationFault>
    ensures ok { IfOk result (λ found. read_qualifier text.now ≡ Some (found.0, found.1.now)) }
    ensures none { IfErr result (λ fault. fault ≢ Memory → read_qualifier text.now ≡ None) }
    ensures refused { IfErr result (λ fault. fault ≢ Memory → fault ≡ BadName) }
    ensures memory { IfErr result (λ fault. fault ≡ Memory
        → is_some (read_qualifier text.now) ≡ true) }
{
    let Some(behind) = strip(':', text) else {
        return Ok((None, text));
    };
    let (word, rest) = split_leading(Class::Arch, behind);
    if word.is_empty() {
        return Err(RelationFault::BadName);
    }
    Ok((Some(Text::copied(alloc, word)?), rest))
}

// What stands between two brackets and after them, or none if the first is not there.
#[tactic(auto, unfolding(crate::specs::Reader::between))]
fn between(left: char, right: char, text: &str) -> Result<Option<(&str, &str)>, RelationFault>
    requires left { left < 128 }
    requires right { right < 128 }
    ensures ok { IfOk result (λ found.
        between left right text.now ≡ Some (option_map halves_of found)) }
    ensures none { IfErr result (λ fault. between left right text.now ≡ None) }
    ensures refused { IfErr result (λ fault. fault ≡ Unclosed) }
{
    let Some(behind) = strip(left, skip_white(text)) else {
        return Ok(None);
    };
    match cut_at(right, behind) {
        Some(halves) => Ok(Some(halves)),
        None => Err(RelationFault::Unclosed),
    }
}

#[tactic(auto, unfolding(crate::specs::Grammar::op_of))]
fn op_of(word: &str) -> Option<Op>
    ensures { result ≡ op_of word.now }
{
    match word {
        "<<" => Some(Op::Earlier),
        "<=" | "<" => Some(Op::EarlierOrEqual),
        "=" => Some(Op::Equal),
        ">=" | ">" => Some(Op::LaterOrEqual),
        ">>" => Some(Op::Later),
        _ => None,
    }
}

fn fault_from_version(fault: VersionFault) -> RelationFault
    ensures { result ≡ fault_from_version fault }
{
    match fault {
        VersionFault::Memory => RelationFault::Memory,
        _ => RelationFault::BadVersion(fault),
    }
}

fn read_version(alloc: Global, text: &str) -> Result<Version, RelationFault>
    ensures value { IfOk result (λ version. version ≡ text.now) }
    ensures ok { IfOk result (λ _. is_version_text text.now ≡ true) }
    ensures none { IfErr result (λ fault. fault ≢ Memory → is_version_text text.now ≡ false) }
    ensures refused { IfErr result (λ fault. fault ≢ Memory
        → (place : ℕ) → fault ≡ version_fault (fault_of text.now) place) }
    ensures memory { IfErr result (λ fault. fault ≡ Memory → is_version_text text.now ≡ true) }
{
    match Version::parse(alloc, text) {
        Ok(version) => Ok(version),
        Err(fault) => Err(fault_from_version(fault)),
    }
}

#[tactic(auto, unfolding(crate::specs::Reader::restriction_of, crate::specs::Reading::asked_fault, crate::specs::Reading::fault_behind_operator))]
fn restriction_of(alloc: Global, inside: &str, end: usize) -> Result<Restriction, RelationFault>
    ensures ok { IfOk result (λ asked. restriction_of inside.now ≡ Some asked) }
    ensures none { IfErr result (λ fault. fault ≢ Memory → restriction_of inside.now ≡ None) }
    ensures refused { IfErr result (λ fault. fault ≢ Memory → fault ≡ asked_fault end inside.now) }
    ensures memory { IfErr result (λ fault. fault ≡ Memory → begins_asked inside.now ≡ true) }
{
    let (word, behind) = split_leading(Class::Op, skip_white(inside));
    let Some(op) = op_of(word) else {
        return Err(RelationFault::BadOperator);
    };
    let (version, after) = split_leading(Class::Solid, skip_white(behind));
    let version = read_version(alloc, version)?;
    if !is_all(Class::White, after) {
        return Err(RelationFault::Stray(place_of(skip_white(after), end)));
    }
    Ok(Restriction { op, version })
}

#[tactic(auto, unfolding(crate::specs::Reader::read_restriction, crate::specs::Reading::restriction_fault))]
fn read_restriction(
    alloc: Global,
    text: &str,
    end: usize,
) -> Result<(Option<Restriction>, &str), RelationFault>
    ensures ok { IfOk result (λ found. read_restriction text.now ≡ Some (found.0, found.1.now)) }
    ensures none { IfErr result (λ fault. fault ≢ Memory → read_restriction text.now ≡ None) }
    ensures refused { IfErr result (λ fault. fault ≢ Memory
        → fault ≡ restriction_fault end text.now) }
    ensures memory { IfErr result (λ fault. fault ≡ Memory
        → begins_inside begins_asked (between 40 41 text.now) ≡ true) }
{
    let Some((inside, rest)) = between('(', ')', text)? else {
        return Ok((None, text));
    };
    let asked = restriction_of(alloc, inside, end_before(rest, end))?;
    Ok((Some(asked), rest))
}

fn signed(alloc: Global, kind: Kind, negated: bool, word: &str) -> Result<Term, RelationFault>
    ensures ok { IfOk result (λ term. signed kind negated word.now ≡ Some term) }
    ensures none { IfErr result (λ fault. fault ≢ Memory → signed kind negated word.now ≡ None) }
    ensures refused { IfErr result (λ fault. fault ≢ Memory → fault ≡ BadName) }
    ensures memory { IfErr result (λ fault. fault ≡ Memory
        → is_some (signed kind negated word.now) ≡ true) }
{
    if !is_word(kind, word) {
        return Err(RelationFault::BadName);
    }
    Ok(Term {
        negated,
        word: Text::copied(alloc, word)?,
    })
}

#[tactic(auto, unfolding(crate::specs::Reader::term_of))]
fn term_of(alloc: Global, kind: Kind, word: &str) -> Result<Term, RelationFault>
    ensures ok { IfOk result (λ term. term_of kind word.now ≡ Some term) }
    ensures none { IfErr result (λ fault. fault ≢ Memory → term_of kind word.now ≡ None) }
    ensures refused { IfErr result (λ fault. fault ≢ Memory → fault ≡ BadName) }
    ensures memory { IfErr result (λ fault. fault ≡ Memory
        → is_some (term_of kind word.now) ≡ true) }
{
    match strip('!', word) {
        None => signed(alloc, kind, false, word),
        Some(behind) => signed(alloc, kind, true, behind),
    }
}

// The words of a list, of which there may be none.
fn collect_terms(alloc: Global, kind: Kind, inside: &str) -> Result<Items<Term>, RelationFault>
    ensures ok { IfOk result (λ terms. all_some (term_of kind) (words inside.now) ≡ Some terms) }
    ensures none { IfErr result (λ fault. fault ≢ Memory
        → all_some (term_of kind) (words inside.now) ≡ None) }
    ensures refused { IfErr result (λ fault. fault ≢ Memory → fault ≡ BadName) }
    ensures memory { IfErr result (λ fault. fault ≡ Memory
        → begins_with_term kind inside.now ≡ true) }
{
    let mut made = Items::new(alloc);
    let mut rest = skip_white(inside);
    while !rest.is_empty() {
        let (word, behind) = split_leading(Class::Solid, rest);
        made.push(term_of(alloc, kind, word)?)?;
        rest = skip_white(behind);
    }
    Ok(made)
}

#[tactic(auto, unfolding(crate::specs::Reader::terms_of))]
fn terms_of(alloc: Global, kind: Kind, inside: &str) -> Result<Items<Term>, RelationFault>
    ensures ok { IfOk result (λ terms. terms_of kind inside.now ≡ Some terms) }
    ensures none { IfErr result (λ fault. fault ≢ Memory → terms_of kind inside.now ≡ None) }
    ensures refused { IfErr result (λ fault. fault ≢ Memory → fault ≡ BadName) }
    ensures memory { IfErr result (λ fault. fault ≡ Memory
        → begins_with_term kind inside.now ≡ true) }
{
    let terms = collect_terms(alloc, kind, inside)?;
    if terms.as_slice().is_empty() {
        return Err(RelationFault::BadName);
    }
    Ok(terms)
}

// Whether all words are negated, or none is, as `negated` says.
fn are_signed(negated: bool, terms: &[Term]) -> bool
    ensures { result
        ≡ list_all (λ other. if negated then other.negated else not other.negated) terms.now }
{
    for term in terms {
        if term.negated != negated {
            return false;
        }
    }
    true
}

fn are_alike(terms: &[Term]) -> bool
    ensures { result ≡ are_alike terms.now }
{
    match terms {
        [] => true,
        [first, others @ ..] => are_signed(first.negated, others),
    }
}

#[tactic(auto, unfolding(crate::specs::Reader::arch_terms_of, crate::specs::Reading::words_fault))]
fn arch_terms_of(alloc: Global, inside: &str) -> Result<Items<Term>, RelationFault>
    ensures ok { IfOk result (λ terms. arch_terms_of inside.now ≡ Some terms) }
    ensures none { IfErr result (λ fault. fault ≢ Memory → arch_terms_of inside.now ≡ None) }
    ensures refused { IfErr result (λ fault. fault ≢ Memory → fault ≡ words_fault inside.now) }
    ensures memory { IfErr result (λ fault. fault ≡ Memory
        → begins_with_term Arch inside.now ≡ true) }
{
    let terms = terms_of(alloc, Kind::Arch, inside)?;
    if !are_alike(terms.as_slice()) {
        return Err(RelationFault::Mixed);
    }
    Ok(terms)
}

#[tactic(auto, unfolding(crate::specs::Reader::read_archs, crate::specs::Reading::archs_fault))]
fn read_archs(alloc: Global, text: &str) -> Result<(Items<Term>, &str), RelationFault>
    ensures ok { IfOk result (λ found. read_archs text.now ≡ Some (found.0, found.1.now)) }
    ensures none { IfErr result (λ fault. fault ≢ Memory → read_archs text.now ≡ None) }
    ensures refused { IfErr result (λ fault. fault ≢ Memory → fault ≡ archs_fault text.now) }
    ensures memory { IfErr result (λ fault. fault ≡ Memory
        → begins_inside (begins_with_term Arch) (between 91 93 text.now) ≡ true) }
{
    let Some((inside, rest)) = between('[', ']', text)? else {
        return Ok((Items::new(alloc), text));
    };
    Ok((arch_terms_of(alloc, inside)?, rest))
}

// A list of build profiles, whose closing bracket is cut off.
#[tactic(auto, unfolding(crate::specs::Reader::profile_of, crate::specs::Reading::list_fault))]
fn profile_of(alloc: Global, piece: &str, end: usize) -> Result<Items<Term>, RelationFault>
    ensures ok { IfOk result (λ terms. profile_of piece.now ≡ Some terms) }
    ensures none { IfErr result (λ fault. fault ≢ Memory → profile_of piece.now ≡ None) }
    ensures refused { IfErr result (λ fault. fault ≢ Memory
        → fault ≡ list_fault BadName end piece.now) }
    ensures memory { IfErr result (λ fault. fault ≡ Memory → begins_profile piece.now ≡ true) }
{
    let front = skip_white(piece);
    match strip('<', front) {
        Some(inside) => terms_of(alloc, Kind::Profile, inside),
        None => Err(RelationFault::Stray(place_of(front, end))),
    }
}

// What is wrong with characters after the last list.
#[tactic(auto, unfolding(crate::specs::Reading::list_fault))]
fn end_fault(rest: &str, end: usize) -> RelationFault
    ensures { result ≡ list_fault Unclosed end rest.now }
{
    let front = skip_white(rest);
    match strip('<', front) {
        Some(_) => RelationFault::Unclosed,
        None => RelationFault::Stray(place_of(front, end)),
    }
}

#[tactic(auto, unfolding(crate::specs::Reader::read_profiles, crate::specs::Reading::profiles_fault))]
fn read_profiles(alloc: Global, text: &str, end: usize) -> Result<Items<Items<Term>>, RelationFault>
    ensures ok { IfOk result (λ lists. read_profiles text.now ≡ Some lists) }
    ensures none { IfErr result (λ fault. fault ≢ Memory → read_profiles text.now ≡ None) }
    ensures refused { IfErr result (λ fault. fault ≢ Memory → fault ≡ profiles_fault end text.now) }
    ensures memory { IfErr result (λ fault. fault ≡ Memory
        → begins begins_profile (slice_split is_right_angle text.now) ≡ true) }
{
    let mut made = Items::new(alloc);
    let mut rest = text;
    while let Some((piece, after)) = cut_at('>', rest) {
        made.push(profile_of(alloc, piece, end_before(after, end))?)?;
        rest = after;
    }
    if !is_all(Class::White, rest) {
        return Err(end_fault(rest, end));
    }
    Ok(made)
}

#[tactic(auto, unfolding(crate::specs::Reader::read_alternative, crate::specs::Reading::alternative_fault, crate::specs::Reading::begins_with_name))]
fn read_alternative(alloc: Global, text: &str, end: usize) -> Result<Alternative, RelationFault>
    ensures ok { IfOk result (λ a. read_alternative text.now ≡ Some a) }
    ensures none { IfErr result (λ fault. fault ≢ Memory → read_alternative text.now ≡ None) }
    ensures refused { IfErr result (λ fault. fault ≢ Memory
        → fault ≡ alternative_fault end text.now) }
    ensures memory { IfErr result (λ fault. fault ≡ Memory → begins_with_name text.now ≡ true) }
{
    let (name, after_name) = read_name(alloc, text)?;
    let (qualifier, after_qualifier) = read_qualifier(alloc, after_name)?;
    let (restriction, after_restriction) = read_restriction(alloc, after_qualifier, end)?;
    let (archs, after_archs) = read_archs(alloc, after_restriction)?;
    let profiles = read_profiles(alloc, after_archs, end)?;
    Ok(Alternative {
        name,
        qualifier,
        restriction,
        archs,
        profiles,
    })
}

fn read_group(alloc: Global, text: &str, end: usize) -> Result<Items<Alternative>, RelationFault>
    ensures ok { IfOk result (λ group. read_group text.now ≡ Some group) }
    ensures none { IfErr result (λ fault. fault ≢ Memory → read_group text.now ≡ None) }
    ensures refused { IfErr result (λ fault. fault ≢ Memory → fault ≡ group_fault end text.now) }
    ensures memory { IfErr result (λ fault. fault ≡ Memory → is_group_begun text.now ≡ true) }
{
    let mut made = Items::new(alloc);
    let mut rest = text;
    while let Some((piece, after)) = cut_at('|', rest) {
        made.push(read_alternative(alloc, piece, end_before(after, end))?)?;
        rest = after;
    }
    made.push(read_alternative(alloc, rest, end)?)?;
    Ok(made)
}

// A group more, if the piece has more than white space.
#[tactic(auto, unfolding(crate::specs::Reader::with_group, crate::specs::Grammar::is_not_blank))]
fn add_group(
    alloc: Global,
    made: &mut Items<Items<Alternative>>,
    piece: &str,
    end: usize,
) -> Result<(), RelationFault>
    ensures ok { IfOk result (λ _. with_group made.old piece.now ≡ Some made.new) }
    ensures none { IfErr result (λ fault. fault ≢ Memory
        → with_group made.old piece.now ≡ None) }
    ensures refused { IfErr result (λ fault. fault ≢ Memory → fault ≡ group_fault end piece.now) }
    ensures memory { IfErr result (λ fault. fault ≡ Memory →
        (is_not_blank piece.now ≡ true) × (is_group_begun piece.now ≡ true)) }
{
    if !is_all(Class::White, piece) {
        made.push(read_group(alloc, piece, end)?)?;
    }
    Ok(())
}

pub(crate) fn read_groups(
    alloc: Global,
    text: &str,
) -> Result<Items<Items<Alternative>>, RelationFault>
    ensures ok { IfOk result (λ groups. read_groups text.now ≡ Some groups) }
    ensures none { IfErr result (λ fault. fault ≢ Memory → read_groups text.now ≡ None) }
    ensures refused { IfErr result (λ fault. fault ≢ Memory → fault ≡ groups_fault text.now) }
    ensures memory { IfErr result (λ fault. fault ≡ Memory → takes_memory text.now ≡ true) }
{
    let mut made = Items::new(alloc);
    let mut rest = text;
    while let Some((piece, after)) = cut_at(',', rest) {
        add_group(alloc, &mut made, piece, end_before(after, text.len()))?;
        rest = after;
    }
    add_group(alloc, &mut made, rest, text.len())?;
    Ok(made)
}

impl Relations {
    /// Reads relations, a text of at most 65536 bytes. Groups stand between commas, and blank ones
    /// are skipped; alternatives stand between bars. An alternative is a package name, directly
    /// after it perhaps `:` and a qualifier, then perhaps an operator and a version in parentheses,
    /// architecture words in brackets, all negated by `!` or none, and any number of lists of build
    /// profiles in angle brackets. White space separates them and means nothing else; none stands
    /// inside a word or after `!`. The old operators `<` and `>` are read as `<=` and `>=`.
    ///
    /// Errors: `TooLong` above 65536 bytes, and before all else; `Memory` if memory ran out, which
    /// comes after a first package name at the earliest; else, if the text has no reading, the
    /// first fault from the left: that of the first piece between commas, and in it between bars,
    /// without a reading. A bracket is closed in its own piece or not at all, and if it is not,
    /// only that is reported. `BadVersion` has the fault of the text up to white space or `)`, and
    /// `Stray` the byte offset in the whole text.
    /// Source: Debian Policy 7.1, and of qualifiers and build profiles dpkg's deb-src-control(5);
    /// the limit, the skipping of blank groups, the order of the faults and the reading of `<` and
    /// `>` are this project's own.
    pub fn parse(alloc: Global, text: &str) -> Result<Relations, RelationFault>
        ensures value { IfOk result (λ relations. Reads text.now relations) }
        ensures ok { IfOk result (λ relations. reading_of text.now ≡ Ok relations) }
        ensures refused { IfErr result (λ fault. fault ≢ Memory → reading_of text.now ≡ Err fault) }
        ensures memory { IfErr result (λ fault. fault ≡ Memory → takes_memory text.now ≡ true) }
        ensures first { relations_limit < length text.now → result ≡ Err TooLong }
    {
        if text.len() > RELATIONS_LIMIT {
            return Err(RelationFault::TooLong);
        }
        Ok(Relations {
            groups: read_groups(alloc, text)?,
        })
    }
}
