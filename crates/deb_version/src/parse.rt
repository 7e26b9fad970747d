//! The cuts of a text, and its first fault.

ghost use Rattle.std.specs.Prelude.{◌≡◌, ◌+◌, ◌-◌, ◌<◌, ◌≤◌, ◌^◌, length, not, true, false, IfOk, IfErr, IfSome, IfNone, MatchOption};
ghost use Rattle.std.specs.List.{list_any, list_all, position, position_or_len, suffix_len};
ghost use Rattle.std.specs.Char.{is_ascii_digit};
ghost use Rattle.deb_version.specs.Syntax.{is_upstream_char, is_revision_char, is_colon, is_hyphen, all_digits, value_of, value_after, epoch_limit, number_fault, epoch_of, upstream_start, upstream_end, rest_of, epoch_fault, rest_fault, upstream_part_fault, revision_part_fault, fault_of, HasCuts};

use crate::fault::VersionFault;

const VERSION_LIMIT: usize = 1000;

const EPOCH_LIMIT: u32 = 2147483647;

/// The epoch of a text, and where its upstream version begins and ends.
#[derive(Clone, Copy)]
pub(crate) struct Cut {
    pub(crate) epoch: u32,
    pub(crate) start: usize,
    pub(crate) end: usize,
}

#[tactic(auto, unfolding(crate::specs::Syntax::is_revision_char))]
fn is_revision_char(byte: u8) -> bool
    ensures { result ≡ is_revision_char byte }
{
    byte.is_ascii_alphanumeric() || byte == b'.' || byte == b'+' || byte == b'~'
}

#[tactic(auto, unfolding(crate::specs::Syntax::is_upstream_char))]
fn is_upstream_char(byte: u8) -> bool
    ensures { result ≡ is_upstream_char byte }
{
    is_revision_char(byte) || byte == b'-' || byte == b':'
}

fn bad_in_upstream(part: &[u8]) -> Option<usize>
    ensures { result ≡ position (λ c. not (is_upstream_char c)) part.now }
{
    part.iter().position(|byte| !is_upstream_char(*byte))
}

fn bad_in_revision(part: &[u8]) -> Option<usize>
    ensures { result ≡ position (λ c. not (is_revision_char c)) part.now }
{
    part.iter().position(|byte| !is_revision_char(*byte))
}

#[tactic(auto, unfolding(crate::specs::Syntax::upstream_part_fault))]
fn fault_in_upstream(start: usize, part: &[u8]) -> Option<VersionFault>
    requires { start + length part.now < 2 ^ 64 }
    ensures { result ≡ upstream_part_fault start part.now }
{
    if part.is_empty() {
        return Some(VersionFault::UpstreamEmpty);
    }
    let place = bad_in_upstream(part)?;
    Some(VersionFault::UpstreamBad(start + place))
}

#[tactic(auto, unfolding(crate::specs::Syntax::revision_part_fault))]
fn fault_in_revision(start: usize, part: &[u8]) -> Option<VersionFault>
    requires { start + length part.now < 2 ^ 64 }
    ensures { result ≡ revision_part_fault start part.now }
{
    if part.is_empty() {
        return Some(VersionFault::RevisionEmpty);
    }
    let place = bad_in_revision(part)?;
    Some(VersionFault::RevisionBad(start + place))
}

fn are_digits(text: &[u8]) -> bool
    ensures { result ≡ all_digits text.now }
{
    text.iter().all(|byte| byte.is_ascii_digit())
}

// The number that the digits write, if it is at most the limit of an epoch.
fn number_of(digits: &[u8]) -> Option<u32>
    requires { all_digits digits.now ≡ true }
    ensures none { IfNone result (epoch_limit < value_of digits.now) }
    ensures value { IfSome result (λ n. n ≡ value_of digits.now) }
    ensures fits { IfSome result (λ n. n < 2147483648) }
{
    let mut value = 0u32;
    let mut rest = digits;
    while let [digit, others @ ..] = rest {
        let next = u64::from(value) * 10 + u64::from(*digit - b'0');
        if next > EPOCH_LIMIT as u64 {
            return None;
        }
        value = next as u32;
        rest = others;
    }
    Some(value)
}

#[tactic(auto, unfolding(crate::specs::Syntax::number_fault))]
fn number_of_epoch(digits: &[u8]) -> Result<u32, VersionFault>
    ensures value { IfOk result (λ epoch. epoch ≡ value_of digits.now) }
    ensures ok { IfOk result (λ _. number_fault digits.now ≡ None) }
    ensures refused { IfErr result (λ fault. number_fault digits.now ≡ Some fault) }
{
    if digits.is_empty() {
        return Err(VersionFault::EpochEmpty);
    }
    if !are_digits(digits) {
        return Err(VersionFault::EpochNotNumber);
    }
    number_of(digits).ok_or(VersionFault::EpochTooLarge)
}

fn first_colon(text: &[u8]) -> Option<usize>
    ensures { result ≡ position is_colon text.now }
{
    text.iter().position(|byte| *byte == b':')
}

fn last_hyphen(rest: &[u8]) -> Option<usize>
    ensures { MatchOption result (list_any is_hyphen rest.now ≡ false) (λ place.
        (list_any is_hyphen rest.now ≡ true)
        × (place + suffix_len (λ c. not (is_hyphen c)) rest.now + 1 ≡ length rest.now)) }
{
    let mut end = rest.len();
    while end > 0 {
        if rest[end - 1] == b'-' {
            return Some(end - 1);
        }
        end -= 1;
    }
    None
}

// The epoch, and where the upstream version begins.
fn epoch_cut(text: &[u8]) -> Result<(u32, usize), VersionFault>
    ensures number { IfOk result (λ cut. cut.0 ≡ epoch_of text.now) }
    ensures value { IfOk result (λ cut. cut.1 ≡ upstream_start text.now) }
    ensures inside { IfOk result (λ cut. cut.1 ≤ length text.now) }
    ensures ok { IfOk result (λ _. epoch_fault text.now ≡ None) }
    ensures refused { IfErr result (λ fault. epoch_fault text.now ≡ Some fault) }
{
    match first_colon(text) {
        None => Ok((0, 0)),
        Some(colon) => Ok((number_of_epoch(&text[..colon])?, colon + 1)),
    }
}

fn rest_from(text: &[u8], start: usize) -> &[u8]
    requires place { start ≡ upstream_start text.now }
    requires inside { start ≤ length text.now }
    ensures { result.now ≡ rest_of text.now }
{
    &text[start..]
}

// Where the upstream version that begins at `start` ends.
fn upstream_cut(text: &[u8], start: usize) -> Result<usize, VersionFault>
    requires place { start ≡ upstream_start text.now }
    requires inside { start ≤ length text.now }
    ensures value { IfOk result (λ end. end ≡ upstream_end text.now) }
    ensures ok { IfOk result (λ _. rest_fault text.now ≡ None) }
    ensures refused { IfErr result (λ fault. rest_fault text.now ≡ Some fault) }
{
    let rest = rest_from(text, start);
    let Some(hyphen) = last_hyphen(rest) else {
        return match fault_in_upstream(start, rest) {
            Some(fault) => Err(fault),
            None => Ok(text.len()),
        };
    };
    if let Some(fault) = fault_in_upstream(start, &rest[..hyphen]) {
        return Err(fault);
    }
    match fault_in_revision(start + hyphen + 1, &rest[hyphen + 1..]) {
        Some(fault) => Err(fault),
        None => Ok(start + hyphen),
    }
}

/// The cuts of a text of bytes, or its first fault.
#[tactic(auto, unfolding(crate::specs::Syntax::fault_of, crate::specs::Syntax::length_fault))]
pub(crate) fn cut_of(text: &[u8]) -> Result<Cut, VersionFault>
    ensures ok { IfOk result (λ cut. HasCuts text.now cut.epoch cut.start cut.end) }
    ensures refused { IfErr result (λ fault. fault_of text.now ≡ Some fault) }
{
    if text.is_empty() {
        return Err(VersionFault::Empty);
    }
    if text.len() > VERSION_LIMIT {
        return Err(VersionFault::TooLong);
    }
    let (epoch, start) = epoch_cut(text)?;
    let end = upstream_cut(text, start)?;
    Ok(Cut { epoch, start, end })
}
