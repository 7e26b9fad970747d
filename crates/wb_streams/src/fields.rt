//! The fields of a head (RFC 9112, section 5), and the length of the body that they state.
ghost use Rattle.std.specs.Prelude.{◌≡◌, map, true, option_map};
ghost use Rattle.std.specs.Char.{is_ascii_digit};
ghost use Rattle.std.specs.List.{list_all};
ghost use Rattle.std.specs.Str.Parse.{digits_value};
ghost use Rattle.httparse.specs.Borrowed.{header_parts};
ghost use Rattle.deb_text.specs.Lists.{first_of};
ghost use Rattle.wb_streams.specs.Fields.{agrees, content_length, has_field, is_from_browser, is_named, is_number, is_of_page, is_same_number, length_stated};
ghost use Rattle.wb_streams.specs.Fields.{bearer_token, is_bearer, limited, only_of, token_of, values_of};
ghost use Rattle.wb_streams.specs.Fields.{without_spaces, without_zeros};

use crate::fault::Fault;
use httparse::Header;

/// The greatest length of a body in bytes.
const BODY_LIMIT: usize = 16_777_216;

/// The name of the field that states the length of the body.
const CONTENT_LENGTH: &str = "content-length";

/// The name of the field that shows a key.
const AUTHORIZATION: &str = "authorization";

fn is_named(field: &Header<'_>, name: &str) -> bool
    ensures value { result ≡ is_named name.now (header_parts field.now) }
{
    field.name.eq_ignore_ascii_case(name)
}

/// Whether a field of this name is there.
pub fn has_field(fields: &[Header<'_>], name: &str) -> bool
    ensures value { result ≡ has_field name.now (map header_parts fields.now) }
{
    fields.iter().any(|field| is_named(field, name))
}

/// Whether a field says that a web page had the request sent.
fn is_of_page(field: &Header<'_>) -> bool
    ensures value { result ≡ is_of_page (header_parts field.now) }
{
    is_named(field, "origin")
        || (is_named(field, "sec-fetch-site") && field.value != b"none".as_slice())
}

/// Whether the fields say that a web page had its browser send the request: one is an `Origin`, or
/// a `Sec-Fetch-Site` with another value than `none`. What a person types into a browser has
/// neither, and no program sends them unasked. Source: RFC 6454, section 7, and Fetch Metadata
/// Request Headers, section 2.3.
pub fn is_from_browser(fields: &[Header<'_>]) -> bool
    ensures value { result ≡ is_from_browser (map header_parts fields.now) }
{
    fields.iter().any(|field| is_of_page(field))
}

/// The value of the first field of this name.
fn first_value<'a>(fields: &[Header<'a>], name: &str) -> Option<&'a [u8]>
    ensures value { option_map (λ value. value.now) result
        ≡ first_of (values_of name.now (map header_parts fields.now)) }
{
    let field = fields.iter().find(|field| is_named(field, name))?;
    Some(field.value)
}

// ---- credentials

/// The value of the only field of this name; none if there is none, or more than one.
fn only_value<'a>(fields: &[Header<'a>], name: &str) -> Option<&'a [u8]>
    ensures value { option_map (λ value. value.now) result
        ≡ only_of (values_of name.now (map header_parts fields.now)) }
{
    match fields {
        [] => None,
        [field, rest @ ..] if is_named(field, name) => {
            if has_field(rest, name) {
                None
            } else {
                Some(field.value)
            }
        }
        [_, rest @ ..] => only_value(rest, name),
    }
}

fn without_spaces(text: &[u8]) -> &[u8]
    ensures value { result.now ≡ without_spaces text.now }
{
    let mut rest = text;
    while let [b' ', later @ ..] = rest {
        rest = later;
    }
    rest
}

/// Whether a scheme is that of bearer tokens, in whatever letters.
fn is_bearer(scheme: &[u8]) -> bool
    ensures value { result ≡ is_bearer scheme.now }
{
    scheme.eq_ignore_ascii_case(b"bearer")
}

/// What stands in credentials behind the scheme of bearer tokens and one space or more.
#[tactic(auto, unfolding(crate::specs::Fields::token_of))]
fn token_of(value: &[u8]) -> Option<&[u8]>
    ensures value { option_map (λ token. token.now) result ≡ token_of value.now }
{
    let (scheme, rest) = value.split_at_checked(6)?;
    if is_bearer(scheme) && rest.first() == Some(&b' ') {
        Some(without_spaces(rest))
    } else {
        None
    }
}

/// The bearer token that the fields show: what stands in their only field `Authorization` behind
/// the scheme, which is read without regard to case, and one space or more. None if there is no
/// such field or more than one, or another scheme. Takes no memory. Source: RFC 6750, section 2.1,
/// and RFC 9110, sections 11.1 and 11.6.2.
pub fn bearer_token<'a>(fields: &[Header<'a>]) -> Option<&'a [u8]>
    ensures value { option_map (λ token. token.now) result
        ≡ bearer_token (map header_parts fields.now) }
{
    token_of(only_value(fields, AUTHORIZATION)?)
}

// ---- the length of the body

fn is_number(value: &[u8]) -> bool
    ensures value { result ≡ is_number value.now }
{
    !value.is_empty() && value.iter().all(|digit| digit.is_ascii_digit())
}

fn without_zeros(digits: &[u8]) -> &[u8]
    ensures value { result.now ≡ without_zeros digits.now }
{
    let mut rest = digits;
    while let [b'0', later @ ..] = rest {
        rest = later;
    }
    rest
}

// Numbers of any size are compared, by their digits without the zeros before them. So two lengths
// that differ are malformed before one of them is too large.
#[tactic(auto, unfolding(crate::specs::Fields::is_same_number))]
fn is_same_number(one: &[u8], other: &[u8]) -> bool
    ensures value { result ≡ is_same_number one.now other.now }
{
    if !is_number(one) || !is_number(other) {
        return false;
    }
    without_zeros(one) == without_zeros(other)
}

/// The length that the digits write, if a body may have it.
fn limited(digits: &[u8]) -> Result<usize, Fault>
    requires { list_all is_ascii_digit digits.now ≡ true }
    ensures value { result ≡ limited (digits_value 10 digits.now) }
{
    let mut length = 0;
    for digit in digits {
        length = length * 10 + usize::from(digit - b'0');
        if length > BODY_LIMIT {
            return Err(Fault::BodyTooLarge);
        }
    }
    Ok(length)
}

/// Whether a field states no length, or the same as the first that does.
fn agrees(field: &Header<'_>, first: &[u8]) -> bool
    ensures value { result ≡ agrees first.now (header_parts field.now) }
{
    !is_named(field, CONTENT_LENGTH) || is_same_number(first, field.value)
}

/// The length of the body that the fields state. The errors are that they state none, that two
/// differ or one is no number, and that a body may not be so long, in this order.
pub fn content_length(fields: &[Header<'_>]) -> Result<usize, Fault>
    ensures value { result ≡ length_stated (values_of content_length (map header_parts fields.now)) }
{
    let Some(first) = first_value(fields, CONTENT_LENGTH) else {
        return Err(Fault::NoLength);
    };
    if !fields.iter().all(|field| agrees(field, first)) {
        return Err(Fault::BadLength);
    }
    limited(first)
}
