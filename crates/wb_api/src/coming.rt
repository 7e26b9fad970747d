//! What has come of the request of a connection, of which more may come.
ghost use Rattle.std.specs.Prelude.{◌≡◌, ◌≢◌, ℕ, ◌+◌, ◌<◌, ◌≤◌, List, ◌++◌, length};
ghost use Rattle.httparse.specs.Grammar.{HasNoRequest, NeverHasRequest, RequestHead};
ghost use Rattle.wb_streams.specs.Fields.{body_limit};
ghost use Rattle.wb_streams.specs.Heads.{head_limit, IsHeadAt, IsUnfinished, IsHeadFront};
ghost use Rattle.wb_api.specs.Coming.{EndsAfterWith, IsSettledWith};
ghost use Rattle.wb_api.specs.Requests.{body_length, IsRequestFrontWith, wanted_of_with};
ghost use Rattle.wb_api.specs.declared.coming.Coming.TheVariants as coming;

use crate::Service;
use crate::request::{Wanted, wanted_of};
use crate::route::Routes;
use std::alloc::Global;
use wb_streams::{Front, HEAD_LIMIT, front_of, is_unfinished};

/// What has come of a request.
/// Source: this project's own.
#[derive(Clone, Copy, Debug, PartialEq, Eq)]
pub enum Coming {
    /// No byte, or the front of a head.
    Head,
    /// A head, and less than the body that it asks for: the request ends after so many bytes.
    Body(usize),
    /// A request, or a fault of one: what follows plays no part.
    Whole,
}

/// What has come of a request whose head has too many fields, or none that has ended.
fn head_coming(bytes: &[u8]) -> Coming
    ensures head { result ≡ coming.Head → (length bytes.now < head_limit) × IsUnfinished bytes.now }
    ensures body { (total : ℕ) → result ≢ coming.Body total }
    ensures whole { result ≡ coming.Whole → length bytes.now < head_limit
        → HasNoRequest bytes.now → NeverHasRequest bytes.now }
{
    if bytes.len() < HEAD_LIMIT && is_unfinished(bytes) {
        Coming::Head
    } else {
        Coming::Whole
    }
}

/// What has come of a request that begins with a head of `count` bytes.
fn body_coming(
    alloc: Global,
    routes: &Routes,
    service: &Service,
    bytes: &[u8],
    count: usize,
) -> Coming
    ensures head { result ≢ coming.Head }
    ensures body { (total : ℕ) (head : RequestHead) → result ≡ coming.Body total
        → IsHeadAt bytes.now count head → (length bytes.now < total) × (count ≤ head_limit)
        × (total ≡ count + body_length (wanted_of_with service.now head)) }
    ensures whole { (head : RequestHead) → result ≡ coming.Whole
        → IsHeadAt bytes.now count head → count ≤ head_limit
        → count + body_length (wanted_of_with service.now head) ≤ length bytes.now }
{
    if count > HEAD_LIMIT {
        return Coming::Whole;
    }
    match wanted_of(alloc, routes, service, bytes) {
        Ok(Wanted::Body { length, .. }) if bytes.len() < count.saturating_add(length) => {
            Coming::Body(count.saturating_add(length))
        }
        _ => Coming::Whole,
    }
}

// A head with a 33rd field that has not ended is both "head too large" and, if the input ends
// there, "bad head"; with its rest it is the first alone. So an answer to it is due only when it
// has ended, when nothing makes it a head, or when 8192 bytes came. `serve_one` may answer after
// the 33rd field at once, since its contract allows either fault there. The contract of `httparse`
// does not say that a head which is still being read has few fields.
/// What has come of the request of a connection, by its first bytes. While more has to come, they
/// are the front of a request, and no answer is due. Once they are whole, a request or a fault of
/// one, what follows plays no part. Without lists there is no path of a merge, so that such a
/// request is whole with its head, and so is one that keys do not allow. A head with too many
/// fields is whole once it has ended. A fault of a path, a method or a field is whole with its
/// head, and so is a path for which there is no memory. Source: RFC 9112, section 6.3; the limits
/// are this project's own.
pub fn coming_of(alloc: Global, routes: &Routes, service: &Service, bytes: &[u8]) -> Coming
    // while more has to come, no answer is due
    ensures front { result ≢ coming.Whole → IsRequestFrontWith service.now bytes.now }
    ensures head { result ≡ coming.Head → IsHeadFront bytes.now }
    ensures body { (total : ℕ) → result ≡ coming.Body total → (length bytes.now < total)
        × (total ≤ head_limit + body_limit) × EndsAfterWith service.now bytes.now total }
    // what follows plays no part, once the bytes are whole, or as many as the request has
    ensures whole { result ≡ coming.Whole → IsSettledWith service.now bytes.now }
    ensures come { (total : ℕ) (more : List ℕ) → result ≡ coming.Body total
        → total ≤ length (bytes.now ++ more) → IsSettledWith service.now (bytes.now ++ more) }
{
    if bytes.is_empty() {
        return Coming::Head;
    }
    match front_of(bytes) {
        Front::Whole(count) => body_coming(alloc, routes, service, bytes, count),
        Front::Unfinished => head_coming(bytes),
        Front::Crowded => head_coming(bytes),
        Front::Malformed => Coming::Whole,
    }
}
