//! The status of the answer to a refusal (RFC 9110, sections 15.5 and 15.6).
ghost use Rattle.std.specs.Prelude.{◌≡◌};
ghost use Rattle.wb_api.specs.Exchange.{status_of_refusal};

use http::StatusCode;
use wb_states::Refusal;

// A status is the kit's `http::StatusCode`, in a contract its number, and its digits and its phrase
// are what that crate writes: so the table of RFC 9110 stands once. A code without a phrase is
// written with an empty one.
/// The status of the answer to a refusal: 404 if what is named is not there, 409 if the state of
/// the office does not allow it, 422 if what is asked for is malformed, and 503 if the office is
/// closed, its store failed or memory ran out. Takes no memory. Source: RFC 9110, sections 15.5 and
/// 15.6; which refusal has which status is this project's own.
pub fn status_of(refusal: &Refusal) -> StatusCode
    ensures value { result ≡ status_of_refusal refusal.now }
{
    match refusal {
        Refusal::UnknownArch | Refusal::UnknownBuilder | Refusal::UnknownSource => {
            StatusCode::NOT_FOUND
        }
        Refusal::WrongArch
        | Refusal::OtherVersion { .. }
        | Refusal::WrongState { .. }
        | Refusal::QueueEmpty
        | Refusal::NotHeld
        | Refusal::AfterAhead { .. }
        | Refusal::AlreadyThere
        | Refusal::StillHeld
        | Refusal::Spent => StatusCode::CONFLICT,
        Refusal::BadName
        | Refusal::BadVersion { .. }
        | Refusal::BadRelations { .. }
        | Refusal::BadNumber
        | Refusal::BadListing { .. }
        | Refusal::BadReport { .. }
        | Refusal::TextTooLong
        | Refusal::RepeatedArch => StatusCode::UNPROCESSABLE_ENTITY,
        Refusal::Closed | Refusal::Memory | Refusal::Store { .. } => {
            StatusCode::SERVICE_UNAVAILABLE
        }
    }
}
