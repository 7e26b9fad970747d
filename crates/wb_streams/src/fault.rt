//! What is wrong with a request.
ghost use Rattle.std.specs.Prelude.{◌≡◌};
ghost use Rattle.wb_streams.specs.Answers.{fault_text, name_of_fault, status_of_fault};

use http::StatusCode;
use thiserror::Error;

/// Why a request is not carried out. They are tested in this order, and `NotAllowed` once more
/// after `BadBody`, by what the body says. Source: this project's own.
#[derive(Clone, Copy, Debug, PartialEq, Eq, Error)]
pub enum Fault {
    /// The head is longer, or has more fields, than a head may have.
    #[error("the head is too large")]
    HeadTooLarge,
    /// No head comes: nothing that can follow makes one, or the input ended inside it.
    #[error("the head is malformed")]
    BadHead,
    /// A web page had its browser send the request.
    #[error("a web page had its browser send the request")]
    FromBrowser,
    /// It shows no key, or none that the office knows.
    #[error("the request shows no key, or none that the office knows")]
    NoKey,
    /// The target is none that this project has.
    #[error("the target is none that is served")]
    NoRoute,
    /// The target has another method.
    #[error("the target has another method")]
    WrongMethod,
    /// The line of its key has no right for it.
    #[error("the line of the key has no right for the request")]
    NotAllowed,
    /// A part of the path is not UTF-8 once it is decoded.
    #[error("a part of the path is not UTF-8 once it is decoded")]
    BadPath,
    /// The body has a transfer coding.
    #[error("the body has a transfer coding")]
    NotSupported,
    /// The length of the body is not stated.
    #[error("the length of the body is not stated")]
    NoLength,
    /// The length of the body is no number, or two numbers are stated.
    #[error("the length of the body is malformed")]
    BadLength,
    /// The body is longer than a body may be.
    #[error("the body is too large")]
    BodyTooLarge,
    /// The input ended before the body did.
    #[error("the input ended before the body did")]
    BodyCut,
    /// The body is not of the command's form.
    #[error("the body is not of the command's form")]
    BadBody,
    /// A list that the body names cannot be opened.
    #[error("a list that the body names cannot be opened")]
    NoList,
}

impl Fault {
    /// The name.
    /// Source: this project's own.
    pub fn name(self) -> &'static str
        ensures value { result.now ≡ name_of_fault self }
    {
        match self {
            Fault::HeadTooLarge => "HeadTooLarge",
            Fault::BadHead => "BadHead",
            Fault::FromBrowser => "FromBrowser",
            Fault::NoKey => "NoKey",
            Fault::NoRoute => "NoRoute",
            Fault::WrongMethod => "WrongMethod",
            Fault::NotAllowed => "NotAllowed",
            Fault::BadPath => "BadPath",
            Fault::NotSupported => "NotSupported",
            Fault::NoLength => "NoLength",
            Fault::BadLength => "BadLength",
            Fault::BodyTooLarge => "BodyTooLarge",
            Fault::BodyCut => "BodyCut",
            Fault::BadBody => "BadBody",
            Fault::NoList => "NoList",
        }
    }

    /// The status of the answer to it.
    /// Source: RFC 9110, sections 15.5 and 15.6, and RFC 6585, section 5, for 431.
    pub fn status(self) -> StatusCode
        ensures value { result ≡ status_of_fault self }
    {
        match self {
            Fault::HeadTooLarge => StatusCode::REQUEST_HEADER_FIELDS_TOO_LARGE,
            Fault::BadHead => StatusCode::BAD_REQUEST,
            Fault::FromBrowser => StatusCode::FORBIDDEN,
            Fault::NoKey => StatusCode::UNAUTHORIZED,
            Fault::NoRoute => StatusCode::NOT_FOUND,
            Fault::WrongMethod => StatusCode::METHOD_NOT_ALLOWED,
            Fault::NotAllowed => StatusCode::FORBIDDEN,
            Fault::BadPath => StatusCode::BAD_REQUEST,
            Fault::NotSupported => StatusCode::NOT_IMPLEMENTED,
            Fault::NoLength => StatusCode::LENGTH_REQUIRED,
            Fault::BadLength => StatusCode::BAD_REQUEST,
            Fault::BodyTooLarge => StatusCode::PAYLOAD_TOO_LARGE,
            Fault::BodyCut => StatusCode::BAD_REQUEST,
            Fault::BadBody => StatusCode::BAD_REQUEST,
            Fault::NoList => StatusCode::NOT_FOUND,
        }
    }

    /// The body of the answer to it: a JSON object (RFC 8259) with its name. Takes no memory.
    /// Source: this project's own.
    pub fn json(self) -> &'static str
        ensures value { result.now ≡ fault_text self }
    {
        match self {
            Fault::HeadTooLarge => r#"{"http":"HeadTooLarge"}"#,
            Fault::BadHead => r#"{"http":"BadHead"}"#,
            Fault::FromBrowser => r#"{"http":"FromBrowser"}"#,
            Fault::NoKey => r#"{"http":"NoKey"}"#,
            Fault::NoRoute => r#"{"http":"NoRoute"}"#,
            Fault::WrongMethod => r#"{"http":"WrongMethod"}"#,
            Fault::NotAllowed => r#"{"http":"NotAllowed"}"#,
            Fault::BadPath => r#"{"http":"BadPath"}"#,
            Fault::NotSupported => r#"{"http":"NotSupported"}"#,
            Fault::NoLength => r#"{"http":"NoLength"}"#,
            Fault::BadLength => r#"{"http":"BadLength"}"#,
            Fault::BodyTooLarge => r#"{"http":"BodyTooLarge"}"#,
            Fault::BodyCut => r#"{"http":"BodyCut"}"#,
            Fault::BadBody => r#"{"http":"BadBody"}"#,
            Fault::NoList => r#"{"http":"NoList"}"#,
        }
    }
}
