//! The error codes, and the statuses that go with them.
ghost use Rattle.std.specs.Prelude.{◌≡◌, [], unwrap_or};
ghost use Rattle.http.specs.StatusCode.{IsStatusCode, reason_phrase};
ghost use Rattle.wd_bodies.specs.Codes.{code_text, code_status};

use http::StatusCode;

/// The error codes that the hub answers with (WebDriver §6.6).
#[derive(Clone, Copy, Debug, PartialEq, Eq)]
pub enum ErrorCode {
    /// Status 400.
    InvalidArgument,
    /// Status 404.
    InvalidSessionId,
    /// Status 404.
    UnknownCommand,
    /// Status 405.
    UnknownMethod,
    /// Status 500.
    SessionNotCreated,
    /// Status 500.
    UnknownError,
}

impl ErrorCode {
    /// The name that stands in the member `error` of the body.
    pub fn as_str(self) -> &'static str
        ensures { result.now ≡ code_text self }
    {
        match self {
            ErrorCode::InvalidArgument => "invalid argument",
            ErrorCode::InvalidSessionId => "invalid session id",
            ErrorCode::UnknownCommand => "unknown command",
            ErrorCode::UnknownMethod => "unknown method",
            ErrorCode::SessionNotCreated => "session not created",
            ErrorCode::UnknownError => "unknown error",
        }
    }
}

/// The HTTP status of a response with this error.
pub fn status_of(code: ErrorCode) -> u16
    ensures { result ≡ code_status code }
{
    let status = match code {
        ErrorCode::InvalidArgument => StatusCode::BAD_REQUEST,
        ErrorCode::InvalidSessionId => StatusCode::NOT_FOUND,
        ErrorCode::UnknownCommand => StatusCode::NOT_FOUND,
        ErrorCode::UnknownMethod => StatusCode::METHOD_NOT_ALLOWED,
        ErrorCode::SessionNotCreated => StatusCode::INTERNAL_SERVER_ERROR,
        ErrorCode::UnknownError => StatusCode::INTERNAL_SERVER_ERROR,
    };
    status.as_u16()
}

/// The reason phrase that goes with a status (RFC 9110 §15), empty where it has none.
pub fn phrase_of(status: u16) -> &'static str
    ensures { IsStatusCode status → result.now ≡ unwrap_or (reason_phrase status) [] }
{
    match StatusCode::from_u16(status) {
        Ok(code) => code.canonical_reason().unwrap_or(""),
        Err(_) => "",
    }
}
