//! The status of an answer, and its reason.

ghost use Rattle.std.specs.Prelude.{◌≡◌};
ghost use Rattle.http_pages.specs.Statuses.{IsStatus, reason_of, status_of};

use farm_history::Reply;
use farm_http::Page;
use http::StatusCode;

/// The status of an answer: 200 for a reply, 409 for a refusal, and any other status itself.
pub(crate) fn status_of(answer: &Page) -> u16
    ensures status { result ≡ status_of answer.now }
{
    match answer {
        Page::Reply(Reply::Refused(_)) => 409,
        Page::Reply(_) => 200,
        Page::Status(status, _) => *status,
    }
}

/// The reason of a status, as `http` has it.
pub(crate) fn reason_of(status: u16) -> &'static str
    requires status { IsStatus status }
    ensures reason { result.now ≡ reason_of status }
{
    match StatusCode::from_u16(status) {
        Ok(code) => code.canonical_reason().unwrap_or(""),
        Err(_) => "",
    }
}
