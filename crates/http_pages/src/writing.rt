//! A page, appended to a buffer.

ghost use Rattle.std.specs.Prelude.{◌≡◌, OnOk, drop, length};
ghost use Rattle.farm_base.specs.Appended.{Appends};
ghost use Rattle.farm_http.specs.PageTexts.{IsAnswer, body_text};
ghost use Rattle.http_pages.specs.Messages.{HeadsFit, IsWholePage, OneContent, PagesAreWhole};
ghost use Rattle.http_pages.specs.Pages.{page_text};

use crate::fields::{allow_line, close_line};
use crate::statuses::{reason_of, status_of};
use farm_base::NoMemory;
use farm_http::{Page, body};
use std::alloc::Global;
use text_pieces::{Piece, append};

/// The most bytes that precede the content of a page.
pub const MOST_PAGE_HEAD_BYTES: usize = 137;

/// Appends the page of an answer (RFC 9112): the status line, the fields `content-type` and `content-length`, with 405 `allow`, if it
/// is the last page of its connection `connection: close`, an empty line, and the answer's body. Lines end with CR LF.
///
/// The status is 409 for a refusal, 200 for any other reply, and else the answer's own. A caller owes what `body` of `farm_http` asks.
/// On `NoMemory` the buffer is as before.
pub fn page(alloc: Global, answer: &Page, last: bool, out: &mut Vec<u8>) -> Result<(), NoMemory>
    requires answer { IsAnswer answer.now }
    ensures appended { Appends out.old.items out.new.items (page_text answer.now last) result }

    // A reader that goes by the field content-length finds just the body.
    ensures whole { OnOk result (IsWholePage (drop (length out.old.items) out.new.items) (body_text answer.now)) }
{
    let mut content = Vec::new(alloc);
    body(answer, &mut content)?;
    out.reserve(content.len().saturating_add(MOST_PAGE_HEAD_BYTES))?;
    append_page(answer, last, &content, out)
}

// Appends the page of an answer, whose body is at hand.
fn append_page(answer: &Page, last: bool, content: &[u8], out: &mut Vec<u8>) -> Result<(), NoMemory>
    requires answer { IsAnswer answer.now }
    requires content { content.now ≡ body_text answer.now }
    ensures appended { Appends out.old.items out.new.items (page_text answer.now last) result }
{
    let status = status_of(answer);
    append(
        out,
        &[
            Piece::Text(b"HTTP/1.1 "),
            Piece::Number(u64::from(status)),
            Piece::Text(b" "),
            Piece::Text(reason_of(status).as_bytes()),
            Piece::Text(b"\r\ncontent-type: application/json\r\ncontent-length: "),
            Piece::Number(content.len() as u64),
            Piece::Text(b"\r\n"),
            Piece::Text(allow_line(answer)),
            Piece::Text(close_line(last)),
            Piece::Text(b"\r\n"),
            Piece::Text(content),
        ],
    )
}

/// Does nothing: its contract says of pages what their readers rest on.
pub fn page_laws()
    ensures whole { PagesAreWhole }
    ensures one_content { OneContent }
    ensures heads_fit { HeadsFit }
{}
