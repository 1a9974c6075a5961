//! The field lines that not every page has.

ghost use Rattle.std.specs.Prelude.{◌≡◌};
ghost use Rattle.http_pages.specs.Pages.{allow_lines, close_lines, ended};

use farm_http::{Allow, Page};

/// The line of the method that a path has, if the answer names one.
pub(crate) fn allow_line(answer: &Page) -> &'static [u8]
    ensures line { result.now ≡ ended (allow_lines answer.now) }
{
    match answer {
        Page::Status(_, Some(Allow::Get)) => b"allow: GET\r\n",
        Page::Status(_, Some(Allow::Post)) => b"allow: POST\r\n",
        _ => b"",
    }
}

/// The line that says that the connection ends after the page.
pub(crate) fn close_line(last: bool) -> &'static [u8]
    ensures line { result.now ≡ ended (close_lines last) }
{
    if last { b"connection: close\r\n" } else { b"" }
}
