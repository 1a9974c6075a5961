//! An input as lines, and a line as words.

ghost use Rattle.std.specs.Prelude.{◌≡◌, ◌==◌, ◌+◌, ◌^◌, ◌<◌, ◌≤◌, ◌∷◌, [], count_by, drop, length, position, IfOk, IfSome, MatchOption, map};
ghost use Rattle.std.specs.Str.Lines.{strip_carriage_return};
ghost use Rattle.farm_base.specs.Bytes.{is_blank, parts_at};
ghost use Rattle.calc_input.specs.Lines.{is_blank_line, line_at, lines_left, lines_of, words_of};

use farm_base::is_blank;
use memchr::memchr;
use std::alloc::{AllocError, Global};
use std::marker::Model;

/// The lines of an input that are left, one after another: each without the line feed that ends it and a carriage return before
/// that. A clause sees them as a list.
#[derive(Drop)]
pub struct Lines<'a> {
    // The bytes from the next line on; `None` after the last line.
    rest: Option<&'a [u8]>,
}

impl<'a> Model for Lines<'a> {
    ghost use Rattle.std.specs.Prelude.{ℕ, List};
    ghost use Rattle.calc_input.specs.Lines.{lines_left};

    ghost Value = { List (List ℕ) };

    ghost view = { λ lines. lines_left lines.rest };
}

impl<'a> Lines<'a> {
    // The lines of an input.
    pub(crate) fn new(bytes: &'a [u8]) -> Lines<'a>
        ensures { result ≡ lines_of bytes.now }
    {
        Lines { rest: Some(bytes) }
    }

    // The next line; an empty one if no line is left.
    pub(crate) fn due(&mut self) -> &'a [u8]
        ensures line { result.now ≡ line_at self.old 0 }
        ensures rest { self.new ≡ drop 1 self.old }
        ensures few { length self.new ≤ 2 ^ 63 }
    {
        self.next().unwrap_or(&[])
    }

    // The next line; `None` if no line is left.
    pub(crate) fn next(&mut self) -> Option<&'a [u8]>
        ensures line { MatchOption result (self.old ≡ []) (λ line. self.old ≡ line.now ∷ self.new) }
        ensures rest { self.new ≡ drop 1 self.old }
        ensures few { length self.new ≤ 2 ^ 63 }
    {
        let (line, after) = cut_line(self.rest?);
        self.rest = after;
        Some(line)
    }
}

// The words of a line, separated by one or more blanks.
#[tactic(auto, unfolding(crate::specs::Lines::words_of))]
pub(crate) fn words_of(alloc: Global, line: &[u8]) -> Result<Vec<&[u8]>, AllocError>
    ensures { IfOk result (λ words. map (λ word. word.now) words.items ≡ words_of line.now) }
{
    line.split(|byte| is_blank(*byte))
        .filter(|word| !word.is_empty())
        .collect(alloc)
}

// What precedes the first comma and what follows it; `None` if there is no comma. Fields are short, so that a
// search byte by byte is the quicker one.
pub(crate) fn first_field(bytes: &[u8]) -> Option<(&[u8], &[u8])>
    ensures parts { MatchOption result (parts_at 44 bytes.now ≡ bytes.now ∷ []) (λ parts. parts_at 44 bytes.now ≡ parts.0.now ∷ parts_at 44 parts.1.now) }
    ensures shorter { IfSome result (λ parts. length parts.1.now < length bytes.now) }
{
    parts_around(bytes, b',', comma(bytes))
}

// The first line, and the bytes after it; `None` after the last line.
#[tactic(auto, unfolding(crate::specs::Lines::lines_of))]
fn cut_line(bytes: &[u8]) -> (&[u8], Option<&[u8]>)
    ensures line { lines_of bytes.now ≡ result.0.now ∷ lines_left result.1 }
    ensures few { length (lines_left result.1) ≤ 2 ^ 63 }
{
    match parts_around(bytes, b'\n', line_feed(bytes)) {
        Some((line, after)) => (without_return(line), Some(after)),
        None => (bytes, None),
    }
}

// The parts of a text around its first separator, by the offset of that.
fn parts_around(bytes: &[u8], separator: u8, offset: Option<usize>) -> Option<(&[u8], &[u8])>
    requires { offset ≡ position (λ byte. byte == separator) bytes.now }
    ensures parts { MatchOption result (parts_at separator bytes.now ≡ bytes.now ∷ [])
        (λ parts. parts_at separator bytes.now ≡ parts.0.now ∷ parts_at separator parts.1.now) }
    ensures shorter { IfSome result (λ parts. length parts.1.now < length bytes.now) }
{
    match offset {
        Some(end) => Some((&bytes[..end], &bytes[end + 1..])),
        None => None,
    }
}

// The offset of the first comma.
fn comma(bytes: &[u8]) -> Option<usize>
    ensures { result ≡ position (λ byte. byte == 44) bytes.now }
{
    bytes.iter().position(|byte| *byte == b',')
}

// The offset of the first line feed.
fn line_feed(bytes: &[u8]) -> Option<usize>
    ensures { result ≡ position (λ byte. byte == 10) bytes.now }
{
    memchr(b'\n', bytes)
}

// The number of line feeds.
pub(crate) fn line_feeds(bytes: &[u8]) -> usize
    ensures count { result ≡ count_by (λ byte. byte == 10) bytes.now }
    ensures within { result ≤ length bytes.now }
{
    bytes.iter().filter(|byte| **byte == b'\n').count()
}

// A line without the carriage return at its end.
fn without_return(line: &[u8]) -> &[u8]
    ensures { result.now ≡ strip_carriage_return line.now }
{
    match line {
        [front @ .., b'\r'] => front,
        _ => line,
    }
}

// Whether a line has blanks alone.
pub(crate) fn is_blank_line(line: &[u8]) -> bool
    ensures { result ≡ is_blank_line line.now }
{
    for byte in line {
        if !is_blank(*byte) {
            return false;
        }
    }
    true
}
