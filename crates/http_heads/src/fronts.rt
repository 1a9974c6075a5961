//! What the front of a connection's bytes is.

ghost use Rattle.std.specs.Prelude.{◌≡◌, ◌↔◌, ◌⊎◌, IsTrue, codes};
ghost use Rattle.httparse.specs.Grammar.{RequestHead};
ghost use Rattle.http_heads.specs.Lines.{field_lines, lines_of};
ghost use Rattle.http_heads.specs.Fields.{AsksToClose, content_length_of};
ghost use Rattle.http_heads.specs.Rows.{HasNoWholeHead, IsTooLarge, LacksLength};
ghost use Rattle.http_heads.specs.Fronts.{HasHead, IsFront};
ghost use Rattle.http_heads.specs.Laws.{AreFieldLines, IsOnlyFront, LinesAreFields, StaysDecided};
ghost use Rattle.http_heads.specs.Gathered.{Describes, IsHeadOf, IsParsed};

use crate::fields::{Fields, Length};
use crate::heads::{Head, Parsed, head_of};
use crate::limits::{
    BAD_REQUEST, CONTENT_TOO_LARGE, HEADER_FIELDS_TOO_LARGE, LENGTH_REQUIRED, MOST_BODY_BYTES,
    MOST_FIELDS, MOST_HEAD_BYTES,
};

/// What the front of a connection's bytes is.
#[derive(Clone, Copy, Debug, PartialEq, Eq)]
pub enum Front<'a> {
    /// More bytes are needed.
    Need,
    /// No request: the status that says how the bytes are broken, 400, 411, 413 or 431.
    Broken(u16),
    /// A whole request.
    Whole(RequestFront<'a>),
}

/// A whole request at the front of bytes: the first `head + body` of them.
#[derive(Clone, Copy, Debug, PartialEq, Eq)]
pub struct RequestFront<'a> {
    /// The method, as the bytes have it: two methods whose letters differ in case alone are two.
    pub method: &'a [u8],
    /// The target, as the bytes have it.
    pub target: &'a [u8],
    /// Whether the connection ends with this request: it is of HTTP/1.0, asks for it by `Connection: close`, or is a HEAD.
    pub last: bool,
    /// How many bytes the head has, up to the empty line and with it.
    pub head: usize,
    /// How many bytes the body has, at most 65,536.
    pub body: usize,
}

/// What the bytes in hand are: the first of these that holds.
///
/// 1. `Broken(431)`: more than 64 field lines, or 16,384 bytes and no whole head within the first 16,384.
/// 2. `Broken(400)`: no continuation makes a head; or among the field lines in hand there are two Content-Length, or one whose
///    value isn't 1 to 10 digits.
/// 3. `Need`: the head isn't whole.
/// 4. `Broken(411)`: a Transfer-Encoding, or a POST without Content-Length.
/// 5. `Broken(413)`: a Content-Length over 65,536.
/// 6. `Need`: the body isn't whole.
/// 7. `Whole`. Without Content-Length the body is empty.
///
/// If the bytes end within the target, it may be `Need` though no continuation makes a head. Field names are compared in any
/// case of letters. The time is linear in the bytes, and no memory is taken.
pub fn front_of(bytes: &[u8]) -> Front<'_>
    ensures front { IsFront bytes.now result }
    ensures only { IsOnlyFront bytes.now result }
    ensures stays { StaysDecided bytes.now result }
    ensures lines { AreFieldLines (lines_of bytes.now) (field_lines bytes.now) }
    ensures fields { LinesAreFields bytes.now }
{
    first_row(bytes)
}

// The answer of the first row that holds.
fn first_row(bytes: &[u8]) -> Front<'_>
    ensures { IsFront bytes.now result }
{
    let fields = Fields::in_hand(bytes);
    if fields.count > MOST_FIELDS {
        return Front::Broken(HEADER_FIELDS_TOO_LARGE);
    }
    let parsed = head_of(bytes);
    if lacks_head(bytes, &parsed) {
        return Front::Broken(HEADER_FIELDS_TOO_LARGE);
    }
    match parsed {
        Parsed::Whole(head) => of_head(bytes, &head, &fields),
        Parsed::Hopeless => Front::Broken(BAD_REQUEST),
        Parsed::Open => match fields.length {
            Length::Bad => Front::Broken(BAD_REQUEST),
            Length::Absent | Length::Bytes(_) => Front::Need,
        },
    }
}

// Whether no head is whole within its limit, though as many bytes are in hand.
fn lacks_head(bytes: &[u8], parsed: &Parsed<'_>) -> bool
    requires { IsParsed bytes.now parsed.now }
    ensures { IsTrue result ↔ HasNoWholeHead bytes.now }
{
    match parsed {
        Parsed::Whole(head) => head.len > MOST_HEAD_BYTES,
        Parsed::Open | Parsed::Hopeless => bytes.len() >= MOST_HEAD_BYTES,
    }
}

// The answer where this head is whole and the first row doesn't hold.
fn of_head<'a>(bytes: &'a [u8], head: &Head<'a>, fields: &Fields) -> Front<'a>
    requires within_limits { IsTooLarge bytes.now → ⊥ }
    requires head { (whole : RequestHead) × IsHeadOf bytes.now head.now whole }
    requires fields { Describes (field_lines bytes.now) fields.now }
    ensures { IsFront bytes.now result }
{
    let is_post = head.method == b"POST".as_slice();
    match fields.length {
        Length::Bad => Front::Broken(BAD_REQUEST),
        Length::Absent => {
            if fields.is_encoded || is_post {
                return Front::Broken(LENGTH_REQUIRED);
            }
            of_body(bytes, head, 0, fields.closes)
        }
        Length::Bytes(body) => {
            if fields.is_encoded {
                return Front::Broken(LENGTH_REQUIRED);
            }
            of_body(bytes, head, body, fields.closes)
        }
    }
}

// The answer where this head is whole and its body has a stated length.
fn of_body<'a>(bytes: &'a [u8], head: &Head<'a>, body: u64, closes: bool) -> Front<'a>
    requires head { (whole : RequestHead) × IsHeadOf bytes.now head.now whole × HasHead bytes.now whole × (LacksLength whole bytes.now → ⊥) }
    requires body { body ≡ content_length_of bytes.now }
    requires closes { IsTrue closes ↔ AsksToClose bytes.now }
    ensures { IsFront bytes.now result }
{
    if body > MOST_BODY_BYTES {
        return Front::Broken(CONTENT_TOO_LARGE);
    }
    let body = body as usize;
    if bytes.len() - head.len < body {
        return Front::Need;
    }
    Front::Whole(RequestFront {
        method: head.method,
        target: head.target,
        last: is_last(head, closes),
        head: head.len,
        body,
    })
}

// Whether the connection ends with the request of a head.
fn is_last(head: &Head<'_>, closes: bool) -> bool
    ensures { IsTrue result ↔ ((head.now.minor ≡ 0) ⊎ (IsTrue closes ⊎ (head.now.method.now ≡ codes "HEAD"))) }
{
    head.minor == 0 || closes || head.method == b"HEAD".as_slice()
}
