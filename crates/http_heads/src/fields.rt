//! What the field lines in hand say of a request.

ghost use Rattle.std.specs.Prelude.{◌≡◌, ◌==◌, ◌&&◌, ◌<◌, ◌≤◌, [], ◌∷◌, ◌++◌, ℕ, List, codes, length, position, reverse, IsFalse, IsTrue, MatchOption};
ghost use Rattle.std.specs.Str.{str_eq_ignore_ascii_case};
ghost use Rattle.std.specs.Str.Parse.{digits_value};
ghost use Rattle.farm_base.specs.Bytes.{is_all_digits};
ghost use Rattle.httparse.specs.Grammar.{skip_ows, trim_ows};
ghost use Rattle.http_heads.specs.Lines.{field_lines};
ghost use Rattle.http_heads.specs.Fields.{IsContentLength, field_name, is_close, value_of};
ghost use Rattle.http_heads.specs.Gathered.{Describes, IsLength};

use crate::limits::MOST_LENGTH_DIGITS;
use crate::lines::{after_request_line, cut_line};
use farm_base::{is_all_digits, is_blank};

/// What the Content-Length fields of a request state.
#[derive(Clone, Copy)]
pub(crate) enum Length {
    /// There isn't any.
    Absent,
    /// There is one, of this number of bytes.
    Bytes(u64),
    /// There are two, or one isn't 1 to 10 digits.
    Bad,
}

impl Length {
    // With one Content-Length field more, of this value.
    fn with_value(self, value: &[u8]) -> Length
        ensures { (values : List (List ℕ)) → IsLength values self → IsLength (values ++ value.now ∷ []) result }
    {
        match self {
            Length::Absent => match number_of(value) {
                Some(number) => Length::Bytes(number),
                None => Length::Bad,
            },
            Length::Bytes(_) | Length::Bad => Length::Bad,
        }
    }

    // With one field more, of this name and value.
    fn with_field(self, name: &[u8], value: &[u8]) -> Length
        ensures named { IsTrue (str_eq_ignore_ascii_case name.now (codes "content-length"))
            → (values : List (List ℕ)) → IsLength values self → IsLength (values ++ value.now ∷ []) result }
        ensures other { IsFalse (str_eq_ignore_ascii_case name.now (codes "content-length")) → result ≡ self }
    {
        if is_same(name, b"content-length") {
            self.with_value(value)
        } else {
            self
        }
    }
}

/// What field lines say of a request.
#[derive(Clone, Copy)]
pub(crate) struct Fields {
    /// How many lines there are.
    pub count: usize,
    /// What the Content-Length fields state.
    pub length: Length,
    /// Whether there is a Transfer-Encoding field.
    pub is_encoded: bool,
    /// Whether there is a Connection field whose whole value is `close`.
    pub closes: bool,
}

impl Fields {
    const NONE: Fields = Fields {
        count: 0,
        length: Length::Absent,
        is_encoded: false,
        closes: false,
    };

    // What the field lines in hand say.
    pub(crate) fn in_hand(bytes: &[u8]) -> Fields
        ensures { Describes (field_lines bytes.now) result }
    {
        let mut rest = after_request_line(bytes);
        let mut fields = Fields::NONE;
        while let Some((line, after)) = cut_line(rest) {
            if line.is_empty() {
                break;
            }
            fields = fields.with_line(line);
            rest = after;
        }
        fields
    }

    // With one field line more.
    fn with_line(self, line: &[u8]) -> Fields
        requires room { self.count < usize.MAX }
        ensures { (lines : List (List ℕ)) → Describes lines self → Describes (lines ++ line.now ∷ []) result }
    {
        let (name, value) = name_and_value(line);
        let length = self.length.with_field(name, value);
        let encodes = is_same(name, b"transfer-encoding");
        let closes = asks_to_close(name, value);
        Fields {
            count: self.count + 1,
            length,
            is_encoded: self.is_encoded || encodes,
            closes: self.closes || closes,
        }
    }
}

// Whether a field is a Connection whose whole value is `close`.
fn asks_to_close(name: &[u8], value: &[u8]) -> bool
    ensures { result ≡ (str_eq_ignore_ascii_case name.now (codes "connection") && is_close value.now) }
{
    is_same(name, b"connection") && is_same(value, b"close")
}

// The name of a field line, and its value without the blanks at both ends.
fn name_and_value(line: &[u8]) -> (&[u8], &[u8])
    ensures name { result.0.now ≡ field_name line.now }
    ensures value { result.1.now ≡ value_of line.now }
{
    match colon(line) {
        Some(end) => (&line[..end], trimmed(&line[end + 1..])),
        None => (line, &[]),
    }
}

// The offset of the first colon.
fn colon(line: &[u8]) -> Option<usize>
    ensures { result ≡ position (λ byte. byte == 58) line.now }
{
    line.iter().position(|byte| *byte == b':')
}

// A value without the blanks at both ends.
fn trimmed(value: &[u8]) -> &[u8]
    ensures { result.now ≡ trim_ows value.now }
{
    without_blanks_behind(without_blanks_before(value))
}

// A value without the blanks at its start.
fn without_blanks_before(value: &[u8]) -> &[u8]
    ensures { result.now ≡ skip_ows value.now }
{
    let mut rest = value;
    while let [blank, after @ ..] = rest
        && is_blank(*blank)
    {
        rest = after;
    }
    rest
}

// A value without the blanks at its end.
fn without_blanks_behind(value: &[u8]) -> &[u8]
    ensures { result.now ≡ reverse (skip_ows (reverse value.now)) }
{
    let mut rest = value;
    while let [before @ .., blank] = rest
        && is_blank(*blank)
    {
        rest = before;
    }
    rest
}

// Whether two texts are the same in any case of letters.
fn is_same(text: &[u8], other: &[u8]) -> bool
    ensures { result ≡ str_eq_ignore_ascii_case text.now other.now }
{
    text.eq_ignore_ascii_case(other)
}

// The number of a Content-Length; `None` if it isn't 1 to 10 digits.
fn number_of(value: &[u8]) -> Option<u64>
    ensures { MatchOption result (IsContentLength value.now → ⊥)
        (λ number. IsContentLength value.now × (number ≡ digits_value 10 value.now)) }
{
    if value.is_empty() || value.len() > MOST_LENGTH_DIGITS || !is_all_digits(value) {
        return None;
    }
    Some(number_of_digits(value))
}

// The number that up to 10 digits are.
fn number_of_digits(digits: &[u8]) -> u64
    requires few { length digits.now ≤ MOST_LENGTH_DIGITS }
    requires digits { IsTrue (is_all_digits digits.now) }
    ensures { result ≡ digits_value 10 digits.now }
{
    let mut number = 0;
    for digit in digits {
        number = number * 10 + u64::from(*digit - b'0');
    }
    number
}
