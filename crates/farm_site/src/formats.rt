//! The formats of a site, of its files as of its bytes.

ghost use Rattle.std.specs.Prelude.{◌≡◌, ◌≤◌};
ghost use Rattle.std.specs.List.{list_any};
ghost use Rattle.farm_site.specs.Formats.{format_needed, format_number, format_of, includes_roof, is_half_even, is_same_format, rounds_to_even};

use crate::{MOST_FORMAT, Tank};
use farm_rounding::{Mode, ROUNDING_ROWS, RoundTable};

/// What the files and the bytes of a site may say.
#[derive(Clone, Copy, Debug, PartialEq, Eq)]
pub enum Format {
    /// Format 1, which leaves out what format 2 alone can say.
    One,
    /// Format 2: also that a figure rounds ties to even, and the density at which a capacity table includes its tank's roof.
    Two,
}

impl Format {
    /// Its number.
    pub fn number(self) -> u8
        ensures number { result ≡ format_number self }
    {
        match self {
            Format::One => 1,
            Format::Two => 2,
        }
    }

    /// The format of a number.
    pub fn of(number: u32) -> Format
        requires low { 1 ≤ number }
        requires high { number ≤ MOST_FORMAT }
        ensures format { result ≡ format_of number }
    {
        if number == 1 {
            Format::One
        } else {
            Format::Two
        }
    }

    /// Whether it is this one.
    pub fn is(self, format: Format) -> bool
        ensures same { result ≡ is_same_format self format }
    {
        match (self, format) {
            (Format::One, Format::One) | (Format::Two, Format::Two) => true,
            (Format::One, Format::Two) | (Format::Two, Format::One) => false,
        }
    }
}

/// The format that a site with this rounding table and these tanks needs: 2 if a row rounds ties to even or a capacity table includes
/// a roof, else 1.
#[tactic(auto, unfolding(crate::specs::Formats::format_needed))]
pub fn format_needed(rounding: &RoundTable, tanks: &[Tank]) -> Format
    ensures format { result ≡ format_needed rounding.now tanks.now }
{
    if rounds_to_even(*rounding) || include_roof(tanks) {
        return Format::Two;
    }
    Format::One
}

// Whether a row of a rounding table rounds ties to even.
fn rounds_to_even(rounding: RoundTable) -> bool
    ensures { result ≡ list_any rounds_to_even rounding }
{
    for index in 0..ROUNDING_ROWS as u8 {
        let (_, mode) = rounding.row(index + 1);
        if is_half_even(mode) {
            return true;
        }
    }
    false
}

// Whether a mode takes the even one of two.
fn is_half_even(mode: Mode) -> bool
    ensures { result ≡ is_half_even mode }
{
    match mode {
        Mode::HalfAway | Mode::TowardZero => false,
        Mode::HalfEven => true,
    }
}

// Whether the capacity table of one of these tanks includes its roof.
fn include_roof(tanks: &[Tank]) -> bool
    ensures { result ≡ list_any includes_roof tanks.now }
{
    tanks.iter().any(includes_roof)
}

// Whether the capacity table of a tank includes its roof.
fn includes_roof(tank: &Tank) -> bool
    ensures { result ≡ includes_roof tank.now }
{
    match tank.spec.roof {
        Some(roof) => roof.reference.is_some(),
        None => false,
    }
}
