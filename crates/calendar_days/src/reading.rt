//! The day that a text writes.

ghost use Rattle.std.specs.Prelude.{◌≡◌, ◌≤◌, ◌&&◌, ◌==◌, IfOk, MatchResult, Some, None, IsTrue, pos, ◌*ℤ◌, length};
ghost use Rattle.jiff.specs.Words.{epoch_day};
ghost use Rattle.calendar_days.specs.Calendar.{IsFirstSecond};
ghost use Rattle.calendar_days.specs.DayTexts.{IsDayText, IsNoDayText, day_of, is_digit, is_formed, is_year, number_of_two, number_of_four, second_of};

use jiff::civil::{Date, Time};
use jiff::tz::Offset;
use thiserror::Error;

/// A text that isn't exactly `YYYY-MM-DD`, or a day that the calendar doesn't have from 1970 to 9986.
#[derive(Clone, Copy, Debug, PartialEq, Eq, Error)]
#[error("bad day")]
pub struct BadDay;

/// The first second, in UTC, of a day written exactly `YYYY-MM-DD`.
pub fn read_day(text: &[u8]) -> Result<i64, BadDay>
    ensures day { MatchResult result (IsDayText text.now) (λ _. IsNoDayText text.now) }
    ensures day_of { MatchResult result (λ second. day_of text.now ≡ Some second) (λ _. day_of text.now ≡ None) }
    ensures first_second { IfOk result IsFirstSecond }
{
    day_of(text)
}

#[tactic(auto, unfolding(crate::specs::DayTexts::day_of))]
fn day_of(text: &[u8]) -> Result<i64, BadDay>
    ensures day_of { MatchResult result (λ second. day_of text.now ≡ Some second) (λ _. day_of text.now ≡ None) }
{
    if text.len() != 10 {
        return Err(BadDay);
    }
    if !is_formed(text) {
        return Err(BadDay);
    }
    let year = number_of_four(text[0], text[1], text[2], text[3]);
    let month = number_of_two(text[5], text[6]);
    let day = number_of_two(text[8], text[9]);
    second_of(year, month, day)
}

// By `&`, which makes no branches: ten tests in a row are one value to prove.
fn is_formed(text: &[u8]) -> bool
    requires ten_bytes { length text.now ≡ 10 }
    ensures formed { result ≡ is_formed text.now }
{
    is_digit(text[0])
        & is_digit(text[1])
        & is_digit(text[2])
        & is_digit(text[3])
        & (text[4] == b'-')
        & is_digit(text[5])
        & is_digit(text[6])
        & (text[7] == b'-')
        & is_digit(text[8])
        & is_digit(text[9])
}

fn is_digit(byte: u8) -> bool
    ensures digit { result ≡ is_digit byte }
{
    byte.is_ascii_digit()
}

fn number_of_two(tens: u8, ones: u8) -> u8
    requires tens { IsTrue (is_digit tens) }
    requires ones { IsTrue (is_digit ones) }
    ensures number { result ≡ number_of_two tens ones }
    ensures bound { result ≤ 99 }
{
    10 * (tens - b'0') + (ones - b'0')
}

fn number_of_four(thousands: u8, hundreds: u8, tens: u8, ones: u8) -> u16
    requires thousands { IsTrue (is_digit thousands) }
    requires hundreds { IsTrue (is_digit hundreds) }
    requires tens { IsTrue (is_digit tens) }
    requires ones { IsTrue (is_digit ones) }
    ensures number { result ≡ number_of_four thousands hundreds tens ones }
    ensures bound { result ≤ 9999 }
{
    100 * number_of_two(thousands, hundreds) as u16 + number_of_two(tens, ones) as u16
}

fn second_of(year: u16, month: u8, day: u8) -> Result<i64, BadDay>
    requires year { year ≤ 9999 }
    requires month { month ≤ 99 }
    requires day { day ≤ 99 }
    ensures second { MatchResult result
        (λ second. second_of (record { year = year; month = month; day = day }) ≡ Some second)
        (λ _. second_of (record { year = year; month = month; day = day }) ≡ None) }
{
    if !is_year(year) {
        return Err(BadDay);
    }
    match Date::new(year as i16, month as i8, day as i8) {
        Ok(date) => Ok(first_second(date)),
        Err(_) => Err(BadDay),
    }
}

fn is_year(year: u16) -> bool
    ensures year { result ≡ is_year year }
{
    1970 <= year && year <= 9986
}

fn first_second(date: Date) -> i64
    requires first_second { IsFirstSecond (epoch_day date *ℤ pos 86_400) }
    ensures second { result ≡ epoch_day date *ℤ pos 86_400 }
{
    let midnight = date.to_datetime(Time::midnight());
    Offset::UTC.to_timestamp(midnight).unwrap().as_second()
}
