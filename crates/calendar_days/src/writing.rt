//! The text of a day.

ghost use Rattle.std.specs.Prelude.{◌≡◌, Some, pos, ◌*ℤ◌};
ghost use Rattle.jiff.specs.Words.{epoch_day};
ghost use Rattle.calendar_days.specs.Calendar.{IsFirstSecond};
ghost use Rattle.calendar_days.specs.DayTexts.{IsDayText, day_of, day_text, date_text, digit_at};

use jiff::Timestamp;
use jiff::civil::Date;
use jiff::tz::Offset;

/// The text `YYYY-MM-DD` of the day with that first second, which `read_day` reads as it.
pub fn day_text(day: i64) -> [u8; 10]
    requires first_second { IsFirstSecond day }
    ensures text { result ≡ day_text day }
    ensures written { IsDayText result day }
    ensures back { day_of result ≡ Some day }
{
    let date = date_of(day).to_plain();
    date_text(date.year as u16, date.month, date.day)
}

fn date_of(day: i64) -> Date
    requires first_second { IsFirstSecond day }
    ensures first_second { epoch_day result *ℤ pos 86_400 ≡ day }
{
    let instant = Timestamp::from_second(day).unwrap();
    Offset::UTC.to_datetime(instant).date()
}

fn date_text(year: u16, month: u8, day: u8) -> [u8; 10]
    ensures text { result ≡ date_text (record { year = year; month = month; day = day }) }
{
    [
        digit(year / 1000),
        digit(year / 100),
        digit(year / 10),
        digit(year),
        b'-',
        digit(month as u16 / 10),
        digit(month as u16),
        b'-',
        digit(day as u16 / 10),
        digit(day as u16),
    ]
}

fn digit(number: u16) -> u8
    ensures digit { result ≡ digit_at 1 number }
{
    b'0' + (number % 10) as u8
}
