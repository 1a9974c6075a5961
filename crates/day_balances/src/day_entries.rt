//! Which entries are of a day.

ghost use Rattle.std.specs.Prelude.{◌≡◌, ◌-◌, ◌≤◌, drop, length, take, pos, ◌≤ℤ◌};
ghost use Rattle.std.specs.Int.RustNames.{int_le, int_lt};
ghost use Rattle.farm_history.specs.Limits.{latest_moment};
ghost use Rattle.day_balances.specs.Days.{AreParted, NeverFall, count_before, count_through, last_second};

use farm_history::Entry;

/// The last second of a day, counted from its first.
const LAST_SECOND: i64 = 86_399;

/// The places of a day's entries among those of a history.
#[derive(Clone, Copy, Debug, PartialEq, Eq)]
pub struct DayPlaces {
    /// How many entries are before the day.
    pub before: usize,
    /// How many entries aren't after it.
    pub through: usize,
}

/// The places of the entries of the day with this first second, in seconds since 1970-01-01 00:00:00 UTC.
///
/// The moments of the entries never fall. It takes two binary searches.
pub fn places_of(entries: &[Entry], day: i64) -> DayPlaces
    requires in_order { NeverFall entries.now }
    requires day { day ≤ℤ latest_moment }
    ensures before { result.before ≡ count_before day entries.now }
    ensures through { result.through ≡ count_through day entries.now }
    ensures order { result.before ≤ result.through }
    ensures within { result.through ≤ length entries.now }
    ensures parted { AreParted day entries.now (take result.before entries.now)
        (take (result.through - result.before) (drop result.before entries.now)) (drop result.through entries.now) }
{
    let before = entries.partition_point(
        |entry: &Entry| -> bool
            ensures { result ≡ int_lt entry.now.at day }
        { entry.at < day },
    );
    let last = day + LAST_SECOND;
    let through = entries.partition_point(
        |entry: &Entry| -> bool
            ensures { result ≡ int_le entry.now.at last }
        { entry.at <= last },
    );
    DayPlaces { before, through }
}
