//! The balance of a day.

ghost use Rattle.std.specs.Prelude.{◌≡◌, ◌*◌, ◌+◌, ◌≤◌, All, length};
ghost use Rattle.farm_site.specs.Limits.{most_tanks};
ghost use Rattle.day_balances.specs.Balances.{IsBounded, IsEachWithin, most_balanced, plus_each, total_of};

use farm_fixed::Amount;
use farm_stock::plus;

/// What a book opened with on a day, what was posted to it of each kind, and what it closed with. The closing is the sum of the others.
#[derive(Clone, Copy, Debug, PartialEq, Eq)]
pub struct Balance {
    /// What the book held before the day's first entry.
    pub opening: Amount,
    /// What receipts brought.
    pub receipts: Amount,
    /// What deliveries took, below zero.
    pub deliveries: Amount,
    /// What transfers brought less what they took.
    pub transfers: Amount,
    /// What measurements gained, below zero for a loss.
    pub gains: Amount,
    /// What the book held after the day's last entry.
    pub closing: Amount,
}

// The balance of all: each amount is the sum over these.
pub(crate) fn total_of(balances: &[Balance]) -> Balance
    requires few { length balances.now ≤ most_tanks }
    requires bounded { All IsBounded balances.now }
    ensures total { result ≡ total_of balances.now }
{
    let none = Amount { litres: 0, kg: 0 };
    let mut total = Balance {
        opening: none,
        receipts: none,
        deliveries: none,
        transfers: none,
        gains: none,
        closing: none,
    };
    for balance in balances {
        total = plus_each(&total, balance);
    }
    total
}

// A balance with each amount of another added to its own.
fn plus_each(total: &Balance, balance: &Balance) -> Balance
    requires total { IsEachWithin (most_tanks * most_balanced) total.now }
    requires balance { IsBounded balance.now }
    ensures sum { result ≡ plus_each total.now balance.now }
{
    Balance {
        opening: plus(total.opening, balance.opening),
        receipts: plus(total.receipts, balance.receipts),
        deliveries: plus(total.deliveries, balance.deliveries),
        transfers: plus(total.transfers, balance.transfers),
        gains: plus(total.gains, balance.gains),
        closing: plus(total.closing, balance.closing),
    }
}
