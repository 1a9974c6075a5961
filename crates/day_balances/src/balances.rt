//! The balances of the tanks of a site.

ghost use Rattle.std.specs.Prelude.{◌≡◌, ◌+◌, ◌-◌, ◌≤◌, All, length, map, take, ◌≤ℤ◌};
ghost use Rattle.farm_history.specs.Sites.{AreRising};
ghost use Rattle.farm_history.specs.Limits.{latest_moment};
ghost use Rattle.farm_history.specs.History.{before, last_place};
ghost use Rattle.farm_stock.specs.declared.book.TankBook.{TankBook};
ghost use Rattle.farm_history.specs.Postings.{less};
ghost use Rattle.history_lookups.specs.Bounds.{HoldAtMost, IsAtMost, most_posted};
ghost use Rattle.history_lookups.specs.Ledgers.{AreBooksTo};
ghost use Rattle.history_lookups.specs.Pasts.{IsReadable};
ghost use Rattle.farm_site.specs.declared.limits.TheConstants.{MOST_TANKS};
ghost use Rattle.day_balances.specs.Balances.{IsBounded, IsDayBalance, balance_between, day_balance, day_balances, postings_after, total_of};
ghost use Rattle.day_balances.specs.Days.{NeverFall};
ghost use Rattle.day_balances.specs.TankDays.{AreWithin, IsOpenedWithin, all_closed, closed, most_moved_by, most_summed, moved_after};

use crate::balance::total_of;
use crate::tank_days::{TankDay, begun, move_all};
use crate::{Balance, places_of};
use farm_fixed::Amount;
use farm_site::MOST_TANKS;
use farm_stock::{TankBook, plus};
use history_lookups::{Ledger, Past};
use std::marker::Model;

/// The balances of the tanks of a site, in the order of the tanks. In a clause it is the list of them.
#[derive(Drop)]
pub struct Balances {
    balances: [Balance; MOST_TANKS],
    count: usize,
}

impl Model for Balances {
    ghost use Rattle.std.specs.Prelude.{◌≤◌, All, List, take};
    ghost use Rattle.day_balances.specs.Balances.{IsBounded};
    ghost use Rattle.day_balances.specs.declared.balance.Balance.{Balance};
    ghost use Rattle.farm_site.specs.declared.limits.TheConstants.{MOST_TANKS};

    ghost Value = { List Balance };

    ghost view = { λ all. take all.count all.balances };

    ghost invariant = { λ all. (all.count ≤ MOST_TANKS) × All IsBounded (take all.count all.balances) };
}

impl Balances {
    /// The balance of each tank on the day with this first second, in seconds since 1970-01-01 00:00:00 UTC.
    ///
    /// The moments of the entries never fall, and the tanks are in rising order. One pass over the entries up to the day's end.
    #[tactic(auto, unfolding(crate::specs::Balances::day_balance))]
    pub fn of_day(past: &Past<'_>, day: i64) -> Balances
        requires readable { IsReadable past.now }
        requires in_order { NeverFall past.now.entries }
        requires rising { AreRising past.now.site }
        requires day { day ≤ℤ latest_moment }
        ensures balances { result ≡ day_balances past.now day }
        ensures meaning { All (λ tank. IsDayBalance past.now day tank.number (day_balance past.now day tank)) past.now.site.tanks }
    {
        let places = places_of(past.entries, day);
        Balances::between(past, places.before, places.through)
    }

    // The balance of each tank over the entries after the first `before` up to the first `through`.
    fn between(past: &Past<'_>, before: usize, through: usize) -> Balances
        requires readable { IsReadable past.now }
        requires order { before ≤ through }
        requires within { through ≤ last_place past.now }
        ensures balances { result ≡ map (balance_between past.now before through) past.now.site.tanks }
    {
        let mut ledger = first(past, before).ledger();
        let count = ledger.books().len();
        let mut days = begun(ledger.books());
        let days = &mut days[..count];
        post_through(past, before, through, &mut ledger, days);
        Balances {
            balances: all_closed(days, ledger.books()),
            count,
        }
    }

    /// The balances.
    pub fn get(&self) -> &[Balance]
        ensures balances { result.now ≡ self.now }
    {
        &self.balances[..self.count]
    }

    /// The balance of all tanks: each amount is the sum over them.
    pub fn total(&self) -> Balance
        ensures total { result ≡ total_of self.now }
    {
        total_of(&self.balances[..self.count])
    }
}

// The site and its first entries.
fn first<'p>(past: &Past<'p>, count: usize) -> Past<'p>
    requires within { count ≤ last_place past.now }
    ensures first { result ≡ before past.now (count + 1) }
{
    Past {
        site: past.site,
        entries: &past.entries[..count],
    }
}

// Posts the entries after the first `before` up to the first `through` to the ledger, and to the days of the tanks.
fn post_through(
    past: &Past<'_>,
    before: usize,
    through: usize,
    ledger: &mut Ledger,
    days: &mut [TankDay],
)
    requires readable { IsReadable past.now }
    requires order { before ≤ through }
    requires within { through ≤ last_place past.now }
    requires books { AreBooksTo past.now before ledger.old }
    requires days { AreWithin 0 days.old }
    ensures books { AreBooksTo past.now through ledger.new }
    ensures moved { days.new ≡ map (moved_after (postings_after past.now before (through - before))) days.old }
    ensures bounded { AreWithin (most_moved_by through) days.new }
{
    for index in before..through {
        let posted = first(past, index).posted_by(ledger, &past.entries[index].cmd);
        ledger.post(&posted);
        move_all(days, &posted);
    }
}

// The balances of days that end with these books.
fn all_closed(days: &[TankDay], books: &[TankBook]) -> [Balance; MOST_TANKS]
    requires as_many { length days.now ≡ length books.now }
    requires few { length books.now ≤ MOST_TANKS }
    requires days { All IsOpenedWithin days.now }
    requires books { HoldAtMost most_posted books.now }
    ensures closed { take (length books.now) result ≡ all_closed days.now books.now }
    ensures bounded { All IsBounded (all_closed days.now books.now) }
{
    let none = Amount { litres: 0, kg: 0 };
    let mut balances = [Balance {
        opening: none,
        receipts: none,
        deliveries: none,
        transfers: none,
        gains: none,
        closing: none,
    }; MOST_TANKS];
    for (index, book) in books.iter().enumerate() {
        balances[index] = closed(&days[index], book);
    }
    balances
}

// The balance of a day that ends with this book: the gains are what the other sums leave of it.
fn closed(day: &TankDay, book: &TankBook) -> Balance
    requires day { IsOpenedWithin day.now }
    requires book { IsAtMost most_posted book.now.amount }
    ensures closed { result ≡ closed day.now book.now }
    ensures bounded { IsBounded result }
{
    let moved = plus(day.receipts, plus(day.deliveries, day.transfers));
    Balance {
        opening: day.opening,
        receipts: day.receipts,
        deliveries: day.deliveries,
        transfers: day.transfers,
        gains: less(book.amount, plus(day.opening, moved)),
        closing: book.amount,
    }
}

// An amount less another.
fn less(amount: Amount, other: Amount) -> Amount
    requires amount { IsAtMost most_posted amount }
    requires other { IsAtMost most_summed other }
    ensures amount { result ≡ less amount other }
{
    Amount {
        litres: amount.litres - other.litres,
        kg: amount.kg - other.kg,
    }
}
