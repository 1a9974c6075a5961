//! What a day did to a tank so far.

ghost use Rattle.std.specs.Prelude.{◌≡◌, ◌≤◌, ◌*◌, ◌^◌, IsFalse, map, length, take};
ghost use Rattle.farm_history.specs.Conservation.{is_gain};
ghost use Rattle.history_lookups.specs.Bounds.{IsAtMost, MoveAtMost, most_moved};
ghost use Rattle.history_lookups.specs.Ledgers.{listed_postings};
ghost use Rattle.farm_site.specs.declared.limits.TheConstants.{MOST_TANKS};
ghost use Rattle.day_balances.specs.TankDays.{AreWithin, IsWithin, added, begun, most_summed, moved_after, moved_by};

use farm_fixed::Amount;
use farm_site::MOST_TANKS;
use farm_stock::{Kind, Posting, TankBook, plus};
use history_lookups::Posted;

// What a day did to a tank so far, but for gains.
#[derive(Clone, Copy)]
pub(crate) struct TankDay {
    // The number of the tank.
    pub tank: u16,
    // What its book held before the day.
    pub opening: Amount,
    // What receipts brought.
    pub receipts: Amount,
    // What deliveries took.
    pub deliveries: Amount,
    // What transfers brought less what they took.
    pub transfers: Amount,
}

// The days of the tanks of these books before anything is posted.
pub(crate) fn begun(books: &[TankBook]) -> [TankDay; MOST_TANKS]
    requires few { length books.now ≤ MOST_TANKS }
    ensures begun { take (length books.now) result ≡ map begun books.now }
{
    let none = Amount { litres: 0, kg: 0 };
    let mut days = [TankDay {
        tank: 0,
        opening: none,
        receipts: none,
        deliveries: none,
        transfers: none,
    }; MOST_TANKS];
    for (index, book) in books.iter().enumerate() {
        days[index] = TankDay {
            tank: book.tank,
            opening: book.amount,
            receipts: none,
            deliveries: none,
            transfers: none,
        };
    }
    days
}

// Adds what an entry posts to the days of its tanks.
pub(crate) fn move_all(days: &mut [TankDay], posted: &Posted)
    requires days { AreWithin (9 * 10 ^ 16) days.old }
    requires postings { MoveAtMost (2 * most_moved) (listed_postings posted.now) }
    ensures moved { days.new ≡ map (moved_after (listed_postings posted.now)) days.old }
{
    match posted {
        Posted::Nothing => {}
        Posted::One(posting) => move_one(days, posting),
        Posted::Transfer {
            taken,
            brought,
            gain,
        } => {
            move_one(days, taken);
            move_one(days, brought);
            move_one(days, gain);
        }
    }
}

// Adds a posting to the day of its tank.
fn move_one(days: &mut [TankDay], posting: &Posting)
    requires days { AreWithin most_summed days.old }
    requires posting { IsFalse (is_gain posting.now.kind) → IsAtMost (2 * most_moved) posting.now.amount }
    ensures moved { days.new ≡ map (moved_by posting.now) days.old }
{
    for day in days.iter_mut() {
        if posting.tank == day.tank {
            *day = day.with(posting.kind, posting.amount);
        }
    }
}

impl TankDay {
    // The day with an amount of a kind added. A gain adds to no sum.
    fn with(self, kind: Kind, amount: Amount) -> TankDay
        requires within { IsWithin most_summed self }
        requires amount { IsFalse (is_gain kind) → IsAtMost (2 * most_moved) amount }
        ensures added { result ≡ added kind amount self }
    {
        match kind {
            Kind::Receipt => TankDay {
                receipts: plus(self.receipts, amount),
                ..self
            },
            Kind::Delivery => TankDay {
                deliveries: plus(self.deliveries, amount),
                ..self
            },
            Kind::TransferOut | Kind::TransferIn => TankDay {
                transfers: plus(self.transfers, amount),
                ..self
            },
            Kind::Gain => self,
        }
    }
}
