//! Amounts: what moved, what a tank holds by its figures, and their opposites and differences.

ghost use Rattle.std.specs.Prelude.{◌≡◌};
ghost use Rattle.history_lookups.specs.Bounds.{IsAtMost, most_posted};
ghost use Rattle.farm_history.specs.Postings.{amount_held, amount_moved, less, opposite};

use farm_fixed::{Amount, Quantities};
use farm_ticket::Moved;

// What moved on a side.
#[inline(always)]
pub(crate) fn amount_moved(moved: &Moved) -> Amount
    ensures amount { result ≡ amount_moved moved.now }
{
    Amount {
        litres: moved.nsv,
        kg: moved.mass,
    }
}

// What a tank holds by its figures.
pub(crate) fn amount_held(figures: &Quantities) -> Amount
    ensures amount { result ≡ amount_held figures.now }
{
    Amount {
        litres: figures.nsv.get(),
        kg: figures.mass.get(),
    }
}

// The amount of opposite sign.
#[inline(always)]
pub(crate) fn opposite(amount: Amount) -> Amount
    requires small { IsAtMost most_posted amount }
    ensures amount { result ≡ opposite amount }
{
    Amount {
        litres: -amount.litres,
        kg: -amount.kg,
    }
}

// An amount less another, litres and kg each by itself.
pub(crate) fn less(amount: Amount, other: Amount) -> Amount
    requires amount { IsAtMost most_posted amount }
    requires other { IsAtMost most_posted other }
    ensures amount { result ≡ less amount other }
{
    Amount {
        litres: amount.litres - other.litres,
        kg: amount.kg - other.kg,
    }
}
