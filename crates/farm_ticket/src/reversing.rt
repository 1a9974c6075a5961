//! Tickets that reverse another.

ghost use Rattle.std.specs.Prelude.{◌≡◌, neg_ℤ};
ghost use Rattle.farm_ticket.specs.Amounts.{AddsUp};
ghost use Rattle.farm_ticket.specs.Reversing.{AddUp, SidesAddUp, reversal, reversed_side};

use crate::{Moved, Side, Ticket, Way};
use farm_fixed::{Quantity, Unit};

impl Ticket {
    /// The ticket that reverses this one, issued at a place and with a number of its own: the same movement, party and sides, and
    /// what moved with the opposite sign. Takes no memory.
    ///
    /// The figures and what moved on each side have to add up, as they do on every ticket of a movement that was closed.
    #[tactic(auto, unfolding(crate::specs::Reversing::reversal))]
    pub fn reversal(&self, place: u32, number: u32) -> Ticket
        requires sides { SidesAddUp self.now }
        ensures reversal { result ≡ reversal place number self.now }
    {
        let second = match &self.second {
            None => None,
            Some(side) => Some(side.reversed()),
        };
        Ticket {
            place,
            number,
            movement: self.movement,
            reverses: self.place,
            party: self.party,
            first: self.first.reversed(),
            second,
        }
    }
}

impl Side {
    // The side with what moved of opposite sign.
    fn reversed(&self) -> Side
        requires adds_up { AddUp self.now }
        ensures reversed { result ≡ reversed_side self.now }
    {
        let (opening, closing, way) = (&self.opening, &self.closing, self.way);
        Side {
            tank: self.tank,
            way,
            opening: *opening,
            closing: *closing,
            moved: Moved {
                gsv: negated(opening.gsv, closing.gsv, way, self.moved.gsv),
                nsv: negated(opening.nsv, closing.nsv, way, self.moved.nsv),
                swv: negated(opening.swv, closing.swv, way, self.moved.swv),
                mass: negated(opening.mass, closing.mass, way, self.moved.mass),
            },
        }
    }
}

// What moved, with the opposite sign. It is the difference of two figures, so there is room for it.
fn negated<U: Unit>(opening: Quantity<U>, closing: Quantity<U>, way: Way, moved: i64) -> i64
    requires adds_up { AddsUp way opening closing moved }
    ensures negated { result ≡ neg_ℤ moved }
{
    match way {
        Way::Inward => opening.get() - closing.get(),
        Way::Outward => closing.get() - opening.get(),
    }
}
