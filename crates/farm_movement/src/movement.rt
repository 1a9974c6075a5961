//! A movement that is open.

ghost use Rattle.std.specs.Prelude.{◌≡◌};
ghost use Rattle.farm_movement.specs.Closing.{tank_of_leg};

use crate::{CancelledMove, Leg};
use std::marker::Model;

/// A movement that is open: a receipt or a delivery, which have one leg, or a transfer, which has two.
#[derive(Clone, Copy, Debug, PartialEq, Eq)]
pub struct OpenMove {
    /// The place of the entry that opened it.
    pub place: u32,
    /// The number of the party.
    pub party: u16,
    /// The only leg of a receipt, which is inward, or of a delivery, which is outward. That of a transfer is outward.
    pub first: Leg,
    /// The second leg of a transfer, which is inward.
    pub second: Option<Leg>,
}

// Without it a movement can't be handed to a generic call, as `push` or `?`, by a function that has no local of type
// `Option<Leg>`.
impl Model for OpenMove {
    ghost use Rattle.farm_movement.specs.Movements.{OpenMove};

    ghost Value = { OpenMove };

    ghost view = { λ m. record { place = m.place; party = m.party; first = m.first; second = m.second } };

    ghost inverse = { λ m. record { place = m.place; party = m.party; first = m.first; second = m.second } };
}

impl OpenMove {
    /// The movement that was opened at a place, for a party, on these legs.
    #[inline(always)]
    pub fn new(place: u32, party: u16, first: Leg, second: Option<Leg>) -> OpenMove
        ensures opened { result ≡ record { place = place; party = party; first = first; second = second } }
    {
        OpenMove {
            place,
            party,
            first,
            second,
        }
    }

    /// The movement cancelled at a place.
    pub fn cancel(self, place: u32) -> CancelledMove
        ensures cancelled { result ≡ record { place = place; movement = self } }
    {
        CancelledMove {
            place,
            movement: self,
        }
    }

    /// The tanks of its legs.
    pub fn tanks(&self) -> (u16, Option<u16>)
        ensures first { result.0 ≡ self.now.first.tank }
        ensures second { result.1 ≡ tank_of_leg self.now.second }
    {
        (self.first.tank, self.second.as_ref().map(|leg| leg.tank))
    }
}
