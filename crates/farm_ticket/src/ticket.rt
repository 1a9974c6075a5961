//! The ticket of a movement.

use crate::Side;
use std::marker::Model;

/// The ticket of a movement: a receipt or a delivery, which have one side, or a transfer, which has two.
#[derive(Clone, Copy, Debug, PartialEq, Eq)]
pub struct Ticket {
    /// The place of the entry that issued it.
    pub place: u32,
    /// Its own number.
    pub number: u32,
    /// The place of the entry that opened the movement.
    pub movement: u32,
    /// The place of the ticket that it reverses, 0 for none.
    pub reverses: u32,
    /// The number of the party.
    pub party: u16,
    /// The only side of a receipt, which is inward, or of a delivery, which is outward. That of a transfer is outward.
    pub first: Side,
    /// The second side of a transfer, which is inward.
    pub second: Option<Side>,
}

// Without it a ticket can't be handed to a generic call, as `push`, by a function that has no local of type `Option<Side>`.
impl Model for Ticket {
    ghost use Rattle.farm_ticket.specs.Tickets.{Ticket};

    ghost Value = { Ticket };

    ghost view = { λ t. record { place = t.place; number = t.number; movement = t.movement; reverses = t.reverses; party = t.party; first = t.first; second = t.second } };

    ghost inverse = { λ t. record { place = t.place; number = t.number; movement = t.movement; reverses = t.reverses; party = t.party; first = t.first; second = t.second } };
}
