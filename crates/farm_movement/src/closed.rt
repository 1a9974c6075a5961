//! A movement that is closed.

ghost use Rattle.std.specs.Prelude.{◌≡◌, ◌⊎◌, ◌↔◌, IfOk, IfErr, IfSome, IsErr, IsSome};
ghost use Rattle.farm_movement.specs.Balance.{IsBalanced, IsRight};
ghost use Rattle.farm_movement.specs.Closing.{GoesWrong, SecondGoesWrong, second_side, side_of, tank_of_leg, tank_of_side, ticket_of};

use crate::{Leg, OpenMove};
use farm_fixed::Quantities;
use farm_ticket::{Side, Ticket, WrongWay, moved};
use std::marker::Model;

/// A movement that is closed. In a clause it is its ticket, on which what moved adds up.
#[derive(Clone, Copy, Debug, PartialEq, Eq)]
pub struct ClosedMove {
    ticket: Ticket,
}

impl Model for ClosedMove {
    ghost use Rattle.farm_movement.specs.Balance.{IsBalanced};
    ghost use Rattle.farm_ticket.specs.Tickets.{Ticket};

    ghost Value = { Ticket };

    ghost view = { λ closed. closed.ticket };

    ghost invariant = { λ closed. IsBalanced closed.ticket };

    ghost inverse = { λ ticket. record { ticket = ticket } };
}

impl ClosedMove {
    /// The ticket.
    #[inline(always)]
    pub fn ticket(&self) -> Ticket
        ensures ticket { result ≡ self.now }
        ensures balanced { IsBalanced result }
    {
        self.ticket
    }

    /// The tanks of its sides.
    pub fn tanks(&self) -> (u16, Option<u16>)
        ensures first { result.0 ≡ self.now.first.tank }
        ensures second { result.1 ≡ tank_of_side self.now.second }
    {
        let second = self.ticket.second.as_ref().map(|side| side.tank);
        (self.ticket.first.tank, second)
    }
}

impl OpenMove {
    /// The movement closed at a place on these figures, with a ticket of this number; or the movement as it was, where a side
    /// would have gone the wrong way.
    #[tactic(auto, unfolding(crate::specs::Closing::ticket_of))]
    #[inline(always)]
    pub fn close(
        self,
        place: u32,
        number: u32,
        first: Quantities,
        second: Option<Quantities>,
    ) -> Result<ClosedMove, OpenMove>
        requires sides { IsSome second ↔ IsSome self.second }
        ensures ticket { IfOk result (λ closed. closed ≡ ticket_of self place number first second) }
        ensures second_tank { IfOk result (λ closed. tank_of_side closed.second ≡ tank_of_leg self.second) }
        ensures wrong_way { IsErr result ↔ (GoesWrong self.first first ⊎ SecondGoesWrong self.second second) }
        ensures unchanged { IfErr result (λ movement. movement ≡ self) }
    {
        match (
            side_of(&self.first, &first),
            second_side(&self.second, &second),
        ) {
            (Ok(first), Ok(second)) => Ok(ClosedMove {
                ticket: Ticket {
                    place,
                    number,
                    movement: self.place,
                    reverses: 0,
                    party: self.party,
                    first,
                    second,
                },
            }),
            _ => Err(self),
        }
    }
}

// The side that a leg becomes on these figures.
#[tactic(auto, unfolding(crate::specs::Closing::side_of, farm_ticket::specs::Amounts::moved))]
#[inline(always)]
fn side_of(leg: &Leg, closing: &Quantities) -> Result<Side, WrongWay>
    ensures side { IfOk result (λ side. side ≡ side_of leg.now closing.now) }
    ensures right { IfOk result IsRight }
    ensures wrong_way { IsErr result ↔ GoesWrong leg.now closing.now }
{
    let moved = moved(&leg.opening, closing, leg.way)?;
    Ok(Side {
        tank: leg.tank,
        way: leg.way,
        opening: leg.opening,
        closing: *closing,
        moved,
    })
}

// The second side, where there is a second leg.
#[tactic(auto, unfolding(crate::specs::Closing::side_of))]
#[inline(always)]
fn second_side(leg: &Option<Leg>, closing: &Option<Quantities>) -> Result<Option<Side>, WrongWay>
    requires sides { IsSome closing.now ↔ IsSome leg.now }
    ensures side { IfOk result (λ side. side ≡ second_side leg.now closing.now) }
    ensures right { IfOk result (λ side. IfSome side IsRight) }
    ensures tank { IfOk result (λ side. tank_of_side side ≡ tank_of_leg leg.now) }
    ensures wrong_way { IsErr result ↔ SecondGoesWrong leg.now closing.now }
{
    match (leg, closing) {
        (Some(leg), Some(closing)) => Ok(Some(side_of(leg, closing)?)),
        _ => Ok(None),
    }
}
