//! What moved on a side of a movement.

ghost use Rattle.std.specs.Prelude.{◌≡◌, ◌↔◌, IfOk, IsErr};
ghost use Rattle.farm_ticket.specs.Amounts.{change, differences, moved, IsMoved, IsWrongWay};

use crate::{Moved, Way};
use farm_fixed::{Quantities, Quantity, Unit};
use thiserror::Error;

/// The net standard volume that moved is below zero.
#[derive(Clone, Copy, Debug, PartialEq, Eq, Error)]
#[error("the net standard volume went the wrong way")]
pub struct WrongWay;

/// What moved on a side: closing less opening on an inward side, opening less closing on an outward one.
///
/// Only the net standard volume decides that a side went the wrong way: the others may have either sign. Takes no memory.
#[tactic(auto, unfolding(crate::specs::Amounts::differences, crate::specs::Amounts::moved))]
#[inline(always)]
pub fn moved(opening: &Quantities, closing: &Quantities, way: Way) -> Result<Moved, WrongWay>
    ensures moved { IfOk result (IsMoved way opening.now closing.now) }
    ensures wrong_way { IsErr result ↔ IsWrongWay way opening.now closing.now }
    ensures value { result ≡ moved way opening.now closing.now }
{
    let moved = differences(opening, closing, way);
    if moved.nsv < 0 {
        return Err(WrongWay);
    }
    Ok(moved)
}

// The differences of the figures, in the way of the side.
#[tactic(auto, unfolding(crate::specs::Amounts::differences))]
#[inline(always)]
fn differences(opening: &Quantities, closing: &Quantities, way: Way) -> Moved
    ensures value { result ≡ differences way opening.now closing.now }
    ensures moved { IsMoved way opening.now closing.now result }
{
    Moved {
        gsv: change(opening.gsv, closing.gsv, way),
        nsv: change(opening.nsv, closing.nsv, way),
        swv: change(opening.swv, closing.swv, way),
        mass: change(opening.mass, closing.mass, way),
    }
}

// The change of a figure, in the way of the side.
fn change<U: Unit>(opening: Quantity<U>, closing: Quantity<U>, way: Way) -> i64
    ensures { result ≡ change way opening closing }
{
    match way {
        Way::Inward => closing.get() - opening.get(),
        Way::Outward => opening.get() - closing.get(),
    }
}
