//! Movements that are closed with a ticket or stay open, and one that is cancelled.

ghost use Rattle.std.specs.Prelude.{◌≡◌, IfOk, IsNone, IsSome, None};
ghost use Rattle.farm_movement.specs.Closing.{ticket_of};

use crate::tickets::figures;
use farm_fixed::Quantities;
use farm_movement::{Leg, OpenMove};
use farm_ticket::{Moved, Side, Ticket, Way};
use std::test::Fail;
use test_checks::{Checks, shared};

// The ticket of a receipt or a delivery that is closed, or the movement where it has to stay open.
fn ticket_of(
    movement: OpenMove,
    place: u32,
    number: u32,
    closing: Quantities,
) -> Result<Ticket, OpenMove>
    requires { IsNone movement.second }
    ensures { IfOk result (λ ticket. ticket ≡ ticket_of movement place number closing None) }
{
    let closed = movement.close(place, number, closing, None)?;
    Ok(closed.ticket())
}

// The figures of a tank with no free water, roof or sediment and water, at the factor 1.
fn figures_of(litres: i64, kg: i64) -> Result<Quantities, Fail> {
    figures([litres, 100_000, 100_000, litres, litres, kg])
}

// A leg that was opened on the reading at place 1.
fn leg(tank: u16, way: Way, opening: Quantities) -> Leg {
    Leg {
        tank,
        way,
        reading: 1,
        sample: 2,
        opening,
    }
}

// The first ticket, of the receipt that was opened at place 3 and closed at place 5.
fn received(opening: &Quantities, closing: &Quantities, nsv: i64, mass: i64) -> Ticket {
    Ticket {
        place: 5,
        number: 1,
        movement: 3,
        reverses: 0,
        party: 7,
        first: Side {
            tank: 101,
            way: Way::Inward,
            opening: *opening,
            closing: *closing,
            moved: Moved {
                gsv: nsv,
                nsv,
                swv: 0,
                mass,
            },
        },
        second: None,
    }
}

// The litres and kg of the tank at closing, and what the receipt then moved, `None` where it stays open.
const CLOSINGS: [(i64, i64, Option<(i64, i64)>); 3] = [
    (8_925_463, 7_586_644, Some((925_463, 786_644))),
    (8_000_000, 6_799_999, Some((0, -1))),
    (7_999_999, 6_800_001, None),
];

#[test]
fn a_receipt_is_closed_with_its_ticket_unless_the_tank_has_less(
    rt: HostRuntime,
) -> Result<(), Fail> {
    let mut checks = Checks::new(&rt);
    let opening = figures_of(8_000_000, 6_800_000)?;
    let receipt = OpenMove::new(3, 7, shared(leg(101, Way::Inward, opening)), None);
    for (litres, kg, want) in CLOSINGS {
        let closing = figures_of(litres, kg)?;
        let answer = ticket_of(receipt, 5, 1, closing);
        let want = match want {
            Some((nsv, mass)) => Ok(received(&opening, &closing, nsv, mass)),
            None => Err(receipt),
        };
        checks.same_at(litres, answer, want);
    }
    Ok(checks.end()?)
}

// What the tanks of a transfer hold at closing, first litres and then kg, and its tanks, `None` where it stays open.
type Closing = (
    &'static str,
    (i64, i64),
    (i64, i64),
    Option<(u16, Option<u16>)>,
);

const BOTH: [Closing; 2] = [
    (
        "each tank its way",
        (1_000, 850),
        (2_000, 1_700),
        Some((101, Some(102))),
    ),
    ("less in the second tank", (2_000, 1_700), (999, 849), None),
];

// A transfer from a tank that holds 2,000 litres to one that holds 1,000.
fn transfer() -> Result<OpenMove, Fail>
    ensures { IfOk result (λ movement. IsSome movement.second) }
{
    let first = leg(101, Way::Outward, figures_of(2_000, 1_700)?);
    let second = leg(102, Way::Inward, figures_of(1_000, 850)?);
    Ok(OpenMove::new(4, 7, first, Some(second)))
}

// The tanks of a transfer that is closed, or the movement where it has to stay open.
fn tanks_of(
    movement: OpenMove,
    first: Quantities,
    second: Quantities,
) -> Result<(u16, Option<u16>), OpenMove>
    requires { IsSome movement.second }
{
    let closed = shared(movement.close(11, 2, first, Some(second))?);
    Ok(closed.tanks())
}

#[test]
fn both_sides_of_a_transfer_go_their_way(rt: HostRuntime) -> Result<(), Fail> {
    let mut checks = Checks::new(&rt);
    let transfer = transfer()?;
    for (name, first, second, want) in BOTH {
        let first = figures_of(first.0, first.1)?;
        let second = figures_of(second.0, second.1)?;
        let tanks = tanks_of(transfer, first, second);
        checks.same_at(name, tanks, want.ok_or(transfer));
    }
    let cancelled = shared(transfer.cancel(12)).tanks();
    checks.same_at("cancelled", cancelled, transfer.tanks());
    Ok(checks.end()?)
}
