//! The lines of tickets, what moved on a side, and a reversal.

ghost use Rattle.std.specs.Prelude.{◌≡◌, IfOk, ◌+ℤ◌};

use farm_fixed::{Fac5, Kg, Litres, Quantities};
use farm_ticket::{Moved, Side, Ticket, Way, WrongWay, moved};
use std::alloc::Global;
use std::test::Fail;
use test_checks::{Checks, shared};

// The side of a receipt into a tank between these figures, unless it went the wrong way.
fn received(tank: u16, opening: Quantities, closing: Quantities) -> Result<Side, WrongWay>
    ensures { IfOk result (λ side. opening.nsv +ℤ side.moved.nsv ≡ closing.nsv) }
{
    Ok(Side {
        tank,
        way: Way::Inward,
        opening,
        closing,
        moved: moved(&opening, &closing, Way::Inward)?,
    })
}

// Appends the lines of tickets.
fn write_lines(out: &mut Vec<u8>, tickets: &[Ticket]) -> Result<(), Fail> {
    for ticket in tickets {
        ticket.write(out)?;
    }
    Ok(())
}

// The lines of tickets.
fn lines_of(alloc: Global, tickets: &[Ticket]) -> Result<Vec<u8>, Fail> {
    let mut out = Vec::new(alloc);
    if let Err(fail) = write_lines(&mut out, tickets) {
        drop(out);
        return Err(fail);
    }
    Ok(out)
}

/// The figures of a tank with no free water, roof or sediment and water: TOV, CTSH, VCF, GOV, NSV, mass.
pub(crate) fn figures(of: [i64; 6]) -> Result<Quantities, Fail> {
    let [tov, ctsh, vcf, gov, nsv, mass] = of;
    let none = Litres::new(0)?;
    Ok(Quantities {
        tov: Litres::new(tov)?,
        fw: none,
        ctsh: Fac5::new(ctsh)?,
        vcf: Fac5::new(vcf)?,
        fra: none,
        gov: Litres::new(gov)?,
        gsv: Litres::new(nsv)?,
        nsv: Litres::new(nsv)?,
        swv: none,
        mass: Kg::new(mass)?,
    })
}

const EIGHT_MILLION: [i64; 6] = [8_000_000, 100_000, 100_000, 8_000_000, 8_000_000, 6_800_000];

const NINE_MILLION: [i64; 6] = [9_000_000, 100_022, 99_150, 9_001_980, 8_925_463, 7_586_644];

// A side of a tank that goes a way, by these amounts of net standard volume and mass. Its figures, which a line doesn't have, are
// those of another side.
fn side_like(side: &Side, tank: u16, way: Way, nsv: i64, mass: i64) -> Side {
    Side {
        tank,
        way,
        opening: side.opening,
        closing: side.closing,
        moved: Moved {
            gsv: nsv,
            nsv,
            swv: 0,
            mass,
        },
    }
}

// A ticket of movement 2.
fn ticket(
    (place, number, party, reverses): (u32, u32, u16, u32),
    first: Side,
    second: Option<Side>,
) -> Ticket {
    Ticket {
        place,
        number,
        movement: 2,
        reverses,
        party,
        first,
        second,
    }
}

// A receipt on a side, a transfer, a delivery, and its reversal.
fn tickets_on(side: Side) -> [Ticket; 4] {
    let sent = side_like(&side, 101, Way::Outward, 495_859, 421_481);
    let arrived = side_like(&side, 102, Way::Inward, 495_000, 420_750);
    let sold = side_like(&side, 102, Way::Outward, 1_495_000, 1_270_750);
    let back = side_like(&side, 102, Way::Outward, -1_495_000, -1_270_750);
    [
        shared(ticket((5, 1, 7, 0), side, None)),
        ticket((11, 2, 7, 0), sent, Some(arrived)),
        ticket((14, 3, 8, 0), sold, None),
        ticket((15, 4, 8, 14), back, None),
    ]
}

const LINES: &str = "ticket 1 place 5 receipt tank 101 party 7 nsv 925463 kg 786644
ticket 2 place 11 transfer tank 101 to 102 nsv 495859 kg 421481 received 495000 kg 420750
ticket 3 place 14 delivery tank 102 party 8 nsv 1495000 kg 1270750
ticket 4 place 15 delivery tank 102 party 8 nsv -1495000 kg -1270750 reverses 14
";

#[test]
fn a_ticket_has_one_line(rt: HostRuntime) -> Result<(), Fail> {
    let mut checks = Checks::new(&rt);
    let side = shared(received(101, figures(EIGHT_MILLION)?, figures(NINE_MILLION)?)?);
    let written = lines_of(rt.alloc(), &tickets_on(side))?;
    checks.same(written.as_slice(), LINES.as_bytes());
    drop(written);
    Ok(checks.end()?)
}

// The net standard volume and the mass at closing, a way, and what moved of each.
type Closing = (&'static str, i64, i64, Way, Result<(i64, i64), WrongWay>);

const CLOSINGS: [Closing; 7] = [
    ("nothing in", 8_000_000, 6_800_000, Way::Inward, Ok((0, 0))),
    (
        "no volume in",
        8_000_000,
        6_799_999,
        Way::Inward,
        Ok((0, -1)),
    ),
    (
        "less by a receipt",
        7_999_999,
        6_800_001,
        Way::Inward,
        Err(WrongWay),
    ),
    ("a litre in", 8_000_001, 6_799_999, Way::Inward, Ok((1, -1))),
    (
        "no volume out",
        8_000_000,
        6_800_001,
        Way::Outward,
        Ok((0, -1)),
    ),
    (
        "more by a shipment",
        8_000_001,
        6_799_999,
        Way::Outward,
        Err(WrongWay),
    ),
    (
        "a litre out",
        7_999_999,
        6_799_000,
        Way::Outward,
        Ok((1, 1_000)),
    ),
];

#[test]
fn the_net_volume_alone_decides_the_way(rt: HostRuntime) -> Result<(), Fail> {
    let mut checks = Checks::new(&rt);
    let opening = figures(EIGHT_MILLION)?;
    for (name, nsv, mass, way, want) in CLOSINGS {
        let closing = figures([8_000_000, 100_000, 100_000, 8_000_000, nsv, mass])?;
        let moved = shared(moved(&opening, &closing, shared(way)));
        checks.same_at(name, moved.map(|moved| (moved.nsv, moved.mass)), want);
    }
    Ok(checks.end()?)
}

// What a reversal moves.
const BACK: Moved = Moved {
    gsv: -925_463,
    nsv: -925_463,
    swv: 0,
    mass: -786_644,
};

// Its place, its number, its movement, the ticket that it reverses, and its party.
const NUMBERS: (u32, u32, u32, u32, u16) = (6, 2, 2, 5, 7);

// A reversal has these amounts and numbers.
fn check_reversal<R: Print>(checks: &mut Checks<'_, R>, reversal: &Ticket) {
    checks.same_at("what moved", reversal.first.moved, BACK);
    let numbers = (
        reversal.place,
        reversal.number,
        reversal.movement,
        reversal.reverses,
        reversal.party,
    );
    checks.same_at("its numbers", numbers, NUMBERS);
}

#[test]
fn a_reversal_moves_the_opposite_amounts(rt: HostRuntime) -> Result<(), Fail> {
    let mut checks = Checks::new(&rt);
    let (opening, closing) = (figures(EIGHT_MILLION)?, figures(NINE_MILLION)?);
    let moved = moved(&opening, &closing, Way::Inward)?;
    let receipt = Ticket {
        place: 5,
        number: 1,
        movement: 2,
        reverses: 0,
        party: 7,
        first: Side {
            tank: 101,
            way: Way::Inward,
            opening,
            closing,
            moved,
        },
        second: None,
    };
    let reversal = receipt.reversal(6, 2);
    check_reversal(&mut checks, &reversal);
    Ok(checks.end()?)
}
