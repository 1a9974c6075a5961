//! The books of the day, by a stock of its openings to which its postings are posted.

ghost use Rattle.std.specs.Prelude.{◌≡◌};

use farm_fixed::Amount;
use farm_stock::{Kind, Posting, Stock};
use std::test::Fail;
use test_checks::Checks;

// An amount of these litres and kg.
fn amount(litres: i64, kg: i64) -> Amount
    ensures { result ≡ record { litres = litres; kg = kg } }
{
    Amount { litres, kg }
}

// A posting at a tank.
fn posting(tank: u16, kind: Kind, party: u16, amount: Amount) -> Posting
    ensures { result ≡ record { tank = tank; kind = kind; party = party; amount = amount } }
{
    Posting {
        tank,
        kind,
        party,
        amount,
    }
}

const NOTHING: Amount = Amount { litres: 0, kg: 0 };

// The books of the day's end.
const BOOKS: &[(u16, Option<Amount>)] = &[
    (
        101,
        Some(Amount {
            litres: 8_427_621,
            kg: 7_163_478,
        }),
    ),
    (
        102,
        Some(Amount {
            litres: 4_000_000,
            kg: 3_400_000,
        }),
    ),
    (103, Some(NOTHING)),
    (104, Some(NOTHING)),
    (105, Some(NOTHING)),
    (106, Some(NOTHING)),
    (107, None),
];

// What the tanks hold together.
const TOTAL: Amount = Amount {
    litres: 12_427_621,
    kg: 10_563_478,
};

// Each tank has its book.
fn check_books<R: Print>(checks: &mut Checks<'_, R>, stock: &Stock) {
    for (tank, book) in BOOKS {
        checks.same_at(tank, stock.book(*tank), *book);
    }
}

#[test]
fn the_postings_of_the_day_make_its_books(rt: HostRuntime) -> Result<(), Fail> {
    let mut checks = Checks::new(&rt);
    let openings = [
        (101, amount(8_000_000, 6_800_000)),
        (102, amount(5_000_000, 4_250_000)),
        (103, amount(0, 0)),
        (104, amount(0, 0)),
        (105, amount(0, 0)),
        (106, amount(0, 0)),
    ];
    let mut stock = Stock::new(rt.alloc(), &openings)?;
    stock.post(&posting(101, Kind::Receipt, 7, amount(925_463, 786_644)));
    stock.post(&posting(101, Kind::TransferOut, 0, amount(-495_859, -421_481)));
    stock.post(&posting(102, Kind::TransferIn, 0, amount(495_859, 421_481)));
    stock.post(&posting(102, Kind::Gain, 0, amount(-859, -731)));
    stock.post(&posting(102, Kind::Delivery, 8, amount(-1_495_000, -1_270_750)));
    stock.post(&posting(101, Kind::Gain, 0, amount(-1_983, -1_685)));
    check_books(&mut checks, &stock);
    checks.same_at("the total", stock.total(), TOTAL);
    drop(stock);
    Ok(checks.end()?)
}
