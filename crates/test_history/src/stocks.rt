//! The books of tanks as postings add to them.

ghost use Rattle.std.specs.Prelude.{◌≡◌, IsSome, Some};
ghost use Rattle.farm_fixed.specs.declared.records.Amount.{Amount};
ghost use Rattle.farm_stock.specs.Books.{book_of, plus};
ghost use Rattle.farm_stock.specs.Postings.{added};
ghost use Rattle.farm_stock.specs.Sums.{AreWithinSums};

use farm_fixed::Amount;
use farm_stock::{Kind, Posting, Stock};
use std::test::Fail;
use test_checks::{Checks, shared};

// Posts what a tank received, and answers what it holds afterwards.
fn received(stock: &mut Stock, tank: u16, party: u16, amount: Amount) -> Option<Amount>
    requires tank { IsSome (book_of tank stock.old) }
    requires sums { AreWithinSums (added tank amount stock.old) }
    ensures { (before : Amount) → book_of tank stock.old ≡ Some before → result ≡ Some (plus before amount) }
{
    stock.post(&Posting {
        tank,
        kind: Kind::Receipt,
        party,
        amount,
    });
    stock.book(tank)
}

// An amount of these litres and kg.
fn amount(litres: i64, kg: i64) -> Amount
    ensures { result ≡ record { litres = litres; kg = kg } }
{
    Amount { litres, kg }
}

// A posting at a tank.
fn posting(tank: u16, kind: Kind, party: u16, amount: Amount) -> Posting
    ensures { result ≡ record { tank = tank; kind = kind; party = party; amount = amount } }
{
    Posting {
        tank,
        kind,
        party,
        amount,
    }
}

// Tanks and the litres and kg that each then holds by its book, `None` where the stock has no such tank.
const HELD: [(u16, Option<(i64, i64)>); 3] = [
    (101, Some((8_429_604, 7_165_163))),
    (102, Some((4_000_000, 3_400_000))),
    (103, None),
];

// The books of the tanks, and their sum.
fn check_held<R: Print>(checks: &mut Checks<'_, R>, stock: &Stock) {
    for (tank, want) in HELD {
        let held = stock.book(tank).map(|held| (held.litres, held.kg));
        checks.same_at(tank, held, want);
    }
    checks.same_at("the sum", stock.total(), amount(12_429_604, 10_565_163));
}

#[test]
fn a_book_is_its_opening_and_its_postings(rt: HostRuntime) -> Result<(), Fail> {
    let mut checks = Checks::new(&rt);
    let openings = [
        (101, amount(8_000_000, 6_800_000)),
        (102, amount(5_000_000, 4_250_000)),
    ];
    let mut stock = Stock::new(rt.alloc(), &openings)?;
    stock.post(&posting(101, Kind::Receipt, 7, amount(925_463, 786_644)));
    stock.post(&posting(101, Kind::TransferOut, 0, amount(-495_859, -421_481)));
    stock.post(&posting(102, Kind::TransferIn, 0, amount(495_859, 421_481)));
    stock.post(&posting(102, Kind::Gain, 0, amount(-859, -731)));
    stock.post(&posting(102, Kind::Delivery, 8, amount(-1_495_000, -1_270_750)));
    check_held(&mut checks, &stock);
    drop(stock);
    Ok(checks.end()?)
}

#[test]
fn a_receipt_is_held_afterwards(rt: HostRuntime) -> Result<(), Fail> {
    let mut checks = Checks::new(&rt);
    let mut stock = Stock::new(rt.alloc(), &[(101, amount(-40, -34))])?;
    checks.same(
        received(&mut stock, 101, 7, amount(1_000, 850)),
        Some(amount(960, 816)),
    );
    drop(stock);
    Ok(checks.end()?)
}

#[test]
fn each_type_may_go_to_another_thread(rt: HostRuntime) -> Result<(), Fail> {
    let mut checks = Checks::new(&rt);
    let stock = shared(Stock::new(rt.alloc(), &[])?);
    checks.same(stock.total(), amount(0, 0));
    let gain = shared(posting(102, shared(Kind::Gain), 0, amount(-859, -731)));
    checks.same(gain, posting(102, Kind::Gain, 0, amount(-859, -731)));
    drop(stock);
    Ok(checks.end()?)
}
