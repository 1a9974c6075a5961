//! Numbers of units that are no quantities.

use farm_fixed::{Centi, Deci, Dens, Fac5, Kg, Litres, Mm, OutOfRange, Permil5, ReadFault};
use std::test::Fail;
use test_checks::Checks;

// A number of units, or a text, of what is to be a quantity.
#[derive(Clone, Copy)]
enum Outside {
    Centi(i64),
    Mm(i64),
    Deci(i64),
    DeciText(&'static [u8]),
    Dens(i64),
    Fac5(i64),
    Permil5(i64),
    Litres(i64),
    Kg(i64),
}

// What is to be a quantity is refused, since it is out of range.
fn check_refused<R: Print>(checks: &mut Checks<'_, R>, (name, outside): (&str, Outside)) {
    match outside {
        Outside::Centi(units) => checks.same_at(name, Centi::new(units), Err(OutOfRange)),
        Outside::Mm(units) => checks.same_at(name, Mm::new(units), Err(OutOfRange)),
        Outside::Deci(units) => checks.same_at(name, Deci::new(units), Err(OutOfRange)),
        Outside::DeciText(text) => {
            checks.same_at(name, Deci::read(text), Err(ReadFault::OutOfRange));
        }
        Outside::Dens(units) => checks.same_at(name, Dens::new(units), Err(OutOfRange)),
        Outside::Fac5(units) => checks.same_at(name, Fac5::new(units), Err(OutOfRange)),
        Outside::Permil5(units) => checks.same_at(name, Permil5::new(units), Err(OutOfRange)),
        Outside::Litres(units) => checks.same_at(name, Litres::new(units), Err(OutOfRange)),
        Outside::Kg(units) => checks.same_at(name, Kg::new(units), Err(OutOfRange)),
    }
}

const REFUSED: &[(&str, Outside)] = &[
    ("a temperature", Outside::Centi(30_001)),
    ("a height", Outside::Mm(50_001)),
    ("a girth", Outside::Deci(5_000_001)),
    ("the text of a girth", Outside::DeciText(b"-0.1")),
    ("a density", Outside::Dens(3_999)),
    ("a factor", Outside::Fac5(150_001)),
    ("a share", Outside::Permil5(-1)),
    ("a volume", Outside::Litres(100_000_000_000_000_001)),
    ("a mass", Outside::Kg(-100_000_000_000_000_001)),
];

#[test]
fn a_quantity_outside_its_range_is_refused(rt: HostRuntime) -> Result<(), Fail> {
    let mut checks = Checks::new(&rt);
    for row in REFUSED {
        check_refused(&mut checks, *row);
    }
    Ok(checks.end()?)
}
