//! The units: the range of each, and the text of a number of it.

use farm_fixed::{
    HundredThousandth, HundredthDegree, Kilogram, Litre, Millimetre, NoMemory, Quantity, ReadFault,
    TenthKilogramPerCubicMetre, TenthMillimetre, ThousandthPercent, Unit,
};
use std::alloc::Global;
use std::test::Fail;
use test_checks::Checks;

/// The number of units that a text is read as.
pub(crate) fn read_units<U: Unit>(text: &str) -> Result<i64, ReadFault> {
    Quantity::<U>::read(text.as_bytes()).map(|quantity| quantity.get())
}

// Appends the text of a number of units, unless it is out of range.
fn write_units<U: Unit>(text: &mut Vec<u8>, units: i64) -> Result<(), NoMemory> {
    match Quantity::<U>::new(units) {
        Ok(quantity) => quantity.write(text),
        Err(_) => Ok(()),
    }
}

/// The text of a number of units; no bytes where it is out of range.
pub(crate) fn text_of<U: Unit>(alloc: Global, units: i64) -> Result<Vec<u8>, NoMemory> {
    let mut text = Vec::new(alloc);
    if let Err(fault) = write_units::<U>(&mut text, units) {
        drop(text);
        return Err(fault);
    }
    Ok(text)
}

// A unit, as a row names it.
#[derive(Clone, Copy)]
enum Of {
    Millimetre,
    TenthMillimetre,
    HundredthDegree,
    TenthKilogramPerCubicMetre,
    HundredThousandth,
    ThousandthPercent,
    Litre,
    Kilogram,
}

// The number of units that a text of this unit is read as.
fn read_of(of: Of, text: &str) -> Result<i64, ReadFault> {
    match of {
        Of::Millimetre => read_units::<Millimetre>(text),
        Of::TenthMillimetre => read_units::<TenthMillimetre>(text),
        Of::HundredthDegree => read_units::<HundredthDegree>(text),
        Of::TenthKilogramPerCubicMetre => read_units::<TenthKilogramPerCubicMetre>(text),
        Of::HundredThousandth => read_units::<HundredThousandth>(text),
        Of::ThousandthPercent => read_units::<ThousandthPercent>(text),
        Of::Litre => read_units::<Litre>(text),
        Of::Kilogram => read_units::<Kilogram>(text),
    }
}

// The text of a number of this unit; no bytes where it is out of range.
fn text_in(of: Of, alloc: Global, units: i64) -> Result<Vec<u8>, NoMemory> {
    match of {
        Of::Millimetre => text_of::<Millimetre>(alloc, units),
        Of::TenthMillimetre => text_of::<TenthMillimetre>(alloc, units),
        Of::HundredthDegree => text_of::<HundredthDegree>(alloc, units),
        Of::TenthKilogramPerCubicMetre => text_of::<TenthKilogramPerCubicMetre>(alloc, units),
        Of::HundredThousandth => text_of::<HundredThousandth>(alloc, units),
        Of::ThousandthPercent => text_of::<ThousandthPercent>(alloc, units),
        Of::Litre => text_of::<Litre>(alloc, units),
        Of::Kilogram => text_of::<Kilogram>(alloc, units),
    }
}

const BEYOND: Result<i64, ReadFault> = Err(ReadFault::OutOfRange);

const LEAST: i64 = -100_000_000_000_000_000;

const MOST: i64 = 100_000_000_000_000_000;

// Both ends of each range, and one unit beyond each.
const ENDS: &[(&str, Of, &str, Result<i64, ReadFault>)] = &[
    ("a height below", Of::Millimetre, "-1", BEYOND),
    ("the least height", Of::Millimetre, "0", Ok(0)),
    ("the greatest height", Of::Millimetre, "50000", Ok(50_000)),
    ("a height above", Of::Millimetre, "50001", BEYOND),
    ("a girth below", Of::TenthMillimetre, "-0.1", BEYOND),
    ("the least girth", Of::TenthMillimetre, "0.0", Ok(0)),
    (
        "the greatest girth",
        Of::TenthMillimetre,
        "500000.0",
        Ok(5_000_000),
    ),
    ("a girth above", Of::TenthMillimetre, "500000.1", BEYOND),
    (
        "a temperature below",
        Of::HundredthDegree,
        "-100.01",
        BEYOND,
    ),
    (
        "the least temperature",
        Of::HundredthDegree,
        "-100.00",
        Ok(-10_000),
    ),
    (
        "the greatest temperature",
        Of::HundredthDegree,
        "300.00",
        Ok(30_000),
    ),
    ("a temperature above", Of::HundredthDegree, "300.01", BEYOND),
    (
        "a density below",
        Of::TenthKilogramPerCubicMetre,
        "399.9",
        BEYOND,
    ),
    (
        "the least density",
        Of::TenthKilogramPerCubicMetre,
        "400.0",
        Ok(4_000),
    ),
    (
        "the greatest density",
        Of::TenthKilogramPerCubicMetre,
        "1200.0",
        Ok(12_000),
    ),
    (
        "a density above",
        Of::TenthKilogramPerCubicMetre,
        "1200.1",
        BEYOND,
    ),
    ("a factor below", Of::HundredThousandth, "0.49999", BEYOND),
    (
        "the least factor",
        Of::HundredThousandth,
        "0.50000",
        Ok(50_000),
    ),
    (
        "the greatest factor",
        Of::HundredThousandth,
        "1.50000",
        Ok(150_000),
    ),
    ("a factor above", Of::HundredThousandth, "1.50001", BEYOND),
    ("a share below", Of::ThousandthPercent, "-0.001", BEYOND),
    ("the least share", Of::ThousandthPercent, "0.000", Ok(0)),
    (
        "the greatest share",
        Of::ThousandthPercent,
        "100.000",
        Ok(100_000),
    ),
    ("a share above", Of::ThousandthPercent, "100.001", BEYOND),
    ("a volume below", Of::Litre, "-100000000000000001", BEYOND),
    (
        "the least volume",
        Of::Litre,
        "-100000000000000000",
        Ok(LEAST),
    ),
    (
        "the greatest volume",
        Of::Litre,
        "100000000000000000",
        Ok(MOST),
    ),
    ("a volume above", Of::Litre, "100000000000000001", BEYOND),
    ("a mass below", Of::Kilogram, "-100000000000000001", BEYOND),
    (
        "the least mass",
        Of::Kilogram,
        "-100000000000000000",
        Ok(LEAST),
    ),
    (
        "the greatest mass",
        Of::Kilogram,
        "100000000000000000",
        Ok(MOST),
    ),
    ("a mass above", Of::Kilogram, "100000000000000001", BEYOND),
];

#[test]
fn each_range_has_its_ends(rt: HostRuntime) -> Result<(), Fail> {
    let mut checks = Checks::new(&rt);
    for (name, of, text, want) in ENDS {
        checks.same_at(name, read_of(*of, text), *want);
    }
    Ok(checks.end()?)
}

const TEXTS: &[(Of, i64, &str)] = &[
    (Of::Litre, -100_857, "-100857"),
    (Of::Millimetre, 12_345, "12345"),
    (Of::TenthMillimetre, 355_000, "35500.0"),
    (Of::Kilogram, 84_310, "84310"),
    (Of::HundredthDegree, 2_340, "23.40"),
    (Of::TenthKilogramPerCubicMetre, 8_500, "850.0"),
    (Of::HundredThousandth, 99_150, "0.99150"),
    (Of::ThousandthPercent, 100_000, "100.000"),
];

// A number of units writes this text.
fn check_written<R: Print>(
    checks: &mut Checks<'_, R>,
    alloc: Global,
    (of, units, text): (Of, i64, &str),
) {
    let written = text_in(of, alloc, units);
    checks.same_at(text, written.as_deref(), Ok(text.as_bytes()));
    drop(written);
}

// A number of units is read from this text.
fn check_read<R: Print>(checks: &mut Checks<'_, R>, (of, units, text): (Of, i64, &str)) {
    checks.same_at(text, read_of(of, text), Ok(units));
}

#[test]
fn each_unit_reads_what_it_writes(rt: HostRuntime) -> Result<(), Fail> {
    let mut checks = Checks::new(&rt);
    for row in TEXTS {
        check_written(&mut checks, rt.alloc(), *row);
        check_read(&mut checks, *row);
    }
    Ok(checks.end()?)
}
