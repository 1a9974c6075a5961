//! The texts of quantities and of whole numbers.

use crate::quantities::{read_units, text_of};
use farm_fixed::{HundredthDegree, Litre, Millimetre, ReadFault, whole_number};
use std::test::Fail;
use test_checks::Checks;

#[test]
fn a_number_of_litres_has_no_decimals(rt: HostRuntime) -> Result<(), Fail> {
    let mut checks = Checks::new(&rt);
    let cases = [
        ("", Err(ReadFault::Empty)),
        ("12x", Err(ReadFault::BadByte(2))),
        ("-", Err(ReadFault::BadByte(1))),
        ("12.", Err(ReadFault::BadByte(3))),
        ("+5", Err(ReadFault::BadByte(0))),
        ("1.0", Err(ReadFault::TooFine)),
        ("007", Ok(7)),
        ("-0", Ok(0)),
        ("100000000000000000", Ok(100_000_000_000_000_000)),
        ("100000000000000001", Err(ReadFault::OutOfRange)),
        ("00000000000000000000000000000000000000005", Ok(5)),
        (
            "99999999999999999999999999999999999999999",
            Err(ReadFault::OutOfRange),
        ),
    ];
    for (text, want) in cases {
        checks.same_at(text, read_units::<Litre>(text), want);
    }
    Ok(checks.end()?)
}

#[test]
fn number_texts(rt: HostRuntime) -> Result<(), Fail> {
    let mut checks = Checks::new(&rt);
    let cases = [
        ("", Err(ReadFault::Empty)),
        ("12x", Err(ReadFault::BadByte(2))),
        ("-", Err(ReadFault::BadByte(1))),
        ("1.5", Err(ReadFault::TooFine)),
        ("50001", Err(ReadFault::OutOfRange)),
        ("-1", Err(ReadFault::OutOfRange)),
        ("007", Ok(7)),
    ];
    for (text, want) in cases {
        checks.same_at(text, read_units::<Millimetre>(text), want);
    }
    Ok(checks.end()?)
}

#[test]
fn a_whole_number_has_up_to_18_digits(rt: HostRuntime) -> Result<(), Fail> {
    let mut checks = Checks::new(&rt);
    let cases = [
        ("0", Some(0)),
        ("-0", Some(0)),
        ("010", Some(10)),
        ("-999999999999999999", Some(-999_999_999_999_999_999)),
        ("999999999999999999", Some(999_999_999_999_999_999)),
        ("1000000000000000000", None),
        ("", None),
        ("-", None),
        ("--1", None),
        ("+1", None),
        ("1.0", None),
        (" 1", None),
    ];
    for (text, want) in cases {
        checks.same_at(text, whole_number(text.as_bytes()), want);
    }
    Ok(checks.end()?)
}

#[test]
fn a_temperature_has_at_most_two_decimals(rt: HostRuntime) -> Result<(), Fail> {
    let mut checks = Checks::new(&rt);
    let cases = [
        ("-1.5", Ok(-150)),
        ("20", Ok(2_000)),
        ("300.00", Ok(30_000)),
        ("300.01", Err(ReadFault::OutOfRange)),
        ("-100.01", Err(ReadFault::OutOfRange)),
        ("1.234", Err(ReadFault::TooFine)),
        ("1.2.3", Err(ReadFault::BadByte(3))),
    ];
    for (text, want) in cases {
        checks.same_at(text, read_units::<HundredthDegree>(text), want);
    }
    Ok(checks.end()?)
}

#[test]
fn a_temperature_below_zero_keeps_its_minus(rt: HostRuntime) -> Result<(), Fail> {
    let mut checks = Checks::new(&rt);
    for (units, want) in [
        (-5, "-0.05"),
        (0, "0.00"),
        (-10_000, "-100.00"),
        (2_000, "20.00"),
    ] {
        let text = text_of::<HundredthDegree>(rt.alloc(), units)?;
        checks.same_at(units, text.as_slice(), want.as_bytes());
    }
    Ok(checks.end()?)
}
