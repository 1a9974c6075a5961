//! Quantities, the records of them, and their faults go to other threads.

use farm_fixed::{
    Amount, Centi, ChainRule, Deci, Dens, Fac5, Kg, Litres, Mm, OutOfRange, Permil5, Quantities,
    ReadFault, Reading, Sample, Shell,
};
use std::fmt::Debug;
use std::test::Fail;
use test_checks::{Checks, shared};

// An insulated shell with its reference at 15.00 C.
fn shell() -> Result<Shell, ReadFault> {
    Ok(Shell {
        insulated: true,
        coefficient: 112,
        reference: shared(Centi::read(b"15.00")?),
    })
}

// A reading of 12,345 mm, all of it water.
fn reading() -> Result<Reading, ReadFault> {
    let level = shared(Mm::read(b"12345")?);
    let temperature = shared(Centi::read(b"15.00")?);
    Ok(Reading {
        level,
        water: level,
        liquid: temperature,
        ambient: temperature,
    })
}

// A sample with 0.250 percent of sediment and water.
fn sample() -> Result<Sample, ReadFault> {
    Ok(Sample {
        density: shared(Dens::read(b"850.0")?),
        sw: shared(Permil5::read(b"0.250")?),
    })
}

// Figures with this volume, factor and mass.
fn quantities_of(volume: Litres, factor: Fac5, mass: Kg) -> Quantities {
    Quantities {
        tov: volume,
        fw: volume,
        ctsh: factor,
        vcf: factor,
        fra: volume,
        gov: volume,
        gsv: volume,
        nsv: volume,
        swv: volume,
        mass,
    }
}

// Figures with a mass of 71,663 kg.
fn quantities() -> Result<Quantities, ReadFault> {
    let factor = shared(Fac5::read(b"0.99150")?);
    let volume = shared(Litres::read(b"84310")?);
    let mass = shared(Kg::read(b"71663")?);
    Ok(quantities_of(volume, factor, mass))
}

// An amount with a mass of 71,663 kg.
const AMOUNT: Amount = Amount {
    litres: -1,
    kg: 71_663,
};

// A value that goes to another thread.
#[derive(Clone, Copy)]
enum Gone {
    Reading,
    Girth,
    Shell,
    Sample,
    Quantities,
    Amount,
}

// A number of units of the value that went.
fn units_of(gone: Gone) -> Result<i64, ReadFault> {
    Ok(match gone {
        Gone::Reading => shared(reading()?).level.get(),
        Gone::Girth => shared(Deci::read(b"35500.0")?).get(),
        Gone::Shell => shared(shell()?).reference.get(),
        Gone::Sample => shared(sample()?).sw.get(),
        Gone::Quantities => shared(quantities()?).mass.get(),
        Gone::Amount => shared(AMOUNT).kg,
    })
}

const UNITS: &[(&str, Gone, i64)] = &[
    ("the level of a reading", Gone::Reading, 12_345),
    ("a girth", Gone::Girth, 355_000),
    ("the reference of a shell", Gone::Shell, 1_500),
    ("the share of a sample", Gone::Sample, 250),
    ("the mass of figures", Gone::Quantities, 71_663),
    ("the mass of an amount", Gone::Amount, 71_663),
];

// A fault goes to another thread and stays what it is.
fn check_fault<T: Send + Sync + Copy + PartialEq + Debug + Drop, R: Print>(
    checks: &mut Checks<'_, R>,
    name: &str,
    fault: T,
) {
    checks.same_at(name, shared(fault), fault);
}

#[test]
fn quantities_and_records_go_to_other_threads(rt: HostRuntime) -> Result<(), Fail> {
    let mut checks = Checks::new(&rt);
    for (name, gone, want) in UNITS {
        checks.same_at(name, units_of(*gone), Ok(*want));
    }
    check_fault(&mut checks, "a refusal", ChainRule::NoEntry);
    check_fault(&mut checks, "a fault of a text", ReadFault::Empty);
    check_fault(&mut checks, "a number out of range", OutOfRange);
    Ok(checks.end()?)
}
