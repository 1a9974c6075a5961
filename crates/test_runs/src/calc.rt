//! `calc` on observed volumes and from levels.

use crate::running::{answer, check_answer, no_folder};
use std::alloc::{AllocError, Global};
use std::test::Fail;
use test_checks::Checks;

const OBSERVED: &str = "volumes 12345000 45000 bare 25.00 33.00 15.00 112 0 850.0 0.99150 0.250\n";

const FIGURES: &str =
    "TOV 12345000\nFW 45000\nCTSH 1.00025\nVCF 0.99150\nFRA 0\nGOV 12303075\nGSV 12198499\nNSV 12168003\nSWV 30496\nMASS 10342803\n";

const UNDER_ROOF: &str =
    "TOV 12345000\nFW 45000\nCTSH 1.00025\nVCF 0.99150\nFRA -100857\nGOV 12202218\nGSV 12098499\nNSV 12068253\nSWV 30246\nMASS 10258015\n";

const WATER_ALONE: &str =
    "TOV 45000\nFW 45000\nCTSH 1.00025\nVCF 0.99150\nFRA 0\nGOV 0\nGSV 0\nNSV 0\nSWV 0\nMASS 0\n";

const FROM_LEVELS: &str =
    "TOV 1600\nFW 0\nCTSH 1.00000\nVCF 1.00000\nFRA 0\nGOV 1600\nGSV 1600\nNSV 1600\nSWV 0\nMASS 1360\n";

const FORM: &str = "input refused at line 1: form\n";

// `calc` answers an input with this status and this text.
fn check_calc<R: Print>(
    checks: &mut Checks<'_, R>,
    alloc: Global,
    name: &str,
    input: &str,
    (status, text): (u8, &str),
) -> Result<(), Fail> {
    let answer = answer(alloc, &["calc"], input, no_folder(alloc)?)?;
    check_answer(checks, name, answer, status, text);
    Ok(())
}

// The same of an input that is dropped after it.
fn check_made<R: Print>(
    checks: &mut Checks<'_, R>,
    alloc: Global,
    name: &str,
    input: String,
    want: (u8, &str),
) -> Result<(), Fail> {
    let checked = check_calc(checks, alloc, name, input.as_str(), want);
    drop(input);
    checked
}

#[test]
fn calc_observed_volumes(rt: HostRuntime) -> Result<(), Fail> {
    let mut checks = Checks::new(&rt);
    check_calc(
        &mut checks,
        rt.alloc(),
        "observed volumes",
        OBSERVED,
        (0, FIGURES),
    )?;
    Ok(checks.end()?)
}

// The TOV and the mass of the roof, and what they are answered with.
const ROOFS: &[(&str, &str, &str, (u8, &str))] = &[
    ("a roof of 85,000 kg", "12345000", "85000", (0, UNDER_ROOF)),
    (
        "more water than the whole",
        "40000",
        "0",
        (4, "input refused at line 1: WaterAboveLevel\n"),
    ),
    (
        "a roof on water alone",
        "45000",
        "85000",
        (4, "input refused at line 1: Negative\n"),
    ),
    ("water alone", "45000", "0", (0, WATER_ALONE)),
];

// The input of a TOV and the mass of a roof.
fn volumes_line(alloc: Global, tov: &str, roof: &str) -> Result<String, AllocError> {
    format!(in alloc; "volumes {tov} 45000 bare 25.00 33.00 15.00 112 {roof} 850.0 0.99150 0.250\n")
}

#[test]
fn calc_roof_and_refusals(rt: HostRuntime) -> Result<(), Fail> {
    let mut checks = Checks::new(&rt);
    for (name, tov, roof, want) in ROOFS {
        let input = volumes_line(rt.alloc(), tov, roof)?;
        check_made(&mut checks, rt.alloc(), name, input, *want)?;
    }
    check_calc(&mut checks, rt.alloc(), "no input", "", (4, FORM))?;
    Ok(checks.end()?)
}

// The volume of the table's second row, the level, the temperature of the liquid, and what they are answered with.
const TABLES: &[(&str, [&str; 3], (u8, &str))] = &[
    (
        "a level in the table",
        ["3000", "13", "15.00"],
        (0, FROM_LEVELS),
    ),
    (
        "a level above the table",
        ["3000", "21", "15.00"],
        (4, "input refused at line 7: AboveTable\n"),
    ),
    (
        "a row that falls",
        ["999", "13", "15.00"],
        (4, "input refused at line 4: form\n"),
    ),
    (
        "a temperature without a factor",
        ["3000", "13", "15.01"],
        (4, "input refused at line 7: NoEntry\n"),
    ),
];

// The input of a table's second row, a level and a temperature of the liquid.
fn table_lines(alloc: Global, [row, level, liquid]: [&str; 3]) -> Result<String, AllocError> {
    format!(in alloc;
        "table 3\n0\n1000\n{row}\nfactors 1\n850.0,15.00,1.00000\nlevels {level} 0 insulated {liquid} 15.00 15.00 0 0 0 0 850.0 0.000\n"
    )
}

#[test]
fn calc_from_table(rt: HostRuntime) -> Result<(), Fail> {
    let mut checks = Checks::new(&rt);
    for (name, words, want) in TABLES {
        let input = table_lines(rt.alloc(), *words)?;
        check_made(&mut checks, rt.alloc(), name, input, *want)?;
    }
    Ok(checks.end()?)
}
