//! The figures of a reading under twelve different rounding rows, which docs/trade.md works out by hand.

use crate::factors::grid_of;
use crate::ten_figures::{Figure, Figures, check_figures};
use farm_chain::quantities;
use farm_fixed::{Centi, ChainRule, Dens, Kg, Mm, Permil5, Quantities, Reading, Sample, Shell};
use farm_rounding::{Mode, RoundTable};
use farm_vcf::Vcf;
use std::alloc::Global;
use std::test::Fail;
use strap_table::{CapTable, Roof, TankSpec};
use test_checks::Checks;

// Each of the twelve rows differs from every other.
const TWELVE_ROWS: [(u8, Mode); 12] = [
    (2, Mode::HalfAway),
    (5, Mode::HalfAway),
    (2, Mode::TowardZero),
    (5, Mode::TowardZero),
    (10, Mode::HalfAway),
    (1, Mode::TowardZero),
    (1, Mode::HalfAway),
    (20, Mode::HalfAway),
    (50, Mode::HalfAway),
    (100, Mode::HalfAway),
    (20, Mode::TowardZero),
    (50, Mode::TowardZero),
];

fn table(alloc: Global) -> Result<CapTable, Fail> {
    let rows = vec![in alloc; 0, 329_780, 657_222, 972_597, 1_281_095]?;
    Ok(CapTable::from_rows(rows)?)
}

// A factor of 0.99150 at 850.0 and 25.00 C alone.
fn vcf(alloc: Global) -> Result<Vcf, Fail> {
    grid_of(alloc, &[8_500], &[2_500], &[99_150])
}

// The capacity table and the factors.
fn tables(alloc: Global) -> Result<(CapTable, Vcf), Fail> {
    let table = table(alloc)?;
    match vcf(alloc) {
        Ok(vcf) => Ok((table, vcf)),
        Err(fail) => {
            drop(table);
            Err(fail)
        }
    }
}

// The figures of a bare shell whose roof floats above 20 mm, at a level of 37 mm with 13 mm of water, 25.00 C and 33.00 C ambient, with
// 0.250 percent of sediment and water.
fn figures(alloc: Global) -> Result<Result<Quantities, ChainRule>, Fail> {
    let tank = TankSpec {
        shell: Shell {
            insulated: false,
            coefficient: 112,
            reference: Centi::new(1_500)?,
        },
        height: Mm::new(50)?,
        roof: Some(Roof {
            mass: Kg::new(85_000)?,
            low: Mm::new(10)?,
            high: Mm::new(20)?,
            reference: None,
        }),
    };
    let reading = Reading {
        level: Mm::new(37)?,
        water: Mm::new(13)?,
        liquid: Centi::new(2_500)?,
        ambient: Centi::new(3_300)?,
    };
    let sample = Sample {
        density: Dens::new(8_500)?,
        sw: Permil5::new(250)?,
    };
    let rounding = RoundTable::new(TWELVE_ROWS)?;
    let (table, vcf) = tables(alloc)?;
    let figures = quantities(&tank, &table, &vcf, &rounding, &reading, &sample);
    drop((table, vcf));
    Ok(figures)
}

const ROUNDED: Figures = &[
    ("tov", Figure::Tov, 1_188_550),
    ("fw", Figure::Fw, 428_010),
    ("ctsh", Figure::Ctsh, 100_024),
    ("vcf", Figure::Vcf, 99_150),
    ("fra", Figure::Fra, -100_860),
    ("gov", Figure::Gov, 659_850),
    ("gsv", Figure::Gsv, 654_200),
    ("nsv", Figure::Nsv, 652_560),
    ("swv", Figure::Swv, 1_640),
    ("mass", Figure::Mass, 554_650),
];

#[test]
fn each_figure_is_rounded_by_its_own_row(rt: HostRuntime) -> Result<(), Fail> {
    let mut checks = Checks::new(&rt);
    check_figures(&mut checks, figures(rt.alloc())?, ROUNDED);
    Ok(checks.end()?)
}
