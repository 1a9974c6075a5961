//! A grid of factors, and the entry of a density and a temperature.

ghost use Rattle.std.specs.Prelude.{◌≡◌, ◌*◌, ◌&&◌, ◌==◌, IfSome, MatchResult, None, Ok, Some};
ghost use Rattle.std.specs.Result.{OkIff};
ghost use Rattle.farm_base.specs.Steps.{IsRefusedAs};
ghost use Rattle.farm_vcf.specs.Faults.{reported};
ghost use Rattle.farm_vcf.specs.Records.{IsFaultOfText, IsGridOfText, vcf_of};
ghost use Rattle.farm_vcf.specs.Grid.{IsEntry, IsGrid, IsInGrid, grid_factor, grid_from, is_full};

use crate::closest::{closest, is_covered, rises};
use crate::records::vcf_of;
use crate::{BadGrid, NoEntry, VcfFault};
use farm_fixed::{Centi, Dens, Fac5};
use farm_rounding::Mode;
use std::alloc::Global;
use std::marker::Model;

/// The most factors of a grid, and the most records below the header of a file.
pub const MOST_FACTORS: usize = 100_000;

/// A grid of volume correction factors: one for each listed density and temperature.
#[derive(Debug, Drop)]
pub struct Vcf {
    densities: Vec<Dens>,
    temperatures: Vec<Centi>,
    factors: Vec<Fac5>,
}

impl Model for Vcf {
    ghost use Rattle.farm_vcf.specs.Grid.{Grid, IsGrid, grid_from};

    ghost Value = { Grid };

    ghost view = { λ v. grid_from v.densities.items v.temperatures.items v.factors.items };

    ghost invariant = { λ v. IsGrid (grid_from v.densities.items v.temperatures.items v.factors.items) };
}

impl Vcf {
    /// The grid of these lists, the factors by density and then temperature.
    pub fn from_grid(
        densities: Vec<Dens>,
        temperatures: Vec<Centi>,
        factors: Vec<Fac5>,
    ) -> Result<Vcf, BadGrid>
        ensures grid { let grid = grid_from densities.items temperatures.items factors.items in OkIff result (IsGrid grid) grid }
    {
        if rises(densities.as_slice())
            && rises(temperatures.as_slice())
            && is_full(densities.len(), temperatures.len(), factors.len())
        {
            Ok(Vcf {
                densities,
                temperatures,
                factors,
            })
        } else {
            Err(BadGrid)
        }
    }

    /// Reads a factor file: a header and, for each density and each temperature, a record of density, temperature and factor.
    ///
    /// The text is CSV by the csv reader's defaults. Blanks at the ends of a field are dropped.
    pub fn read(alloc: Global, text: &[u8]) -> Result<Vcf, VcfFault>
        ensures grid { MatchResult result (λ grid. vcf_of text.now ≡ Ok grid) (λ fault. IsRefusedAs (reported fault) (vcf_of text.now)) }
        ensures meaning { MatchResult result (λ grid. IsGridOfText text.now grid) (λ fault. IfSome (reported fault) (IsFaultOfText text.now)) }
    {
        vcf_of(alloc, text)
    }

    /// The listed densities, rising.
    pub fn densities(&self) -> &[Dens]
        ensures densities { result.now ≡ self.now.densities }
        ensures grid { IsGrid self.now }
    {
        self.densities.as_slice()
    }

    /// The listed temperatures, rising.
    pub fn temperatures(&self) -> &[Centi]
        ensures temperatures { result.now ≡ self.now.temperatures }
        ensures grid { IsGrid self.now }
    {
        self.temperatures.as_slice()
    }

    /// The factors, by density and then temperature.
    pub fn factors(&self) -> &[Fac5]
        ensures factors { result.now ≡ self.now.factors }
        ensures grid { IsGrid self.now }
    {
        self.factors.as_slice()
    }

    /// The factor at the nearest listed density and the nearest listed temperature.
    ///
    /// Of two listed values at the same distance `HalfAway` and `HalfEven` take the one of greater magnitude and `TowardZero`
    /// the one of lesser; of -5.00 and 5.00 all take 5.00. `NoEntry` exactly below the first or above the last listed value.
    pub fn entry(&self, density: Dens, liquid: Centi, mode: Mode) -> Result<Fac5, NoEntry>
        ensures factor { MatchResult result (λ factor. grid_factor mode self.now density liquid ≡ Some factor) (λ _. grid_factor mode self.now density liquid ≡ None) }
        ensures meaning { MatchResult result (λ factor. IsEntry mode self.now density liquid factor) (λ _. ¬ (IsInGrid self.now density liquid)) }
    {
        let densities = self.densities.as_slice();
        let temperatures = self.temperatures.as_slice();
        if is_covered(density, densities) && is_covered(liquid, temperatures) {
            let row = closest(mode, density, densities);
            let column = closest(mode, liquid, temperatures);
            Ok(self.factors[row * temperatures.len() + column])
        } else {
            Err(NoEntry)
        }
    }
}

// Whether there is a factor for each density and temperature, at least one and not too many.
fn is_full(densities: usize, temperatures: usize, factors: usize) -> bool
    ensures { result ≡ is_full densities temperatures factors }
{
    1 <= factors
        && factors <= MOST_FACTORS
        && factors as u128 == densities as u128 * temperatures as u128
}
