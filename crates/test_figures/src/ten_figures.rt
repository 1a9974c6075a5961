//! The ten figures of a calculation, each by its name.

use farm_fixed::{ChainRule, Quantities};
use test_checks::Checks;

/// One of the ten figures.
#[derive(Clone, Copy)]
pub enum Figure {
    /// Total observed volume.
    Tov,
    /// Free water.
    Fw,
    /// Shell temperature correction.
    Ctsh,
    /// Volume correction factor.
    Vcf,
    /// Floating roof adjustment.
    Fra,
    /// Gross observed volume.
    Gov,
    /// Gross standard volume.
    Gsv,
    /// Net standard volume.
    Nsv,
    /// Sediment and water.
    Swv,
    /// Mass.
    Mass,
}

/// Figures by their names, each in its units.
pub type Figures = &'static [(&'static str, Figure, i64)];

// A figure in its units.
fn units_of(quantities: &Quantities, figure: Figure) -> i64 {
    match figure {
        Figure::Tov => quantities.tov.get(),
        Figure::Fw => quantities.fw.get(),
        Figure::Ctsh => quantities.ctsh.get(),
        Figure::Vcf => quantities.vcf.get(),
        Figure::Fra => quantities.fra.get(),
        Figure::Gov => quantities.gov.get(),
        Figure::Gsv => quantities.gsv.get(),
        Figure::Nsv => quantities.nsv.get(),
        Figure::Swv => quantities.swv.get(),
        Figure::Mass => quantities.mass.get(),
    }
}

// Each figure is that of its row.
fn check_each<R: Print>(checks: &mut Checks<'_, R>, quantities: &Quantities, wants: Figures) {
    for (name, figure, want) in wants {
        checks.same_at(name, units_of(quantities, *figure), *want);
    }
}

/// A calculation is answered, and each figure is that of its row.
pub(crate) fn check_figures<R: Print>(
    checks: &mut Checks<'_, R>,
    answer: Result<Quantities, ChainRule>,
    wants: Figures,
) {
    match answer {
        Ok(quantities) => check_each(checks, &quantities, wants),
        Err(rule) => checks.same_at("refused", Some(rule), None),
    }
}
