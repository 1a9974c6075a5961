//! The ten lines of a calculation.

ghost use Rattle.farm_base.specs.Appended.{Appends};
ghost use Rattle.farm_report.specs.Figures.{figures_text};

use farm_fixed::{NoMemory, Quantities};
use text_pieces::{Piece, append};

/// Appends the ten lines of a calculation: `TOV`, `FW`, `CTSH`, `VCF`, `FRA`, `GOV`, `GSV`, `NSV`, `SWV`, `MASS`, each followed by
/// a blank and the figure with all its decimals.
///
/// On `NoMemory` the buffer is as before.
#[tactic(auto, unfolding(crate::specs::Figures::figures_text))]
pub fn figures_text(figures: &Quantities, out: &mut Vec<u8>) -> Result<(), NoMemory>
    ensures appended { Appends out.old.items out.new.items (figures_text figures.now) result }
{
    append(
        out,
        &[
            Piece::Text(b"TOV "),
            figures.tov.into(),
            Piece::Text(b"\nFW "),
            figures.fw.into(),
            Piece::Text(b"\nCTSH "),
            figures.ctsh.into(),
            Piece::Text(b"\nVCF "),
            figures.vcf.into(),
            Piece::Text(b"\nFRA "),
            figures.fra.into(),
            Piece::Text(b"\nGOV "),
            figures.gov.into(),
            Piece::Text(b"\nGSV "),
            figures.gsv.into(),
            Piece::Text(b"\nNSV "),
            figures.nsv.into(),
            Piece::Text(b"\nSWV "),
            figures.swv.into(),
            Piece::Text(b"\nMASS "),
            figures.mass.into(),
            Piece::Text(b"\n"),
        ],
    )
}
