//! The form `volumes`: one line of observed volumes.

ghost use Rattle.std.specs.Prelude.{◌≡◌, ◌≤◌, length, map, IfSome};
ghost use Rattle.calc_input.specs.VolumesLine.{IsCalculable, fields_of, volumes_of};

use crate::fields::{
    coefficient_of, density_of, factor_of, roof_of, share_of, temperature_of, volume_of, word_at,
};
use farm_fixed::{Centi, Fac5, Kg, Litres, Sample, Shell, is_insulated};

/// What a line of observed volumes says.
#[derive(Clone, Copy, Debug, PartialEq, Eq)]
pub struct Volumes {
    /// Total observed volume, up to 10^9.
    pub tov: Litres,
    /// Free water, up to 10^9.
    pub fw: Litres,
    /// The tank's shell, its coefficient up to 1,000.
    pub shell: Shell,
    /// The liquid's temperature.
    pub liquid: Centi,
    /// The ambient temperature.
    pub ambient: Centi,
    /// The mass of a floating roof, up to 10^7, or 0.
    pub floating: Kg,
    /// The liquid's density, sediment and water.
    pub sample: Sample,
    /// The volume correction factor.
    pub vcf: Fac5,
}

impl Volumes {
    // What the words of a line say; `None` if they aren't in the form.
    #[tactic(auto, unfolding(crate::specs::VolumesLine::volumes_of))]
    pub(crate) fn of_words(words: &[&[u8]]) -> Option<Volumes>
        ensures value { result ≡ volumes_of (map (λ word. word.now) words.now) }
        ensures ranges { IfSome result IsCalculable }
    {
        if words.len() != 12 || words[0] != b"volumes".as_slice() {
            return None;
        }
        Volumes::of_fields(words)
    }

    // What the eleven fields after the name of the form say.
    #[tactic(auto, unfolding(crate::specs::VolumesLine::fields_of))]
    fn of_fields(words: &[&[u8]]) -> Option<Volumes>
        requires { 12 ≤ length words.now }
        ensures value { result ≡ fields_of (map (λ word. word.now) words.now) }
        ensures ranges { IfSome result IsCalculable }
    {
        let tov = volume_of(word_at(words, 1))?;
        let fw = volume_of(word_at(words, 2))?;
        let insulated = is_insulated(word_at(words, 3))?;
        let liquid = temperature_of(word_at(words, 4))?;
        let ambient = temperature_of(word_at(words, 5))?;
        let reference = temperature_of(word_at(words, 6))?;
        let coefficient = coefficient_of(word_at(words, 7))?;
        let floating = roof_of(word_at(words, 8))?;
        let density = density_of(word_at(words, 9))?;
        let vcf = factor_of(word_at(words, 10))?;
        let sw = share_of(word_at(words, 11))?;
        Some(Volumes {
            tov,
            fw,
            shell: Shell {
                insulated,
                coefficient,
                reference,
            },
            liquid,
            ambient,
            floating,
            sample: Sample { density, sw },
            vcf,
        })
    }
}
