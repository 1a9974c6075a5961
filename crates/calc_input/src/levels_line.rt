//! The line of levels, the last one of the form `table`.

ghost use Rattle.std.specs.Prelude.{◌≡◌, ◌≤◌, length, map, ◌≤ℤ◌, IfSome};
ghost use Rattle.calc_input.specs.LevelsLine.{IsGauged, level_fields, levels_of, zoned};

use crate::fields::{
    coefficient_of, density_of, height_of, roof_of, share_of, temperature_of, word_at,
};
use farm_fixed::{Kg, Mm, Reading, Sample, Shell, is_insulated};
use strap_table::Roof;

/// What a line of levels says.
#[derive(Clone, Copy, Debug, PartialEq, Eq)]
pub struct Levels {
    /// The gauged heights and temperatures.
    pub reading: Reading,
    /// The tank's shell, its coefficient up to 1,000.
    pub shell: Shell,
    /// The floating roof, up to 10^7 kg; a mass of 0 is no roof. Its critical zone isn't upside down.
    pub roof: Roof,
    /// The liquid's density, sediment and water.
    pub sample: Sample,
}

impl Levels {
    // What the words of a line say; `None` if they aren't in the form.
    #[tactic(auto, unfolding(crate::specs::LevelsLine::levels_of))]
    pub(crate) fn of_words(words: &[&[u8]]) -> Option<Levels>
        ensures value { result ≡ levels_of (map (λ word. word.now) words.now) }
        ensures ranges { IfSome result IsGauged }
    {
        if words.len() != 13 || words[0] != b"levels".as_slice() {
            return None;
        }
        Levels::of_fields(words)
    }

    // What the twelve fields after the name say.
    #[tactic(auto, unfolding(crate::specs::LevelsLine::level_fields))]
    fn of_fields(words: &[&[u8]]) -> Option<Levels>
        requires { 13 ≤ length words.now }
        ensures value { result ≡ level_fields (map (λ word. word.now) words.now) }
        ensures ranges { IfSome result IsGauged }
    {
        let level = height_of(word_at(words, 1))?;
        let water = height_of(word_at(words, 2))?;
        let insulated = is_insulated(word_at(words, 3))?;
        let liquid = temperature_of(word_at(words, 4))?;
        let ambient = temperature_of(word_at(words, 5))?;
        let reference = temperature_of(word_at(words, 6))?;
        let coefficient = coefficient_of(word_at(words, 7))?;
        let mass = roof_of(word_at(words, 8))?;
        let low = height_of(word_at(words, 9))?;
        let high = height_of(word_at(words, 10))?;
        let roof = zoned(mass, low, high)?;
        let density = density_of(word_at(words, 11))?;
        let sw = share_of(word_at(words, 12))?;
        Some(Levels {
            reading: Reading {
                level,
                water,
                liquid,
                ambient,
            },
            shell: Shell {
                insulated,
                coefficient,
                reference,
            },
            roof,
            sample: Sample { density, sw },
        })
    }
}

// A roof whose critical zone isn't upside down; a table of this form leaves the roof out.
fn zoned(mass: Kg, low: Mm, high: Mm) -> Option<Roof>
    ensures value { result ≡ zoned mass low high }
    ensures mass { IfSome result (λ roof. roof.mass ≡ mass) }
    ensures zone { IfSome result (λ roof. roof.low ≤ℤ roof.high) }
{
    if high.get() < low.get() {
        return None;
    }
    Some(Roof {
        mass,
        low,
        high,
        reference: None,
    })
}
