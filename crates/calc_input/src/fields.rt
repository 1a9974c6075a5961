//! The words of an input line as the values that they spell.

ghost use Rattle.std.specs.Prelude.{◌≡◌, ◌<◌, ◌≤◌, IfSome, IsTrue, length, map, pos};
ghost use Rattle.std.specs.Result.{result_ok};
ghost use Rattle.std.specs.Str.{all_ascii_digits};
ghost use Rattle.std.specs.Str.Parse.{digits_value};
ghost use Rattle.farm_fixed.specs.Parsing.{quantity_of};
ghost use Rattle.farm_fixed.specs.Range.{IsWithin};
ghost use Rattle.calc_input.specs.Fields.{coefficient_of, density_of, digits_of, factor_of, roof_of, share_of, temperature_of, volume_of, height_of, within, word_at};

use farm_base::is_all_digits;
use farm_fixed::{
    Centi, Dens, Fac5, Kg, Kilogram, Litre, Litres, MOST_COEFFICIENT, MOST_LITRES, MOST_ROOF_MASS,
    Mm, Permil5, Quantity, Unit,
};

// The most digits of a number.
pub(crate) const MOST_DIGITS: usize = 20;

// A volume to calculate with.
#[tactic(auto, unfolding(crate::specs::Fields::volume_of))]
pub(crate) fn volume_of(word: &[u8]) -> Option<Litres>
    ensures value { result ≡ volume_of word.now }
    ensures range { IfSome result (IsWithin (pos 0) MOST_LITRES) }
{
    up_to::<Litre>(word, MOST_LITRES)
}

// The mass of a floating roof.
#[tactic(auto, unfolding(crate::specs::Fields::roof_of))]
pub(crate) fn roof_of(word: &[u8]) -> Option<Kg>
    ensures value { result ≡ roof_of word.now }
    ensures range { IfSome result (IsWithin (pos 0) MOST_ROOF_MASS) }
{
    up_to::<Kilogram>(word, MOST_ROOF_MASS)
}

// A quantity from 0 up to a bound.
fn up_to<U: Unit + Copy>(word: &[u8], most: i64) -> Option<Quantity<U>>
    ensures units { result ≡ within (pos 0) most (result_ok (quantity_of U.PLACES U.LEAST U.MOST word.now)) }
    ensures range { IfSome result (IsWithin (pos 0) most) }
{
    let quantity = Quantity::<U>::read(word).ok()?;
    if quantity.get() < 0 || quantity.get() > most {
        return None;
    }
    Some(quantity)
}

// A temperature.
#[tactic(auto, unfolding(crate::specs::Fields::temperature_of))]
pub(crate) fn temperature_of(word: &[u8]) -> Option<Centi>
    ensures { result ≡ temperature_of word.now }
{
    Centi::read(word).ok()
}

// A density.
#[tactic(auto, unfolding(crate::specs::Fields::density_of))]
pub(crate) fn density_of(word: &[u8]) -> Option<Dens>
    ensures { result ≡ density_of word.now }
{
    Dens::read(word).ok()
}

// A volume correction factor.
#[tactic(auto, unfolding(crate::specs::Fields::factor_of))]
pub(crate) fn factor_of(word: &[u8]) -> Option<Fac5>
    ensures { result ≡ factor_of word.now }
{
    Fac5::read(word).ok()
}

// A share of sediment and water.
#[tactic(auto, unfolding(crate::specs::Fields::share_of))]
pub(crate) fn share_of(word: &[u8]) -> Option<Permil5>
    ensures { result ≡ share_of word.now }
{
    Permil5::read(word).ok()
}

// A height.
#[tactic(auto, unfolding(crate::specs::Fields::height_of))]
pub(crate) fn height_of(word: &[u8]) -> Option<Mm>
    ensures { result ≡ height_of word.now }
{
    Mm::read(word).ok()
}

// The coefficient of a shell.
#[tactic(auto, unfolding(crate::specs::Fields::coefficient_of))]
pub(crate) fn coefficient_of(word: &[u8]) -> Option<i64>
    ensures value { result ≡ coefficient_of word.now }
    ensures range { IfSome result (IsWithin (pos 0) MOST_COEFFICIENT) }
{
    let coefficient = digits_of(word)?;
    if coefficient > u128::from(MOST_COEFFICIENT.unsigned_abs()) {
        return None;
    }
    Some(coefficient as i64)
}

// A number that is written as 1 to 20 decimal digits.
#[tactic(auto, unfolding(crate::specs::Fields::digits_of))]
pub(crate) fn digits_of(word: &[u8]) -> Option<u128>
    ensures { result ≡ digits_of word.now }
{
    if word.is_empty() || word.len() > MOST_DIGITS || !is_all_digits(word) {
        return None;
    }
    Some(number_of(word))
}

// The number that up to 20 decimal digits are.
fn number_of(word: &[u8]) -> u128
    requires length { length word.now ≤ MOST_DIGITS }
    requires digits { IsTrue (all_ascii_digits word.now) }
    ensures { result ≡ digits_value 10 word.now }
{
    let mut number = 0;
    for byte in word {
        number = 10 * number + u128::from(*byte - b'0');
    }
    number
}

// A word of the line, the first being 0.
pub(crate) fn word_at<'a>(words: &[&'a [u8]], n: usize) -> &'a [u8]
    requires { n < length words.now }
    ensures { result.now ≡ word_at (map (λ word. word.now) words.now) n }
{
    words[n]
}
