//! A piece of a text.

ghost use Rattle.std.specs.Prelude.{◌≡◌};

use farm_fixed::{Quantity, Unit};

/// A piece of a text, as `append` writes it.
#[derive(Clone, Copy, Debug)]
pub enum Piece<'a> {
    /// These bytes.
    Text(&'a [u8]),
    /// A number, in decimal digits.
    Number(u64),
    /// A number in decimal digits, with a minus where it is below zero.
    Signed(i64),
    /// A number of units of `10^-places`, with the least number of digits before the point and all its decimals.
    Quantity { places: u8, units: i64 },
}

impl<'a, U: Unit> From<Quantity<U>> for Piece<'a> {
    ghost use Rattle.text_pieces.specs.declared.pieces.Piece.TheVariants.{Quantity};

    ghost from_gives = { λ quantity piece. piece ≡ Quantity U.PLACES quantity };

    fn from(quantity: Quantity<U>) -> Self {
        Piece::Quantity {
            places: U::PLACES,
            units: quantity.get(),
        }
    }
}
