//! A whole number of units, and its text.

ghost use Rattle.std.specs.Prelude.{◌≡◌, ◌+◌, ◌<◌, ℕ, ℤ, Ok, OnErr, length, vec_capacity, vec_len};
ghost use Rattle.std.specs.Result.{OkIff};
ghost use Rattle.farm_base.specs.Appended.{Appends};
ghost use Rattle.farm_fixed.specs.Range.{IsWithin, IsSmall};
ghost use Rattle.farm_fixed.specs.Parsing.{IsReadAs, number_of, quantity_from, quantity_of};
ghost use Rattle.farm_fixed.specs.Numerals.{IsNumeralOf};
ghost use Rattle.farm_fixed.specs.Printing.{quantity_text};

use crate::parsing::{Numeral, is_negative, numeral_of, scaled, with_sign};
use crate::printing::{ROOM, write_text};
use crate::{NoMemory, OutOfRange, ReadFault};
use std::marker::{Model, PhantomData};

/// What a quantity counts: its range, in units, and the decimals of its text.
pub trait Unit {
    ghost LEAST: { ℤ };

    ghost MOST: { ℤ };

    ghost PLACES: { ℕ };

    /// The least number of units, at least -10^17.
    const LEAST: i64;
    /// The greatest number of units, at most 10^17.
    const MOST: i64;
    /// The decimals of the text, at most 5.
    const PLACES: u8;

    // Parsing and printing compute with 64 bits; these bounds leave room for every step.
    ghost small: { IsSmall LEAST MOST PLACES };
}

/// A whole number of units of `U`, in its range. Contracts see the number.
#[derive(Clone, Copy, Debug, PartialEq, Eq)]
pub struct Quantity<U: Unit> {
    value: i64,
    unit: PhantomData<U>,
}

impl<U: Unit> Model for Quantity<U> {
    ghost use Rattle.std.specs.Prelude.{ℤ};
    ghost use Rattle.farm_fixed.specs.Range.{IsWithin};

    ghost Value = { ℤ };

    ghost view = { λ q. q.value };

    ghost invariant = { λ q. IsWithin U.LEAST U.MOST q.value };

    ghost inverse = { λ z. record { value = z; unit = record {} } };
}

impl<U: Unit> Quantity<U> {
    /// This many units. `OutOfRange` exactly outside the range.
    pub fn new(v: i64) -> Result<Self, OutOfRange>
        ensures in_range { OkIff result (IsWithin U.LEAST U.MOST v) v }
    {
        if v < U::LEAST || v > U::MOST {
            return Err(OutOfRange);
        }
        Ok(Quantity {
            value: v,
            unit: PhantomData,
        })
    }

    /// This many units, which are known to be in the range.
    pub fn in_range(units: i128) -> Self
        requires { IsWithin U.LEAST U.MOST units }
        ensures units { result ≡ units }
    {
        Quantity {
            value: units as i64,
            unit: PhantomData,
        }
    }

    /// The number of units.
    pub fn get(self) -> i64
        ensures units { result ≡ self }
        ensures range { IsWithin U.LEAST U.MOST result }
    {
        self.value
    }

    /// Reads the text of a number of units, with at most as many decimals as the unit has.
    ///
    /// The faults are tested in the order of `ReadFault`.
    pub fn read(text: &[u8]) -> Result<Self, ReadFault>
        ensures quantity { result ≡ quantity_of U.PLACES U.LEAST U.MOST text.now }
        ensures meaning { IsReadAs U.PLACES U.LEAST U.MOST text.now result }
    {
        if text.is_empty() {
            return Err(ReadFault::Empty);
        }
        match numeral_of(text) {
            Ok(numeral) => Self::from_numeral(text, numeral),
            Err(offset) => Err(ReadFault::BadByte(offset)),
        }
    }

    /// Appends the text: the least number of digits before the point, and all decimals of the unit.
    pub fn write(self, out: &mut Vec<u8>) -> Result<(), NoMemory>
        ensures appended { Appends out.old.items out.new.items (quantity_text U.PLACES self) result }
        ensures no_room { OnErr result (vec_capacity out.old < vec_len out.old + length (quantity_text U.PLACES self)) }
        ensures back { quantity_of U.PLACES U.LEAST U.MOST (quantity_text U.PLACES self) ≡ Ok self }
    {
        let mut buffer = [b'0'; ROOM];
        let start = write_text(self.value, usize::from(U::PLACES), &mut buffer);
        out.extend_from_slice(&buffer[start..])?;
        Ok(())
    }

    // The quantity that a number's text writes, from its digits.
    fn from_numeral(text: &[u8], numeral: Numeral) -> Result<Self, ReadFault>
        requires { IsNumeralOf text.now numeral }
        ensures { result ≡ quantity_from U.PLACES U.LEAST U.MOST (number_of text.now) }
    {
        let places = usize::from(U::PLACES);
        if numeral.decimals > places {
            return Err(ReadFault::TooFine);
        }
        let magnitude = scaled(numeral.value, places - numeral.decimals);
        let units = with_sign(is_negative(text), magnitude);
        Self::new(units).map_err(|_| ReadFault::OutOfRange)
    }
}
