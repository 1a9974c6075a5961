//! Numbers of lists: densities, temperatures and factors of a product, and the rows of a capacity table.

ghost use Rattle.std.specs.Int.{w16, w32};
ghost use Rattle.farm_fixed.specs.Range.{IsWithin, IsVolume};
ghost use Rattle.farm_fixed.specs.declared.limits.TheConstants.{LEAST_DENSITY, LEAST_FACTOR, LEAST_TEMPERATURE, MOST_DENSITY, MOST_FACTOR, MOST_TEMPERATURE};
ghost use Rattle.site_encoding.specs.Encoding.{natural_bytes, signed_bytes};

use crate::encoding::encoded::{Encoded, put};
use farm_fixed::{Centi, Dens, Fac5};
use farm_site::Format;

impl Encoded for Dens {
    ghost bytes = { λ _. natural_bytes w16 };

    ghost typed = { IsWithin LEAST_DENSITY MOST_DENSITY };

    fn put(&self, _format: Format, out: &mut Vec<u8>) {
        put(out, &(self.get() as u16).to_be_bytes());
    }
}

impl Encoded for Centi {
    ghost bytes = { λ _. signed_bytes w16 };

    ghost typed = { IsWithin LEAST_TEMPERATURE MOST_TEMPERATURE };

    fn put(&self, _format: Format, out: &mut Vec<u8>) {
        put(out, &(self.get() as i16).to_be_bytes());
    }
}

impl Encoded for Fac5 {
    ghost bytes = { λ _. natural_bytes w32 };

    ghost typed = { IsWithin LEAST_FACTOR MOST_FACTOR };

    fn put(&self, _format: Format, out: &mut Vec<u8>) {
        put(out, &(self.get() as u32).to_be_bytes());
    }
}

/// A row of a capacity table, in litres.
impl Encoded for i64 {
    ghost bytes = { λ _. natural_bytes w32 };

    ghost fits = { IsVolume };

    fn put(&self, _format: Format, out: &mut Vec<u8>) {
        put(out, &(*self as u32).to_be_bytes());
    }
}
