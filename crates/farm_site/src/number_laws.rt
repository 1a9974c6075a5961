//! The numbers of the code are those of the definitions.

ghost use Rattle.std.specs.Prelude.{◌≡◌};
ghost use Rattle.farm_site.specs.Limits.{most_format, most_number, most_name_bytes, most_lines, most_parties, most_products, most_stock, most_tanks};

use crate::limits::{
    MOST_FORMAT, MOST_LINES, MOST_NAME_BYTES, MOST_NUMBER, MOST_PARTIES, MOST_PRODUCTS, MOST_STOCK,
    MOST_TANKS,
};

/// Does nothing: its contract is that each number that the definitions state is the code's.
pub fn defined_numbers()
    ensures most_format { MOST_FORMAT ≡ most_format }
    ensures most_number { MOST_NUMBER ≡ most_number }
    ensures most_name_bytes { MOST_NAME_BYTES ≡ most_name_bytes }
    ensures most_products { MOST_PRODUCTS ≡ most_products }
    ensures most_parties { MOST_PARTIES ≡ most_parties }
    ensures most_tanks { MOST_TANKS ≡ most_tanks }
    ensures most_lines { MOST_LINES ≡ most_lines }
    ensures most_stock { MOST_STOCK ≡ most_stock }
{}
