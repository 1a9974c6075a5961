//! The numbers of the code are those of the definitions.

ghost use Rattle.std.specs.Prelude.{◌≡◌};
ghost use Rattle.site_keys.specs.Codes.{code_of_factors, code_of_field, code_of_range, code_of_repeated, code_of_strap, code_of_table, code_of_text, code_of_too_long, code_of_too_many, code_of_unknown};
ghost use Rattle.site_keys.specs.Limits.{most_file_bytes};

use crate::codes::{
    FACTORS, FIELD, RANGE, REPEATED, STRAP, TABLE, TEXT, TOO_LONG, TOO_MANY, UNKNOWN,
};
use crate::files::MOST_FILE_BYTES;

/// Does nothing: its contract is that each number that the definitions state is the code's.
pub fn defined_numbers()
    ensures code_of_text { TEXT ≡ code_of_text }
    ensures code_of_field { FIELD ≡ code_of_field }
    ensures code_of_range { RANGE ≡ code_of_range }
    ensures code_of_repeated { REPEATED ≡ code_of_repeated }
    ensures code_of_unknown { UNKNOWN ≡ code_of_unknown }
    ensures code_of_strap { STRAP ≡ code_of_strap }
    ensures code_of_table { TABLE ≡ code_of_table }
    ensures code_of_factors { FACTORS ≡ code_of_factors }
    ensures code_of_too_many { TOO_MANY ≡ code_of_too_many }
    ensures code_of_too_long { TOO_LONG ≡ code_of_too_long }
    ensures most_file_bytes { MOST_FILE_BYTES ≡ most_file_bytes }
{}
