//! The numbers of the code are those of the definitions.

ghost use Rattle.std.specs.Prelude.{◌≡◌};
ghost use Rattle.farm_rounding.specs.RowNumbers.{rounding_rows, row_of_deadwood_part, row_of_factor_ties, row_of_gross_observed, row_of_gross_standard, row_of_liquid_temperature, row_of_mass, row_of_net_standard, row_of_roof_adjustment, row_of_shell_correction, row_of_strapped_row, row_of_table_volume, row_of_tape_mean};

use crate::table::{
    DEADWOOD_PART, FACTOR_TIES, GROSS_OBSERVED, GROSS_STANDARD, LIQUID_TEMPERATURE, MASS,
    NET_STANDARD, ROOF_ADJUSTMENT, ROUNDING_ROWS, SHELL_CORRECTION, STRAPPED_ROW, TABLE_VOLUME,
    TAPE_MEAN,
};

/// Does nothing: its contract is that each number that the definitions state is the code's.
pub fn defined_numbers()
    ensures row_of_tape_mean { TAPE_MEAN ≡ row_of_tape_mean }
    ensures row_of_liquid_temperature { LIQUID_TEMPERATURE ≡ row_of_liquid_temperature }
    ensures row_of_strapped_row { STRAPPED_ROW ≡ row_of_strapped_row }
    ensures row_of_deadwood_part { DEADWOOD_PART ≡ row_of_deadwood_part }
    ensures row_of_table_volume { TABLE_VOLUME ≡ row_of_table_volume }
    ensures row_of_shell_correction { SHELL_CORRECTION ≡ row_of_shell_correction }
    ensures row_of_factor_ties { FACTOR_TIES ≡ row_of_factor_ties }
    ensures row_of_roof_adjustment { ROOF_ADJUSTMENT ≡ row_of_roof_adjustment }
    ensures row_of_gross_observed { GROSS_OBSERVED ≡ row_of_gross_observed }
    ensures row_of_gross_standard { GROSS_STANDARD ≡ row_of_gross_standard }
    ensures row_of_net_standard { NET_STANDARD ≡ row_of_net_standard }
    ensures row_of_mass { MASS ≡ row_of_mass }
    ensures rounding_rows { ROUNDING_ROWS ≡ rounding_rows }
{}
