//! The numbers of the code are those of the definitions.

ghost use Rattle.std.specs.Prelude.{◌≡◌};
ghost use Rattle.command_line.specs.Limits.{most_port, most_seed, least_port, least_workers, most_drilled, most_number_digits, most_rounds, most_workers};

use crate::limits::{
    LEAST_PORT, LEAST_WORKERS, MOST_DRILLED, MOST_NUMBER_DIGITS, MOST_PORT, MOST_ROUNDS, MOST_SEED,
    MOST_WORKERS,
};

/// Does nothing: its contract is that each number that the definitions state is the code's.
pub fn defined_numbers()
    ensures most_number_digits { MOST_NUMBER_DIGITS ≡ most_number_digits }
    ensures least_port { LEAST_PORT ≡ least_port }
    ensures most_port { MOST_PORT ≡ most_port }
    ensures least_workers { LEAST_WORKERS ≡ least_workers }
    ensures most_workers { MOST_WORKERS ≡ most_workers }
    ensures most_rounds { MOST_ROUNDS ≡ most_rounds }
    ensures most_seed { MOST_SEED ≡ most_seed }
    ensures most_drilled { MOST_DRILLED ≡ most_drilled }
{}
