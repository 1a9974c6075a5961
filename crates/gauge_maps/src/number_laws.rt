//! The numbers of the code are those of the definitions.

ghost use Rattle.std.specs.Prelude.{◌≡◌};
ghost use Rattle.gauge_maps.specs.Limits.{most_port, most_unit, most_bit, most_host_bytes, most_deadband, most_gauges, most_multiplier, most_words, register_count};

use crate::limits::{
    MOST_BIT, MOST_DEADBAND, MOST_GAUGES, MOST_HOST_BYTES, MOST_MULTIPLIER, MOST_PORT, MOST_UNIT,
    MOST_WORDS, REGISTERS,
};

/// Does nothing: its contract is that each number that the definitions state is the code's.
pub fn defined_numbers()
    ensures most_host_bytes { MOST_HOST_BYTES ≡ most_host_bytes }
    ensures most_port { MOST_PORT ≡ most_port }
    ensures most_unit { MOST_UNIT ≡ most_unit }
    ensures most_gauges { MOST_GAUGES ≡ most_gauges }
    ensures register_count { REGISTERS ≡ register_count }
    ensures most_words { MOST_WORDS ≡ most_words }
    ensures most_multiplier { MOST_MULTIPLIER ≡ most_multiplier }
    ensures most_bit { MOST_BIT ≡ most_bit }
    ensures most_deadband { MOST_DEADBAND ≡ most_deadband }
{}
