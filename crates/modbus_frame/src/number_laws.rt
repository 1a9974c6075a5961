//! The numbers of the code are those of the definitions.

ghost use Rattle.std.specs.Prelude.{◌≡◌};
ghost use Rattle.modbus_frame.specs.Limits.{exception_bit, exception_length, least_quantity, most_quantity, read_holding_registers, read_input_registers};

use crate::expect::{LEAST_QUANTITY, MOST_QUANTITY, READ_HOLDING_REGISTERS, READ_INPUT_REGISTERS};
use crate::response::{EXCEPTION, EXCEPTION_LENGTH};

/// Does nothing: its contract is that each number that the definitions state is the code's.
pub fn defined_numbers()
    ensures read_holding_registers { READ_HOLDING_REGISTERS ≡ read_holding_registers }
    ensures read_input_registers { READ_INPUT_REGISTERS ≡ read_input_registers }
    ensures least_quantity { LEAST_QUANTITY ≡ least_quantity }
    ensures most_quantity { MOST_QUANTITY ≡ most_quantity }
    ensures exception_length { EXCEPTION_LENGTH ≡ exception_length }
    ensures exception_bit { EXCEPTION ≡ exception_bit }
{}
