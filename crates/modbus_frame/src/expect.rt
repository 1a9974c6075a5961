//! What is asked of a device.

/// The function that reads holding registers.
pub const READ_HOLDING_REGISTERS: u8 = 3;
/// The function that reads input registers.
pub const READ_INPUT_REGISTERS: u8 = 4;
/// The fewest registers of a request.
pub const LEAST_QUANTITY: u8 = 1;
/// The most registers of a request.
pub const MOST_QUANTITY: u8 = 125;

/// A request for registers, and so what its response has to agree with.
#[derive(Clone, Copy, Debug, PartialEq, Eq)]
pub struct Expect {
    /// The number of the transaction, which the response repeats.
    pub transaction: u16,
    /// The unit identifier of the device.
    pub unit: u8,
    /// The function: 3 for holding registers, 4 for input registers.
    pub function: u8,
    /// The first register, counted from 0.
    pub start: u16,
    /// How many registers, from 1 to 125.
    pub quantity: u8,
}
