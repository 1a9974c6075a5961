//! What a gauge asks of its device.

/// The registers that a gauge asks of its device.
#[derive(Clone, Copy)]
pub struct Request {
    /// The unit identifier of the device.
    pub unit: u8,
    /// The function: 3 for holding registers, 4 for input registers.
    pub function: u8,
    /// The first register, counted from 0.
    pub start: u16,
    /// How many registers, from 1 to 125.
    pub quantity: u8,
}
