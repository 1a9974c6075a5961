//! Limits of gauge lines.

/// The most bytes of a host.
pub const MOST_HOST_BYTES: usize = 64;

/// The greatest port.
pub const MOST_PORT: u16 = 65_535;

/// The greatest unit identifier.
pub const MOST_UNIT: u8 = 255;

/// The most gauges of a line.
pub const MOST_GAUGES: usize = 16;

/// How many registers a device numbers for one function, the first being 0.
pub const REGISTERS: u32 = 65_536;

/// The most registers that a field has.
pub const MOST_WORDS: u8 = 2;

/// The most that a field's number is multiplied or divided by.
pub const MOST_MULTIPLIER: u32 = 1_000_000;

/// The highest bit of a register, the lowest being 0.
pub const MOST_BIT: u8 = 15;

/// The greatest deadband, in mm or 0.01 C.
pub const MOST_DEADBAND: u16 = 1_000;
