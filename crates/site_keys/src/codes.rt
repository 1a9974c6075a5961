//! The codes of faults.

/// A file that isn't TOML or CSV.
pub const TEXT: u8 = 1;
/// A needed key that is missing, a value of the wrong type, or a record that isn't due.
pub const FIELD: u8 = 2;
/// A value outside its range.
pub const RANGE: u8 = 3;
/// A number that stands earlier in its list, or a second gauge on a tank.
pub const REPEATED: u8 = 4;
/// A product or a tank that isn't there.
pub const UNKNOWN: u8 = 5;
/// A strapping that is refused.
pub const STRAP: u8 = 6;
/// Rows that are no capacity table.
pub const TABLE: u8 = 7;
/// A factor file that is refused.
pub const FACTORS: u8 = 8;
/// A list that is too long, or empty where it may not be.
pub const TOO_MANY: u8 = 9;
/// A file that is too long.
pub const TOO_LONG: u8 = 10;
