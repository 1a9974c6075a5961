//! A gauge's registers as numbers: tank, level, free water and temperatures.

/// What a gauge's registers say.
#[derive(Clone, Copy, Debug, PartialEq, Eq)]
pub struct Raw {
    /// The number of the tank.
    pub tank: u16,
    /// The level of the liquid, in mm.
    pub level: i64,
    /// The level of the free water, in mm; 0 where the gauge doesn't give it.
    pub water: i64,
    /// The temperature of the liquid, in 0.01 C.
    pub temperature: i64,
    /// The ambient temperature, in 0.01 C; the fixed one where the gauge doesn't give it.
    pub ambient: i64,
}
