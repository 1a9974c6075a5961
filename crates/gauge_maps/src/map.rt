//! Gauge lines, gauges, and the fields among their registers.

ghost use Rattle.std.specs.Prelude.{◌≡◌, IfOk};

use farm_base::{Items, NoMemory};
use std::alloc::Global;

/// A number in the registers that a gauge reads: one word, or two as one number.
///
/// The number is multiplied by `mul` and divided by `div` to the unit of what it measures: 1 mm or 0.01 C.
#[derive(Clone, Copy, Debug, PartialEq, Eq)]
pub struct Field {
    /// Its first register, counted from 0 among those that are read.
    pub offset: u8,
    /// How many registers it has, 1 or 2.
    pub words: u8,
    /// Whether the low word stands first.
    pub swapped: bool,
    /// Whether it is a two's complement number.
    pub signed: bool,
    /// What it is multiplied by, from 1 to 1,000,000.
    pub mul: u32,
    /// What it is divided by, from 1 to 1,000,000.
    pub div: u32,
}

/// The bit that says whether a gauge's reading is valid.
#[derive(Clone, Copy, Debug, PartialEq, Eq)]
pub struct Valid {
    /// Its register, counted from 0 among those that are read.
    pub offset: u8,
    /// Its bit, 0 being the lowest and 15 the highest.
    pub bit: u8,
}

/// Where a tank's gauge stands among the registers of a device.
#[derive(Clone, Copy, Debug, PartialEq, Eq)]
pub struct GaugeMap {
    /// The number of the tank.
    pub tank: u16,
    /// The unit identifier of the device.
    pub unit: u8,
    /// The function by which it is read: 3 for holding registers, 4 for input registers.
    pub function: u8,
    /// The first register that is read, counted from 0.
    pub start: u16,
    /// How many registers are read, from 1 to 125.
    pub quantity: u8,
    /// The level of the liquid, in mm.
    pub level: Field,
    /// The temperature of the liquid, in 0.01 C.
    pub temperature: Field,
    /// The level of the free water, in mm; 0 where the gauge doesn't give it.
    pub water: Option<Field>,
    /// The ambient temperature, in 0.01 C, where the gauge gives it.
    pub ambient: Option<Field>,
    /// The ambient temperature where the gauge doesn't give it, in 0.01 C, from -10,000 to 30,000.
    pub ambient_fixed: i64,
    /// The bit that says whether the reading is valid, where the gauge has one.
    pub valid: Option<Valid>,
    /// By how much a level or the water has to differ from the last submitted, in mm, from 1 to 1,000.
    pub deadband_mm: u16,
    /// By how much the temperature has to differ from the last submitted, in 0.01 C, from 1 to 1,000.
    pub deadband_centi: u16,
}

/// The host of a line: the bytes of an address or a name. In a clause it is the list of them.
pub type Host = Items<u8>;

/// The gauges of a line, in the order of the site file. In a clause it is the list of them.
pub type Gauges = Items<GaugeMap>;

/// A line: a device, and the gauges that it answers for.
#[derive(Debug, Drop)]
pub struct LineMap {
    /// Where the device is.
    pub host: Host,
    /// The port that it listens on, at least 1.
    pub port: u16,
    /// Its gauges, in the order of the site file.
    pub gauges: Gauges,
}

impl LineMap {
    /// A copy of the line.
    pub fn copy(&self, alloc: Global) -> Result<LineMap, NoMemory>
        ensures equal { IfOk result (λ line. line ≡ self.now) }
    {
        Ok(LineMap {
            host: Host::new(self.host.get().to_vec(alloc)?),
            port: self.port,
            gauges: Gauges::new(self.gauges.get().to_vec(alloc)?),
        })
    }
}
