//! Commands of the desk.

ghost use Rattle.std.specs.Prelude.{◌≡◌};
ghost use Rattle.farm_history.specs.Commands.{is_stop};

use crate::{Few, Gauged, Plan};

/// What a caller asks the desk to record. Numbers are whole and in the units of their quantities: heights in mm, temperatures
/// in 0.01 C, densities in 0.1 kg/m3, sediment and water in 0.001 percent.
///
/// A number that is outside the range of its quantity is refused by a rule and not by its type.
#[derive(Clone, Copy, Debug, PartialEq, Eq)]
pub enum Command {
    /// What an automatic gauge reads.
    Gauge {
        /// The number of the tank.
        tank: u16,
        /// The level, an innage.
        level: i64,
        /// The free water, an innage.
        water: i64,
        /// The liquid's temperature.
        temperature: i64,
        /// The ambient temperature.
        ambient: i64,
    },
    /// What was gauged by tape, in the manner of API MPMS 3.1A.
    Dip {
        /// The number of the tank.
        tank: u16,
        /// Whether the tapes are outages, and not innages.
        outage: bool,
        /// The tape readings of the liquid's surface.
        tapes: Few,
        /// The tape readings of the free water, innages; no readings for no water.
        water: Few,
        /// The liquid's temperatures.
        temperatures: Few,
        /// The ambient temperature.
        ambient: i64,
    },
    /// What a sample of a tank's liquid says.
    Sample {
        /// The number of the tank.
        tank: u16,
        /// The density at 15 C.
        density: i64,
        /// Sediment and water.
        sw: i64,
    },
    /// A movement is opened.
    Opening(Plan),
    /// A movement is closed, which issues its ticket.
    Closing {
        /// The place of the movement's Opening.
        movement: u32,
        /// What the first tank's figures at closing are computed from.
        first: Gauged,
        /// The same of the second tank of a transfer.
        second: Option<Gauged>,
    },
    /// A movement is given up.
    Cancel {
        /// The place of the movement's Opening.
        movement: u32,
    },
    /// A ticket is reversed by one of opposite sign.
    Reverse {
        /// The place of the Closing that issued it.
        ticket: u32,
    },
    /// The book of a tank is brought to what was gauged, and the difference is recorded as a gain.
    Settle {
        /// The number of the tank.
        tank: u16,
        /// What its figures are computed from.
        gauged: Gauged,
    },
    /// The end of the desk's work.
    Stop,
}

impl Command {
    /// Whether it is a Stop.
    pub fn is_stop(&self) -> bool
        ensures stop { result ≡ is_stop self.now }
    {
        matches!(self, Command::Stop)
    }
}
