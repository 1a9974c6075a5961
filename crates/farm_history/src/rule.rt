//! The rules that refuse a command.

ghost use Rattle.std.specs.Prelude.{◌≡◌};
ghost use Rattle.farm_history.specs.RuleTable.{rule_number, rule_value};

/// `Rule::Tape`: the tapes are neither two nor three.
pub const TAPE_COUNT: u8 = 1;
/// `Rule::Tape`: two tapes that differ, or three of which two differ by more than 3 mm.
pub const TAPE_SPREAD: u8 = 2;
/// `Rule::Tape`: an outage above the tank's reference height.
pub const BELOW_DATUM: u8 = 3;
/// `Rule::Tape`: the water tapes are neither none, two nor three.
pub const WATER_TAPE_COUNT: u8 = 4;
/// `Rule::Tape`: two water tapes that differ, or three of which two differ by more than 3 mm.
pub const WATER_TAPE_SPREAD: u8 = 5;

/// Why a command is refused. The first rule of the table that it breaks is answered.
///
/// docs/formats.md has the table, with the number of each rule.
#[derive(Clone, Copy, Debug, PartialEq, Eq)]
pub enum Rule {
    /// The account has used the key for another command, at this place.
    KeyReused(u32),
    /// The history has as many entries as it may have.
    HistoryFull,
    /// The site has no tank of a number that is given.
    UnknownTank,
    /// The site has no party of the number that is given.
    UnknownParty,
    /// A field has a number outside the range of its quantity, or is an empty list of temperatures: the first such field.
    OutOfRange(u8),
    /// Tapes give no reading; the number says which and why.
    Tape(u8),
    /// The level is above the last row of the tank's capacity table.
    AboveTable,
    /// The free water is above the level.
    WaterAboveLevel,
    /// A transfer gives one tank twice.
    SameTank,
    /// The two tanks of a transfer hold different products.
    OtherProduct,
    /// A tank is named by the open movement at this place.
    TankBusy(u32),
    /// No movement is open at the place that is named.
    NoMovement,
    /// A place that is named has no reading of the tank, or a Closing names another number of readings than its movement has tanks.
    UnknownReading,
    /// A place that is named has no sample of the tank.
    UnknownSample,
    /// A reading isn't later than the movement's Opening at this place, or is earlier than the reading at this place, which the
    /// last Closing or Settle of the tank used.
    StaleReading(u32),
    /// The factor file has no entry for the density and the temperature.
    NoEntry,
    /// The level is in the critical zone of the floating roof.
    CriticalZone,
    /// The gross observed volume is below zero.
    Negative,
    /// The net standard volume of a tank went the wrong way.
    WrongWay,
    /// No ticket is at the place that is named.
    UnknownTicket,
    /// The ticket was reversed at this place.
    AlreadyReversed(u32),
    /// A tank of the ticket was settled at this place, after the ticket.
    Settled(u32),
}

impl Rule {
    /// The number of the rule in the table.
    pub fn number(&self) -> u8
        ensures number { result ≡ rule_number self.now }
    {
        match self {
            Rule::KeyReused(_) => 1,
            Rule::HistoryFull => 2,
            Rule::UnknownTank => 3,
            Rule::UnknownParty => 4,
            Rule::OutOfRange(_) => 5,
            Rule::Tape(_) => 6,
            Rule::AboveTable => 7,
            Rule::WaterAboveLevel => 8,
            Rule::SameTank => 9,
            Rule::OtherProduct => 10,
            Rule::TankBusy(_) => 11,
            Rule::NoMovement => 12,
            Rule::UnknownReading => 13,
            Rule::UnknownSample => 14,
            Rule::StaleReading(_) => 15,
            Rule::NoEntry => 16,
            Rule::CriticalZone => 17,
            Rule::Negative => 18,
            Rule::WrongWay => 19,
            Rule::UnknownTicket => 20,
            Rule::AlreadyReversed(_) | Rule::Settled(_) => 21,
        }
    }

    /// The place or the number that the rule keeps, 0 where it keeps none.
    pub fn value(&self) -> u32
        ensures value { result ≡ rule_value self.now }
    {
        match self {
            Rule::KeyReused(place)
            | Rule::TankBusy(place)
            | Rule::StaleReading(place)
            | Rule::AlreadyReversed(place)
            | Rule::Settled(place) => *place,
            Rule::OutOfRange(number) | Rule::Tape(number) => u32::from(*number),
            Rule::HistoryFull
            | Rule::UnknownTank
            | Rule::UnknownParty
            | Rule::AboveTable
            | Rule::WaterAboveLevel
            | Rule::SameTank
            | Rule::OtherProduct
            | Rule::NoMovement
            | Rule::UnknownReading
            | Rule::UnknownSample
            | Rule::NoEntry
            | Rule::CriticalZone
            | Rule::Negative
            | Rule::WrongWay
            | Rule::UnknownTicket => 0,
        }
    }
}
