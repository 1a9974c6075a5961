//! Commands of rows, and their short lists of numbers.

ghost use Rattle.farm_history.specs.Commands.{IsShortList, IsWellFormedCommand};

use farm_history::{Command, Few, Gauged, Plan};
use farm_ticket::Way;

/// The numbers of a list.
#[derive(Clone, Copy)]
pub enum Numbers {
    /// No numbers.
    Nothing,
    /// One number.
    One(i64),
    /// Two numbers.
    Two(i64, i64),
}

// A list of two numbers, and zeros.
fn two(first: i64, second: i64) -> Few
    ensures { IsShortList result }
{
    Few {
        count: 2,
        values: [first, second, 0, 0, 0, 0, 0, 0],
    }
}

// A list of one number, and zeros.
fn one(number: i64) -> Few
    ensures { IsShortList result }
{
    Few {
        count: 1,
        values: [number, 0, 0, 0, 0, 0, 0, 0],
    }
}

// A list of no numbers.
fn none() -> Few
    ensures { IsShortList result }
{
    Few {
        count: 0,
        values: [0; 8],
    }
}

// The list of these numbers, and zeros.
fn few(numbers: Numbers) -> Few
    ensures { IsShortList result }
{
    match numbers {
        Numbers::Nothing => none(),
        Numbers::One(number) => one(number),
        Numbers::Two(first, second) => two(first, second),
    }
}

// A gauge of a tank at these numbers.
fn gauge(tank: u16, level: i64, water: i64, temperature: i64, ambient: i64) -> Command
    ensures { IsWellFormedCommand result }
{
    Command::Gauge {
        tank,
        level,
        water,
        temperature,
        ambient,
    }
}

// A dip of a tank.
fn dip(tank: u16, outage: bool, tapes: Few, water: Few, temperatures: Few) -> Command
    requires tapes { IsShortList tapes }
    requires water { IsShortList water }
    requires temperatures { IsShortList temperatures }
    ensures { IsWellFormedCommand result }
{
    Command::Dip {
        tank,
        outage,
        tapes,
        water,
        temperatures,
        ambient: 2_000,
    }
}

// A sample of a tank.
fn sample(tank: u16, density: i64, sw: i64) -> Command
    ensures { IsWellFormedCommand result }
{
    Command::Sample { tank, density, sw }
}

/// A command of a row.
#[derive(Clone, Copy)]
pub enum Given {
    /// A gauge of a tank: its level, water, temperature and ambient temperature.
    Gauge(u16, i64, i64, i64, i64),
    /// A sample of tank 101: its density, and its sediment and water.
    Sample(i64, i64),
    /// A dip of tank 101: whether its tapes are outages, the tapes, those of the water, and the temperatures.
    Dip(bool, Numbers, Numbers, Numbers),
    /// A Stop.
    Stop,
    /// A dip of a tank, by two equal tapes, and its temperature: whether the tapes are outages, and what each of them is.
    Tapes(u16, bool, i64, i64),
    /// A sample of a tank: its density, and no sediment and water.
    Density(u16, i64),
    /// A receipt, which is inward, or a delivery is opened: its tank, its party, and what is named for the tank.
    Open(Way, u16, u16, Places),
    /// A transfer from a tank to another is opened: what is named for each.
    Transfer(u16, u16, Places, Places),
    /// The movement of a place is closed: what is named for its tank.
    Close(u32, Places),
    /// The transfer of a place is closed: what is named for each tank.
    CloseBoth(u32, Places, Places),
    /// The movement of a place is given up.
    Cancel(u32),
    /// The ticket of a place is reversed.
    Reverse(u32),
    /// A tank is settled: what is named for it.
    Settle(u16, Places),
}

/// The places of a reading and a sample.
pub type Places = (u32, u32);

// What is named at these places.
fn gauged(places: Places) -> Gauged {
    Gauged {
        reading: places.0,
        sample: places.1,
    }
}

// A receipt or a delivery is opened.
fn opening(way: Way, tank: u16, party: u16, places: Places) -> Command
    ensures { IsWellFormedCommand result }
{
    Command::Opening(Plan::Outside {
        way,
        tank,
        party,
        gauged: gauged(places),
    })
}

// A transfer is opened.
fn transfer(from: u16, to: u16, from_places: Places, to_places: Places) -> Command
    ensures { IsWellFormedCommand result }
{
    Command::Opening(Plan::Transfer {
        from,
        to,
        from_gauged: gauged(from_places),
        to_gauged: gauged(to_places),
    })
}

// A movement is closed.
fn closing(movement: u32, places: Places, second: Option<Gauged>) -> Command
    ensures { IsWellFormedCommand result }
{
    Command::Closing {
        movement,
        first: gauged(places),
        second,
    }
}

// The command of a row that is a movement's, or a Stop.
fn of_movement(given: Given) -> Command
    ensures { IsWellFormedCommand result }
{
    match given {
        Given::Open(way, tank, party, places) => opening(way, tank, party, places),
        Given::Transfer(from, to, from_places, to_places) => {
            transfer(from, to, from_places, to_places)
        }
        Given::Close(movement, places) => closing(movement, places, None),
        Given::CloseBoth(movement, from, to) => closing(movement, from, Some(gauged(to))),
        Given::Cancel(movement) => Command::Cancel { movement },
        Given::Reverse(ticket) => Command::Reverse { ticket },
        Given::Settle(tank, places) => Command::Settle {
            tank,
            gauged: gauged(places),
        },
        _ => Command::Stop,
    }
}

/// The command of a row.
pub(crate) fn command_of(given: Given) -> Command
    ensures { IsWellFormedCommand result }
{
    match given {
        Given::Gauge(tank, level, water, temperature, ambient) => {
            gauge(tank, level, water, temperature, ambient)
        }
        Given::Sample(density, sw) => sample(101, density, sw),
        Given::Dip(outage, tapes, water, temperatures) => {
            dip(101, outage, few(tapes), few(water), few(temperatures))
        }
        Given::Tapes(tank, outage, tape, temperature) => {
            dip(tank, outage, two(tape, tape), none(), one(temperature))
        }
        Given::Density(tank, density) => sample(tank, density, 0),
        _ => of_movement(given),
    }
}
