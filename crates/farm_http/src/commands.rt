//! The command that a JSON object asks for.

ghost use Rattle.std.specs.Prelude.{◌≡◌, IfSome};
ghost use Rattle.serde_json.specs.View.{view};
ghost use Rattle.farm_history.specs.Commands.{IsWellFormedCommand};
ghost use Rattle.farm_http.specs.Requests.{cancel_of, closing_of, command_of, dip_of, gauge_of, gauged_at, opening_of, is_outage, outside_of, place_at, reverse_of, sample_of, second_of, settle_of, tank_at, transfer_of};

use crate::members::{few_at, natural_at, text_at, whole_at};
use crate::requests::{MOST_PARTY_NUMBER, MOST_PLACE, MOST_TANK_NUMBER};
use farm_history::{Command, Gauged, Plan};
use farm_ticket::Way;
use serde_json::Value;

/// The command that is to be done, by its word.
#[tactic(auto, unfolding(crate::specs::Requests::command_of))]
pub(crate) fn command_of(word: &str, value: &Value) -> Option<Command>
    ensures value { result ≡ command_of word.now (view value.now) }
    ensures well_formed { IfSome result IsWellFormedCommand }
{
    match word {
        "gauge" => gauge_of(value),
        "dip" => dip_of(value),
        "sample" => sample_of(value),
        "open" => opening_of(value),
        "close" => closing_of(value),
        "cancel" => cancel_of(value),
        "reverse" => reverse_of(value),
        "settle" => settle_of(value),
        "stop" => Some(Command::Stop),
        _ => None,
    }
}

// A gauge's reading.
#[tactic(auto, unfolding(crate::specs::Requests::gauge_of))]
fn gauge_of(value: &Value) -> Option<Command>
    ensures value { result ≡ gauge_of (view value.now) }
    ensures well_formed { IfSome result IsWellFormedCommand }
{
    Some(Command::Gauge {
        tank: tank_at(value, "tank")?,
        level: whole_at(value, "level")?,
        water: whole_at(value, "water")?,
        temperature: whole_at(value, "temperature")?,
        ambient: whole_at(value, "ambient")?,
    })
}

// A dip.
#[tactic(auto, unfolding(crate::specs::Requests::dip_of))]
fn dip_of(value: &Value) -> Option<Command>
    ensures value { result ≡ dip_of (view value.now) }
    ensures well_formed { IfSome result IsWellFormedCommand }
{
    Some(Command::Dip {
        tank: tank_at(value, "tank")?,
        outage: is_outage(text_at(value, "kind")?)?,
        tapes: few_at(value, "tapes")?,
        water: few_at(value, "water")?,
        temperatures: few_at(value, "temperatures")?,
        ambient: whole_at(value, "ambient")?,
    })
}

// A sample.
#[tactic(auto, unfolding(crate::specs::Requests::sample_of))]
fn sample_of(value: &Value) -> Option<Command>
    ensures value { result ≡ sample_of (view value.now) }
    ensures well_formed { IfSome result IsWellFormedCommand }
{
    Some(Command::Sample {
        tank: tank_at(value, "tank")?,
        density: whole_at(value, "density")?,
        sw: whole_at(value, "sw")?,
    })
}

// The number of a tank.
#[tactic(auto, unfolding(crate::specs::Requests::tank_at))]
pub(crate) fn tank_at(value: &Value, name: &str) -> Option<u16>
    ensures value { result ≡ tank_at name.now (view value.now) }
{
    let number = natural_at(value, name, 0, u64::from(MOST_TANK_NUMBER))?;
    Some(number as u16)
}

// Whether a dip's tapes are outages, by its kind.
#[tactic(auto, unfolding(crate::specs::Requests::is_outage))]
fn is_outage(kind: &str) -> Option<bool>
    ensures value { result ≡ is_outage kind.now }
{
    match kind {
        "outage" => Some(true),
        "innage" => Some(false),
        _ => None,
    }
}

// A movement that is opened.
#[tactic(auto, unfolding(crate::specs::Requests::opening_of, crate::specs::Requests::opening_by))]
fn opening_of(value: &Value) -> Option<Command>
    ensures value { result ≡ opening_of (view value.now) }
    ensures well_formed { IfSome result IsWellFormedCommand }
{
    match text_at(value, "way")? {
        "receipt" => outside_of(Way::Inward, value),
        "delivery" => outside_of(Way::Outward, value),
        "transfer" => transfer_of(value),
        _ => None,
    }
}

// A receipt or a delivery that is opened.
#[tactic(auto, unfolding(crate::specs::Requests::outside_of))]
fn outside_of(way: Way, value: &Value) -> Option<Command>
    ensures value { result ≡ outside_of way (view value.now) }
    ensures well_formed { IfSome result IsWellFormedCommand }
{
    let tank = tank_at(value, "tank")?;
    let party = natural_at(value, "party", 0, u64::from(MOST_PARTY_NUMBER))?;
    let gauged = gauged_at(value, "reading", "sample")?;
    Some(Command::Opening(Plan::Outside {
        way,
        tank,
        party: party as u16,
        gauged,
    }))
}

// A transfer that is opened.
#[tactic(auto, unfolding(crate::specs::Requests::transfer_of))]
fn transfer_of(value: &Value) -> Option<Command>
    ensures value { result ≡ transfer_of (view value.now) }
    ensures well_formed { IfSome result IsWellFormedCommand }
{
    let from = tank_at(value, "from")?;
    let to = tank_at(value, "to")?;
    let from_gauged = gauged_at(value, "from_reading", "from_sample")?;
    let to_gauged = gauged_at(value, "to_reading", "to_sample")?;
    Some(Command::Opening(Plan::Transfer {
        from,
        to,
        from_gauged,
        to_gauged,
    }))
}

// A movement that is closed.
#[tactic(auto, unfolding(crate::specs::Requests::closing_of))]
fn closing_of(value: &Value) -> Option<Command>
    ensures value { result ≡ closing_of (view value.now) }
    ensures well_formed { IfSome result IsWellFormedCommand }
{
    Some(Command::Closing {
        movement: place_at(value, "movement")?,
        first: gauged_at(value, "reading", "sample")?,
        second: second_of(value)?,
    })
}

// What a Closing names for a second tank. Nothing is named where both members are missing.
#[tactic(auto, unfolding(crate::specs::Requests::second_of))]
fn second_of(value: &Value) -> Option<Option<Gauged>>
    ensures value { result ≡ second_of (view value.now) }
{
    if value.get("to_reading").is_none() && value.get("to_sample").is_none() {
        return Some(None);
    }
    Some(Some(gauged_at(value, "to_reading", "to_sample")?))
}

// A movement that is cancelled.
#[tactic(auto, unfolding(crate::specs::Requests::cancel_of))]
fn cancel_of(value: &Value) -> Option<Command>
    ensures value { result ≡ cancel_of (view value.now) }
    ensures well_formed { IfSome result IsWellFormedCommand }
{
    let movement = place_at(value, "movement")?;
    Some(Command::Cancel { movement })
}

// A ticket that is reversed.
#[tactic(auto, unfolding(crate::specs::Requests::reverse_of))]
fn reverse_of(value: &Value) -> Option<Command>
    ensures value { result ≡ reverse_of (view value.now) }
    ensures well_formed { IfSome result IsWellFormedCommand }
{
    let ticket = place_at(value, "ticket")?;
    Some(Command::Reverse { ticket })
}

// A tank whose book is settled.
#[tactic(auto, unfolding(crate::specs::Requests::settle_of))]
fn settle_of(value: &Value) -> Option<Command>
    ensures value { result ≡ settle_of (view value.now) }
    ensures well_formed { IfSome result IsWellFormedCommand }
{
    Some(Command::Settle {
        tank: tank_at(value, "tank")?,
        gauged: gauged_at(value, "reading", "sample")?,
    })
}

// What is named for a tank: the place of a reading and that of a sample.
#[tactic(auto, unfolding(crate::specs::Requests::gauged_at))]
fn gauged_at(value: &Value, reading: &str, sample: &str) -> Option<Gauged>
    ensures value { result ≡ gauged_at reading.now sample.now (view value.now) }
{
    Some(Gauged {
        reading: place_at(value, reading)?,
        sample: place_at(value, sample)?,
    })
}

/// A place of the history.
#[tactic(auto, unfolding(crate::specs::Requests::place_at))]
pub(crate) fn place_at(value: &Value, name: &str) -> Option<u32>
    ensures value { result ≡ place_at name.now (view value.now) }
{
    let place = natural_at(value, name, 0, u64::from(MOST_PLACE))?;
    Some(place as u32)
}
