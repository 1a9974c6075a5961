//! The rules on a gauging, 6 to 8.

ghost use Rattle.std.specs.Prelude.{◌≡◌, None, option_and_then};
ghost use Rattle.farm_book.specs.Judging.{fault_of};
ghost use Rattle.history_lookups.specs.Pasts.{IsReadable};
ghost use Rattle.farm_history.specs.Commands.{IsWellFormedCommand};
ghost use Rattle.farm_history.specs.Fields.{first_bad_field};
ghost use Rattle.farm_history.specs.Gauging.{gauging_after, gauging_in};
ghost use Rattle.farm_history.specs.Rules.{refused_gauging, refused_reading};

use farm_fixed::Reading;
use farm_history::{Command, Rule};
use farm_rounding::RoundTable;
use farm_site::Tank;
use history_lookups::{Past, gauged, tank_of};
use strap_table::CapTable;

/// Why a gauging is refused. Another command than a gauging of a tank of the site isn't.
#[tactic(auto, unfolding(farm_history::specs::Gauging::gauging_after, farm_history::specs::History::tank_after))]
pub(crate) fn refused_gauging(past: &Past<'_>, command: &Command) -> Result<(), Rule>
    requires command { IsWellFormedCommand command.now }
    requires in_range { first_bad_field command.now ≡ None }
    ensures refused { fault_of result ≡ option_and_then refused_gauging (gauging_after past.now command.now) }
{
    let Some(number) = tank_of(command) else {
        return Ok(());
    };
    match past.site.tank(number) {
        Some(tank) => refused_in_tank(&past.site.rounding, tank, command),
        None => Ok(()),
    }
}

// Why a gauging in a tank is refused. A command that is no gauging isn't.
#[tactic(auto, unfolding(farm_history::specs::Rules::refused_gauging))]
fn refused_in_tank(rounding: &RoundTable, tank: &Tank, command: &Command) -> Result<(), Rule>
    requires well_formed { IsWellFormedCommand command.now }
    requires in_range { first_bad_field command.now ≡ None }
    ensures refused { fault_of result ≡ option_and_then refused_gauging (gauging_in rounding.now command.now tank.now) }
{
    match gauged(rounding, tank.spec.height, command) {
        Some(Ok(reading)) => refused_reading(&tank.table, reading),
        Some(Err(fault)) => Err(Rule::Tape(fault)),
        None => Ok(()),
    }
}

// Why a reading is refused: it is above the table, or its water above its level.
fn refused_reading(table: &CapTable, reading: Reading) -> Result<(), Rule>
    ensures refused_reading { fault_of result ≡ refused_reading table.now reading }
{
    let top = table.top() as i64;
    if top < reading.level.get() {
        return Err(Rule::AboveTable);
    }
    if reading.level.get() < reading.water.get() {
        return Err(Rule::WaterAboveLevel);
    }
    Ok(())
}
