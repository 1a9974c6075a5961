//! The numbers of the definitions.

ghost use Rattle.std.specs.Prelude.{◌≡◌};
ghost use Rattle.farm_drill.specs.Commands.{first_commands};
ghost use Rattle.farm_drill.specs.Numbers.{commands_before, commands_each, drill_account, drill_caller, drill_party, first_tank, increment, least_level, level_shift, levels, most_drilled, multiplier, tank_shift, tanks_drilled};

use crate::numbers::{
    ACCOUNT, BEFORE, CALLER, EACH, FIRST, FIRST_TANK, INCREMENT, LEAST_LEVEL, LEVEL_SHIFT, LEVELS,
    MOST_DRILLED, MULTIPLIER, PARTY, TANK_SHIFT, TANKS,
};

/// Does nothing: its contract is that each number of this crate is that of the definitions, and so are the first commands.
#[tactic(auto, unfolding(crate::specs::Commands::first_commands))]
pub fn defined_numbers()
    ensures most_drilled { MOST_DRILLED ≡ most_drilled }
    ensures drill_caller { CALLER ≡ drill_caller }
    ensures drill_account { ACCOUNT ≡ drill_account }
    ensures drill_party { PARTY ≡ drill_party }
    ensures first_tank { FIRST_TANK ≡ first_tank }
    ensures tanks_drilled { TANKS ≡ tanks_drilled }
    ensures commands_before { BEFORE ≡ commands_before }
    ensures commands_each { EACH ≡ commands_each }
    ensures multiplier { MULTIPLIER ≡ multiplier }
    ensures increment { INCREMENT ≡ increment }
    ensures tank_shift { TANK_SHIFT ≡ tank_shift }
    ensures level_shift { LEVEL_SHIFT ≡ level_shift }
    ensures least_level { LEAST_LEVEL ≡ least_level }
    ensures levels { LEVELS ≡ levels }
    ensures first_commands { FIRST ≡ first_commands }
{}
