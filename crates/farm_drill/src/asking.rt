//! Commands of a drill, asked of its desk one after another.

ghost use Rattle.std.specs.Prelude.{◌≡◌, ◌+◌, ◌*◌, ◌<◌, ◌≤◌, ◌^◌, All, OnOk, false, length};
ghost use Rattle.farm_drill.specs.Commands.{drill_commands, movements_from, next_commands, next_course};
ghost use Rattle.farm_drill.specs.Drills.{after_command, after_commands};
ghost use Rattle.farm_drill.specs.Numbers.{most_drilled};
ghost use Rattle.farm_history.specs.Commands.{IsWellFormedCommand};

use crate::course::Course;
use crate::numbers::{ACCOUNT, CALLER, FIRST};
use farm_base::NoMemory;
use farm_desk::{Answer, Desk};
use farm_disk::MemDisk;
use farm_history::{Ask, Command};

/// Asks the commands of a drill of a seed and this many movements.
pub(crate) fn ask_drill<const LIMIT: usize>(
    desk: &mut Desk<MemDisk, LIMIT>,
    seed: u64,
    count: u32,
) -> Result<(), NoMemory>
    requires certain { desk.old.doubt ≡ false }
    requires few { count ≤ most_drilled }
    ensures certain { OnOk result (desk.new.doubt ≡ false) }
    ensures history { OnOk result (desk.new.history ≡ after_commands LIMIT desk.old.history 1 (drill_commands seed count)) }
{
    ask_all(desk, 1, &FIRST)?;
    ask_movements(desk, Course::new(seed), count)
}

// Asks the commands of the next movements, this many.
#[tactic(auto, using(crate::proofs::AskingOn::after_more), unfolding(crate::specs::Commands::movements_from))]
fn ask_movements<const LIMIT: usize>(
    desk: &mut Desk<MemDisk, LIMIT>,
    start: Course,
    count: u32,
) -> Result<(), NoMemory>
    requires certain { desk.old.doubt ≡ false }
    requires few { start.asked + 3 * count < 2 ^ 32 }
    ensures certain { OnOk result (desk.new.doubt ≡ false) }
    ensures history { OnOk result (desk.new.history ≡ after_commands LIMIT desk.old.history (start.asked + 1) (movements_from count start)) }
{
    let mut course = start;
    for _ in 0..count {
        ask_movement(desk, &mut course)?;
    }
    Ok(())
}

// Asks the commands of the next movement.
fn ask_movement<const LIMIT: usize>(
    desk: &mut Desk<MemDisk, LIMIT>,
    course: &mut Course,
) -> Result<(), NoMemory>
    requires certain { desk.old.doubt ≡ false }
    requires few { course.old.asked + 3 < 2 ^ 32 }
    ensures certain { OnOk result (desk.new.doubt ≡ false) }
    ensures course { course.new ≡ next_course course.old }
    ensures history { OnOk result (desk.new.history ≡ after_commands LIMIT desk.old.history (course.old.asked + 1) (next_commands course.old)) }
{
    let place = course.asked + 1;
    let commands = course.next();
    ask_all(desk, place, &commands)
}

// Asks commands one after another, the first of them the one of this place.
#[tactic(auto, unfolding(crate::specs::Drills::after_commands))]
fn ask_all<const LIMIT: usize>(
    desk: &mut Desk<MemDisk, LIMIT>,
    place: u32,
    commands: &[Command],
) -> Result<(), NoMemory>
    requires certain { desk.old.doubt ≡ false }
    requires well_formed { All IsWellFormedCommand commands.now }
    requires few { place + length commands.now ≤ 2 ^ 32 }
    ensures certain { OnOk result (desk.new.doubt ≡ false) }
    ensures history { OnOk result (desk.new.history ≡ after_commands LIMIT desk.old.history place commands.now) }
{
    for (index, command) in commands.iter().enumerate() {
        ask(desk, place + index as u32, *command)?;
    }
    Ok(())
}

// Asks the command of a place.
#[tactic(auto, unfolding(crate::specs::Drills::after_command))]
fn ask<const LIMIT: usize>(
    desk: &mut Desk<MemDisk, LIMIT>,
    place: u32,
    command: Command,
) -> Result<(), NoMemory>
    requires certain { desk.old.doubt ≡ false }
    requires well_formed { IsWellFormedCommand command }
    ensures certain { OnOk result (desk.new.doubt ≡ false) }
    ensures history { OnOk result (desk.new.history ≡ after_command LIMIT desk.old.history place command) }
{
    let ask = Ask::Do {
        account: ACCOUNT,
        key: u64::from(place),
        cmd: command,
    };
    match desk.ask(CALLER, i64::from(place), &ask) {
        Answer::Done(_) => Ok(()),
        Answer::DiskFault | Answer::NoMemory => Err(NoMemory),
    }
}
