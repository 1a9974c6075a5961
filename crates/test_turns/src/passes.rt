//! A desk that two callers share: the turn and its passes, and the desk again once both are done.

ghost use Rattle.std.specs.Prelude.{◌≡◌, [], ◌∷◌, IfOk};
ghost use Rattle.desk_turns.specs.Closing.{IsUnused};
ghost use Rattle.desk_turns.specs.Turns.{IsNewPass};
ghost use Rattle.test_turns.specs.Passes.{AreAll};

use crate::desks::{RowDesk, RowDisk};
use desk_turns::close_turn;
use farm_base::NoMemory;
use farm_desk::Found;
use farm_history::Entry;
use farm_turn::{Pass, Turn};
use std::alloc::Global;

/// A desk that is shared by turns.
pub type RowTurn = Turn<RowDesk>;

/// A pass of such a turn.
pub type RowPass = Pass<Entry, Found<RowDisk, 20>>;

/// The number of the first caller, which takes the pass that is split off.
pub const FIRST: u32 = 0;

/// The number of the last caller, which takes the pass that is left.
pub const LAST: u32 = 1;

/// The passes of the two callers of a turn.
#[derive(Drop)]
pub struct Passes {
    /// The first caller's.
    pub first: RowPass,
    /// The last caller's.
    pub last: RowPass,
}

/// Shares a desk that was just made.
pub(crate) fn shared_by_two(alloc: Global, desk: RowDesk) -> Result<(RowTurn, Passes), NoMemory>
    requires unused { IsUnused desk }
    ensures opening { IfOk result (λ made. made.0.opening ≡ desk) }
    ensures first { IfOk result (λ made. IsNewPass made.0 made.1.first FIRST) }
    ensures last { IfOk result (λ made. IsNewPass made.0 made.1.last LAST) }
    ensures all { IfOk result (λ made. AreAll made.0.turn made.1.first made.1.last) }
{
    let (turn, mut last) = match Turn::new(alloc, desk) {
        Ok(opened) => opened,
        Err((desk, no_memory)) => {
            drop(desk);
            return Err(no_memory);
        }
    };
    let Ok(mut first) = turn.split(&mut last) else {
        unreachable!()
    };
    turn.enrol(&mut first);
    turn.enrol(&mut last);
    Ok((turn, Passes { first, last }))
}

// Both passes as a list.
fn listed(alloc: Global, passes: Passes) -> Result<Vec<RowPass>, NoMemory>
    ensures list { IfOk result (λ list. list.items ≡ passes.first ∷ passes.last ∷ []) }
{
    let Passes { first, last } = passes;
    let mut list = Vec::new(alloc);
    list.push(first)?;
    list.push(last)?;
    Ok(list)
}

/// The desk of a turn, taken back with the passes of both callers.
pub(crate) fn closed(alloc: Global, turn: RowTurn, passes: Passes) -> Result<RowDesk, NoMemory>
    requires all { AreAll turn.turn passes.first passes.last }
    requires unused { IsUnused turn.opening }
{
    let Ok(list) = listed(alloc, passes) else {
        drop(turn);
        return Err(NoMemory);
    };
    Ok(close_turn(turn, list))
}
