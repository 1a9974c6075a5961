//! The access of one of the callers of a desk.

ghost use Rattle.std.specs.Prelude.{◌≡◌, ℕ, false, length};
ghost use Rattle.desk_access.specs.Access.{Continues};
ghost use Rattle.desk_turns.specs.Turns.{IsNewPass, IsTurnAccess, StaysAtTurn, turn_caller};
ghost use Rattle.farm_history.specs.History.{last_place};

use crate::asking::AskJob;
use crate::looking::LookJob;
use boxed_disk::BoxedDisk;
use desk_access::DeskAccess;
use farm_desk::{Answer, Desk, Found};
use farm_disk::Disk;
use farm_history::{Ask, Entry};
use farm_turn::{Pass, Turn};
use std::marker::Model;
use std::sync::Wait;

/// The access of one of the callers of a desk: each request and each look is a turn of its pass.
///
/// A request is judged on a history that continues what the caller has seen; what others entered in between it sees with its answer.
/// Contracts see the turn, what the pass knows, the number of the caller, how many of its answers were faults of the disk, and whether it
/// has seen a Stop that was entered since the desk was opened. It may wait.
#[derive(Drop)]
pub struct TurnAccess<'t, R: Wait, D: Disk, const LIMIT: usize> {
    rt: &'t R,
    turn: &'t Turn<Desk<BoxedDisk<D>, LIMIT>>,
    pass: Pass<Entry, Found<BoxedDisk<D>, LIMIT>>,
    caller: u32,
    looked: usize,
    faulted: u64,
    stopped: bool,
}

impl<'t, R: Wait, D: Disk, const LIMIT: usize> Model for TurnAccess<'t, R, D, LIMIT> {
    ghost use Rattle.boxed_disk.specs.declared.boxed.BoxedDisk.{BoxedDisk};
    ghost use Rattle.desk_turns.specs.Turns.{IsTurnAccess, TurnState};

    ghost Value = { TurnState (BoxedDisk D) };

    ghost view = { λ access. record { turn = access.turn.now; pass = access.pass; caller = access.caller; faulted = access.faulted; stopped = access.stopped } };

    ghost invariant = { λ access. IsTurnAccess (record { turn = access.turn.now; pass = access.pass; caller = access.caller; faulted = access.faulted; stopped = access.stopped }) access.looked };
}

impl<'t, R: Wait, D: Disk, const LIMIT: usize> TurnAccess<'t, R, D, LIMIT> {
    /// The access of the caller with this number, whose pass has taken no turn of a desk that was opened with this many entries.
    #[tactic(auto, using(crate::proofs::Opening::new_stands))]
    pub fn new(
        rt: &'t R,
        turn: &'t Turn<Desk<BoxedDisk<D>, LIMIT>>,
        pass: Pass<Entry, Found<BoxedDisk<D>, LIMIT>>,
        caller: u32,
        opened: usize,
    ) -> Self
        requires new { IsNewPass turn.now pass caller }
        requires opened { opened ≡ last_place turn.now.opening.history }
        ensures turn { result.turn ≡ turn.now }
        ensures pass { result.pass ≡ pass }
        ensures caller { result.caller ≡ caller }
        ensures faulted { result.faulted ≡ 0 }
        ensures not_stopped { result.stopped ≡ false }
    {
        TurnAccess {
            rt,
            turn,
            pass,
            caller,
            looked: opened,
            faulted: 0,
            stopped: false,
        }
    }

    /// Its pass, with which the turn can be closed.
    pub fn into_pass(self) -> Pass<Entry, Found<BoxedDisk<D>, LIMIT>>
        ensures pass { result ≡ self.entry.pass }
        ensures stands { IsTurnAccess self.entry (length self.entry.pass.known.seen) }
    {
        self.pass
    }
}

impl<'t, R: Wait, D: Disk, const LIMIT: usize> DeskAccess for TurnAccess<'t, R, D, LIMIT> {
    ghost limit = { LIMIT };

    ghost state = { turn_caller };

    ghost may_follow = { Continues };

    ghost keeps = { StaysAtTurn };

    fn access_laws() {}

    fn ask(&mut self, now: i64, ask: &Ask) -> Answer {
        let mut job = AskJob::new(ask, now, self.looked);
        self.turn.turn(self.rt, &mut self.pass, &mut job);
        let answer = job.answer();
        self.looked = job.looked();
        self.stopped |= job.stopped();
        self.faulted = self.faulted.saturating_add(answer.faults());
        answer
    }

    fn look(&mut self) {
        let mut job = LookJob {
            looked: self.looked,
            stopped: false,
        };
        self.turn.turn(self.rt, &mut self.pass, &mut job);
        self.looked = job.looked;
        self.stopped |= job.stopped;
    }

    fn stopped(&self) -> bool {
        self.stopped
    }
}
