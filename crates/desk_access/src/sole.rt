//! The access of the only caller of a desk.

ghost use Rattle.std.specs.Prelude.{◌≡◌};
ghost use Rattle.desk_access.specs.Sole.{StandsLater, sole_caller};
ghost use Rattle.farm_desk.specs.States.{IsJustMade};
ghost use Rattle.farm_history.specs.History.{last_place};

use crate::DeskAccess;
use crate::stops::has_stop_after;
use farm_desk::{Answer, Desk};
use farm_disk::Disk;
use farm_history::Ask;
use std::marker::Model;

/// The access of the only caller of a desk: each request is judged on the history that the request before left.
///
/// Contracts see the desk, the number of the caller, and whether a Stop was entered since the desk was opened.
#[derive(Drop)]
pub struct SoleAccess<D: Disk, const LIMIT: usize> {
    desk: Desk<D, LIMIT>,
    caller: u32,
    stopped: bool,
}

impl<D: Disk, const LIMIT: usize> Model for SoleAccess<D, LIMIT> {
    ghost use Rattle.desk_access.specs.Sole.{IsSole, SoleState};

    ghost Value = { SoleState D };

    ghost view = { λ access. record { desk = access.desk; caller = access.caller; stopped = access.stopped } };

    ghost invariant = { λ access. IsSole (record { desk = access.desk; caller = access.caller; stopped = access.stopped }) };
}

impl<D: Disk, const LIMIT: usize> SoleAccess<D, LIMIT> {
    /// The access of this caller to a desk that has made no entry since it was opened.
    pub fn new(desk: Desk<D, LIMIT>, caller: u32) -> Self
        requires just_made { IsJustMade D.moment D.faults desk (last_place desk.history) }
        ensures desk { result.desk ≡ desk }
        ensures caller { result.caller ≡ caller }
    {
        SoleAccess {
            desk,
            caller,
            stopped: false,
        }
    }

    /// The desk.
    pub fn into_desk(self) -> Desk<D, LIMIT>
        ensures desk { result ≡ self.desk }
    {
        self.desk
    }
}

impl<D: Disk, const LIMIT: usize> DeskAccess for SoleAccess<D, LIMIT> {
    ghost limit = { LIMIT };

    ghost state = { sole_caller };

    ghost may_follow = { λ seen next. next ≡ seen };

    ghost keeps = { λ before after. StandsLater D.trace D.moment D.faults before.desk after.desk };

    fn access_laws() {}

    fn ask(&mut self, now: i64, ask: &Ask) -> Answer {
        let seen = self.desk.book().entries().len();
        let answer = self.desk.ask(self.caller, now, ask);
        self.stopped |= has_stop_after(seen, self.desk.book().entries());
        answer
    }

    fn look(&mut self) {}

    fn stopped(&self) -> bool {
        self.stopped
    }
}
