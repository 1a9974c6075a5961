//! What a caller asks of a desk and sees of its history, whether it is the only caller of the desk or one of several.

ghost use Rattle.std.specs.Prelude.{◌≡◌, ℕ, drop};
ghost use Rattle.desk_access.specs.Access.{AreFollowers, CallerState, IsAsked, LooksOn, has_stop};
ghost use Rattle.farm_history.specs.Desk.{IsWellFormedAsk};
ghost use Rattle.farm_history.specs.History.{History};

use farm_desk::Answer;
use farm_history::Ask;

/// The access of one caller to a desk.
///
/// Contracts see what the caller has seen of the desk's history. What others enter between two requests of the caller it sees with its
/// next request, or when it looks.
pub trait DeskAccess {
    /// The desk's history may have this many entries, and Stops beyond them.
    ghost limit: { ℕ };

    /// How the access stands.
    ghost state: { Self → CallerState };

    /// After the caller has seen the first history, its next request may be judged on the second one.
    ghost may_follow: { History → History → Type 0 };

    /// What holds of an access before a call and after it, beside what its state says.
    ghost keeps: { Self → Self → Type 0 };

    /// Does nothing: what holds of every access of this type.
    fn access_laws()
        ensures followers { AreFollowers Self.may_follow }
        ensures keeps_itself { (access : Self) → Self.keeps access access }
        ensures keeps_on { (first second third : Self) → Self.keeps first second → Self.keeps second third → Self.keeps first third };

    /// Asks the desk, at a number of the clock in seconds since 1970-01-01 00:00:00 UTC.
    fn ask(&mut self, now: i64, ask: &Ask) -> Answer
        requires well_formed { IsWellFormedAsk ask.now }
        ensures asked { IsAsked Self.may_follow Self.limit now ask.now result (Self.state self.old) (Self.state self.new) }
        ensures keeps { Self.keeps self.old self.new };

    /// Sees what others have entered by now.
    fn look(&mut self)
        ensures looked { LooksOn Self.may_follow (Self.state self.old) (Self.state self.new) }
        ensures keeps { Self.keeps self.old self.new };

    /// Whether the caller has seen a Stop that was entered since the desk was opened.
    fn stopped(&self) -> bool
        ensures stopped { result ≡ has_stop (drop (Self.state self.now).opened (Self.state self.now).seen.entries) };
}
