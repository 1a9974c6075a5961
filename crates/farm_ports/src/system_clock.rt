//! The clock of the system.

ghost use Rattle.std.specs.Prelude.{◌≡◌};

use crate::Clock;
use std::marker::Model;
use std::time;

/// The clock of a runtime. Nothing is known of what it gives.
///
/// A moment before 1970 is given as 0, and so is that of a clock that can't be read; one beyond `i64` as the last `i64`.
#[derive(Drop)]
pub struct SystemClock<R> {
    rt: R,
}

impl<R> Model for SystemClock<R> {
    ghost Value = { R };

    ghost view = { λ clock. clock.rt };
}

impl<R: time::Clock> SystemClock<R> {
    /// The clock of this runtime.
    pub fn new(rt: R) -> Self
        ensures runtime { result ≡ rt }
    {
        SystemClock { rt }
    }
}

impl<R: time::Clock> Clock for SystemClock<R> {
    ghost may_give = { λ _ _. Unit {0} };

    fn now(&self) -> i64 {
        match self.rt.since_1970() {
            Ok(since) => i64::try_from(since.as_secs()).unwrap_or(i64::MAX),
            Err(_) => 0,
        }
    }
}
