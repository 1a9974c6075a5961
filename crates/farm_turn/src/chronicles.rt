//! The values that a turn shares, and the jobs that are done on them.

ghost use Rattle.std.specs.Prelude.{◌≡◌, ◌^◌, ◌<◌, ◌≤◌, ℕ, List, length};
ghost use Rattle.farm_turn.specs.Chronicles.{GrowsBy};

/// A value with a past: a list of fewer than 2^63 entries, each of which has a caller.
///
/// Beside the past it has a root, which no job changes, and a tally and a mark, which no job lowers.
pub trait Chronicle {
    /// An entry of the past.
    type Entry;
    /// What never changes.
    type Root;

    ghost past: { Self → List Self.Entry };

    ghost caller_of: { Self.Entry → ℕ };

    ghost root: { Self → Self.Root };

    ghost tally: { Self → ℕ };

    ghost mark: { Self → ℕ };

    /// How many entries the past has.
    fn len(&self) -> u64
        ensures entries { result ≡ length (past self.now) }
        ensures room { length (past self.now) < 2 ^ 63 }
        ensures mark_within { mark self.now ≤ length (past self.now) };
}

/// A job on a value. `does` says what one run does, of the job, the caller and the value before, and of the job and the value after.
pub trait Job<V: Chronicle> {
    ghost does: { Self → ℕ → V → Self → V → Type 0 };

    /// Does the job once, for the caller with this number.
    fn run(&mut self, caller: u32, value: &mut V)
        ensures does { does self.old caller value.old self.new value.new }
        ensures past { GrowsBy V.caller_of caller (V.past value.old) (V.past value.new) }
        ensures root { V.root value.new ≡ V.root value.old }
        ensures tally { V.tally value.old ≤ V.tally value.new }
        ensures mark { V.mark value.old ≤ V.mark value.new };
}
