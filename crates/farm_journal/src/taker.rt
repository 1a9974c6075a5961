//! Who takes what is recovered of a journal.

ghost use Rattle.std.specs.Prelude.{◌≡◌, ◌≢◌, ◌≤◌, List, [], length, ℕ};
ghost use Rattle.farm_journal.specs.Recovery.{Accepts, IsJudged, TakesNext};
ghost use Rattle.farm_journal.specs.declared.limits.TheConstants.{MAX_BODIES};
ghost use Rattle.farm_journal.specs.declared.taker.Taken.TheVariants.{Go};

/// What a taker answers.
#[derive(Clone, Copy, Debug, PartialEq, Eq)]
pub enum Taken {
    /// It has taken the bytes.
    Go,
    /// It refuses the bytes.
    Bad,
    /// There was no memory to take them.
    NoMemory,
}

/// Takes the header of a journal and then its bodies, in their order, and judges each by those before it.
///
/// A taker that has answered `Bad` or `NoMemory` is given up.
pub trait Taker {
    /// What it has taken: nothing, or the header and then bodies.
    ghost taken: { Self → List (List ℕ) };

    /// Whether a taker that has taken these accepts such bytes next.
    ghost accepts: { Accepts };

    /// Takes the header.
    fn header(&mut self, bytes: &[u8]) -> Taken
        requires first { Self.taken self.old ≡ [] }
        ensures judged { IsJudged (Self.accepts (Self.taken self.old) bytes.now) result }
        ensures taken { TakesNext (Self.taken self.old) (Self.taken self.new) bytes.now result };

    /// Takes a body. Its place is 1 for the first one.
    fn body(&mut self, place: u32, bytes: &[u8]) -> Taken
        requires next { length (Self.taken self.old) ≡ place }
        requires after_header { Self.taken self.old ≢ [] }
        ensures judged { IsJudged (Self.accepts (Self.taken self.old) bytes.now) result }
        ensures taken { TakesNext (Self.taken self.old) (Self.taken self.new) bytes.now result }
        ensures last_place { result ≡ Go → place ≤ MAX_BODIES };
}
