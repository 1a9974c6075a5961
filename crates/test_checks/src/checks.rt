//! The comparisons of a test.

ghost use Rattle.std.specs.Prelude.{◌≡◌, ◌↔◌, ℕ, IfErr, IsOk};
ghost use Rattle.test_checks.specs.Counting.{counted};

use crate::differing::Differing;
use std::fmt::{Debug, Display};
use std::marker::Model;

/// The comparisons of a test, and how many of them differ.
#[derive(Drop)]
pub struct Checks<'a, R> {
    rt: &'a R,
    differing: u64,
}

impl<'a, R> Model for Checks<'a, R> {
    ghost Value = { ℕ };

    ghost view = { λ checks. checks.differing };
}

impl<'a, R: Print> Checks<'a, R> {
    /// No comparison yet. What differs is printed by a runtime.
    pub fn new(rt: &'a R) -> Self
        ensures none { result ≡ 0 }
    {
        Checks { rt, differing: 0 }
    }

    /// Compares what came with what is wanted, and prints both where they differ.
    pub fn same<T: PartialEq + Debug + Drop>(&mut self, came: T, wanted: T)
        ensures counted { self.new ≡ counted (T.eq came wanted) self.old }
    {
        self.same_at("a comparison", came, wanted);
    }

    /// The same of a case, which is printed with them.
    pub fn same_at<N: Display + Drop, T: PartialEq + Debug + Drop>(
        &mut self,
        case: N,
        came: T,
        wanted: T,
    )
        ensures counted { self.new ≡ counted (T.eq came wanted) self.old }
    {
        if came != wanted {
            let _ = println!(self.rt; "{case}: {came:?} came, and {wanted:?} is wanted");
            self.differing = self.differing.saturating_add(1);
        }
    }

    /// Whether each comparison held.
    pub fn end(self) -> Result<(), Differing>
        ensures held { IsOk result ↔ (self.entry ≡ 0) }
        ensures differing { IfErr result (λ why. why.0 ≡ self.entry) }
    {
        match self.differing {
            0 => Ok(()),
            count => Err(Differing(count)),
        }
    }
}
