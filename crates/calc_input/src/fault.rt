//! Why an input has no form.

ghost use Rattle.std.specs.Prelude.{◌≡◌};
ghost use Rattle.calc_input.specs.declared.fault.FormFault.TheVariants as variants;

use farm_base::NoMemory;
use std::alloc::{AllocError, AllocFailed};

/// Why there is no form to calculate with.
#[derive(Clone, Copy, Debug, PartialEq, Eq)]
pub enum FormFault {
    /// There was no memory.
    NoMemory,
    /// The line with this number, counted from 1, is the first that isn't what is expected there.
    Line(usize),
}

impl From<AllocError> for FormFault {
    ghost from_gives = { λ _ e. e ≡ variants.NoMemory };

    fn from(_: AllocError) -> Self {
        FormFault::NoMemory
    }
}

impl<T: Drop> From<AllocFailed<T>> for FormFault {
    ghost from_gives = { λ _ e. e ≡ variants.NoMemory };

    fn from(_: AllocFailed<T>) -> Self {
        FormFault::NoMemory
    }
}

impl From<NoMemory> for FormFault {
    ghost from_gives = { λ _ e. e ≡ variants.NoMemory };

    fn from(_: NoMemory) -> Self {
        FormFault::NoMemory
    }
}
