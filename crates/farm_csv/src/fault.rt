//! Why a text gives no rows.

ghost use Rattle.std.specs.Prelude.{◌≡◌};
ghost use Rattle.farm_csv.specs.declared.fault.CsvFault.TheVariants.{NoMemory};

use std::alloc::AllocFailed;
use thiserror::Error;

/// Why a text gives no rows. `Uneven` comes before `NoRow`, wherever the record of another length stands.
#[derive(Clone, Copy, Debug, PartialEq, Eq, Error)]
pub enum CsvFault {
    /// Some record has another number of fields than the header.
    #[error("a record has another number of fields than the header")]
    Uneven,
    /// This record is the first that is no row, counted from 1 below the header.
    #[error("record {0} is no row")]
    NoRow(usize),
    /// There was no memory for the work.
    #[error("no memory")]
    NoMemory,
}

impl<T: Drop> From<AllocFailed<T>> for CsvFault {
    ghost from_gives = { λ _ fault. fault ≡ NoMemory };

    fn from(_: AllocFailed<T>) -> Self {
        CsvFault::NoMemory
    }
}
