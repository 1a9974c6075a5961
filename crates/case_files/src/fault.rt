//! Why a file or a table of cases can't be read.

use farm_base::NoMemory;
use std::alloc::{AllocError, AllocFailed};
use thiserror::Error;

/// Why a file or a table of cases can't be read. It says what to mend in the file.
#[derive(Debug, Drop, Error)]
pub enum CaseFault {
    /// A file of the folder of the cases can't be read.
    #[error("the file {0} can't be read")]
    Unread(String),
    /// A file of the folder of the cases is too long.
    #[error("the file {0} has more than 16777216 bytes")]
    TooLong(String),
    /// The file isn't TOML.
    #[error("{0}")]
    Form(toml::de::Error),
    /// The table lacks a key that is needed.
    #[error("there is no key {0}")]
    KeyMissing(String),
    /// The table has a key that it can't have.
    #[error("the key {0} is unknown")]
    KeyUnknown(String),
    /// What stands at a key, or in its list, has another type, or is a number outside the key's range.
    #[error("the value of {0} has the wrong type")]
    WrongType(String),
    /// The case names a site that isn't in the list of sites.
    #[error("there is no site {0}")]
    NoSite(String),
    /// The case drops, or replaces a text in, a file that its folder doesn't have.
    #[error("there is no file {0}")]
    NoFile(String),
    /// A text to be replaced doesn't occur exactly once in its file.
    #[error("the text to be replaced doesn't stand once in its file: {0:?}")]
    NotOnce(String),
    /// A text that has to be bytes isn't hexadecimal digits, two a byte.
    #[error("the text isn't hexadecimal digits, two a byte: {0:?}")]
    NotDigits(String),
    /// A text is no call of a link.
    #[error("there is no call {0:?}")]
    NoCall(String),
    /// The call is out of memory.
    #[error("no memory")]
    NoMemory,
}

impl From<NoMemory> for CaseFault {
    fn from(_: NoMemory) -> Self {
        CaseFault::NoMemory
    }
}

impl From<toml::de::Error> for CaseFault {
    fn from(error: toml::de::Error) -> Self {
        if error.is_memory() {
            CaseFault::NoMemory
        } else {
            CaseFault::Form(error)
        }
    }
}

impl From<AllocError> for CaseFault {
    fn from(_: AllocError) -> Self {
        CaseFault::NoMemory
    }
}

impl<T: Drop> From<AllocFailed<T>> for CaseFault {
    fn from(_: AllocFailed<T>) -> Self {
        CaseFault::NoMemory
    }
}
