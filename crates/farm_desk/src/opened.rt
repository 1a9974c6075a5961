//! How a desk stood when it was made.

/// How a desk stood when it was made. It stays as it is.
#[derive(Clone, Copy, Debug, PartialEq, Eq)]
pub struct Opened {
    /// How many entries its history had.
    pub entries: u32,
    /// The moment of its disk.
    pub moment: u64,
    /// How many faults its disk had counted.
    pub faults: u64,
}
