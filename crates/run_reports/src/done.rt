//! How a run ended.

/// How a run ended.
#[derive(Drop)]
pub struct Done<D> {
    /// The status that the program ends with.
    pub status: u8,
    /// The disk, which each command hands back.
    pub disk: Option<D>,
}
