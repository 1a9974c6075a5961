//! What a pass knows, in proofs alone.

use std::collections::LinkedList;

/// What one pass knows. No value of it is made.
pub struct Known<E, R> {
    /// The past, as far as the pass has seen it.
    pub seen: LinkedList<E>,
    /// The entries that its own jobs appended, in their order.
    pub own: LinkedList<E>,
    /// Its own caller number, once it is enrolled.
    pub number: Option<u32>,
    /// The least caller number that it has left.
    pub next: u32,
    /// The number after the last one that it has left.
    pub end: u32,
    /// The root of the value that the turn was opened with.
    pub root: Option<R>,
    /// By how much its own jobs raised the value's tally.
    pub tally: u64,
    /// The greatest mark of the value that it has seen.
    pub mark: u64,
    /// The greatest tally of the value that it has seen.
    pub level: u64,
    /// Whether the pass has the turn.
    pub holds: bool,
}

/// What a seat at the table knows: what the passes know that it stands for. No value of it is made.
pub struct View<E, R> {
    pub known: LinkedList<Known<E, R>>,
}
