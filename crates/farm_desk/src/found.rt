//! What a desk was made with, in proofs alone.

use crate::Opened;
use farm_book::Book;
use farm_disk::Disk;
use std::marker::Model;

/// What a desk was made with: its disk and its book then, and how it stood. It is never made: a desk gives it by its first entries, its
/// numbers and a snapshot of its disk.
#[derive(Drop)]
pub struct Found<D: Disk, const LIMIT: usize> {
    disk: D,
    book: Book<LIMIT>,
    opened: Opened,
}

impl<D: Disk, const LIMIT: usize> Model for Found<D, LIMIT> {
    ghost use Rattle.farm_desk.specs.States.{FoundState};

    ghost Value = { FoundState D };

    ghost view = { λ found. record { disk = found.disk; history = found.book.history; opened = found.opened } };
}
