//! Disks, by the states that they have had.

ghost use Rattle.std.specs.Prelude.{◌≡◌, ◌+◌, ℕ, List, OnErr, OnOk, Option, length};
ghost use Rattle.farm_base.specs.Counts.{CountsOnce};
ghost use Rattle.farm_base.specs.Known.{WhereKnown};
ghost use Rattle.farm_disk.specs.Calls.{Measures, Passes, Reads, Syncs, Writes};
ghost use Rattle.farm_disk.specs.Images.{IsCrashImage, State, present};
ghost use Rattle.farm_disk.specs.Laws.{AddedIsPresent, BegunKeepsImages, BegunReaches, EmptyWriteChangesNothing, PastStays, SyncLeavesOne, SyncedIsImage, SyncedIsOne, WrittenIsImage, WrittenOver, WrittenReaches};

use farm_ports::Failed;

/// Where a disk stands: its moment, and how many faults it has counted.
#[derive(Clone, Copy, Debug, PartialEq, Eq)]
pub struct Stand {
    /// How many moments have passed since the first one.
    pub moment: u64,
    /// How many faults it has counted. The count stands still at the last `u64`.
    pub faults: u64,
}

/// A disk: bytes that last across a crash once they are synced. A call that fails counts one fault, and no other call counts any.
pub trait Disk {
    /// Its states from the first moment on, the last one the present, where they are known.
    ghost trace: { Self → Option (List State) };

    /// The present moment. The first one is 0.
    ghost moment: { Self → ℕ };

    /// How many faults it has counted. The count stands still at the last `u64`.
    ghost faults: { Self → ℕ };

    /// How many bytes it holds.
    fn len(&mut self) -> Result<u64, Failed>
        ensures size { Measures (Self.trace self.old) (Self.trace self.new) result }
        ensures moment { Passes (Self.trace self.old) (Self.trace self.new) (Self.moment self.old) (Self.moment self.new) }
        ensures counts { CountsOnce (Self.faults self.old) (Self.faults self.new) result };

    /// Reads bytes from an offset on into the front of `into`, and says how many; 0 for a buffer that has room is the end.
    fn read_at(&mut self, at: u64, into: &mut [u8]) -> Result<usize, Failed>
        ensures bytes { Reads (Self.trace self.old) (Self.trace self.new) at into.new result }
        ensures moment { Passes (Self.trace self.old) (Self.trace self.new) (Self.moment self.old) (Self.moment self.new) }
        ensures counts { CountsOnce (Self.faults self.old) (Self.faults self.new) result };

    /// Writes all of `bytes` at an offset, over what is there and past the end, with zeros up to an offset past the end. A write
    /// without a byte takes its two moments and changes nothing.
    ///
    /// Before the next sync that succeeds, a crash may leave any bytes in the place of these, also after an error.
    fn write_at(&mut self, at: u64, bytes: &[u8]) -> Result<(), Failed>
        ensures states { Writes (Self.trace self.old) (Self.trace self.new) at bytes.now result }
        ensures moment { Passes (Self.trace self.old) (Self.trace self.new) (Self.moment self.old) (Self.moment self.new) }
        ensures counts { CountsOnce (Self.faults self.old) (Self.faults self.new) result };

    /// Makes what reads give last: from then on a crash leaves it, but for the writes that begin later.
    fn sync(&mut self) -> Result<(), Failed>
        ensures states { Syncs (Self.trace self.old) (Self.trace self.new) result }
        ensures moment { Passes (Self.trace self.old) (Self.trace self.new) (Self.moment self.old) (Self.moment self.new) }
        ensures counts { CountsOnce (Self.faults self.old) (Self.faults self.new) result };

    /// Where it stands. What reads give is among what a crash at this moment may leave.
    fn stand(&self) -> Stand
        ensures moment { result.moment ≡ Self.moment self.now }
        ensures faults { result.faults ≡ Self.faults self.now }
        ensures states { WhereKnown (Self.trace self.now) (λ states. length states ≡ result.moment + 1) }
        ensures image { WhereKnown (Self.trace self.now) (λ states. IsCrashImage (present states) (present states).seen) };
}

/// Does nothing: its contract is what holds of the images of every disk.
pub fn disk_laws()
    ensures synced_is_one { SyncedIsOne }
    ensures sync_leaves_one { SyncLeavesOne }
    ensures synced_is_image { SyncedIsImage }
    ensures begun_keeps_images { BegunKeepsImages }
    ensures written_is_image { WrittenIsImage }
    ensures empty_write { EmptyWriteChangesNothing }
    ensures begun_reaches { BegunReaches }
    ensures written_reaches { WrittenReaches }
    ensures written_over { WrittenOver }
    ensures added_is_present { AddedIsPresent }
    ensures past_stays { PastStays }
{}
