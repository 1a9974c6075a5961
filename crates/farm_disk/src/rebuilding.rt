//! The bytes that a crash leaves, rebuilt from a disk's writes and syncs.

ghost use Rattle.std.specs.Prelude.{◌≡◌, ◌&&◌, IfOk, OnOk};
ghost use Rattle.farm_disk.specs.Rebuilt.{as_found, filled, found_at, image_by, rebuilt, seen_by};

use crate::bytes_at_offset::overlay;
use crate::{DiskCall, Fill};
use farm_base::NoMemory;
use std::alloc::Global;

// What reads give, and what a crash leaves by a fill, as far as the calls were gone through.
#[derive(Drop)]
struct Rebuilding {
    alloc: Global,
    fill: Fill,
    seen: Vec<u8>,
    image: Vec<u8>,
}

// Puts into an image what a fill leaves where a write has begun.
fn fill_at(
    alloc: Global,
    fill: Fill,
    at: u64,
    bytes: &[u8],
    image: &mut Vec<u8>,
) -> Result<(), NoMemory>
    ensures { OnOk result (image.new.items ≡ filled fill at bytes.now image.old.items) }
{
    match fill {
        Fill::Old => Ok(()),
        Fill::New => overlay(image, at, bytes, 0),
        Fill::Byte(value) => {
            let mut cover = Vec::new(alloc);
            cover.resize(bytes.len(), value)?;
            overlay(image, at, &cover, value)
        }
    }
}

impl Rebuilding {
    // Before the first call.
    fn new(alloc: Global, start: &[u8], fill: Fill) -> Result<Self, NoMemory>
        ensures seen { IfOk result (λ rebuilding. rebuilding.seen.items ≡ start.now) }
        ensures image { IfOk result (λ rebuilding. rebuilding.image.items ≡ start.now) }
        ensures fill { IfOk result (λ rebuilding. rebuilding.fill ≡ fill) }
    {
        Ok(Rebuilding {
            alloc,
            fill,
            seen: start.to_vec(alloc)?,
            image: start.to_vec(alloc)?,
        })
    }

    // Goes through a write.
    fn write(&mut self, at: u64, bytes: &[u8], done: bool) -> Result<(), NoMemory>
        ensures seen { OnOk result (self.new.seen.items ≡ seen_by (DiskCall.Write at bytes.now done) self.old.seen.items) }
        ensures image { OnOk result (self.new.image.items ≡ filled self.old.fill at bytes.now self.old.image.items) }
        ensures fill { self.new.fill ≡ self.old.fill }
    {
        if done {
            overlay(&mut self.seen, at, bytes, 0)?;
        }
        fill_at(self.alloc, self.fill, at, bytes, &mut self.image)
    }

    // Goes through a call that is over or has only begun.
    fn call(&mut self, call: &DiskCall, over: bool) -> Result<(), NoMemory>
        ensures seen { OnOk result (self.new.seen.items ≡ seen_by (as_found over call.now) self.old.seen.items) }
        ensures image { OnOk result (self.new.image.items ≡ image_by self.old.fill (as_found over call.now) self.old.seen.items self.old.image.items) }
        ensures fill { self.new.fill ≡ self.old.fill }
    {
        match call {
            DiskCall::Write { at, bytes, done } => self.write(*at, bytes.get(), over && *done),
            DiskCall::Sync { done } => {
                if over && *done {
                    self.image = self.seen.to_vec(self.alloc)?;
                }
                Ok(())
            }
        }
    }
}

/// What a crash at a moment leaves by a fill, of a disk that held these bytes and then took these calls.
pub(crate) fn image_at(
    alloc: Global,
    start: &[u8],
    calls: &[DiskCall],
    moment: u64,
    fill: Fill,
) -> Result<Vec<u8>, NoMemory>
    ensures { IfOk result (λ image. image.items ≡ rebuilt fill start.now start.now (found_at calls.now moment)) }
{
    let mut rebuilding = Rebuilding::new(alloc, start, fill)?;
    let mut left = moment;
    for call in calls {
        if left == 0 {
            break;
        }
        rebuilding.call(call, left > 1)?;
        left = left.saturating_sub(2);
    }
    Ok(rebuilding.image)
}
