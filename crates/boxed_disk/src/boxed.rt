//! A disk on the heap: a call on it is the same call on the disk in the box.

ghost use Rattle.std.specs.Prelude.{◌≡◌, IfErr, IfOk};

use farm_disk::{Disk, Stand};
use farm_ports::Failed;
use std::alloc::Global;

/// A disk on the heap. It is as large as a pointer, whatever the disk's type, so that the size of a desk over it is known.
#[derive(Drop)]
pub struct BoxedDisk<D> {
    /// The disk.
    pub disk: Box<D>,
}

impl<D> BoxedDisk<D> {
    /// Moves a disk to the heap; without memory it is given back.
    pub fn new(alloc: Global, disk: D) -> Result<Self, D>
        ensures moved { IfOk result (λ boxed. boxed.disk.value ≡ disk) }
        ensures given_back { IfErr result (λ left. left ≡ disk) }
    {
        match Box::new(alloc, disk) {
            Ok(disk) => Ok(BoxedDisk { disk }),
            Err(refused) => Err(refused.value),
        }
    }

    /// Moves the disk from the heap.
    pub fn into_inner(self) -> D
        ensures disk { result ≡ self.disk.value }
    {
        Box::into_inner(self.disk)
    }
}

impl<D: Disk> Disk for BoxedDisk<D> {
    ghost trace = { λ boxed. D.trace boxed.disk.value };

    ghost moment = { λ boxed. D.moment boxed.disk.value };

    ghost faults = { λ boxed. D.faults boxed.disk.value };

    fn len(&mut self) -> Result<u64, Failed> {
        self.disk.len()
    }

    fn read_at(&mut self, at: u64, into: &mut [u8]) -> Result<usize, Failed> {
        self.disk.read_at(at, into)
    }

    fn write_at(&mut self, at: u64, bytes: &[u8]) -> Result<(), Failed> {
        self.disk.write_at(at, bytes)
    }

    fn sync(&mut self) -> Result<(), Failed> {
        self.disk.sync()
    }

    fn stand(&self) -> Stand {
        self.disk.stand()
    }
}
