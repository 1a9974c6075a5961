//! Calls of a disk as rows, each with its name and what it answers.

use farm_disk::{Disk, Stand};
use farm_ports::Failed;
use test_checks::{Checks, shared};

/// A call of a disk, and what it answers.
#[derive(Clone, Copy)]
pub enum Call {
    /// How many bytes it holds.
    Len(Result<u64, Failed>),
    /// A read at an offset into the buffer: how many bytes it gives.
    Read(u64, Result<usize, Failed>),
    /// What the buffer holds.
    Holds(&'static [u8]),
    /// A read at offset 0: the bytes that it gives.
    Seen(&'static [u8]),
    /// A write at an offset.
    Write(u64, &'static [u8], Result<(), Failed>),
    /// A sync.
    Sync(Result<(), Failed>),
    /// Where the disk stands: its moment and its faults.
    Stands(u64, u64),
    /// How many faults it has counted.
    Faults(u64),
}

/// Calls in their order, each with its name.
pub type Calls = &'static [(&'static str, Call)];

// The bytes of a read at offset 0.
fn seen<'b, D: Disk>(disk: &mut D, buffer: &'b mut [u8]) -> Result<&'b [u8], Failed> {
    let count = disk.read_at(0, buffer)?;
    Ok(&buffer[..count])
}

/// One call of a disk, with a buffer for a read, answers as its row says.
pub(crate) fn check_call<D: Disk, R: Print>(
    checks: &mut Checks<'_, R>,
    disk: &mut D,
    buffer: &mut [u8],
    name: &str,
    call: Call,
) {
    match call {
        Call::Len(want) => checks.same_at(name, disk.len(), want),
        Call::Read(at, want) => checks.same_at(name, disk.read_at(at, buffer), want),
        Call::Holds(want) => checks.same_at(name, &*buffer, want),
        Call::Seen(want) => checks.same_at(name, seen(disk, buffer), Ok(want)),
        Call::Write(at, bytes, want) => checks.same_at(name, disk.write_at(at, bytes), want),
        Call::Sync(want) => checks.same_at(name, disk.sync(), want),
        Call::Stands(moment, faults) => {
            checks.same_at(name, shared(disk.stand()), Stand { moment, faults });
        }
        Call::Faults(want) => checks.same_at(name, disk.stand().faults, want),
    }
}

/// Calls of a disk, with a buffer for its reads, answer as their rows say.
pub(crate) fn check_calls<D: Disk, R: Print>(
    checks: &mut Checks<'_, R>,
    disk: &mut D,
    buffer: &mut [u8],
    calls: Calls,
) {
    for (name, call) in calls {
        check_call(checks, disk, buffer, name, *call);
    }
}
