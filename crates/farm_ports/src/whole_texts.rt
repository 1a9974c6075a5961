//! All of a text into a sink, and up to a number of bytes out of a source.

ghost use Rattle.std.specs.Prelude.{◌≡◌, ◌≢◌, ℕ, ◌+◌, ◌<◌, ◌≤◌, List, length, vec_len, IfOk, OnErr, OnOk};
ghost use Rattle.farm_base.specs.Counts.{Counts, CountsIf};
ghost use Rattle.farm_base.specs.Known.{Takes};
ghost use Rattle.farm_ports.specs.Ports.{PutsAll, ReadsOn, ReadsUpTo};

use crate::{Failed, PortFault, Sink, Source};
use std::alloc::Global;

// How many bytes of stack a read uses: what it takes passes through them on its way to memory.
const CHUNK: usize = 8_192;

/// Puts all of a text into a sink, or fails with a prefix of it put.
pub fn put_all<K: Sink>(sink: &mut K, text: &[u8]) -> Result<(), Failed>
    ensures bytes { PutsAll (K.held sink.old) (K.held sink.new) text.now result }
    ensures stream { K.stream sink.new ≡ K.stream sink.old }
    ensures counts { Counts (K.faults sink.old) (K.faults sink.new) result }
{
    let mut done = 0;
    while done < text.len() {
        done += sink.put(&text[done..])?;
    }
    Ok(())
}

/// Reads up to `most` bytes, and fewer only where the source ends before.
///
/// At an error the source has given bytes that are lost.
pub fn read_up_to<S: Source>(
    alloc: Global,
    source: &mut S,
    most: usize,
) -> Result<Vec<u8>, PortFault>
    ensures read { IfOk result (λ v. ReadsUpTo (S.stream source.old) (S.stream source.new) most v.items) }
    ensures front { OnErr result ((bytes : List ℕ) × (length bytes ≤ most) × Takes (S.stream source.old) (S.stream source.new) bytes) }
    ensures held { S.held source.new ≡ S.held source.old }
    ensures counts { CountsIf (result ≡ Err PortFault.Failed) (S.faults source.old) (S.faults source.new) }
{
    let mut bytes = Vec::new(alloc);
    while bytes.len() < most {
        if read_on(source, &mut bytes, most)? == 0 {
            break;
        }
    }
    Ok(bytes)
}

// Reads once, to the end of `bytes`, and says how many came; 0 is the end.
fn read_on<S: Source>(source: &mut S, bytes: &mut Vec<u8>, most: usize) -> Result<usize, PortFault>
    requires { vec_len bytes.old < most }
    ensures read { IfOk result (ReadsOn (S.stream source.old) (S.stream source.new) bytes.old.items bytes.new.items most) }
    ensures front { OnErr result ((taken : List ℕ) × (vec_len bytes.old + length taken ≤ most) × Takes (S.stream source.old) (S.stream source.new) taken) }
    ensures held { S.held source.new ≡ S.held source.old }
    ensures counts { CountsIf (result ≡ Err PortFault.Failed) (S.faults source.old) (S.faults source.new) }
{
    let mut chunk = [0; CHUNK];
    let wanted = CHUNK.min(most - bytes.len());
    let count = source.take(&mut chunk[..wanted])?;
    bytes.extend_from_slice(&chunk[..count])?;
    Ok(count)
}
