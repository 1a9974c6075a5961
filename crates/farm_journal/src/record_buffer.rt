//! The bytes of a record, from its gate to the gate after it.

ghost use Rattle.std.specs.Prelude.{◌≡◌, ◌≤◌, ◌+◌, ◌-◌, ◌++◌, [], ◌∷◌, IfOk, OnErr, OnOk, length, max, take};
ghost use Rattle.farm_journal.specs.Layout.{open_record};
ghost use Rattle.farm_journal.specs.declared.limits.TheConstants.{AROUND_BODY, MAX_BODY};

use crate::MAX_BODY;
use crate::limits::AROUND_BODY;
use farm_base::NoMemory;
use std::alloc::Global;
use std::marker::Model;

/// Room for a record with the gate after it, and the record that was last made.
#[derive(Drop)]
pub struct RecordBuffer {
    bytes: Vec<u8>,
    made: usize,
}

impl Model for RecordBuffer {
    ghost use Rattle.std.specs.Prelude.{◌-◌, ◌≤◌, length, take};
    ghost use Rattle.farm_journal.specs.Buffers.{BufferState};
    ghost use Rattle.farm_journal.specs.declared.limits.TheConstants.{AROUND_BODY};

    ghost Value = { BufferState };

    ghost view = { λ buffer. record { room = length buffer.bytes.items - AROUND_BODY; made = take buffer.made buffer.bytes.items } };

    ghost invariant = { λ buffer. (AROUND_BODY ≤ length buffer.bytes.items) × (buffer.made ≤ length buffer.bytes.items) };
}

impl RecordBuffer {
    /// Room for a record of an empty body.
    pub(crate) fn new(alloc: Global) -> Result<Self, NoMemory>
        ensures { IfOk result (λ buffer. buffer.room ≡ 0) }
    {
        Ok(RecordBuffer {
            bytes: vec![in alloc; 0; AROUND_BODY]?,
            made: 0,
        })
    }

    /// Makes room for a record of a body of this length, where there is less.
    pub(crate) fn reserve(&mut self, length: usize) -> Result<(), NoMemory>
        ensures room { OnOk result (self.new.room ≡ max self.old.room length) }
        ensures stays { OnErr result (self.new.room ≡ self.old.room) }
    {
        let whole = length.checked_add(AROUND_BODY).ok_or(NoMemory)?;
        if self.bytes.len() < whole {
            self.bytes.resize(whole, 0)?;
        }
        Ok(())
    }

    /// Makes the record of a body with its gate open, and a closed gate after it.
    pub(crate) fn make(&mut self, body: &[u8])
        requires room { length body.now ≤ self.old.room }
        requires short { length body.now ≤ MAX_BODY }
        ensures made { self.new.made ≡ open_record body.now ++ 0 ∷ [] }
        ensures room { self.new.room ≡ self.old.room }
    {
        lay_record(&mut self.bytes, body);
        self.made = AROUND_BODY + body.len();
    }

    /// The record that was last made.
    pub(crate) fn made(&self) -> &[u8]
        ensures { result.now ≡ self.now.made }
    {
        &self.bytes[..self.made]
    }
}

// Lays the record of a body out at the front, with its gate open, and a closed gate after it.
fn lay_record(bytes: &mut [u8], body: &[u8])
    requires room { length body.now + AROUND_BODY ≤ length bytes.old }
    requires short { length body.now ≤ MAX_BODY }
    ensures { take (length body.now + AROUND_BODY) bytes.new ≡ open_record body.now ++ 0 ∷ [] }
{
    let end = body.len() + 5;
    bytes[0] = 1;
    bytes[1..5].copy_from_slice(&(body.len() as u32).to_be_bytes());
    bytes[5..end].copy_from_slice(body);
    bytes[end] = 0;
}
