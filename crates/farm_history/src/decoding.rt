//! How an entry is read from its bytes.

ghost use Rattle.std.specs.Prelude.{◌≡◌, IfErr, IfOk, Ok};
ghost use Rattle.farm_history.specs.declared.entry.Entry.{Entry};
ghost use Rattle.byte_readers.specs.ByteReaders.{Gives};
ghost use Rattle.farm_history.specs.Decoding.{cancel_at, closing_at, command_at, dip_at, entry_at, gauge_at, opening_at, reverse_at, sample_at, settle_at, whole_entry};
ghost use Rattle.farm_history.specs.Encoding.{IsBadEntryAt, IsTyped, entry_encoding};
ghost use Rattle.farm_history.specs.History.{IsWellFormed};

mod numbers;
mod plans;

use crate::{Command, Entry};
use byte_readers::{i64_at, u16_at, u32_at, u64_at};
use numbers::{MISSING, kind_at, list_at, moment_at};
use plans::{gauged_at, plan_at, second_at};
use thiserror::Error;

/// Bytes are no entry's. It keeps the offset, counted from 0, of the first byte after which no continuation is one, or the
/// number of bytes where more would have to follow.
#[derive(Clone, Copy, Debug, PartialEq, Eq, Error)]
#[error("no entry: byte {0} can't stand there")]
pub struct BadEntry(pub usize);

impl Entry {
    /// Reads the entry that these bytes are, all of them. Takes no memory.
    pub fn read(bytes: &[u8]) -> Result<Entry, BadEntry>
        ensures found { IfOk result (λ entry. IsWellFormed entry × (bytes.now ≡ entry_encoding entry)) }
        ensures typed { IfOk result (λ entry. IsTyped entry) }
        ensures only { (entry : Entry) → IsTyped entry → IsWellFormed entry → bytes.now ≡ entry_encoding entry → result ≡ Ok entry }
        ensures offset { IfErr result (λ bad. IsBadEntryAt bytes.now bad.0) }
    {
        match whole_entry(bytes) {
            Ok(entry) => Ok(entry),
            Err(left) => Err(BadEntry(bytes.len() - left)),
        }
    }
}

// The entry that bytes are, or how many are left from the first bad one on.
#[tactic(auto, unfolding(crate::specs::Decoding::whole_entry))]
#[inline(always)]
fn whole_entry(bytes: &[u8]) -> Result<Entry, usize>
    ensures whole { Gives (λ x. x) result (whole_entry bytes.now) }
{
    let (entry, rest) = entry_at(bytes)?;
    if !rest.is_empty() {
        return Err(rest.len());
    }
    Ok(entry)
}

// An entry.
#[tactic(auto, unfolding(crate::specs::Decoding::entry_at))]
#[inline(always)]
fn entry_at(bytes: &[u8]) -> Result<(Entry, &[u8]), usize>
    ensures entry { Gives (λ x. (x.0, x.1.now)) result (entry_at bytes.now) }
{
    let (caller, rest) = u32_at(MISSING, bytes)?;
    let (account, rest) = u32_at(MISSING, rest)?;
    let (key, rest) = u64_at(MISSING, rest)?;
    let (at, rest) = moment_at(rest)?;
    let (cmd, rest) = command_at(rest)?;
    let entry = Entry {
        caller,
        account,
        key,
        at,
        cmd,
    };
    Ok((entry, rest))
}

// A command: its tag and its fields.
#[tactic(auto, unfolding(crate::specs::Decoding::command_at, crate::specs::Decoding::fields_at))]
#[inline(always)]
fn command_at(bytes: &[u8]) -> Result<(Command, &[u8]), usize>
    ensures command { Gives (λ x. (x.0, x.1.now)) result (command_at bytes.now) }
{
    match bytes {
        [] => Err(MISSING),
        [1, rest @ ..] => gauge_at(rest),
        [2, rest @ ..] => dip_at(rest),
        [3, rest @ ..] => sample_at(rest),
        [4, rest @ ..] => opening_at(rest),
        [5, rest @ ..] => closing_at(rest),
        [6, rest @ ..] => cancel_at(rest),
        [7, rest @ ..] => settle_at(rest),
        [8, rest @ ..] => reverse_at(rest),
        [9, rest @ ..] => Ok((Command::Stop, rest)),
        [_, ..] => Err(bytes.len()),
    }
}

// The fields of a gauge reading.
#[tactic(auto, unfolding(crate::specs::Decoding::gauge_at))]
#[inline(always)]
fn gauge_at(bytes: &[u8]) -> Result<(Command, &[u8]), usize>
    ensures gauge { Gives (λ x. (x.0, x.1.now)) result (gauge_at bytes.now) }
{
    let (tank, rest) = u16_at(MISSING, bytes)?;
    let (level, rest) = i64_at(MISSING, rest)?;
    let (water, rest) = i64_at(MISSING, rest)?;
    let (temperature, rest) = i64_at(MISSING, rest)?;
    let (ambient, rest) = i64_at(MISSING, rest)?;
    let gauge = Command::Gauge {
        tank,
        level,
        water,
        temperature,
        ambient,
    };
    Ok((gauge, rest))
}

// The fields of a dip.
#[tactic(auto, unfolding(crate::specs::Decoding::dip_at))]
#[inline(always)]
fn dip_at(bytes: &[u8]) -> Result<(Command, &[u8]), usize>
    ensures dip { Gives (λ x. (x.0, x.1.now)) result (dip_at bytes.now) }
{
    let (tank, rest) = u16_at(MISSING, bytes)?;
    let (outage, rest) = kind_at(rest)?;
    let (tapes, rest) = list_at(rest)?;
    let (water, rest) = list_at(rest)?;
    let (temperatures, rest) = list_at(rest)?;
    let (ambient, rest) = i64_at(MISSING, rest)?;
    let dip = Command::Dip {
        tank,
        outage,
        tapes,
        water,
        temperatures,
        ambient,
    };
    Ok((dip, rest))
}

// The fields of a sample.
#[tactic(auto, unfolding(crate::specs::Decoding::sample_at))]
#[inline(always)]
fn sample_at(bytes: &[u8]) -> Result<(Command, &[u8]), usize>
    ensures sample { Gives (λ x. (x.0, x.1.now)) result (sample_at bytes.now) }
{
    let (tank, rest) = u16_at(MISSING, bytes)?;
    let (density, rest) = i64_at(MISSING, rest)?;
    let (sw, rest) = i64_at(MISSING, rest)?;
    Ok((Command::Sample { tank, density, sw }, rest))
}

// The plan of an Opening.
#[tactic(auto, unfolding(crate::specs::Decoding::opening_at))]
#[inline(always)]
fn opening_at(bytes: &[u8]) -> Result<(Command, &[u8]), usize>
    ensures opening { Gives (λ x. (x.0, x.1.now)) result (opening_at bytes.now) }
{
    let (plan, rest) = plan_at(bytes)?;
    Ok((Command::Opening(plan), rest))
}

// The fields of a Closing.
#[tactic(auto, unfolding(crate::specs::Decoding::closing_at))]
#[inline(always)]
fn closing_at(bytes: &[u8]) -> Result<(Command, &[u8]), usize>
    ensures closing { Gives (λ x. (x.0, x.1.now)) result (closing_at bytes.now) }
{
    let (movement, rest) = u32_at(MISSING, bytes)?;
    let (first, rest) = gauged_at(rest)?;
    let (second, rest) = second_at(rest)?;
    let closing = Command::Closing {
        movement,
        first,
        second,
    };
    Ok((closing, rest))
}

// The movement of a Cancel.
#[tactic(auto, unfolding(crate::specs::Decoding::cancel_at))]
#[inline(always)]
fn cancel_at(bytes: &[u8]) -> Result<(Command, &[u8]), usize>
    ensures cancel { Gives (λ x. (x.0, x.1.now)) result (cancel_at bytes.now) }
{
    let (movement, rest) = u32_at(MISSING, bytes)?;
    Ok((Command::Cancel { movement }, rest))
}

// The fields of a Settle.
#[tactic(auto, unfolding(crate::specs::Decoding::settle_at))]
#[inline(always)]
fn settle_at(bytes: &[u8]) -> Result<(Command, &[u8]), usize>
    ensures settle { Gives (λ x. (x.0, x.1.now)) result (settle_at bytes.now) }
{
    let (tank, rest) = u16_at(MISSING, bytes)?;
    let (gauged, rest) = gauged_at(rest)?;
    Ok((Command::Settle { tank, gauged }, rest))
}

// The ticket of a Reverse.
#[tactic(auto, unfolding(crate::specs::Decoding::reverse_at))]
#[inline(always)]
fn reverse_at(bytes: &[u8]) -> Result<(Command, &[u8]), usize>
    ensures reverse { Gives (λ x. (x.0, x.1.now)) result (reverse_at bytes.now) }
{
    let (ticket, rest) = u32_at(MISSING, bytes)?;
    Ok((Command::Reverse { ticket }, rest))
}
