//! Plans, and what is named for a tank, at the front of bytes.

ghost use Rattle.byte_readers.specs.ByteReaders.{Gives};
ghost use Rattle.farm_history.specs.Decoding.{gauged_at, outside_at, plan_at, second_at, transfer_at};

use super::numbers::MISSING;
use crate::{Gauged, Plan};
use byte_readers::{u16_at, u32_at};
use farm_ticket::Way;

/// A reading and a sample that are named.
#[tactic(auto, unfolding(crate::specs::Decoding::gauged_at))]
#[inline(always)]
pub(crate) fn gauged_at(bytes: &[u8]) -> Result<(Gauged, &[u8]), usize>
    ensures gauged { Gives (λ x. (x.0, x.1.now)) result (gauged_at bytes.now) }
{
    let (reading, rest) = u32_at(MISSING, bytes)?;
    let (sample, rest) = u32_at(MISSING, rest)?;
    Ok((Gauged { reading, sample }, rest))
}

/// A plan: its way, and its fields.
#[tactic(auto, unfolding(crate::specs::Decoding::plan_at))]
#[inline(always)]
pub(crate) fn plan_at(bytes: &[u8]) -> Result<(Plan, &[u8]), usize>
    ensures plan { Gives (λ x. (x.0, x.1.now)) result (plan_at bytes.now) }
{
    match bytes {
        [] => Err(MISSING),
        [1, rest @ ..] => outside_at(Way::Inward, rest),
        [2, rest @ ..] => outside_at(Way::Outward, rest),
        [3, rest @ ..] => transfer_at(rest),
        [_, ..] => Err(bytes.len()),
    }
}

// A receipt or a delivery after its way.
#[tactic(auto, unfolding(crate::specs::Decoding::outside_at))]
#[inline(always)]
fn outside_at(way: Way, bytes: &[u8]) -> Result<(Plan, &[u8]), usize>
    ensures outside { Gives (λ x. (x.0, x.1.now)) result (outside_at way bytes.now) }
{
    let (tank, rest) = u16_at(MISSING, bytes)?;
    let (party, rest) = u16_at(MISSING, rest)?;
    let (gauged, rest) = gauged_at(rest)?;
    let plan = Plan::Outside {
        way,
        tank,
        party,
        gauged,
    };
    Ok((plan, rest))
}

// A transfer after its way.
#[tactic(auto, unfolding(crate::specs::Decoding::transfer_at))]
#[inline(always)]
fn transfer_at(bytes: &[u8]) -> Result<(Plan, &[u8]), usize>
    ensures transfer { Gives (λ x. (x.0, x.1.now)) result (transfer_at bytes.now) }
{
    let (from, rest) = u16_at(MISSING, bytes)?;
    let (to, rest) = u16_at(MISSING, rest)?;
    let (from_gauged, rest) = gauged_at(rest)?;
    let (to_gauged, rest) = gauged_at(rest)?;
    let plan = Plan::Transfer {
        from,
        to,
        from_gauged,
        to_gauged,
    };
    Ok((plan, rest))
}

/// What is named for a second tank, after a byte that says whether anything is.
#[tactic(auto, unfolding(crate::specs::Decoding::second_at))]
#[inline(always)]
pub(crate) fn second_at(bytes: &[u8]) -> Result<(Option<Gauged>, &[u8]), usize>
    ensures second { Gives (λ x. (x.0, x.1.now)) result (second_at bytes.now) }
{
    match bytes {
        [] => Err(MISSING),
        [0, rest @ ..] => Ok((None, rest)),
        [1, rest @ ..] => {
            let (gauged, rest) = gauged_at(rest)?;
            Ok((Some(gauged), rest))
        }
        [_, ..] => Err(bytes.len()),
    }
}
