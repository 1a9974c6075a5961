//! Whether a reading is to be submitted.

ghost use Rattle.std.specs.Prelude.{◌≡◌, ◌↔◌, nat_le, true};
ghost use Rattle.farm_fixed.specs.Range.{distance};
ghost use Rattle.modbus_poll.specs.Deadbands.{IsDue, differs, heights_differ, is_due};

use crate::{GaugeMap, Raw};

/// Whether nothing was submitted yet of a gauge, or a reading differs from the last submitted by at least a deadband.
#[tactic(auto, using(crate::proofs::Due::due_means))]
pub(crate) fn is_due(gauge: &GaugeMap, last: &Option<Raw>, raw: &Raw) -> bool
    ensures value { result ≡ is_due gauge.now last.now raw.now }
    ensures meaning { (result ≡ true) ↔ IsDue gauge.now last.now raw.now }
{
    match last {
        Some(last) => differs(gauge, last, raw),
        None => true,
    }
}

// Whether a reading differs from the last submitted by at least a deadband.
fn differs(gauge: &GaugeMap, last: &Raw, raw: &Raw) -> bool
    ensures value { result ≡ differs gauge.now last.now raw.now }
{
    heights_differ(gauge, last, raw)
        || is_apart(gauge.deadband_centi, last.temperature, raw.temperature)
}

// Whether the level or the water differs from the last submitted by at least its deadband.
fn heights_differ(gauge: &GaugeMap, last: &Raw, raw: &Raw) -> bool
    ensures value { result ≡ heights_differ gauge.now last.now raw.now }
{
    is_apart(gauge.deadband_mm, last.level, raw.level)
        || is_apart(gauge.deadband_mm, last.water, raw.water)
}

// Whether two numbers are at least a deadband apart.
fn is_apart(deadband: u16, a: i64, b: i64) -> bool
    ensures value { result ≡ nat_le deadband (distance a b) }
{
    u64::from(deadband) <= a.abs_diff(b)
}
