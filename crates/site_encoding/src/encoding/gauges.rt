//! The bytes of gauge lines, each with its gauges and their fields.

ghost use Rattle.std.specs.Prelude.{◌+◌, ◌*◌, ◌≤◌, ◌≡◌, ◌++◌, All, IsTrue, List, ℕ, length};
ghost use Rattle.std.specs.Int.{to_be_bytes, w16};
ghost use Rattle.farm_site.specs.Lines.{are_lines};
ghost use Rattle.farm_site.specs.declared.limits.TheConstants.{MOST_LINES};
ghost use Rattle.site_encoding.specs.Buffers.{HasRoom, IsPut};
ghost use Rattle.site_encoding.specs.Encoding.{field_bytes, field_flags, gauge_bytes, line_bytes, option_bytes, request_bytes, short_list_bytes, valid_bytes};
ghost use Rattle.site_encoding.specs.Sizes.{IsGaugeInRange, IsLineInRange, most_gauge_bytes, most_line_bytes};
ghost use Rattle.farm_site.specs.Typed.{IsTypedGauge, IsTypedLine};

use crate::encoding::encoded::{
    Encoded, Measured, len_of_each, len_of_option, put, put_option, put_short_list, put_text,
};
use farm_site::Format;
use gauge_maps::{Field, GaugeMap, LineMap, Valid};

impl Encoded for LineMap {
    ghost bytes = { λ _. line_bytes };

    ghost fits = { IsLineInRange };

    ghost typed = { IsTypedLine };

    #[tactic(auto, unfolding(crate::specs::Encoding::line_bytes))]
    fn put(&self, format: Format, out: &mut Vec<u8>) {
        put_text(out, self.host.get());
        put(out, &self.port.to_be_bytes());
        put_short_list(format, out, self.gauges.get());
    }
}

impl Measured for LineMap {
    ghost most = { most_line_bytes };

    #[tactic(auto, unfolding(crate::specs::Encoding::line_bytes))]
    fn len(&self, format: Format) -> usize {
        1 + self.host.get().len() + 2 + 1 + len_of_each(format, self.gauges.get())
    }
}

impl Encoded for GaugeMap {
    ghost bytes = { λ _. gauge_bytes };

    ghost fits = { IsGaugeInRange };

    ghost typed = { IsTypedGauge };

    #[tactic(auto, unfolding(crate::specs::Encoding::gauge_bytes))]
    fn put(&self, format: Format, out: &mut Vec<u8>) {
        put_fields(format, out, self);
        put(out, &(self.ambient_fixed as i16).to_be_bytes());
        put_option(format, out, &self.valid);
        put(out, &self.deadband_mm.to_be_bytes());
        put(out, &self.deadband_centi.to_be_bytes());
    }
}

impl Measured for GaugeMap {
    ghost most = { most_gauge_bytes };

    #[tactic(auto, unfolding(crate::specs::Encoding::gauge_bytes))]
    fn len(&self, format: Format) -> usize {
        let fields = self.level.len(format) + self.temperature.len(format);
        let options = len_of_option(format, &self.water) + len_of_option(format, &self.ambient);
        7 + fields + options + 2 + len_of_option(format, &self.valid) + 4
    }
}

impl Encoded for Field {
    ghost bytes = { λ _. field_bytes };

    #[tactic(auto, unfolding(crate::specs::Encoding::field_bytes))]
    fn put(&self, _format: Format, out: &mut Vec<u8>) {
        put(out, &[self.offset, self.words, field_flags(self)]);
        put(out, &self.mul.to_be_bytes());
        put(out, &self.div.to_be_bytes());
    }
}

impl Measured for Field {
    ghost most = { 11 };

    #[tactic(auto, unfolding(crate::specs::Encoding::field_bytes))]
    fn len(&self, _format: Format) -> usize {
        11
    }
}

impl Encoded for Valid {
    ghost bytes = { λ _. valid_bytes };

    fn put(&self, _format: Format, out: &mut Vec<u8>) {
        put(out, &[self.offset, self.bit]);
    }
}

impl Measured for Valid {
    ghost most = { 2 };

    fn len(&self, _format: Format) -> usize {
        2
    }
}

/// Puts the gauge lines of a site after their count.
pub fn put_lines(format: Format, out: &mut Vec<u8>, lines: &[LineMap])
    requires lines { (tanks : List ℕ) × IsTrue (are_lines tanks lines.now) }
    requires room { HasRoom out.old (short_list_bytes line_bytes lines.now) }
    ensures put { IsPut out.old out.new (short_list_bytes line_bytes lines.now) }
    ensures typed { All IsTypedLine lines.now }
{
    put_short_list(format, out, lines);
}

/// How many bytes the gauge lines of a site have.
pub fn len_of_lines(format: Format, lines: &[LineMap]) -> usize
    requires lines { (tanks : List ℕ) × IsTrue (are_lines tanks lines.now) }
    ensures len { result ≡ length (short_list_bytes line_bytes lines.now) }
    ensures short { result ≤ 1 + MOST_LINES * most_line_bytes }
{
    1 + len_of_each(format, lines)
}

// Puts the tank of a gauge, what is read and its fields.
fn put_fields(format: Format, out: &mut Vec<u8>, gauge: &GaugeMap)
    requires room { HasRoom out.old (to_be_bytes w16 gauge.now.tank ++ request_bytes gauge.now ++ field_bytes gauge.now.level
        ++ field_bytes gauge.now.temperature ++ option_bytes field_bytes gauge.now.water ++ option_bytes field_bytes gauge.now.ambient) }
    ensures put { IsPut out.old out.new (to_be_bytes w16 gauge.now.tank ++ request_bytes gauge.now ++ field_bytes gauge.now.level
        ++ field_bytes gauge.now.temperature ++ option_bytes field_bytes gauge.now.water ++ option_bytes field_bytes gauge.now.ambient) }
    ensures typed { IsTypedGauge gauge.now }
{
    put(out, &gauge.tank.to_be_bytes());
    put_request(out, gauge);
    gauge.level.put(format, out);
    gauge.temperature.put(format, out);
    put_option(format, out, &gauge.water);
    put_option(format, out, &gauge.ambient);
}

// Puts what is read of a device.
fn put_request(out: &mut Vec<u8>, gauge: &GaugeMap)
    requires room { HasRoom out.old (request_bytes gauge.now) }
    ensures put { IsPut out.old out.new (request_bytes gauge.now) }
    ensures typed { IsTypedGauge gauge.now }
{
    put(out, &[gauge.unit, gauge.function]);
    put(out, &gauge.start.to_be_bytes());
    put(out, &[gauge.quantity]);
}

// How the words of a field are read, as a byte.
fn field_flags(field: &Field) -> u8
    ensures { result ≡ field_flags field.now }
{
    match (field.swapped, field.signed) {
        (false, false) => 0,
        (true, false) => 1,
        (false, true) => 2,
        (true, true) => 3,
    }
}
