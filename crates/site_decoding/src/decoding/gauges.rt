//! Gauge lines at the front of bytes.

ghost use Rattle.site_decoding.specs.ByteReaders.{Gives};
ghost use Rattle.site_decoding.specs.Decoding.{fields_at, flags_at, request_at};

use super::lists::{Piece, option_at, short_list_at};
use super::numbers::{byte_up_to, text_at};
use crate::SiteBytesFault;
use crate::SiteBytesFault::BadSite;
use byte_readers::{i16_at, u8_at, u16_at, u32_at};
use farm_site::Format;
use gauge_maps::{Field, GaugeMap, Gauges, LineMap, Request, Valid};
use std::alloc::Global;

// The fields of a gauge.
#[derive(Clone, Copy)]
struct Fields {
    level: Field,
    temperature: Field,
    water: Option<Field>,
    ambient: Option<Field>,
}

impl Piece for LineMap {
    ghost use Rattle.site_decoding.specs.Decoding.{line_at};

    ghost reads = { λ _. line_at };

    #[tactic(auto, unfolding(crate::specs::Decoding::line_at))]
    fn read_at(
        alloc: Global,
        format: Format,
        bytes: &[u8],
    ) -> Result<(LineMap, &[u8]), SiteBytesFault> {
        let (host, rest) = text_at(alloc, bytes)?;
        let (port, rest) = u16_at(BadSite, rest)?;
        let (gauges, rest) = short_list_at(alloc, format, 44, rest)?;
        let gauges = Gauges::new(gauges);
        Ok((LineMap { host, port, gauges }, rest))
    }
}

impl Piece for GaugeMap {
    ghost use Rattle.site_decoding.specs.Decoding.{gauge_at};

    ghost reads = { λ _. gauge_at };

    #[tactic(auto, unfolding(crate::specs::Decoding::gauge_at))]
    fn read_at(
        alloc: Global,
        format: Format,
        bytes: &[u8],
    ) -> Result<(GaugeMap, &[u8]), SiteBytesFault> {
        let (tank, rest) = u16_at(BadSite, bytes)?;
        let (request, rest) = request_at(rest)?;
        let (fields, rest) = fields_at(alloc, format, rest)?;
        let (ambient_fixed, rest) = i16_at(BadSite, rest)?;
        let (valid, rest) = option_at(alloc, format, rest)?;
        let (deadband_mm, rest) = u16_at(BadSite, rest)?;
        let (deadband_centi, rest) = u16_at(BadSite, rest)?;
        let gauge = GaugeMap {
            tank,
            unit: request.unit,
            function: request.function,
            start: request.start,
            quantity: request.quantity,
            level: fields.level,
            temperature: fields.temperature,
            water: fields.water,
            ambient: fields.ambient,
            ambient_fixed: i64::from(ambient_fixed),
            valid,
            deadband_mm,
            deadband_centi,
        };
        Ok((gauge, rest))
    }
}

// What is read of a device.
#[tactic(auto, unfolding(crate::specs::Decoding::request_at))]
fn request_at(bytes: &[u8]) -> Result<(Request, &[u8]), SiteBytesFault>
    ensures reads { Gives (λ x. (x.0, x.1.now)) result (request_at bytes.now) }
{
    let (unit, rest) = u8_at(BadSite, bytes)?;
    let (function, rest) = u8_at(BadSite, rest)?;
    let (start, rest) = u16_at(BadSite, rest)?;
    let (quantity, rest) = u8_at(BadSite, rest)?;
    let request = Request {
        unit,
        function,
        start,
        quantity,
    };
    Ok((request, rest))
}

// The fields of a gauge.
#[tactic(auto, unfolding(crate::specs::Decoding::fields_at))]
fn fields_at(alloc: Global, format: Format, bytes: &[u8]) -> Result<(Fields, &[u8]), SiteBytesFault>
    ensures reads { Gives (λ x. (x.0, x.1.now)) result (fields_at bytes.now) }
{
    let (level, rest) = Field::read_at(alloc, format, bytes)?;
    let (temperature, rest) = Field::read_at(alloc, format, rest)?;
    let (water, rest) = option_at(alloc, format, rest)?;
    let (ambient, rest) = option_at(alloc, format, rest)?;
    let fields = Fields {
        level,
        temperature,
        water,
        ambient,
    };
    Ok((fields, rest))
}

impl Piece for Field {
    ghost use Rattle.site_decoding.specs.Decoding.{field_at};

    ghost reads = { λ _. field_at };

    #[tactic(auto, unfolding(crate::specs::Decoding::field_at))]
    fn read_at(_: Global, _: Format, bytes: &[u8]) -> Result<(Field, &[u8]), SiteBytesFault> {
        let (offset, rest) = u8_at(BadSite, bytes)?;
        let (words, rest) = u8_at(BadSite, rest)?;
        let ((swapped, signed), rest) = flags_at(rest)?;
        let (mul, rest) = u32_at(BadSite, rest)?;
        let (div, rest) = u32_at(BadSite, rest)?;
        let field = Field {
            offset,
            words,
            swapped,
            signed,
            mul,
            div,
        };
        Ok((field, rest))
    }
}

// How the words of a field are read: whether they are swapped, and whether the number is signed.
#[tactic(auto, unfolding(crate::specs::Decoding::flags_at))]
fn flags_at(bytes: &[u8]) -> Result<((bool, bool), &[u8]), SiteBytesFault>
    ensures reads { Gives (λ x. (x.0, x.1.now)) result (flags_at bytes.now) }
{
    let (flags, rest) = byte_up_to(3, bytes)?;
    let swapped = flags == 1 || flags == 3;
    Ok(((swapped, flags >= 2), rest))
}

impl Piece for Valid {
    ghost use Rattle.site_decoding.specs.Decoding.{valid_at};

    ghost reads = { λ _. valid_at };

    #[tactic(auto, unfolding(crate::specs::Decoding::valid_at))]
    fn read_at(_: Global, _: Format, bytes: &[u8]) -> Result<(Valid, &[u8]), SiteBytesFault> {
        let (offset, rest) = u8_at(BadSite, bytes)?;
        let (bit, rest) = u8_at(BadSite, rest)?;
        Ok((Valid { offset, bit }, rest))
    }
}
