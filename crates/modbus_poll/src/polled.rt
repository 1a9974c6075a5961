//! What a poll answers.

ghost use Rattle.std.specs.Prelude.{◌≡◌, IsTrue};
ghost use Rattle.gauge_maps.specs.Maps.{is_gauge_map};
ghost use Rattle.modbus_poll.specs.Polls.{keeps_connection, polled_of, valued};

use crate::decoding::{is_valid, raw_reading};
use crate::{GaugeMap, Raw};
use modbus_frame::Frame;

/// What a poll of a gauge answers, with the gauge's index in its line, from 0.
#[derive(Clone, Copy, Debug, PartialEq, Eq)]
pub enum Polled {
    /// The gauge answered, and the reading is valid.
    Value(usize, Raw),
    /// The gauge answered, and says that the reading isn't valid.
    NotValid(usize),
    /// The device answered with this exception code.
    Exception(usize, u8),
    /// The device answered with something that is no response to the request: the first field that disagrees, from 1 to 6.
    Wrong(usize, u8),
    /// The link failed before it was decided what the response is.
    LinkFault(usize),
}

/// A response as a poll's answer.
pub(crate) fn polled_of(gauge: &GaugeMap, index: usize, frame: &Frame) -> Polled
    requires map { IsTrue (is_gauge_map gauge.now) }
    ensures { result ≡ polled_of gauge.now index frame.now }
{
    match frame {
        Frame::Words(registers, _) => valued(gauge, index, &registers.words),
        Frame::Exception(code, _) => Polled::Exception(index, *code),
        Frame::Wrong(field) => Polled::Wrong(index, *field),
        Frame::Need(_) => Polled::LinkFault(index),
    }
}

// Registers as a poll's answer.
fn valued(gauge: &GaugeMap, index: usize, words: &[u16]) -> Polled
    requires map { IsTrue (is_gauge_map gauge.now) }
    ensures { result ≡ valued gauge.now index words.now }
{
    if is_valid(gauge.valid, words) {
        Polled::Value(index, raw_reading(gauge, words))
    } else {
        Polled::NotValid(index)
    }
}

/// Whether an answer leaves the connection as it is.
pub(crate) fn keeps_connection(answer: &Polled) -> bool
    ensures { result ≡ keeps_connection answer.now }
{
    !matches!(answer, Polled::Wrong(_, _) | Polled::LinkFault(_))
}
