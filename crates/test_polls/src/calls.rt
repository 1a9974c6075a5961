//! The calls of a link, in outline.

use farm_ports::LinkCall;

/// A call of a link: whether it failed, and the number of the transaction that was sent or how many bytes were received.
#[derive(Clone, Copy, Debug, PartialEq, Eq)]
pub enum Call {
    /// A connect.
    Connect(bool),
    /// A send of the request of a number below 256.
    Sent(u8),
    /// A receive.
    Received(usize, bool),
    /// Any other call.
    Other,
}

/// What a call was.
pub(crate) fn outline(call: &LinkCall) -> Call {
    match call {
        LinkCall::Connect { failed, .. } => Call::Connect(*failed),
        LinkCall::Sent { bytes, .. } => match bytes.get() {
            [0, number, ..] => Call::Sent(*number),
            _ => Call::Other,
        },
        LinkCall::Received { bytes, failed } => Call::Received(bytes.get().len(), *failed),
        LinkCall::Paused => Call::Other,
    }
}
