//! A call that a link took, as a case writes it.

use crate::digits::digit_bytes;
use crate::fault::CaseFault;
use farm_ports::LinkCall;
use std::alloc::{AllocError, Global};
use std::fmt;

/// A call that a link took.
#[derive(Debug, Drop, PartialEq, Eq)]
pub enum Call {
    /// A connect.
    Connect,
    /// A connect that failed.
    ConnectFailed,
    /// A send of these bytes.
    Send(Vec<u8>),
    /// A send that failed.
    SendFailed,
    /// A receive of this many bytes.
    Receive(usize),
    /// A receive that failed.
    ReceiveFailed,
    /// A pause.
    Pause,
}

impl Call {
    /// The call that a text is.
    pub fn of_text(alloc: Global, text: &str) -> Result<Self, CaseFault> {
        match text {
            "connect" => Ok(Call::Connect),
            "connect failed" => Ok(Call::ConnectFailed),
            "send failed" => Ok(Call::SendFailed),
            "receive failed" => Ok(Call::ReceiveFailed),
            "pause" => Ok(Call::Pause),
            _ => Call::moving(alloc, text),
        }
    }

    // The call of a text that says what it moved.
    fn moving(alloc: Global, text: &str) -> Result<Self, CaseFault> {
        let (word, moved) = text.split_once(' ').unwrap_or((text, ""));
        match (word, moved.parse::<usize>()) {
            ("send", _) => Ok(Call::Send(digit_bytes(alloc, moved)?)),
            ("receive", Ok(count)) => Ok(Call::Receive(count)),
            _ => Err(CaseFault::NoCall(String::from_str(alloc, text)?)),
        }
    }

    /// The call that a link in memory took.
    pub fn of_link(alloc: Global, call: &LinkCall) -> Result<Self, AllocError> {
        match call {
            LinkCall::Connect { failed: false, .. } => Ok(Call::Connect),
            LinkCall::Connect { .. } => Ok(Call::ConnectFailed),
            LinkCall::Sent {
                bytes,
                failed: false,
            } => Ok(Call::Send(bytes.get().to_vec(alloc)?)),
            LinkCall::Sent { .. } => Ok(Call::SendFailed),
            LinkCall::Received {
                bytes,
                failed: false,
            } => Ok(Call::Receive(bytes.get().len())),
            LinkCall::Received { .. } => Ok(Call::ReceiveFailed),
            LinkCall::Paused => Ok(Call::Pause),
        }
    }
}

impl fmt::Display for Call {
    fn fmt<W: fmt::Write>(&self, f: &mut fmt::Formatter<W>) -> fmt::Result {
        match self {
            Call::Connect => write!(f, "connect"),
            Call::ConnectFailed => write!(f, "connect failed"),
            Call::Send(bytes) => write_send(bytes, f),
            Call::SendFailed => write!(f, "send failed"),
            Call::Receive(count) => write!(f, "receive {count}"),
            Call::ReceiveFailed => write!(f, "receive failed"),
            Call::Pause => write!(f, "pause"),
        }
    }
}

// Writes a send of bytes, each as two digits.
fn write_send<W: fmt::Write>(bytes: &[u8], f: &mut fmt::Formatter<W>) -> fmt::Result {
    write!(f, "send")?;
    for byte in bytes {
        write!(f, " {byte:02x}")?;
    }
    Ok(())
}
