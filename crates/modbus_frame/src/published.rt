//! The examples of the standard.

ghost use Rattle.modbus_frame.specs.Published.{ArePublished};

/// Does nothing: its contract is that requests and good responses are those that the Modbus Application Protocol V1.1b3 prints
/// in its sections 6.3 and 6.4.
pub fn published_frames()
    ensures published { ArePublished }
{}
