//! Hosts of gauge lines.

ghost use Rattle.std.specs.Prelude.{◌≡◌};
ghost use Rattle.gauge_maps.specs.Maps.{is_host};

use crate::is_text;
use gauge_maps::MOST_HOST_BYTES;

/// Whether a text is a host: 1 to 64 printable bytes without a blank.
pub fn is_host(text: &[u8]) -> bool
    ensures is_host { result ≡ is_host text.now }
{
    is_text(text, MOST_HOST_BYTES, b'!', b'~')
}
