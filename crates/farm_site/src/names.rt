//! Names of the site, of a product or of a party.

ghost use Rattle.std.specs.Prelude.{◌≡◌};
ghost use Rattle.farm_site.specs.Names.{is_name};

use crate::{MOST_NAME_BYTES, is_text};
use farm_base::Items;

/// A name of the site, of a product or of a party: its bytes. In a clause it is the list of them.
pub type Name = Items<u8>;

/// Whether a text is a name: 1 to 32 printable bytes.
pub fn is_name(text: &[u8]) -> bool
    ensures is_name { result ≡ is_name text.now }
{
    is_text(text, MOST_NAME_BYTES, b' ', b'~')
}
