//! The format of a site file: which keys it may have, and what they may say.

ghost use Rattle.std.specs.Prelude.{◌≡◌};
ghost use Rattle.site_toml.specs.Formats.{format_at};

use farm_site::{Format, MOST_FORMAT};
use site_keys::{Keys, SiteFault};

/// The format of a site file.
#[tactic(auto, unfolding(crate::specs::Formats::format_at))]
pub fn format_at(top: &Keys<'_>) -> Result<Format, SiteFault>
    ensures format { result ≡ format_at top.now }
{
    let number = top.natural("format", 1, MOST_FORMAT)?;
    Ok(Format::of(number))
}
