//! Names of the site, of a product or of a party.

ghost use Rattle.std.specs.Prelude.{◌≡◌, MatchResult, IfOk, IfErr, IsTrue, Ok};
ghost use Rattle.farm_base.specs.Steps.{IsRefusedAs};
ghost use Rattle.site_keys.specs.Faults.{IsNotTheFolders, reported};
ghost use Rattle.farm_site.specs.Names.{is_name};
ghost use Rattle.site_toml.specs.Names.{name_at};

use farm_site::{Name, is_name};
use site_keys::{Keys, RANGE, SiteReadFault, bad};
use std::alloc::Global;

/// The name of an item: 1 to 32 printable ASCII characters.
#[tactic(auto, unfolding(crate::specs::Names::name_at))]
pub fn name_at(alloc: Global, keys: &Keys<'_>) -> Result<Name, SiteReadFault>
    ensures name { MatchResult result (λ name. name_at keys.now ≡ Ok name)
        (λ fault. IsRefusedAs (reported fault) (name_at keys.now)) }
    ensures sound { IfOk result (λ name. IsTrue (is_name name)) }
    ensures not_the_folders { IfErr result IsNotTheFolders }
{
    let text = keys.text("name")?;
    if !is_name(text.as_bytes()) {
        return Err(bad(RANGE, keys.item).into());
    }
    Ok(Name::new(text.as_bytes().to_vec(alloc)?))
}
