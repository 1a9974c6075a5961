//! The parties of a site.

ghost use Rattle.std.specs.Prelude.{◌≡◌, ◌≤◌, [], length, map, MatchResult, IfOk, IsTrue, IsFalse, Ok, IfErr};
ghost use Rattle.toml.specs.View.{view};
ghost use Rattle.farm_site.specs.Facts.{are_parties};
ghost use Rattle.farm_base.specs.Steps.{IsRefusedAs};
ghost use Rattle.site_keys.specs.Faults.{IsNotTheFolders, reported};
ghost use Rattle.farm_site.specs.Numbers.{are_numbered, is_among};
ghost use Rattle.site_keys.specs.Lists.{numbered_from};
ghost use Rattle.farm_site.specs.Parties.{is_party, party_number};
ghost use Rattle.site_toml.specs.Parties.{parties_of, party_of};

use crate::names::name_at;
use farm_site::{MOST_PARTIES, Party};
use site_keys::{Keys, SiteReadFault, list_at, own_number, put_by_number};
use std::alloc::Global;
use toml::Value;

/// The parties, in rising order of number.
#[tactic(auto, unfolding(crate::specs::Parties::parties_of))]
pub fn parties_of(alloc: Global, top: &Keys<'_>) -> Result<Vec<Party>, SiteReadFault>
    ensures parties { MatchResult result (λ parties. parties_of top.now ≡ Ok parties.items)
        (λ fault. IsRefusedAs (reported fault) (parties_of top.now)) }
    ensures sound { IfOk result (λ parties. IsTrue (are_parties parties.items)) }
    ensures not_the_folders { IfErr result IsNotTheFolders }
{
    parties_in(alloc, list_at(top, "party", 0, MOST_PARTIES)?)
}

// The parties of tables.
fn parties_in(alloc: Global, tables: &[Value]) -> Result<Vec<Party>, SiteReadFault>
    requires { length tables.now ≤ MOST_PARTIES }
    ensures parties { MatchResult result (λ parties. numbered_from party_number party_of 1 [] (map view tables.now) ≡ Ok parties.items)
        (λ fault. IsRefusedAs (reported fault) (numbered_from party_number party_of 1 [] (map view tables.now))) }
    ensures count { IfOk result (λ parties. length parties.items ≡ length tables.now) }
    ensures sound { IfOk result (λ parties. IsTrue (are_numbered party_number is_party parties.items)) }
    ensures not_the_folders { IfErr result IsNotTheFolders }
{
    let mut parties = Vec::new(alloc);
    for (index, table) in tables.iter().enumerate() {
        let keys = Keys {
            item: index as u32 + 1,
            table,
        };
        let party = party_of(alloc, &parties, &keys)?;
        put_by_number(&mut parties, party)?;
    }
    Ok(parties)
}

// The party of a table, after others.
#[tactic(auto, unfolding(crate::specs::Parties::party_of))]
fn party_of(alloc: Global, earlier: &[Party], keys: &Keys<'_>) -> Result<Party, SiteReadFault>
    ensures party { MatchResult result (λ party. party_of earlier.now keys.now ≡ Ok party)
        (λ fault. IsRefusedAs (reported fault) (party_of earlier.now keys.now)) }
    ensures sound { IfOk result (λ party. IsTrue (is_party party)) }
    ensures fresh { IfOk result (λ party. IsFalse (is_among party.number (map party_number earlier.now))) }
    ensures not_the_folders { IfErr result IsNotTheFolders }
{
    let number = own_number(earlier, keys)?;
    let name = name_at(alloc, keys)?;
    Ok(Party { number, name })
}
