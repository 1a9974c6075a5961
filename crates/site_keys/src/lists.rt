//! Lists of tables, and items in rising order of their own numbers.

ghost use Rattle.std.specs.Prelude.{◌≡◌, ◌≤◌, length, map, MatchResult, IfOk, IfErr, OnErr, IsTrue, IsFalse, Ok, Err};
ghost use Rattle.farm_site.specs.Numbers.{is_among};
ghost use Rattle.site_keys.specs.Lists.{known, list_at, own_number, index_among, placed, reference_at};
ghost use Rattle.site_keys.specs.declared.fault.SiteReadFault.TheVariants.{NoMemory};
ghost use Rattle.toml.specs.View.{view};

use crate::codes::{REPEATED, TOO_MANY, UNKNOWN};
use crate::keys::Keys;
use crate::{SiteFault, SiteReadFault, bad};
use farm_site::{MOST_NUMBER, Numbered, is_among};
use toml::Value;

/// The values of a list of the site file, of which there are from `least` to `most`; none where the list is missing.
#[tactic(auto, unfolding(crate::specs::Lists::list_at))]
pub fn list_at<'a>(
    keys: &Keys<'a>,
    key: &str,
    least: usize,
    most: usize,
) -> Result<&'a [Value], SiteFault>
    ensures values { MatchResult result (λ values. list_at least most keys.now key.now ≡ Ok (map view values.now))
        (λ fault. list_at least most keys.now key.now ≡ Err fault) }
    ensures least { IfOk result (λ values. least ≤ length values.now) }
    ensures most { IfOk result (λ values. length values.now ≤ most) }
{
    let values = keys.array_or_none(key)?;
    if values.len() < least || values.len() > most {
        return Err(bad(TOO_MANY, 0));
    }
    Ok(values)
}

/// The number that a table gives its item, which no earlier item has.
#[tactic(auto, unfolding(crate::specs::Lists::own_number))]
pub fn own_number<T: Numbered>(earlier: &[T], keys: &Keys<'_>) -> Result<u16, SiteFault>
    ensures number { result ≡ own_number (map T.numbered earlier.now) keys.now }
    ensures least { IfOk result (λ number. 1 ≤ number) }
    ensures fresh { IfOk result (λ number. IsFalse (is_among number (map T.numbered earlier.now))) }
{
    let number = keys.natural("number", 1, MOST_NUMBER)? as u16;
    if is_among(number, earlier) {
        return Err(bad(REPEATED, keys.item));
    }
    Ok(number)
}

/// The number at a key, which is that of an item.
#[tactic(auto, unfolding(crate::specs::Lists::reference_at))]
pub fn reference<T: Numbered>(keys: &Keys<'_>, key: &str, items: &[T]) -> Result<u16, SiteFault>
    ensures number { result ≡ reference_at keys.now key.now (map T.numbered items.now) }
    ensures among { IfOk result (λ number. IsTrue (is_among number (map T.numbered items.now))) }
{
    let value = keys.integer(key)?;
    known(keys.item, items, value)
}

// A whole number as that of an item.
fn known<T: Numbered>(item: u32, items: &[T], value: i64) -> Result<u16, SiteFault>
    ensures number { result ≡ known item (map T.numbered items.now) value }
    ensures among { IfOk result (λ number. IsTrue (is_among number (map T.numbered items.now))) }
{
    for known in items {
        if i64::from(known.number()) == value {
            return Ok(known.number());
        }
    }
    Err(bad(UNKNOWN, item))
}

/// Puts an item among others in rising order of their numbers, before the first that has a greater one.
pub fn put_by_number<T: Numbered + Drop>(items: &mut Vec<T>, item: T) -> Result<(), SiteReadFault>
    ensures placed { IfOk result (λ _. items.new.items ≡ placed T.numbered item items.old.items) }
    ensures out_of_memory { IfErr result (λ fault. fault ≡ NoMemory) }
    ensures as_before { OnErr result (items.new.items ≡ items.old.items) }
{
    let index = index_for(item.number(), items);
    items.insert(index, item)?;
    Ok(())
}

// Where an item of this number goes: before the first with a greater one.
fn index_for<T: Numbered>(number: u16, items: &[T]) -> usize
    ensures index { result ≡ index_among number (map T.numbered items.now) }
    ensures within { result ≤ length items.now }
{
    for (index, item) in items.iter().enumerate() {
        if number < item.number() {
            return index;
        }
    }
    items.len()
}
