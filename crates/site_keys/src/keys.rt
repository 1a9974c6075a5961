//! The values of a table of TOML, each by its key.

ghost use Rattle.std.specs.Prelude.{◌≡◌, ◌≤◌, map, MatchResult, IfOk, Ok, Err};
ghost use Rattle.toml.specs.View.{view};
ghost use Rattle.farm_fixed.specs.Range.{IsWithin};
ghost use Rattle.site_keys.specs.Keys.{array_at, array_or_none, has, inner_at, integer_at, natural_at, natural_or, quantity_at, text_at, whole_at};

use crate::codes::{FIELD, RANGE};
use crate::{SiteFault, bad};
use farm_fixed::{Quantity, ReadFault, Unit};
use std::marker::Model;
use toml::Value;

/// The keys of a table, and which item of its list the table is.
#[derive(Drop)]
pub struct Keys<'a> {
    /// The number in its list, counted from 1; 0 for the top.
    pub item: u32,
    /// The table. Another value has no keys.
    pub table: &'a Value,
}

// In a clause it is the number of the item and the data of the table.
impl<'a> Model for Keys<'a> {
    ghost use Rattle.toml.specs.View as toml;
    ghost use Rattle.site_keys.specs.Keys.{Keys};
    ghost use Rattle.site_keys.specs.Stored.{keys_code};

    ghost Value = { Keys };

    ghost coded = { keys_code };

    ghost view = { λ keys. record { item = keys.item; table = toml.view keys.table.now } };
}

impl<'a> Keys<'a> {
    /// Whether it has a key.
    pub fn has(&self, key: &str) -> bool
        ensures has { result ≡ has self.now key.now }
    {
        self.table.get(key).is_some()
    }

    /// A whole number.
    #[tactic(auto, unfolding(crate::specs::Keys::integer_at))]
    pub fn integer(&self, key: &str) -> Result<i64, SiteFault>
        ensures number { result ≡ integer_at self.now key.now }
    {
        match self.table.get(key) {
            Some(value) => match value.as_integer() {
                Some(number) => Ok(number),
                None => Err(bad(FIELD, self.item)),
            },
            None => Err(bad(FIELD, self.item)),
        }
    }

    /// A whole number in a range.
    #[tactic(auto, unfolding(crate::specs::Keys::whole_at))]
    pub fn whole(&self, key: &str, least: i64, most: i64) -> Result<i64, SiteFault>
        ensures number { result ≡ whole_at self.now key.now least most }
        ensures range { IfOk result (IsWithin least most) }
    {
        let number = self.integer(key)?;
        if number < least || number > most {
            return Err(bad(RANGE, self.item));
        }
        Ok(number)
    }

    /// A whole number in a range from 0 or more.
    #[tactic(auto, unfolding(crate::specs::Keys::natural_at))]
    pub fn natural(&self, key: &str, least: u32, most: u32) -> Result<u32, SiteFault>
        ensures number { result ≡ natural_at self.now key.now least most }
        ensures least { IfOk result (λ number. least ≤ number) }
        ensures most { IfOk result (λ number. number ≤ most) }
    {
        let number = self.whole(key, i64::from(least), i64::from(most))?;
        Ok(number as u32)
    }

    /// A whole number in a range from 0 or more; where it is missing, the default.
    #[tactic(auto, unfolding(crate::specs::Keys::natural_or))]
    pub fn natural_or(
        &self,
        default: u32,
        key: &str,
        least: u32,
        most: u32,
    ) -> Result<u32, SiteFault>
        requires low { least ≤ default }
        requires high { default ≤ most }
        ensures number { result ≡ natural_or default self.now key.now least most }
        ensures least { IfOk result (λ number. least ≤ number) }
        ensures most { IfOk result (λ number. number ≤ most) }
    {
        if !self.has(key) {
            return Ok(default);
        }
        self.natural(key, least, most)
    }

    /// A text.
    #[tactic(auto, unfolding(crate::specs::Keys::text_at))]
    pub fn text(&self, key: &str) -> Result<&'a str, SiteFault>
        ensures text { MatchResult result (λ text. text_at self.now key.now ≡ Ok text.now)
            (λ fault. text_at self.now key.now ≡ Err fault) }
    {
        match self.table.get(key) {
            Some(value) => match value.as_str() {
                Some(text) => Ok(text),
                None => Err(bad(FIELD, self.item)),
            },
            None => Err(bad(FIELD, self.item)),
        }
    }

    /// A quantity, written as a text.
    #[tactic(auto, unfolding(crate::specs::Keys::quantity_at))]
    pub fn quantity<U: Unit>(&self, key: &str) -> Result<Quantity<U>, SiteFault>
        ensures quantity { result ≡ quantity_at U.PLACES U.LEAST U.MOST self.now key.now }
    {
        let text = self.text(key)?;
        match Quantity::<U>::read(text.as_bytes()) {
            Ok(value) => Ok(value),
            Err(ReadFault::OutOfRange) => Err(bad(RANGE, self.item)),
            Err(_) => Err(bad(FIELD, self.item)),
        }
    }

    /// An array, by its values.
    #[tactic(auto, unfolding(crate::specs::Keys::array_at))]
    pub fn array(&self, key: &str) -> Result<&'a [Value], SiteFault>
        ensures values { MatchResult result (λ values. array_at self.now key.now ≡ Ok (map view values.now))
            (λ fault. array_at self.now key.now ≡ Err fault) }
    {
        match self.table.get(key) {
            Some(value) => match value.as_array() {
                Some(values) => Ok(values.as_slice()),
                None => Err(bad(FIELD, self.item)),
            },
            None => Err(bad(FIELD, self.item)),
        }
    }

    /// An array, by its values; where it is missing, no values.
    #[tactic(auto, unfolding(crate::specs::Keys::array_or_none))]
    pub fn array_or_none(&self, key: &str) -> Result<&'a [Value], SiteFault>
        ensures values { MatchResult result (λ values. array_or_none self.now key.now ≡ Ok (map view values.now))
            (λ fault. array_or_none self.now key.now ≡ Err fault) }
    {
        if !self.has(key) {
            return Ok(&[]);
        }
        self.array(key)
    }

    /// The keys of a table within, at a key. It is of the same item.
    #[tactic(auto, unfolding(crate::specs::Keys::inner_at))]
    pub fn inner(&self, key: &str) -> Result<Keys<'a>, SiteFault>
        ensures keys { result ≡ inner_at self.now key.now }
    {
        match self.table.get(key) {
            Some(table) => Ok(Keys {
                item: self.item,
                table,
            }),
            None => Err(bad(FIELD, self.item)),
        }
    }
}
