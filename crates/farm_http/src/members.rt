//! The members of a JSON object, by name. None of these calls takes memory.

ghost use Rattle.std.specs.Prelude.{◌≡◌, ◌≤◌, IfSome, option_map};
ghost use Rattle.serde_json.specs.View.{items_view, view};
ghost use Rattle.farm_history.specs.Commands.{IsShortList};
ghost use Rattle.farm_http.specs.Members.{few_at, few_of_items, natural_at, ranged, text_at, whole_at};

use farm_history::{Few, MOST_IN_LIST};
use serde_json::Value;

/// The whole number that a member is.
#[tactic(auto, unfolding(crate::specs::Members::whole_at))]
pub(crate) fn whole_at(value: &Value, name: &str) -> Option<i64>
    ensures value { result ≡ whole_at name.now (view value.now) }
{
    value.get(name)?.as_i64()
}

/// The number that a member is, within a range.
#[tactic(auto, unfolding(crate::specs::Members::natural_at))]
pub(crate) fn natural_at(value: &Value, name: &str, least: u64, most: u64) -> Option<u64>
    ensures value { result ≡ natural_at name.now least most (view value.now) }
    ensures range { IfSome result (λ number. number ≤ most) }
{
    ranged(least, most, whole_at(value, name)?)
}

// A number within a range.
fn ranged(least: u64, most: u64, number: i64) -> Option<u64>
    ensures value { result ≡ ranged least most number }
    ensures range { IfSome result (λ natural. natural ≤ most) }
{
    let natural = number.unsigned_abs();
    if number < 0 || natural < least || most < natural {
        return None;
    }
    Some(natural)
}

/// The text that a member is.
#[tactic(auto, unfolding(crate::specs::Members::text_at))]
pub(crate) fn text_at<'v>(value: &'v Value, name: &str) -> Option<&'v str>
    ensures value { option_map (λ text. text.now) result ≡ text_at name.now (view value.now) }
{
    value.get(name)?.as_str()
}

/// The short list that a member is.
#[tactic(auto, unfolding(crate::specs::Members::few_at))]
pub(crate) fn few_at(value: &Value, name: &str) -> Option<Few>
    ensures value { result ≡ few_at name.now (view value.now) }
    ensures short { IfSome result IsShortList }
{
    few_of_items(value.get(name)?.as_array()?)
}

// The short list that items are.
fn few_of_items(items: &[Value]) -> Option<Few>
    ensures value { result ≡ few_of_items (items_view items.now) }
    ensures short { IfSome result IsShortList }
{
    if items.len() > MOST_IN_LIST as usize {
        return None;
    }
    let mut values = [0; MOST_IN_LIST as usize];
    for (index, item) in items.iter().enumerate() {
        values[index] = item.as_i64()?;
    }
    Some(Few {
        count: items.len() as u8,
        values,
    })
}
