//! Items that have a number of their own.

ghost use Rattle.std.specs.Prelude.{◌≡◌, ◌↔◌, ℕ, map, option_map, IfSome, IsNone, IsFalse};
ghost use Rattle.farm_site.specs.Numbers.{is_among, item_numbered};

use crate::{Party, Product, Tank};

/// An item that has a number.
pub trait Numbered {
    /// Its number.
    ghost numbered: { Self → ℕ };

    /// Its number.
    fn number(&self) -> u16
        ensures numbered { result ≡ numbered self.now };
}

impl Numbered for Product {
    ghost use Rattle.farm_site.specs.Products.{product_number};

    ghost numbered = { product_number };

    fn number(&self) -> u16 {
        self.number
    }
}

impl Numbered for Party {
    ghost use Rattle.farm_site.specs.Parties.{party_number};

    ghost numbered = { party_number };

    fn number(&self) -> u16 {
        self.number
    }
}

impl Numbered for Tank {
    ghost use Rattle.farm_site.specs.Tanks.{tank_number};

    ghost numbered = { tank_number };

    fn number(&self) -> u16 {
        self.number
    }
}

/// Whether an item has this number.
pub fn is_among<T: Numbered>(number: u16, items: &[T]) -> bool
    ensures among { result ≡ is_among number (map T.numbered items.now) }
{
    for item in items {
        if item.number() == number {
            return true;
        }
    }
    false
}

/// The item with a number. `None` exactly where no item has it.
pub fn item_numbered<T: Numbered>(number: u16, items: &[T]) -> Option<&T>
    ensures item { option_map (λ item. item.now) result ≡ item_numbered T.numbered number items.now }
    ensures number { IfSome result (λ item. T.numbered item.now ≡ number) }
    ensures none { IsNone result ↔ IsFalse (is_among number (map T.numbered items.now)) }
{
    for found in items {
        if found.number() == number {
            return Some(found);
        }
    }
    None
}
