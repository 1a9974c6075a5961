//! A list that a clause sees as the list of its items.

ghost use Rattle.std.specs.Prelude.{◌≡◌};

use std::marker::Model;

/// A list of items. In a clause it is the list itself.
#[derive(Debug, Drop)]
pub struct Items<T> {
    items: Vec<T>,
}

impl<T> Model for Items<T> {
    ghost use Rattle.std.specs.Prelude.{List};

    ghost Value = { List T };

    ghost view = { λ list. list.items.items };
}

impl<T> Items<T> {
    /// These items. Takes no memory.
    pub fn new(items: Vec<T>) -> Items<T>
        ensures items { result ≡ items.items }
    {
        Items { items }
    }

    /// The items, in their order.
    pub fn get(&self) -> &[T]
        ensures items { result.now ≡ self.now }
    {
        &self.items
    }
}
