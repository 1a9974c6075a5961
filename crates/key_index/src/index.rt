//! The index of keys.

ghost use Rattle.std.specs.Prelude.{◌≡◌, ◌+◌, ◌≤◌, ℕ, None, OnErr, OnOk, Some, if◌then◌else◌};
ghost use Rattle.key_index.specs.Keys.{is_under, place_under, room};

use farm_base::NoMemory;
use std::alloc::Global;
use std::collections::HashMap;

/// The places of keys: an account and a key of it have at most one place.
///
/// Contracts see it by `place_under`, the place that an account and a key have, and `room`, for how many keys more there is memory.
#[derive(Drop)]
pub struct KeyIndex {
    places: HashMap<(u32, u64), u32>,
}

impl KeyIndex {
    /// No key has a place. Takes no memory.
    #[tactic(auto, unfolding(crate::specs::Keys::place_under))]
    pub fn new(alloc: Global) -> Self
        ensures empty { (account key : ℕ) → place_under result account key ≡ None }
    {
        KeyIndex {
            places: HashMap::new(alloc),
        }
    }

    /// The place that an account and a key have.
    #[tactic(auto, unfolding(crate::specs::Keys::place_under))]
    pub fn place_of(&self, account: u32, key: u64) -> Option<u32>
        ensures place { result ≡ place_under self.now account key }
    {
        self.places.get(&(account, key)).copied()
    }

    /// Makes room for one key more. It fails only if there was no room and no memory for it.
    #[tactic(auto, unfolding(crate::specs::Keys::place_under, crate::specs::Keys::room))]
    pub fn reserve(&mut self) -> Result<(), NoMemory>
        ensures places { (account key : ℕ) → place_under self.new account key ≡ place_under self.old account key }
        ensures room { OnOk result (1 ≤ room self.new) }
        ensures no_room { OnErr result (room self.old ≡ 0) }
        ensures never_falls { room self.old ≤ room self.new }
    {
        self.places.reserve(1)?;
        Ok(())
    }

    /// Gives an account and a key a place. It can't fail, and takes no memory.
    #[tactic(auto, unfolding(crate::specs::Keys::place_under, crate::specs::Keys::room))]
    pub fn enter(&mut self, account: u32, key: u64, place: u32)
        requires room { 1 ≤ room self.old }
        ensures entered { (other_account other_key : ℕ) → place_under self.new other_account other_key ≡
            (if is_under account key other_account other_key then Some place else place_under self.old other_account other_key) }
        ensures room { room self.old ≤ room self.new + 1 }
    {
        let Ok(_) = self.places.insert((account, key), place) else {
            unreachable!()
        };
    }
}
