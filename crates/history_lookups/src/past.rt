//! What was recorded before.

ghost use Rattle.std.specs.Prelude.{◌≡◌, ◌<◌, ◌≤◌, option_map};
ghost use Rattle.farm_history.specs.History.{before, entry_at, last_place};

use farm_history::Entry;
use farm_site::Site;
use std::marker::Model;

/// A site and the entries of its history, or those before a place. In a clause it is this history.
#[derive(Drop)]
pub struct Past<'p> {
    /// The site.
    pub site: &'p Site,
    /// The entries, in their order.
    pub entries: &'p [Entry],
}

impl<'p> Model for Past<'p> {
    ghost use Rattle.farm_history.specs.History.{History};
    ghost use Rattle.history_lookups.specs.Pasts.{history_of};

    ghost Value = { History };

    ghost view = { λ past. history_of past.site.now past.entries.now };
}

impl<'p> Past<'p> {
    /// The entry at a place. `None` exactly where the history has no such place.
    pub fn entry_at(&self, place: u32) -> Option<&'p Entry>
        ensures entry { option_map (λ entry. entry.now) result ≡ entry_at self.now place }
    {
        if place == 0 {
            return None;
        }
        self.entries.get(place as usize - 1)
    }

    /// What was recorded before a place of the history.
    pub fn before(&self, place: u32) -> Past<'p>
        requires low { 1 ≤ place }
        requires high { place ≤ last_place self.now }
        ensures before { result ≡ before self.now place }
    {
        Past {
            site: self.site,
            entries: &self.entries[..place as usize - 1],
        }
    }
}
