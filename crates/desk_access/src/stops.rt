//! Stops among entries.

ghost use Rattle.std.specs.Prelude.{◌≡◌, ◌≤◌, drop, length};
ghost use Rattle.desk_access.specs.Access.{has_stop};

use farm_history::Entry;

/// Whether a Stop is among the entries after the first ones, which were looked at before. Takes no memory.
pub fn has_stop_after(seen: usize, entries: &[Entry]) -> bool
    requires within { seen ≤ length entries.now }
    ensures stop { result ≡ has_stop (drop seen entries.now) }
{
    for entry in &entries[seen..] {
        if entry.cmd.is_stop() {
            return true;
        }
    }
    false
}
