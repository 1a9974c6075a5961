//! The kinds of a tank's shell.

ghost use Rattle.std.specs.Prelude.{◌≡◌};
ghost use Rattle.farm_fixed.specs.Shells.{is_insulated};

/// Whether a shell of this kind is insulated: `bare` isn't, `insulated` is. None for every other text.
#[tactic(auto, unfolding(crate::specs::Shells::is_insulated))]
pub fn is_insulated(kind: &[u8]) -> Option<bool>
    ensures insulated { result ≡ is_insulated kind.now }
{
    if kind == b"bare".as_slice() {
        return Some(false);
    }
    (kind == b"insulated".as_slice()).then_some(true)
}
