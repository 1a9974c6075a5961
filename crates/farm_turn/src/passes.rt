//! A pass: with it one caller takes its turns.

ghost use Rattle.std.specs.Prelude.{◌≡◌, ◌≤◌, false, [], ◌∷◌};
ghost use Rattle.farm_turn.specs.Views.{one, left_of};
ghost use Rattle.farm_turn.specs.Sharing.{only};

use crate::views::View;
use atomic_table::{Badge, Seat};
use std::marker::Model;

/// What one caller takes its turns with. A contract sees the turn that it is of, and what it knows.
///
/// It is `Send`, and has the bytes of its numbers alone.
#[derive(Drop)]
pub struct Pass<E, R> {
    pub(crate) badge: Badge<View<E, R>>,
    pub(crate) number: Option<u32>,
    pub(crate) next: u32,
    pub(crate) end: u32,
}

impl<E, R> Model for Pass<E, R> {
    ghost use Rattle.std.specs.Prelude.{◌≡◌, ◌<◌, ◌≤◌, [], ◌∷◌, false};
    ghost use Rattle.farm_turn.specs.Views.{PassView, known_of, one, numbers_of};

    ghost Value = { PassView E R };

    ghost view = { λ p. record { turn = p.badge.table_id; known = known_of p.badge.views } };

    ghost invariant = { λ p. (p.badge.views ≡ one (known_of p.badge.views) ∷ []) × ((known_of p.badge.views).number ≡ p.number) × ((known_of p.badge.views).next ≡ p.next) × ((known_of p.badge.views).end ≡ p.end) × (p.next ≤ p.end) × ((known_of p.badge.views).holds ≡ false) };
}

impl<E, R> Pass<E, R> {
    /// How many caller numbers the pass has left.
    pub fn left(&self) -> u32
        ensures numbers_left { result ≡ left_of self.now.known }
    {
        self.end - self.next
    }

    /// The pass of a seat of one pass.
    pub(crate) fn of<S>(
        seat: Seat<S, View<E, R>>,
        number: Option<u32>,
        next: u32,
        end: u32,
    ) -> Pass<E, R>
        requires one { seat.me ≡ (one (only seat.me), []) }
        requires numbers { ((only seat.me).number ≡ number) × ((only seat.me).next ≡ next) × ((only seat.me).end ≡ end) }
        requires free { (only seat.me).holds ≡ false }
        requires order { next ≤ end }
        ensures same_turn { result.turn ≡ seat.table_id }
        ensures known { result.known ≡ only seat.me }
    {
        Pass {
            badge: seat.into_badge(),
            number,
            next,
            end,
        }
    }

    /// The seat of the pass.
    pub(crate) fn into_seat<S>(self) -> Seat<S, View<E, R>>
        ensures same_turn { result.table_id ≡ self.turn }
        ensures one { result.me ≡ (one self.known, []) }
        ensures free { self.known.holds ≡ false }
    {
        let Pass {
            badge,
            number: _,
            next: _,
            end: _,
        } = self;
        badge.into_seat()
    }
}
