//! The rule of the table that a turn shares, and what a pass knows by each of its steps.

ghost use Rattle.std.specs.Prelude.{ℕ, List, Option, None};

use crate::chronicles::Chronicle;
use crate::views::View;
use atomic_table::{Join, Play, Split, TableRule};
use std::marker::{Brand, PhantomData};
use std::snapshot::Snapshot;

/// The rule: `specs/Turning` states it, of the value that the turn was opened with.
pub struct TurnRule;

impl<V: Chronicle> TableRule<Option<V>, View<V::Entry, V::Root>, Snapshot<V>> for TurnRule {
    ghost use Rattle.farm_turn.specs.Chronicles.{features};
    ghost use Rattle.farm_turn.specs.Turning.{KeepsTurn};
    ghost use Rattle.farm_turn.specs.Views.{one, first_known};

    ghost holds = { λ key. KeepsTurn (features V.past V.caller_of V.root V.tally V.mark) key.value };

    ghost first = { λ key. one (first_known (features V.past V.caller_of V.root V.tally V.mark) key.value) };
}

/// The root of the value that a turn was opened with, picked by the caller of a step.
pub trait Rooted<R> {
    ghost root: { Option R };
}

impl<R> Rooted<R> for Brand {
    ghost root = { None };
}

/// Takes the turn, or finds it taken.
pub struct TakeTurn<N> {
    of: PhantomData<N>,
}

impl<V: Chronicle, N: Rooted<V::Root>> Play<Option<V>, View<V::Entry, V::Root>> for TakeTurn<N> {
    ghost use Rattle.farm_turn.specs.Chronicles.{features};
    ghost use Rattle.farm_turn.specs.Steps.{TakesTurn};

    ghost then = { TakesTurn (features V.past V.caller_of V.root V.tally V.mark) N.root };
}

/// What a job left, picked by the caller of a step.
pub trait Ran<E> {
    /// The past that it left.
    ghost past: { List E };

    /// By how much it raised the tally.
    ghost raised: { ℕ };

    /// The mark that it left.
    ghost mark: { ℕ };
}

impl<E> Ran<E> for Brand {
    ghost use Rattle.std.specs.Prelude.{[]};

    ghost past = { [] };

    ghost raised = { 0 };

    ghost mark = { 0 };
}

/// Counts what the job appended: the event of a turn.
pub struct CountEntry<N> {
    of: PhantomData<N>,
}

impl<S, E, R, N: Ran<E>> Play<S, View<E, R>> for CountEntry<N> {
    ghost use Rattle.farm_turn.specs.Steps.{CountsEntry};

    ghost then = { CountsEntry N.past N.raised N.mark };
}

/// Gives the turn back.
pub struct GiveTurnBack;

impl<S, E, R> Play<S, View<E, R>> for GiveTurnBack {
    ghost use Rattle.farm_turn.specs.Steps.{GivesTurnBack};

    ghost then = { GivesTurnBack };
}

/// Makes the least number left the pass's own.
pub struct EnrolPass;

impl<S, E, R> Play<S, View<E, R>> for EnrolPass {
    ghost use Rattle.farm_turn.specs.Steps.{EnrolsPass};

    ghost then = { EnrolsPass };
}

/// Gives the least number left to a new pass.
pub struct SplitPass;

impl<E, R> Split<View<E, R>> for SplitPass {
    ghost use Rattle.farm_turn.specs.Views.{every, without_least, split_off};

    ghost left = { every without_least };

    ghost right = { every split_off };
}

/// Puts two views together.
pub struct JoinPass;

impl<E, R> Join<View<E, R>> for JoinPass {
    ghost use Rattle.farm_turn.specs.Views.{joined, spent};

    ghost both = { joined };

    ghost spent = { spent };
}
