use crate::turned::Turned;
use crate::view::View;
use atomic_table::{Join, Play, Split, TableRule};
use std::marker::PhantomData;
use std::snapshot::Snapshot;

/// What the rule is told once: the value at the opening, and for how many callers.
#[derive(Drop)]
pub struct Start<V> {
    pub value: Snapshot<V>,
    pub callers: u32,
}

/// The rule of the turn.
pub struct OneHistory<V> {
    of: PhantomData<V>,
}

impl<V: Turned> TableRule<V, View<V, V::Entry>, Start<V>> for OneHistory<V> {
    ghost use Rattle.std.specs.Prelude.{◌*◌, [], ◌∷◌};
    ghost use Rattle.wp_turn.specs.Rule.{Kept, most_calls};
    ghost use Rattle.wp_turn.specs.Views.{numbering};

    ghost holds = { λ key. Kept V.entries V.setting key.value.value key.callers };

    ghost first = { λ key. numbering (key.value.value ∷ []) [] 0 [] (key.callers * most_calls) 0 key.callers };
}

/// At the opening, a caller number is drawn.
pub struct DrawNumber<V> {
    of: PhantomData<V>,
}

impl<V: Turned> Play<V, View<V, V::Entry>> for DrawNumber<V> {
    ghost use Rattle.wp_turn.specs.Told.{Numbered};

    ghost then = { Numbered V.entries V.setting };
}

/// The history up to now is seen.
pub struct Look<V> {
    of: PhantomData<V>,
}

impl<V: Turned> Play<V, View<V, V::Entry>> for Look<V> {
    ghost use Rattle.wp_turn.specs.Told.{Looked};

    ghost then = { Looked V.entries V.setting };
}

/// A place in the queue is drawn.
pub struct DrawPlace<V> {
    of: PhantomData<V>,
}

impl<V: Turned> Play<V, View<V, V::Entry>> for DrawPlace<V> {
    ghost use Rattle.wp_turn.specs.Told.{Drew};

    ghost then = { Drew V.entries V.setting };
}

/// If its place is due, the pass takes the slot.
pub struct Come<V> {
    of: PhantomData<V>,
}

impl<V: Turned> Play<V, View<V, V::Entry>> for Come<V> {
    ghost use Rattle.wp_turn.specs.Told.{Came};

    ghost then = { Came V.entries V.setting };
}

/// The call stands in the history, and the slot goes back.
pub struct Commit<V> {
    of: PhantomData<V>,
}

impl<V: Turned> Play<V, View<V, V::Entry>> for Commit<V> {
    ghost use Rattle.wp_turn.specs.Told.{Committed};

    ghost then = { Committed V.entries V.setting };
}

/// The right to draw the next caller number goes on to a new seat.
pub struct HandOn;

impl<T, E> Split<View<T, E>> for HandOn {
    ghost use Rattle.std.specs.Prelude.{[], ◌-◌};
    ghost use Rattle.wp_turn.specs.Rule.{most_calls};
    ghost use Rattle.wp_turn.specs.Views.{rested, handed_on};

    ghost left = { λ v. rested v.start v.calls v.caller v.callers most_calls };

    ghost right = { λ v. handed_on v (v.left - most_calls) };
}

/// Two passes become one, which stands for the callers of both.
pub struct Both;

impl<T, E> Join<View<T, E>> for Both {
    ghost use Rattle.std.specs.Prelude.{◌+◌};
    ghost use Rattle.wp_turn.specs.Views.{joined, spent};

    ghost both = { λ v w. joined v.start v.calls v.caller v.callers w.calls w.callers (v.left + w.left) };

    ghost spent = { spent };
}
