//! The rule of the table, the kinds of atomic step, and how seats are cut in two and joined.
//!
//! A type that implements `Play` names what a step tells. It can read neither the key of the table nor
//! an argument of a call, so the shape and the event come by a type parameter each, which is picked
//! where a call is made. None of these types has a value.
ghost use Rattle.crl_model.specs.declared.event.Event.TheVariants.{Collect};
ghost use Rattle.crl_turns.specs.Rule.{StandsFor};
ghost use Rattle.crl_turns.specs.Plays.{blank_view, after_split, split_view, after_join, OnLoad, OnLeave, OnDraw, OnFree, OnTake, OnGrab, OnAppend, OnCatchUp};

use crate::turned::{Shape, Turned};
use crate::view::View;
use atomic_table::{Join, Play, Split, TableRule};
use std::marker::{Brand, PhantomData};

/// The rule under which the words, the slots and the views stand, for each shape.
pub struct ByTurns<V> {
    values: PhantomData<V>,
}

impl<V: Turned> TableRule<Option<V>, View, Shape> for ByTurns<V> {
    ghost use Rattle.crl_turns.specs.Rule.{TurnRule};

    ghost holds = { λ s. TurnRule (V.enabled s) (V.touches s) (StandsFor V.shape V.stands s) };

    ghost first = { λ _. blank_view };
}

/// Names the shape of the turns on which a step is made.
pub trait NamedShape {
    ghost use Rattle.crl_turns.specs.declared.turned.Shape.{Shape};

    ghost shape: { Shape };
}

impl NamedShape for Brand {
    ghost shape = { record { parts = 0; extra = 0 } };
}

/// Names the event that a step appends.
pub trait NamedEvent {
    ghost use Rattle.crl_model.specs.declared.event.Event.{Event};

    ghost event: { Event };
}

impl NamedEvent for Brand {
    ghost event = { Collect 0 };
}

// A load of the count.
pub(crate) struct Sees<V, S> {
    marker: PhantomData<(V, S)>,
}

impl<V: Turned, S: NamedShape> Play<Option<V>, View> for Sees<V, S> {
    ghost then = { OnLoad (V.enabled S.shape) (V.touches S.shape) };
}

// A load of the count behind a join, which leaves the front as it is.
pub(crate) struct CatchesUp<V, S> {
    marker: PhantomData<(V, S)>,
}

impl<V: Turned, S: NamedShape> Play<Option<V>, View> for CatchesUp<V, S> {
    ghost then = { OnCatchUp (V.enabled S.shape) (V.touches S.shape) };
}

// A load of the count, at which the empty slot goes home.
pub(crate) struct Leaves<V, S> {
    marker: PhantomData<(V, S)>,
}

impl<V: Turned, S: NamedShape> Play<Option<V>, View> for Leaves<V, S> {
    ghost then = { OnLeave (V.enabled S.shape) (V.touches S.shape) };
}

// An exchange of a turn from 0 to 1, which takes the slot.
pub(crate) struct Takes<V, S> {
    marker: PhantomData<(V, S)>,
}

impl<V: Turned, S: NamedShape> Play<Option<V>, View> for Takes<V, S> {
    ghost then = { OnTake (V.enabled S.shape) (V.touches S.shape) (StandsFor V.shape V.stands S.shape) };
}

// An exchange of a turn from 0 to 1, whose slot stays.
pub(crate) struct Grabs<V, S> {
    marker: PhantomData<(V, S)>,
}

impl<V: Turned, S: NamedShape> Play<Option<V>, View> for Grabs<V, S> {
    ghost then = { OnGrab (V.enabled S.shape) (V.touches S.shape) };
}

// A load of a turn by its holder, which takes the empty slot.
pub(crate) struct Draws;

impl<V> Play<Option<V>, View> for Draws {
    ghost then = { OnDraw };
}

// A store of 0 to a turn, at which a slot that was out goes home.
pub(crate) struct Frees;

impl<V> Play<Option<V>, View> for Frees {
    ghost then = { OnFree };
}

// An exchange of the count, which appends the event that `J` names.
pub(crate) struct Appends<V, S, J> {
    marker: PhantomData<(V, S, J)>,
}

impl<V: Turned, S: NamedShape, J: NamedEvent> Play<Option<V>, View> for Appends<V, S, J> {
    ghost then = { OnAppend (V.enabled S.shape) (V.touches S.shape) J.event };
}

// A split.
pub(crate) struct Halves;

impl Split<View> for Halves {
    ghost left = { after_split };

    ghost right = { split_view };
}

// A join.
pub(crate) struct Joins;

impl Join<View> for Joins {
    ghost both = { after_join };

    ghost spent = { blank_view };
}
