//! The atomic steps on the words, each kind in one function. That a call reads and writes the slot
//! which its seat has is no such step: no other thread can reach it.
//!
//! Word 0 is the count, and word `i + 1` the turn of part `i`.
ghost use Rattle.std.specs.Prelude.{◌≡◌, ℕ, ◌+◌, ◌<◌, ◌≤◌, ◌^◌, [], ◌∷◌, length, None, Some};
ghost use mathlib.Core.Option.{none};
ghost use Rattle.atomic_table.specs.Table.{step};
ghost use Rattle.crl_turns.specs.declared.view.Place.TheVariants.{Full, Drawn, Empty};
ghost use Rattle.crl_turns.specs.Rule.{StandsFor, value_place};
ghost use Rattle.crl_turns.specs.Plays.{OnLoad, OnLeave, OnDraw, OnFree, OnTake, OnGrab, OnAppend, OnCatchUp};

use crate::plays::{
    Appends, CatchesUp, Draws, Frees, Grabs, Leaves, NamedEvent, NamedShape, Sees, Takes,
};
use crate::turned::Turned;
use crate::turns::Turns;
use crate::view::View;
use atomic_table::Seat;

impl<V: Turned> Turns<V> {
    // The load of the count.
    pub(crate) fn see_as<S: NamedShape>(&self, seat: &mut Seat<Option<V>, View>) -> u64
        requires key { S.shape ≡ self.now.table.shared.key }
        requires here { seat.old.table_id ≡ self.now.table.shared.table_id }
        ensures here { seat.new.table_id ≡ seat.old.table_id }
        ensures told { OnLoad (V.enabled S.shape) (V.touches S.shape) (step self.now.table.shared.table_id.slots 0 0 0 none) seat.old.me result seat.new.me }
    {
        self.table.shared.load::<Sees<V, S>>(seat, 0)
    }

    // A load of the count behind a join, which tells what the pass had missed before its new front.
    pub(crate) fn catch_up_as<S: NamedShape>(&self, seat: &mut Seat<Option<V>, View>)
        requires key { S.shape ≡ self.now.table.shared.key }
        requires here { seat.old.table_id ≡ self.now.table.shared.table_id }
        requires longer { (length seat.old.me.0.known ≤ length seat.old.me.0.front) × (length seat.old.me.0.met ≤ length seat.old.me.0.front) }
        ensures here { seat.new.table_id ≡ seat.old.table_id }
        ensures told { OnCatchUp (V.enabled S.shape) (V.touches S.shape) (step self.now.table.shared.table_id.slots 0 0 0 none) seat.old.me 0 seat.new.me }
    {
        self.table.shared.load::<CatchesUp<V, S>>(seat, 0);
    }

    // The exchange of a turn from 0 to 1. Where it is got, its slot is taken.
    pub(crate) fn take_as<S: NamedShape>(&self, seat: &mut Seat<Option<V>, View>, i: usize) -> u64
        requires key { S.shape ≡ self.now.table.shared.key }
        requires here { seat.old.table_id ≡ self.now.table.shared.table_id }
        requires part { i < self.now.table.shared.table_id.slots }
        requires bare { seat.old.me.1 ≡ [] }
        ensures here { seat.new.table_id ≡ seat.old.table_id }
        ensures told { OnTake (V.enabled S.shape) (V.touches S.shape) (StandsFor V.shape V.stands S.shape) (step self.now.table.shared.table_id.slots (i + 1) 0 1 none) seat.old.me result seat.new.me }
    {
        self.table
            .shared
            .compare_exchange::<Takes<V, S>>(seat, i + 1, 0, 1)
    }

    // The load of the count, at which an empty slot goes home.
    pub(crate) fn leave_as<S: NamedShape>(&self, seat: &mut Seat<Option<V>, View>) -> u64
        requires key { S.shape ≡ self.now.table.shared.key }
        requires here { seat.old.table_id ≡ self.now.table.shared.table_id }
        requires slot { (i : ℕ) × (i < self.now.table.shared.table_id.slots) × (seat.old.me.1 ≡ (i, None) ∷ []) × (value_place i seat.old.me.0.holds ≡ Drawn) }
        ensures here { seat.new.table_id ≡ seat.old.table_id }
        ensures told { OnLeave (V.enabled S.shape) (V.touches S.shape) (step self.now.table.shared.table_id.slots 0 0 0 none) seat.old.me result seat.new.me }
    {
        self.table.shared.load::<Leaves<V, S>>(seat, 0)
    }

    // A load of a turn by its holder, which takes the empty slot.
    pub(crate) fn draw(&self, seat: &mut Seat<Option<V>, View>, i: usize)
        requires here { seat.old.table_id ≡ self.now.table.shared.table_id }
        requires part { i < self.now.table.shared.table_id.slots }
        requires bare { seat.old.me.1 ≡ [] }
        requires held { value_place i seat.old.me.0.holds ≡ Empty }
        ensures here { seat.new.table_id ≡ seat.old.table_id }
        ensures told { OnDraw (step self.now.table.shared.table_id.slots (i + 1) 0 0 none) seat.old.me 0 seat.new.me }
    {
        self.table.shared.load::<Draws>(seat, i + 1);
    }

    // A store of 0: the turn goes back, and its slot with it.
    pub(crate) fn free(&self, seat: &mut Seat<Option<V>, View>, i: usize)
        requires here { seat.old.table_id ≡ self.now.table.shared.table_id }
        requires part { i < self.now.table.shared.table_id.slots }
        requires held { value_place i seat.old.me.0.holds ≡ Drawn }
        requires level { seat.old.me.0.known ≡ seat.old.me.0.front }
        requires value { (x : V) × (seat.old.me.1 ≡ (i, Some x) ∷ []) × StandsFor V.shape V.stands self.now.table.shared.key i seat.old.me.0.front x }
        ensures here { seat.new.table_id ≡ seat.old.table_id }
        ensures told { OnFree (step self.now.table.shared.table_id.slots (i + 1) 0 0 none) seat.old.me 0 seat.new.me }
    {
        self.table.shared.store::<Frees>(seat, i + 1, 0);
    }

    // The exchange of the count, which appends the event that J names.
    pub(crate) fn append_as<S: NamedShape, J: NamedEvent>(
        &self,
        seat: &mut Seat<Option<V>, View>,
        saw: u64,
    ) -> u64
        requires key { S.shape ≡ self.now.table.shared.key }
        requires here { seat.old.table_id ≡ self.now.table.shared.table_id }
        requires saw { saw ≡ length seat.old.me.0.front }
        requires room { saw < 2 ^ 62 }
        requires enabled { V.enabled S.shape seat.old.me.0.front J.event }
        requires held { (i : ℕ) → V.touches S.shape seat.old.me.0.front J.event i → (i < self.now.table.shared.table_id.slots) × (value_place i seat.old.me.0.holds ≡ Empty) }
        ensures here { seat.new.table_id ≡ seat.old.table_id }
        ensures told { OnAppend (V.enabled S.shape) (V.touches S.shape) J.event (step self.now.table.shared.table_id.slots 0 saw (saw + 1) none) seat.old.me result seat.new.me }
    {
        self.table
            .shared
            .compare_exchange::<Appends<V, S, J>>(seat, 0, saw, saw + 1)
    }

    // The exchange of a turn from 0 to 1, whose slot stays.
    pub(crate) fn grab_as<S: NamedShape>(&self, seat: &mut Seat<Option<V>, View>, i: usize) -> u64
        requires key { S.shape ≡ self.now.table.shared.key }
        requires here { seat.old.table_id ≡ self.now.table.shared.table_id }
        requires part { i < self.now.table.shared.table_id.slots }
        ensures here { seat.new.table_id ≡ seat.old.table_id }
        ensures told { OnGrab (V.enabled S.shape) (V.touches S.shape) (step self.now.table.shared.table_id.slots (i + 1) 0 1 none) seat.old.me result seat.new.me }
    {
        self.table
            .shared
            .compare_exchange::<Grabs<V, S>>(seat, i + 1, 0, 1)
    }

    // The same, where the slot stayed at home.
    pub(crate) fn release(&self, seat: &mut Seat<Option<V>, View>, i: usize)
        requires here { seat.old.table_id ≡ self.now.table.shared.table_id }
        requires part { i < self.now.table.shared.table_id.slots }
        requires bare { seat.old.me.1 ≡ [] }
        requires held { value_place i seat.old.me.0.holds ≡ Full }
        ensures here { seat.new.table_id ≡ seat.old.table_id }
        ensures told { OnFree (step self.now.table.shared.table_id.slots (i + 1) 0 0 none) seat.old.me 0 seat.new.me }
    {
        self.table.shared.store::<Frees>(seat, i + 1, 0);
    }
}
