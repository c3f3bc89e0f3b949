//! The end of the turns: one pass gets them all, the others are joined to it, and the table is taken
//! apart.
ghost use Rattle.std.specs.Prelude.{◌≡◌, ℕ, ◌+◌, ◌<◌, ◌≤◌, [], MatchBool, MatchResult, Some, vec_capacity, vec_len};
ghost use Rattle.crl_turns.specs.declared.view.Place.TheVariants.{Full};
ghost use Rattle.crl_turns.specs.Fronts.{Begins};
ghost use Rattle.crl_turns.specs.Rule.{IsAmong, value_place};
ghost use Rattle.crl_turns.specs.Closing.{MissesTurn, GotBelow, GotAll, GotNone, HoldsBelow, HoldsNone, AllThere, IsDrained, EndsWith};
ghost use Rattle.crl_turns.specs.Ending.{Closes, HandsBack};
ghost use Rattle.crl_turns.specs.Passes.{view_of, part_count, common_shape, IsOf};
ghost use Rattle.std.specs.Slots.{slots_items, slots_len, IsFull};
ghost use Rattle.crl_turns.specs.declared.turns.Pass.{Pass};

use crate::faults::CloseWhy;
use crate::plays::NamedShape;
use crate::turned::Turned;
use crate::turns::{Pass, Turns};
use crate::view::View;
use atomic_table::{Badge, Closed, Seat};
use std::alloc::Global;
use std::marker::Brand;
use std::mem;

impl<V: Turned> Turns<V> {
    // Tries one more turn, whose slot stays at home.
    fn grab_next_as<S: NamedShape>(&self, seat: &mut Seat<Option<V>, View>, i: usize) -> bool
        requires key { S.shape ≡ self.now.table.shared.key }
        requires here { seat.old.table_id ≡ self.now.table.shared.table_id }
        requires part { i < self.now.table.shared.table_id.slots }
        requires bare { seat.old.me.1 ≡ [] }
        ensures here { (seat.new.table_id ≡ seat.old.table_id) × (seat.new.me.1 ≡ []) }
        ensures told { MatchBool result
            ((first : View) → GotBelow i first seat.old.me.0 → GotBelow (i + 1) first seat.new.me.0)
            (MissesTurn i seat.old.me.0 seat.new.me.0) }
    {
        self.grab_as::<S>(seat, i) == 0
    }

    // Gives the first turns back.
    fn release_below(&self, seat: &mut Seat<Option<V>, View>, count: usize)
        requires here { seat.old.table_id ≡ self.now.table.shared.table_id }
        requires part { count ≤ self.now.table.shared.table_id.slots }
        requires bare { seat.old.me.1 ≡ [] }
        requires held { HoldsBelow count seat.old.me.0 seat.old.me.0 }
        ensures here { (seat.new.table_id ≡ seat.old.table_id) × (seat.new.me.1 ≡ []) }
        ensures told { HoldsBelow 0 seat.old.me.0 seat.new.me.0 }
    {
        let mut j = count;
        while j > 0 {
            j -= 1;
            self.release(seat, j);
        }
    }

    // Tries all turns in order, up to one that is out, and then loads the count. Where one is out, those
    // that were got go back first.
    fn grab_all_as<S: NamedShape>(&self, seat: &mut Seat<Option<V>, View>) -> Result<(), usize>
        requires key { S.shape ≡ self.now.table.shared.key }
        requires here { seat.old.table_id ≡ self.now.table.shared.table_id }
        requires bare { seat.old.me.1 ≡ [] }
        requires idle { HoldsNone seat.old.me.0 }
        ensures here { (seat.new.table_id ≡ seat.old.table_id) × (seat.new.me.1 ≡ []) }
        ensures told { MatchResult result
            (λ _. GotAll self.now.table.shared.table_id.slots seat.old.me.0 seat.new.me.0)
            (λ part. GotNone (V.enabled S.shape) self.now.table.shared.table_id.slots seat.old.me.0 part seat.new.me.0) }
    {
        let parts = self.table.slot_count();
        let mut i = 0;
        while i < parts {
            if !self.grab_next_as::<S>(seat, i) {
                self.release_below(seat, i);
                self.see_as::<S>(seat);
                return Err(i);
            }
            i += 1;
        }
        self.see_as::<S>(seat);
        Ok(())
    }

    // Joins all others to the first.
    fn join_all(&self, first: &mut Pass, mut others: Vec<Pass>)
        requires here { IsOf self.now first.old × ((pass : Pass) → IsAmong pass others.items → IsOf self.now pass × HoldsNone (view_of pass)) }
        ensures here { IsOf self.now first.new }
        ensures front { Begins (view_of first.old).front (view_of first.new).front }
        ensures same { ((view_of first.new).holds ≡ (view_of first.old).holds)
            × ((view_of first.new).tried ≡ (view_of first.old).tried) × ((view_of first.new).splits ≡ (view_of first.old).splits) }
        ensures others { (pass : Pass) → IsAmong pass others.items → Begins (view_of pass).front (view_of first.new).front }
    {
        while let Some(other) = others.pop() {
            self.join(first, other);
        }
    }

    // Takes the table apart, whose turns all are out with the pass.
    fn finish(self, first: Pass, values: Vec<V>) -> (Vec<V>, u64)
        requires here { IsOf self first }
        requires all { (i : ℕ) → i < part_count self → value_place i (view_of first).holds ≡ Full }
        requires room { (values.items ≡ []) × (part_count self ≤ vec_capacity values) }
        ensures { EndsWith V.shape V.enabled V.stands (common_shape self) (part_count self) (view_of first).front result.0.items result.1 }
    {
        let Turns { table } = self;
        let Pass { badge } = first;
        let closed = table.close_with(badge.into_seat());
        let count = closed.word(0);
        (drained(closed, values), count)
    }
}

// The values of the slots, in order.
fn drained<V>(mut closed: Closed<Option<V>, Global>, mut values: Vec<V>) -> Vec<V>
    requires full { IsFull closed.slots × AllThere (slots_items closed.slots) }
    requires room { (values.items ≡ []) × (slots_len closed.slots ≤ vec_capacity values) }
    ensures { IsDrained (slots_len closed.slots) (slots_items closed.slots) result.items }
{
    let parts = closed.slot_count();
    let mut i = 0;
    while i < parts {
        values.push_reserved(closed.take(i).unwrap());
        i += 1;
    }
    closed.free();
    values
}

/// The turns and the passes, handed back.
#[derive(Drop)]
pub struct NotClosed<V: Turned> {
    pub turns: Turns<V>,
    pub passes: Vec<Pass>,
    pub why: CloseWhy,
}

impl<V: Turned> Turns<V> {
    // Tries all turns by one pass.
    fn grab_all(&self, pass: &mut Pass) -> Result<(), usize>
        requires here { IsOf self.now pass.old }
        requires idle { HoldsNone (view_of pass.old) }
        ensures here { IsOf self.now pass.new }
        ensures told { MatchResult result
            (λ _. GotAll (part_count self.now) (view_of pass.old) (view_of pass.new))
            (λ part. GotNone (V.enabled (common_shape self.now)) (part_count self.now) (view_of pass.old) part (view_of pass.new)) }
    {
        let mut seat = mem::replace(&mut pass.badge, Badge::blank()).into_seat();
        let answer = self.grab_all_as::<Brand>(&mut seat);
        pass.badge = seat.into_badge();
        answer
    }

    /// Takes the turns apart: the values in the order of their parts, and the number of events. Needs at
    /// least one pass, none of which holds a turn. The first tries each turn at most once.
    ///
    /// # Errors
    ///
    /// `OutOfMemory`, before anything is tried. `Busy`: the exchange of this turn found it out, and each
    /// turn that was got has gone back. Both hand all back.
    pub fn close(self, alloc: Global, mut passes: Vec<Pass>) -> Result<(Vec<V>, u64), NotClosed<V>>
        requires count { 0 < vec_len passes }
        requires here { (pass : Pass) → IsAmong pass passes.items → IsOf self pass × HoldsNone (view_of pass) }
        ensures { MatchResult result
            (λ closed. Closes V.shape V.enabled V.stands (common_shape self) (part_count self) passes.items closed.0.items closed.1)
            (λ refused. (refused.turns ≡ self) × HandsBack (V.enabled (common_shape self)) (part_count self) passes.items refused.why refused.passes.items) }
    {
        let Ok(values) = Vec::with_capacity(alloc, self.table.slot_count()) else {
            return Err(NotClosed {
                turns: self,
                passes,
                why: CloseWhy::OutOfMemory,
            });
        };
        if let Err(part) = self.grab_all(&mut passes[0]) {
            values.destroy_empty();
            return Err(NotClosed {
                turns: self,
                passes,
                why: CloseWhy::Busy { part },
            });
        }
        let mut first = passes.remove(0);
        self.join_all(&mut first, passes);
        Ok(self.finish(first, values))
    }
}
