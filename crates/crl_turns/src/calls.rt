//! The calls between the first and the last: taking a turn, giving it back, the count, an append, and
//! more passes or fewer.
//!
//! Each has two clauses. `here`: the pass is still of these turns. `told`: what it knows afterwards.
ghost use Rattle.std.specs.Prelude.{◌≡◌, ℕ, ◌<◌, false, length, MatchResult};
ghost use Rattle.crl_turns.specs.Calls.{Takes, Looks, Appends, RefusesAppend, JoinsFronts, HasValue, after_give_back};
ghost use Rattle.crl_turns.specs.Closing.{HoldsNone};
ghost use Rattle.crl_turns.specs.Passes.{view_of, part_count, common_shape, IsOf};
ghost use Rattle.crl_turns.specs.Plays.{after_try, after_split, split_view};
ghost use Rattle.crl_turns.specs.Rule.{StandsFor};

use crate::faults::{AppendFault, Busy};
use crate::plays::Halves;
use crate::turned::Turned;
use crate::turns::{Pass, Turns};
use atomic_table::Badge;
use crl_model::event::Evented;
use std::marker::Brand;
use std::mem;

impl<V: Turned> Turns<V> {
    /// Takes the turn and the value of a part, and then loads the count.
    ///
    /// The value stands for the part after the pass's front, and goes on standing as long as the pass
    /// has it: no other pass can append an event that touches the part.
    ///
    /// # Errors
    ///
    /// `Busy`: the one exchange of the turn found it out.
    pub fn try_take(&self, pass: &mut Pass, part: usize) -> Result<V, Busy>
        requires here { IsOf self.now pass.old }
        requires inside { part < part_count self.now }
        ensures here { IsOf self.now pass.new }
        ensures told { MatchResult result
            (λ value. Takes V.shape V.enabled V.touches V.stands (common_shape self.now) part (view_of pass.old) value (view_of pass.new))
            (λ _. view_of pass.new ≡ after_try part false (view_of pass.old)) }
    {
        let mut seat = mem::replace(&mut pass.badge, Badge::blank()).into_seat();
        let answer = self.try_take_as::<Brand>(&mut seat, part);
        pass.badge = seat.into_badge();
        answer
    }

    /// Gives the turn and the value of a part back.
    pub fn give_back(&self, pass: &mut Pass, part: usize, value: V)
        requires here { IsOf self.now pass.old }
        requires inside { part < part_count self.now }
        requires has { HasValue part (view_of pass.old) }
        requires value { StandsFor V.shape V.stands (common_shape self.now) part (view_of pass.old).front value }
        ensures here { IsOf self.now pass.new }
        ensures told { view_of pass.new ≡ after_give_back part (view_of pass.old) }
    {
        let mut seat = mem::replace(&mut pass.badge, Badge::blank()).into_seat();
        self.put_back(&mut seat, part, value);
        pass.badge = seat.into_badge();
    }

    /// The number of events, by one load of the count. It is the length of the pass's front afterwards.
    pub fn seen(&self, pass: &mut Pass) -> u64
        requires here { IsOf self.now pass.old }
        ensures here { IsOf self.now pass.new }
        ensures told { Looks V.shape V.enabled V.touches V.stands (common_shape self.now) (view_of pass.old) result (view_of pass.new) }
    {
        let mut seat = mem::replace(&mut pass.badge, Badge::blank()).into_seat();
        let count = self.look_as::<Brand>(&mut seat);
        pass.badge = seat.into_badge();
        count
    }

    /// The event for which the value stands takes position `saw`, which is the length of the pass's
    /// front. It may touch only parts whose values the pass has.
    ///
    /// # Errors
    ///
    /// `Moved`: others had appended events, and the count was `found`. `Spent`: there are 2^62 events.
    pub fn append<E: Evented>(
        &self,
        pass: &mut Pass,
        saw: u64,
        event: &E,
    ) -> Result<(), AppendFault>
        requires here { IsOf self.now pass.old }
        requires saw { saw ≡ length (view_of pass.old).front }
        requires enabled { V.enabled (common_shape self.now) (view_of pass.old).front (E.event event.now) }
        requires has { (part : ℕ) → V.touches (common_shape self.now) (view_of pass.old).front (E.event event.now) part
            → (part < part_count self.now) × HasValue part (view_of pass.old) }
        ensures here { IsOf self.now pass.new }
        ensures told { MatchResult result
            (λ _. Appends V.shape V.enabled V.touches V.stands (common_shape self.now) (view_of pass.old) (E.event event.now) (view_of pass.new))
            (λ fault. RefusesAppend V.shape V.enabled V.touches V.stands (common_shape self.now) saw (view_of pass.old) fault (view_of pass.new)) }
    {
        let mut seat = mem::replace(&mut pass.badge, Badge::blank()).into_seat();
        let answer = self.add_as::<Brand, Brand, E>(&mut seat, saw, event);
        pass.badge = seat.into_badge();
        answer
    }

    /// Another pass, with the same front. It holds no turn and has done nothing.
    pub fn split(&self, pass: &mut Pass) -> Pass
        requires here { IsOf self.now pass.old }
        ensures here { IsOf self.now pass.new × IsOf self.now result }
        ensures told { (view_of pass.new ≡ after_split (view_of pass.old)) × (view_of result ≡ split_view (view_of pass.old)) }
    {
        let mut seat = mem::replace(&mut pass.badge, Badge::blank()).into_seat();
        let new = self.table.shared.split_seat::<Halves>(&mut seat);
        pass.badge = seat.into_badge();
        Pass {
            badge: new.into_badge(),
        }
    }

    /// Joins another pass, which holds no turn, to this one. The front is then the longer of the two.
    pub fn join(&self, pass: &mut Pass, other: Pass)
        requires here { IsOf self.now pass.old × IsOf self.now other }
        requires idle { HoldsNone (view_of other) }
        ensures here { IsOf self.now pass.new }
        ensures told { JoinsFronts V.shape V.enabled V.touches V.stands (common_shape self.now) (view_of pass.old) (view_of other) (view_of pass.new) }
    {
        let Pass { badge } = other;
        let mut seat = mem::replace(&mut pass.badge, Badge::blank()).into_seat();
        self.join_as::<Brand>(&mut seat, badge.into_seat());
        pass.badge = seat.into_badge();
    }
}
