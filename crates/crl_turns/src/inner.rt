//! The calls, as steps of a seat. Which atomic steps a call makes, and in which order, stands here.
//!
//! Between two calls a seat has no slot (`bare`), and knew the whole history that its front is
//! (`level`). The parameters `S` and `J` name the shape of the turns and the event that is appended.
ghost use Rattle.std.specs.Prelude.{◌≡◌, ℕ, ◌<◌, ◌≤◌, ◌^◌, [], false, length, MatchResult};
ghost use Rattle.crl_turns.specs.Calls.{Takes, Looks, Appends, RefusesAppend, JoinsFronts, HasValue, after_give_back};
ghost use Rattle.crl_turns.specs.Closing.{HoldsNone};
ghost use Rattle.crl_turns.specs.Plays.{after_try};
ghost use Rattle.crl_turns.specs.Rule.{StandsFor};

use crate::faults::{AppendFault, Busy};
use crate::plays::{Joins, NamedEvent, NamedShape};
use crate::turned::Turned;
use crate::turns::Turns;
use crate::view::View;
use atomic_table::Seat;
use crl_model::event::Evented;

/// The most events.
const EVENT_LIMIT: u64 = 1 << 62;

impl<V: Turned> Turns<V> {
    // Gets the turn and its slot in one step, takes the value out, and sends the slot home empty at the load.
    pub(crate) fn try_take_as<S: NamedShape>(
        &self,
        seat: &mut Seat<Option<V>, View>,
        i: usize,
    ) -> Result<V, Busy>
        requires key { S.shape ≡ self.now.table.shared.key }
        requires here { seat.old.table_id ≡ self.now.table.shared.table_id }
        requires part { i < self.now.table.shared.table_id.slots }
        requires bare { seat.old.me.1 ≡ [] }
        requires level { seat.old.me.0.known ≡ seat.old.me.0.front }
        ensures here { (seat.new.table_id ≡ seat.old.table_id) × (seat.new.me.1 ≡ []) }
        ensures told { MatchResult result
            (λ x. Takes V.shape V.enabled V.touches V.stands S.shape i seat.old.me.0 x seat.new.me.0)
            (λ _. seat.new.me.0 ≡ after_try i false seat.old.me.0) }
    {
        if self.take_as::<S>(seat, i) != 0 {
            return Err(Busy);
        }
        let value = self.table.shared.exchange(seat, i, None).unwrap();
        self.leave_as::<S>(seat);
        Ok(value)
    }

    // Takes the empty slot, puts the value in, and sends the slot home with the turn.
    pub(crate) fn put_back(&self, seat: &mut Seat<Option<V>, View>, i: usize, value: V)
        requires here { seat.old.table_id ≡ self.now.table.shared.table_id }
        requires part { i < self.now.table.shared.table_id.slots }
        requires bare { seat.old.me.1 ≡ [] }
        requires level { seat.old.me.0.known ≡ seat.old.me.0.front }
        requires has { HasValue i seat.old.me.0 }
        requires value { StandsFor V.shape V.stands self.now.table.shared.key i seat.old.me.0.front value }
        ensures here { (seat.new.table_id ≡ seat.old.table_id) × (seat.new.me.1 ≡ []) }
        ensures told { seat.new.me.0 ≡ after_give_back i seat.old.me.0 }
    {
        self.draw(seat, i);
        let empty = self.table.shared.exchange(seat, i, Some(value));
        let None = empty else { unreachable!() };
        self.free(seat, i);
    }

    pub(crate) fn look_as<S: NamedShape>(&self, seat: &mut Seat<Option<V>, View>) -> u64
        requires key { S.shape ≡ self.now.table.shared.key }
        requires here { seat.old.table_id ≡ self.now.table.shared.table_id }
        requires bare { seat.old.me.1 ≡ [] }
        requires level { seat.old.me.0.known ≡ seat.old.me.0.front }
        ensures here { (seat.new.table_id ≡ seat.old.table_id) × (seat.new.me.1 ≡ []) }
        ensures told { Looks V.shape V.enabled V.touches V.stands S.shape seat.old.me.0 result seat.new.me.0 }
    {
        self.see_as::<S>(seat)
    }

    pub(crate) fn add_as<S: NamedShape, J: NamedEvent, E: Evented>(
        &self,
        seat: &mut Seat<Option<V>, View>,
        saw: u64,
        event: &E,
    ) -> Result<(), AppendFault>
        requires event { E.event event.now ≡ J.event }
        requires key { S.shape ≡ self.now.table.shared.key }
        requires here { seat.old.table_id ≡ self.now.table.shared.table_id }
        requires bare { seat.old.me.1 ≡ [] }
        requires rests { (seat.old.me.0.known ≡ seat.old.me.0.front) × (length seat.old.me.0.front ≤ 2 ^ 62) }
        requires saw { saw ≡ length seat.old.me.0.front }
        requires enabled { V.enabled S.shape seat.old.me.0.front J.event }
        requires held { (i : ℕ) → V.touches S.shape seat.old.me.0.front J.event i → (i < self.now.table.shared.table_id.slots) × HasValue i seat.old.me.0 }
        ensures here { (seat.new.table_id ≡ seat.old.table_id) × (seat.new.me.1 ≡ []) }
        ensures told { MatchResult result
            (λ _. Appends V.shape V.enabled V.touches V.stands S.shape seat.old.me.0 J.event seat.new.me.0)
            (λ fault. RefusesAppend V.shape V.enabled V.touches V.stands S.shape saw seat.old.me.0 fault seat.new.me.0) }
    {
        let _event = event;
        if saw >= EVENT_LIMIT {
            return Err(AppendFault::Spent);
        }
        let found = self.append_as::<S, J>(seat, saw);
        if found == saw {
            Ok(())
        } else if found >= EVENT_LIMIT {
            Err(AppendFault::Spent)
        } else {
            Err(AppendFault::Moved { saw, found })
        }
    }

    // A join of seats tells nothing. The load after it tells what the kept pass missed before its front.
    pub(crate) fn join_as<S: NamedShape>(
        &self,
        seat: &mut Seat<Option<V>, View>,
        other: Seat<Option<V>, View>,
    )
        requires key { S.shape ≡ self.now.table.shared.key }
        requires here { (seat.old.table_id ≡ self.now.table.shared.table_id) × (other.table_id ≡ self.now.table.shared.table_id) }
        requires bare { (seat.old.me.1 ≡ []) × (other.me.1 ≡ []) }
        requires level { seat.old.me.0.known ≡ seat.old.me.0.front }
        requires idle { HoldsNone other.me.0 }
        ensures here { (seat.new.table_id ≡ seat.old.table_id) × (seat.new.me.1 ≡ []) }
        ensures told { JoinsFronts V.shape V.enabled V.touches V.stands S.shape seat.old.me.0 other.me.0 seat.new.me.0 }
    {
        self.table.shared.join_seat::<Joins>(seat, other);
        self.catch_up_as::<S>(seat);
    }
}
