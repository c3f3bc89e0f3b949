//! The events of a node that is held: a call, an answer that is taken, and a piece that is handled.
//!
//! What an event takes is made ready on the node, the event is appended at the count that is loaded, and then the node
//! makes its step at that position. Where it isn't appended the node has changed in nothing but its room.
ghost use Rattle.std.specs.Prelude.{◌≡◌, ◌<◌, true, length, MatchResult};
ghost use Rattle.crl_model.specs.declared.event.Event.TheVariants as event;
ghost use Rattle.crl_protocol.specs.World.{is_free, is_ready};
ghost use Rattle.crl_member.specs.Fitting.{MayCall};
ghost use Rattle.crl_cluster.specs.Clusters.{view_of, shape_of, IsOf, IsHeld, IsSameHeld};
ghost use Rattle.crl_cluster.specs.Acting.{Comes, IsDone, IsUndone};

use crate::cluster::{Cluster, Pass};
use crate::events::{Calling, Collecting, Handling};
use crate::faults::{NotDone, StepFault};
use crate::held::Held;
use crate::luggage::Luggage;
use crl_guard::{Reading, Writing};
use crl_member::Member;
use crl_model::activity::Answer;
use crl_model::call::Call;

impl<N: Member, T: Luggage> Cluster<N, T> {
    /// The held node makes the call. The end of a section that is allowed goes by its guard.
    ///
    /// # Errors
    ///
    /// By the fault. The call comes back.
    pub fn call(
        &self,
        pass: &mut Pass,
        held: &mut Held<N, T>,
        call: Call,
    ) -> Result<Answer<Reading, Writing>, NotDone<Call>>
        requires here { IsOf self.now pass.old }
        requires held { IsHeld N.state (shape_of self.now) (view_of pass.old) held.old }
        requires free { is_free (N.state held.old.behind.node).activity ≡ true }
        requires may { MayCall (N.state held.old.behind.node) call }
        ensures here { IsOf self.now pass.new }
        ensures held { IsHeld N.state (shape_of self.now) (view_of pass.new) held.new × IsSameHeld held.old held.new }
        ensures told { let s = shape_of self.now in
            let old = view_of pass.old in
            let new = view_of pass.new in
            MatchResult result (λ answer. IsDone s (event.Call held.old.number call) old answer new)
            (λ fault. (fault.back ≡ call) × IsUndone s old fault.why new) }
    {
        let refusal = held.behind.node.verdict(&call);
        let Ok(kit) = held.behind.node.ready_call(&call, refusal) else {
            return Err(NotDone {
                why: StepFault::OutOfMemory,
                back: call,
            });
        };
        let event = Calling {
            node: held.number,
            call,
        };
        let appended = self.append_next(pass, &event);
        let Calling { node: _, call } = event;
        match appended {
            Ok(at) => Ok(held.behind.node.make_call(at, call, kit)),
            Err(why) => Err(NotDone { why, back: call }),
        }
    }

    /// The held node takes the answer for which it waited.
    ///
    /// # Errors
    ///
    /// By the fault.
    pub fn collect(
        &self,
        pass: &mut Pass,
        held: &mut Held<N, T>,
    ) -> Result<Answer<Reading, Writing>, StepFault>
        requires here { IsOf self.now pass.old }
        requires held { IsHeld N.state (shape_of self.now) (view_of pass.old) held.old }
        requires ready { is_ready (N.state held.old.behind.node).activity ≡ true }
        ensures here { IsOf self.now pass.new }
        ensures held { IsHeld N.state (shape_of self.now) (view_of pass.new) held.new × IsSameHeld held.old held.new }
        ensures told { let s = shape_of self.now in
            let old = view_of pass.old in
            let new = view_of pass.new in
            MatchResult result (λ answer. IsDone s (event.Collect held.old.number) old answer new) (λ why. IsUndone s old why new) }
    {
        let Ok(()) = held.behind.node.ready_collect() else {
            return Err(StepFault::OutOfMemory);
        };
        match self.append_next(pass, &Collecting { node: held.number }) {
            Ok(at) => Ok(held.behind.node.make_collect(at)),
            Err(why) => Err(why),
        }
    }

    /// The held node handles the piece at this place of its inbox.
    ///
    /// # Errors
    ///
    /// By the fault.
    pub fn handle(
        &self,
        pass: &mut Pass,
        held: &mut Held<N, T>,
        place: usize,
    ) -> Result<(), StepFault>
        requires here { IsOf self.now pass.old }
        requires held { IsHeld N.state (shape_of self.now) (view_of pass.old) held.old }
        requires there { place < length (N.state held.old.behind.node).inbox }
        ensures here { IsOf self.now pass.new }
        ensures held { IsHeld N.state (shape_of self.now) (view_of pass.new) held.new × IsSameHeld held.old held.new }
        ensures told { let s = shape_of self.now in
            let old = view_of pass.old in
            let new = view_of pass.new in
            MatchResult result (λ _. Comes s (event.Handle held.old.number place) old new) (λ why. IsUndone s old why new) }
    {
        let Ok(kit) = held.behind.node.ready_handle(place) else {
            return Err(StepFault::OutOfMemory);
        };
        let event = Handling {
            node: held.number,
            place,
        };
        match self.append_next(pass, &event) {
            Ok(at) => {
                held.behind.node.make_handle(at, place, kit);
                Ok(())
            }
            Err(why) => Err(why),
        }
    }
}
