//! One event at a node that isn't held: the node is held for it, and released on every answer.
ghost use Rattle.std.specs.Prelude.{◌≡◌, ◌<◌, ◌≤◌, true, false, length, MatchResult};
ghost use Rattle.crl_model.specs.declared.event.Event.TheVariants as event;
ghost use Rattle.crl_protocol.specs.World.{is_ready};
ghost use Rattle.crl_cluster.specs.Standing.{heard_at};
ghost use Rattle.crl_cluster.specs.Clusters.{view_of, shape_of, node_count, IsOf, IsHeld, IsSameHeld};
ghost use Rattle.crl_cluster.specs.Acting.{Comes, IsDone};
ghost use Rattle.crl_cluster.specs.Trying.{Alone, IsUntried, IsNotTried, HasNoPiece, HasNoAnswer, HasNoCall, may_go, can_make};

use crate::cluster::{Cluster, Pass};
use crate::faults::{NotDone, NotTried, TryFault};
use crate::held::Held;
use crate::luggage::Luggage;
use crl_guard::{Reading, Writing};
use crl_member::Member;
use crl_model::NodeNo;
use crl_model::activity::Answer;
use crl_model::call::{Call, Refusal};

impl<N: Member, T: Luggage> Cluster<N, T> {
    /// The held node handles the piece at this place of its inbox, if one is there.
    fn handle_if(
        &self,
        pass: &mut Pass,
        held: &mut Held<N, T>,
        place: usize,
    ) -> Result<(), TryFault>
        requires here { IsOf self.now pass.old }
        requires held { IsHeld N.state (shape_of self.now) (view_of pass.old) held.old }
        ensures here { IsOf self.now pass.new }
        ensures held { IsHeld N.state (shape_of self.now) (view_of pass.new) held.new × IsSameHeld held.old held.new }
        ensures told { let s = shape_of self.now in
            let old = view_of pass.old in
            let new = view_of pass.new in
            MatchResult result (λ _. Comes s (event.Handle held.old.number place) old new)
            (λ why. IsUntried s (HasNoPiece held.old.number place) old why new) }
    {
        if place >= held.behind.node.inbox_len() {
            return Err(TryFault::Nothing);
        }
        match self.handle(pass, held, place) {
            Ok(()) => Ok(()),
            Err(why) => Err(TryFault::Step(why)),
        }
    }

    /// The node handles the piece at this place of its inbox.
    ///
    /// # Errors
    ///
    /// By the fault: `Nothing` where there is no piece at the place.
    pub fn try_handle(&self, pass: &mut Pass, node: NodeNo, place: usize) -> Result<(), TryFault>
        requires here { IsOf self.now pass.old }
        requires node { node < node_count self.now }
        ensures here { IsOf self.now pass.new }
        ensures told { let s = shape_of self.now in
            let old = view_of pass.old in
            let new = view_of pass.new in
            MatchResult result (λ _. Alone s node old new (Comes s (event.Handle node place)))
            (λ why. IsNotTried s node (HasNoPiece node place) old why new) }
    {
        match self.hold(pass, node) {
            Ok(mut held) => {
                let answer = self.handle_if(pass, &mut held, place);
                self.release(pass, held);
                answer
            }
            Err(busy) => Err(TryFault::Busy { node: busy.node }),
        }
    }
}

impl<N: Member> Cluster<N, ()> {
    /// The held node takes its answer, if it has one.
    fn collect_if(
        &self,
        pass: &mut Pass,
        held: &mut Held<N, ()>,
    ) -> Result<Answer<Reading, Writing>, TryFault>
        requires here { IsOf self.now pass.old }
        requires held { IsHeld N.state (shape_of self.now) (view_of pass.old) held.old }
        ensures here { IsOf self.now pass.new }
        ensures held { IsHeld N.state (shape_of self.now) (view_of pass.new) held.new × IsSameHeld held.old held.new }
        ensures told { let s = shape_of self.now in
            let old = view_of pass.old in
            let new = view_of pass.new in
            MatchResult result (λ answer. IsDone s (event.Collect held.old.number) old answer new)
            (λ why. IsUntried s (HasNoAnswer held.old.number) old why new) }
    {
        if !held.behind.node.is_ready() {
            return Err(TryFault::Nothing);
        }
        match self.collect(pass, held) {
            Ok(answer) => Ok(answer),
            Err(why) => Err(TryFault::Step(why)),
        }
    }

    /// The node takes the answer for which it waited.
    ///
    /// # Errors
    ///
    /// By the fault: `Nothing` where it has no answer to take.
    pub fn try_collect(
        &self,
        pass: &mut Pass,
        node: NodeNo,
    ) -> Result<Answer<Reading, Writing>, TryFault>
        requires here { IsOf self.now pass.old }
        requires node { node < node_count self.now }
        ensures here { IsOf self.now pass.new }
        ensures told { let s = shape_of self.now in
            let old = view_of pass.old in
            let new = view_of pass.new in
            MatchResult result (λ answer. Alone s node old new (λ held done. IsDone s (event.Collect node) held answer done))
            (λ why. IsNotTried s node (HasNoAnswer node) old why new) }
    {
        match self.hold(pass, node) {
            Ok(mut held) => {
                let answer = self.collect_if(pass, &mut held);
                self.release(pass, held);
                answer
            }
            Err(busy) => Err(TryFault::Busy { node: busy.node }),
        }
    }

    /// The held node makes the call, if it may.
    fn call_if(
        &self,
        pass: &mut Pass,
        held: &mut Held<N, ()>,
        call: Call,
    ) -> Result<Answer<Reading, Writing>, NotTried<Call>>
        requires here { IsOf self.now pass.old }
        requires held { IsHeld N.state (shape_of self.now) (view_of pass.old) held.old }
        ensures here { IsOf self.now pass.new }
        ensures held { IsHeld N.state (shape_of self.now) (view_of pass.new) held.new × IsSameHeld held.old held.new }
        ensures told { let s = shape_of self.now in
            let i = held.old.number in
            let old = view_of pass.old in
            let new = view_of pass.new in
            MatchResult result (λ answer. IsDone s (event.Call i call) old answer new)
            (λ fault. (fault.back ≡ call) × IsUntried s (HasNoCall i call) old fault.why new) }
    {
        if !may_make(&held.behind.node, &call) {
            return Err(NotTried {
                why: TryFault::Nothing,
                back: call,
            });
        }
        match self.call(pass, held, call) {
            Ok(answer) => Ok(answer),
            Err(NotDone { why, back }) => Err(NotTried {
                why: TryFault::Step(why),
                back,
            }),
        }
    }

    /// The node makes the call.
    ///
    /// # Errors
    ///
    /// By the fault: `Nothing` where the node isn't free, or the call is one that is allowed and goes by a guard. The call
    /// comes back.
    pub fn try_call(
        &self,
        pass: &mut Pass,
        node: NodeNo,
        call: Call,
    ) -> Result<Answer<Reading, Writing>, NotTried<Call>>
        requires here { IsOf self.now pass.old }
        requires node { node < node_count self.now }
        ensures here { IsOf self.now pass.new }
        ensures told { let s = shape_of self.now in
            let old = view_of pass.old in
            let new = view_of pass.new in
            MatchResult result (λ answer. Alone s node old new (λ held done. IsDone s (event.Call node call) held answer done))
            (λ fault. (fault.back ≡ call) × IsNotTried s node (HasNoCall node call) old fault.why new) }
    {
        match self.hold(pass, node) {
            Ok(mut held) => {
                let answer = self.call_if(pass, &mut held, call);
                self.release(pass, held);
                answer
            }
            Err(busy) => Err(NotTried {
                why: TryFault::Busy { node: busy.node },
                back: call,
            }),
        }
    }
}

/// The call goes, with this verdict on it: it is refused, or it is neither a change nor the end of a section.
fn goes(call: &Call, verdict: Option<Refusal>) -> bool
    ensures { result ≡ may_go call.now verdict }
{
    match verdict {
        Some(_) => true,
        None => !matches!(
            call,
            Call::EndRead { .. } | Call::EndWrite { .. } | Call::Put { .. } | Call::Add { .. }
        ),
    }
}

/// The node may make the call.
fn may_make<N: Member>(node: &N, call: &Call) -> bool
    ensures { result ≡ can_make call.now (N.state node.now) }
{
    node.is_free() && goes(call, node.verdict(call))
}
