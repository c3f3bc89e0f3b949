//! The events of one node. Each is done at once, or the world stays as it was.
ghost use Rattle.std.specs.Prelude.{◌≡◌, ◌<◌, true, false, length, MatchResult};
ghost use Rattle.crl_model.specs.declared.event.Event.TheVariants as event;
ghost use Rattle.crl_protocol.specs.Places.{take_out};
ghost use Rattle.crl_protocol.specs.World.{is_enabled};
ghost use Rattle.crl_protocol.specs.Verdict as verdict;
ghost use Rattle.crl_member.specs.Fitting.{goes_by_guard};
ghost use Rattle.crl_member.specs.Members.{TakenIsSafe};
ghost use Rattle.crl_world.specs.Seen.{world_seen, NodesAreSafe};
ghost use Rattle.crl_world.specs.Stepping.{StepIsDone, EventIsDone, CallIsUndone, StepIsUndone};

use crate::faults::{CallFault, StepFault};
use crate::world::World;
use crl_guard::{Reading, Writing};
use crl_member::Member;
use crl_model::NodeNo;
use crl_model::activity::Answer;
use crl_model::call::{Call, Refusal};

/// The largest number of events of a world, 2^62.
pub const EVENT_LIMIT: u64 = 0x4000_0000_0000_0000;

impl<N: Member> World<N> {
    /// The node makes the call. The end of a section that is allowed goes by its guard.
    ///
    /// # Errors
    ///
    /// `Spent` where there were 2^62 events, and else `OutOfMemory`. The call is handed back.
    pub fn call(&mut self, i: NodeNo, call: Call) -> Result<Answer<Reading, Writing>, CallFault>
        requires node { i < length self.old.nodes }
        requires safe { NodesAreSafe (world_seen N.state self.old) }
        requires enabled { is_enabled (event.Call i call) (world_seen N.state self.old) ≡ true }
        requires unguarded { goes_by_guard call (verdict.verdict ((world_seen N.state self.old).nodes i) call) ≡ false }
        ensures { let w = world_seen N.state self.old in
            let v = world_seen N.state self.new in
            MatchResult result (StepIsDone (event.Call i call) w v) (CallIsUndone call w v) }
    {
        let refusal = self.verdict(i, &call);
        self.call_judged(i, call, refusal)
    }

    /// The same where the node was asked for its verdict on the call, which is this.
    ///
    /// # Errors
    ///
    /// `Spent` where there were 2^62 events, and else `OutOfMemory`. The call is handed back.
    pub fn call_judged(
        &mut self,
        i: NodeNo,
        call: Call,
        refusal: Option<Refusal>,
    ) -> Result<Answer<Reading, Writing>, CallFault>
        requires node { i < length self.old.nodes }
        requires safe { NodesAreSafe (world_seen N.state self.old) }
        requires enabled { is_enabled (event.Call i call) (world_seen N.state self.old) ≡ true }
        requires unguarded { goes_by_guard call (verdict.verdict ((world_seen N.state self.old).nodes i) call) ≡ false }
        requires judged { refusal ≡ verdict.verdict ((world_seen N.state self.old).nodes i) call }
        ensures { let w = world_seen N.state self.old in
            let v = world_seen N.state self.new in
            MatchResult result (StepIsDone (event.Call i call) w v) (CallIsUndone call w v) }
    {
        if self.events == EVENT_LIMIT {
            return Err(CallFault::Spent(call));
        }
        let at = self.events;
        match self.nodes[i as usize].call_judged(at, call, refusal) {
            Ok(answer) => {
                self.events = at + 1;
                Ok(answer)
            }
            Err(call) => Err(CallFault::OutOfMemory(call)),
        }
    }

    /// The node takes the answer for which it waited.
    ///
    /// # Errors
    ///
    /// `Spent` where there were 2^62 events, and else `OutOfMemory`.
    pub fn collect(&mut self, i: NodeNo) -> Result<Answer<Reading, Writing>, StepFault>
        requires node { i < length self.old.nodes }
        requires safe { NodesAreSafe (world_seen N.state self.old) }
        requires enabled { is_enabled (event.Collect i) (world_seen N.state self.old) ≡ true }
        ensures { let w = world_seen N.state self.old in
            let v = world_seen N.state self.new in
            MatchResult result (StepIsDone (event.Collect i) w v) (StepIsUndone w v) }
    {
        if self.events == EVENT_LIMIT {
            return Err(StepFault::Spent);
        }
        let at = self.events;
        match self.nodes[i as usize].collect(at) {
            Ok(answer) => {
                self.events = at + 1;
                Ok(answer)
            }
            Err(_) => Err(StepFault::OutOfMemory),
        }
    }

    /// The node handles the piece at this place of its inbox.
    ///
    /// # Errors
    ///
    /// `Spent` where there were 2^62 events, and else `OutOfMemory`.
    pub fn handle(&mut self, i: NodeNo, place: usize) -> Result<(), StepFault>
        requires node { i < length self.old.nodes }
        requires safe { NodesAreSafe (world_seen N.state self.old) }
        requires enabled { is_enabled (event.Handle i place) (world_seen N.state self.old) ≡ true }
        requires piece { let n = (world_seen N.state self.old).nodes i in TakenIsSafe n (take_out place n.inbox) }
        ensures { let w = world_seen N.state self.old in
            let v = world_seen N.state self.new in
            MatchResult result (λ _. EventIsDone (event.Handle i place) w v) (StepIsUndone w v) }
    {
        if self.events == EVENT_LIMIT {
            return Err(StepFault::Spent);
        }
        let at = self.events;
        match self.nodes[i as usize].handle(at, place) {
            Ok(()) => {
                self.events = at + 1;
                Ok(())
            }
            Err(_) => Err(StepFault::OutOfMemory),
        }
    }
}
