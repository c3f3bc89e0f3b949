//! An event takes the next position of the history.
ghost use Rattle.std.specs.Prelude.{◌≡◌, ◌<◌, ℕ, IfErr, MatchResult};
ghost use Rattle.crl_turns.specs.Calls.{HasValue};
ghost use Rattle.crl_cluster.specs.Standing.{MayCome, TouchesNode};
ghost use Rattle.crl_cluster.specs.Clusters.{view_of, shape_of, node_count, IsOf};
ghost use Rattle.crl_cluster.specs.Acting.{ComesAt, IsByOthers, IsUndone};
ghost use Rattle.crl_cluster.specs.Faults.{fault_of};

use crate::cluster::{Cluster, Pass};
use crate::faults::StepFault;
use crate::luggage::Luggage;
use crl_member::Member;
use crl_model::event::Evented;
use crl_turns::AppendFault;

/// How often an event is tried again behind those that others appended, before the caller has it back.
const MORE_TRIES: u32 = 64;

impl<N: Member, T: Luggage> Cluster<N, T> {
    /// Loads the count and tries to append the event there, whose position it answers.
    fn append_once<E: Evented>(&self, pass: &mut Pass, event: &E) -> Result<u64, AppendFault>
        requires here { IsOf self.now pass.old }
        requires enabled { MayCome (shape_of self.now) (view_of pass.old).front (E.event event.now) }
        requires has { (i : ℕ) → TouchesNode (shape_of self.now) (view_of pass.old).front (E.event event.now) i
            → (i < node_count self.now) × HasValue i (view_of pass.old) }
        ensures here { IsOf self.now pass.new }
        ensures told { MatchResult result
            (λ at. ComesAt at (shape_of self.now) (E.event event.now) (view_of pass.old) (view_of pass.new))
            (λ fault. IsUndone (shape_of self.now) (view_of pass.old) (fault_of fault) (view_of pass.new)) }
    {
        let saw = self.turns.seen(&mut pass.turns);
        match self.turns.append(&mut pass.turns, saw, event) {
            Ok(()) => Ok(saw),
            Err(fault) => Err(fault),
        }
    }

    /// Appends the event at the next position that is free, and answers it. The pass has all nodes that the event touches:
    /// so what was made ready for it on them is good behind the events of others too.
    ///
    /// # Errors
    ///
    /// By the fault: `Moved` where others were faster each time.
    pub(crate) fn append_next<E: Evented>(
        &self,
        pass: &mut Pass,
        event: &E,
    ) -> Result<u64, StepFault>
        requires here { IsOf self.now pass.old }
        requires enabled { MayCome (shape_of self.now) (view_of pass.old).front (E.event event.now) }
        requires has { (i : ℕ) → TouchesNode (shape_of self.now) (view_of pass.old).front (E.event event.now) i
            → (i < node_count self.now) × HasValue i (view_of pass.old) }
        ensures here { IsOf self.now pass.new }
        ensures told { MatchResult result
            (λ at. ComesAt at (shape_of self.now) (E.event event.now) (view_of pass.old) (view_of pass.new))
            (λ why. IsUndone (shape_of self.now) (view_of pass.old) why (view_of pass.new)) }
        ensures by_others { IfErr result IsByOthers }
    {
        let mut left = MORE_TRIES;
        loop {
            match self.append_once(pass, event) {
                Ok(at) => return Ok(at),
                Err(AppendFault::Spent) => return Err(StepFault::Spent),
                Err(AppendFault::Moved { saw, found }) => {
                    if left == 0 {
                        return Err(StepFault::Moved { saw, found });
                    }
                    left -= 1;
                }
            }
        }
    }
}
