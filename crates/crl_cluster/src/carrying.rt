//! A piece goes in its frame from one node that is held to another.
ghost use Rattle.std.specs.Prelude.{◌≡◌, ◌<◌, length, MatchResult};
ghost use Rattle.crl_model.specs.declared.event.Event.TheVariants as event;
ghost use Rattle.crl_protocol.specs.Places.{take_out};
ghost use Rattle.crl_member.specs.Members.{addressee_of};
ghost use Rattle.crl_cluster.specs.Clusters.{view_of, shape_of, IsOf, IsHeld, IsSameHeld};
ghost use Rattle.crl_cluster.specs.Acting.{Comes, IsUndone};

use crate::cluster::{Cluster, Pass};
use crate::events::Carrying;
use crate::faults::StepFault;
use crate::held::Held;
use crate::luggage::Luggage;
use crl_member::Member;

impl<N: Member, T: Luggage> Cluster<N, T> {
    /// The piece at this place of the outbox of `from` goes into the inbox of `to`, its addressee.
    ///
    /// # Errors
    ///
    /// By the fault.
    pub fn carry(
        &self,
        pass: &mut Pass,
        from: &mut Held<N, T>,
        to: &mut Held<N, T>,
        place: usize,
    ) -> Result<(), StepFault>
        requires here { IsOf self.now pass.old }
        requires from { IsHeld N.state (shape_of self.now) (view_of pass.old) from.old }
        requires to { IsHeld N.state (shape_of self.now) (view_of pass.old) to.old }
        requires there { place < length (N.state from.old.behind.node).outbox }
        requires addressee { addressee_of (take_out place (N.state from.old.behind.node).outbox) ≡ to.old.number }
        ensures here { IsOf self.now pass.new }
        ensures from { IsHeld N.state (shape_of self.now) (view_of pass.new) from.new × IsSameHeld from.old from.new }
        ensures to { IsHeld N.state (shape_of self.now) (view_of pass.new) to.new × IsSameHeld to.old to.new }
        ensures told { let s = shape_of self.now in
            let old = view_of pass.old in
            let new = view_of pass.new in
            MatchResult result (λ _. Comes s (event.Carry from.old.number place) old new) (λ why. IsUndone s old why new) }
    {
        let Ok(came) = from.behind.node.ready_carry(&mut to.behind.node, place) else {
            return Err(StepFault::OutOfMemory);
        };
        let event = Carrying {
            node: from.number,
            place,
        };
        match self.append_next(pass, &event) {
            Ok(at) => {
                from.behind
                    .node
                    .make_carry(&mut to.behind.node, at, place, came);
                Ok(())
            }
            Err(why) => Err(why),
        }
    }
}
