//! A piece is carried from a node that isn't held: its turn is taken, then its addressee's, and both are given back on every
//! answer.
ghost use Rattle.std.specs.Prelude.{◌≡◌, ◌<◌, MatchResult};
ghost use Rattle.crl_cluster.specs.Standing.{heard_at};
ghost use Rattle.crl_cluster.specs.Clusters.{view_of, shape_of, node_count, IsOf, IsHeld, IsSameHeld};
ghost use Rattle.crl_cluster.specs.Trying.{Alone, IsCarried, IsUncarried, IsNotCarried};

use crate::cluster::{Cluster, Pass};
use crate::faults::TryFault;
use crate::held::Held;
use crate::luggage::Luggage;
use crl_member::Member;
use crl_model::NodeNo;

impl<N: Member, T: Luggage> Cluster<N, T> {
    /// The piece at this place of the held node's outbox goes to its addressee, which is held for it and released on every
    /// answer.
    ///
    /// # Errors
    ///
    /// By the fault: `Nothing` where there is no piece at the place. `Busy` names the addressee, whose turn was out.
    pub fn carry_if(
        &self,
        pass: &mut Pass,
        from: &mut Held<N, T>,
        place: usize,
    ) -> Result<(), TryFault>
        requires here { IsOf self.now pass.old }
        requires held { IsHeld N.state (shape_of self.now) (view_of pass.old) from.old }
        ensures here { IsOf self.now pass.new }
        ensures held { IsHeld N.state (shape_of self.now) (view_of pass.new) from.new × IsSameHeld from.old from.new }
        ensures heard { let s = shape_of self.now in
            heard_at s from.old.number (view_of pass.new).front ≡ heard_at s from.old.number (view_of pass.old).front }
        ensures told { let s = shape_of self.now in
            let old = view_of pass.old in
            let new = view_of pass.new in
            MatchResult result (λ _. IsCarried s from.old.number place old new) (λ why. IsUncarried s from.old.number place old why new) }
    {
        if place >= from.behind.node.outbox_len() {
            return Err(TryFault::Nothing);
        }
        let addressee = from.behind.node.addressee(place);
        match self.hold(pass, addressee) {
            Ok(mut to) => {
                let answer = self.carry(pass, from, &mut to, place);
                self.release(pass, to);
                match answer {
                    Ok(()) => Ok(()),
                    Err(why) => Err(TryFault::Step(why)),
                }
            }
            Err(busy) => Err(TryFault::Busy { node: busy.node }),
        }
    }

    /// The piece at this place of the node's outbox goes into the inbox of its addressee.
    ///
    /// # Errors
    ///
    /// By the fault: `Nothing` where there is no piece at the place. `Busy` names the node whose turn was out, the sender or
    /// the addressee.
    pub fn try_carry(&self, pass: &mut Pass, node: NodeNo, place: usize) -> Result<(), TryFault>
        requires here { IsOf self.now pass.old }
        requires node { node < node_count self.now }
        ensures here { IsOf self.now pass.new }
        ensures told { let s = shape_of self.now in
            let old = view_of pass.old in
            let new = view_of pass.new in
            MatchResult result (λ _. Alone s node old new (IsCarried s node place)) (λ why. IsNotCarried s node place old why new) }
    {
        match self.hold(pass, node) {
            Ok(mut from) => {
                let answer = self.carry_if(pass, &mut from, place);
                self.release(pass, from);
                answer
            }
            Err(busy) => Err(TryFault::Busy { node: busy.node }),
        }
    }
}
