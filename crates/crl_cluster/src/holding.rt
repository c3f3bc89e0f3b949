//! A node is held and released, the count is loaded, and a pass is split.
ghost use Rattle.std.specs.Prelude.{◌≡◌, ◌<◌, false, MatchResult};
ghost use Rattle.crl_turns.specs.Calls.{after_give_back};
ghost use Rattle.crl_turns.specs.Plays.{after_try, after_split, split_view};
ghost use Rattle.crl_cluster.specs.Standing.{heard_at};
ghost use Rattle.crl_cluster.specs.Clusters.{view_of, shape_of, node_count, IsOf, IsHeld};
ghost use Rattle.crl_cluster.specs.Acting.{Holds, Sees};

use crate::cluster::{Cluster, Pass};
use crate::faults::Busy;
use crate::held::Held;
use crate::luggage::Luggage;
use crl_member::Member;
use crl_model::NodeNo;

impl<N: Member, T: Luggage> Cluster<N, T> {
    /// Takes the turn of the node, and then loads the count.
    ///
    /// # Errors
    ///
    /// `Busy`: the one exchange of the turn found it out.
    pub fn hold(&self, pass: &mut Pass, node: NodeNo) -> Result<Held<N, T>, Busy>
        requires here { IsOf self.now pass.old }
        requires node { node < node_count self.now }
        ensures here { IsOf self.now pass.new }
        ensures told { MatchResult result
            (λ held. Holds N.state T.stands (shape_of self.now) node (view_of pass.old) held (view_of pass.new))
            (λ busy. (busy.node ≡ node) × (view_of pass.new ≡ after_try node false (view_of pass.old))) }
    {
        match self.turns.try_take(&mut pass.turns, node as usize) {
            Ok(behind) => Ok(Held {
                number: node,
                behind,
            }),
            Err(_) => Err(Busy { node }),
        }
    }

    /// Gives the turn back.
    pub fn release(&self, pass: &mut Pass, held: Held<N, T>)
        requires here { IsOf self.now pass.old }
        requires held { IsHeld N.state (shape_of self.now) (view_of pass.old) held }
        requires luggage { T.stands held.number (heard_at (shape_of self.now) held.number (view_of pass.old).front) held.behind.luggage }
        ensures here { IsOf self.now pass.new }
        ensures told { view_of pass.new ≡ after_give_back held.number (view_of pass.old) }
    {
        let Held { number, behind } = held;
        self.turns
            .give_back(&mut pass.turns, number as usize, behind);
    }

    /// The number of events, by one load of the count.
    pub fn seen(&self, pass: &mut Pass) -> u64
        requires here { IsOf self.now pass.old }
        ensures here { IsOf self.now pass.new }
        ensures told { Sees (shape_of self.now) (view_of pass.old) result (view_of pass.new) }
    {
        self.turns.seen(&mut pass.turns)
    }

    /// The number of nodes. Each pass knows it.
    pub fn count(&self, pass: &Pass) -> NodeNo
        requires here { IsOf self.now pass.now }
        ensures { result ≡ node_count self.now }
    {
        let _turns = &self.turns;
        pass.shape.parts as NodeNo
    }

    /// Another pass, with the same front. It holds no node and has done nothing.
    pub fn split(&self, pass: &mut Pass) -> Pass
        requires here { IsOf self.now pass.old }
        ensures here { IsOf self.now pass.new × IsOf self.now result }
        ensures told { (view_of pass.new ≡ after_split (view_of pass.old)) × (view_of result ≡ split_view (view_of pass.old)) }
    {
        Pass {
            turns: self.turns.split(&mut pass.turns),
            shape: pass.shape,
        }
    }
}
