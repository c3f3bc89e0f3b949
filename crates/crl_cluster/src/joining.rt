//! A pass is joined to another.
ghost use Rattle.std.specs.Prelude.{◌≡◌};
ghost use Rattle.crl_turns.specs.Closing.{HoldsNone};
ghost use Rattle.crl_cluster.specs.Clusters.{view_of, shape_of, IsOf};
ghost use Rattle.crl_cluster.specs.Acting.{Joins};

use crate::cluster::{Cluster, Pass};
use crate::luggage::Luggage;
use crl_member::Member;

impl<N: Member, T: Luggage> Cluster<N, T> {
    /// Joins another pass, which holds no node, to this one. The front is then the longer of the two.
    pub fn join(&self, pass: &mut Pass, other: Pass)
        requires here { IsOf self.now pass.old × IsOf self.now other }
        requires idle { HoldsNone (view_of other) }
        ensures here { IsOf self.now pass.new }
        ensures told { Joins (shape_of self.now) (view_of pass.old) (view_of other) (view_of pass.new) }
    {
        let Pass { turns, shape: _ } = other;
        self.turns.join(&mut pass.turns, turns);
    }
}
