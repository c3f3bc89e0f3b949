//! The cluster and its passes.
ghost use Rattle.std.specs.Prelude.{◌≡◌, ◌<◌, ◌≤◌, ◌^◌, length};
ghost use Rattle.crl_turns.specs.Passes.{view_of, part_count, common_shape};
ghost use Rattle.crl_turns.specs.Fronts.{Runs};
ghost use Rattle.crl_cluster.specs.Standing.{MayCome};

use crate::behind::Behind;
use crate::luggage::Luggage;
use crl_member::Member;
use crl_turns::Turns;
use crl_turns::turned::Shape;

/// 1 to 64 nodes behind turns, each with its luggage, and the number of events of their history.
#[derive(Drop)]
pub struct Cluster<N: Member, T: Luggage> {
    pub(crate) turns: Turns<Behind<N, T>>,
    ghost all: { part_count turns ≡ (common_shape turns).parts },
    ghost some: { (0 < (common_shape turns).parts) × ((common_shape turns).parts ≤ 64) },
    ghost narrow: { (common_shape turns).extra < 2 ^ 16 },
}

/// What a thread makes its calls with. Its front is a run of the cluster, which begins the history.
///
/// A pass that is dropped keeps the nodes that it holds for ever.
#[derive(Drop)]
pub struct Pass {
    pub(crate) turns: crl_turns::Pass,
    pub(crate) shape: Shape,
    ghost runs: { Runs (MayCome shape) (view_of turns).front },
}
