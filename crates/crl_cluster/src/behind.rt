//! What stands behind a turn.
ghost use Rattle.crl_cluster.specs.Standing.{MayCome, TouchesNode, StandsAt, stands_on};

use crate::luggage::Luggage;
use crl_member::Member;
use crl_turns::turned::{Shape, Turned};

/// A node with its luggage.
#[derive(Drop)]
pub(crate) struct Behind<N, T> {
    pub(crate) node: N,
    pub(crate) luggage: T,
    /// The number of nodes, and for how many names each node's cache has room.
    pub(crate) shape: Shape,
}

impl<N: Member, T: Luggage> Turned for Behind<N, T> {
    ghost shape = { λ behind. behind.shape };

    ghost enabled = { λ s front e. MayCome s front e };

    ghost touches = { λ s front e i. TouchesNode s front e i };

    ghost stands = { λ s i front behind. StandsAt N.state T.stands s i front behind.node behind.luggage };

    fn shape(&self) -> Shape {
        self.shape
    }

    ghost stays = { λ s i front e behind is _ apart. stands_on N.state T.stands s i front e behind.node behind.luggage is apart };
}
