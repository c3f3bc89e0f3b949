//! What goes with a node from worker to worker: its place in the script, with its guards.
ghost use Rattle.std.specs.Prelude.{◌≡◌, []};

use crl_cluster::Luggage;
use crl_model::{NodeNo, OutOfMemory};
use crl_run::Player;
use std::alloc::Global;
use std::marker::{Brand, PhantomData};

/// A name of the script whose workers share a cluster. All luggage of the cluster has it in its type.
pub(crate) trait Scripted {
    ghost use Rattle.std.specs.Prelude.{List};
    ghost use Rattle.crl_model.specs.declared.statement.Statement.{Statement};

    // The statements of each node.
    ghost blocks: { List (List Statement) };
}

impl Scripted for Brand {
    ghost blocks = { [] };
}

/// The player of a node. It stands for what the node heard: the node's calls are those of the statements before its place.
#[derive(Drop)]
pub(crate) struct Place<S: Scripted> {
    pub(crate) player: Player,
    of: PhantomData<S>,
}

impl<S: Scripted> Place<S> {
    pub(crate) fn new(player: Player) -> Place<S>
        ensures { result.player ≡ player }
    {
        Place {
            player,
            of: PhantomData,
        }
    }

    pub(crate) fn into_player(self) -> Player
        ensures { result ≡ self.player }
    {
        let Place { player, of: _ } = self;
        player
    }
}

impl<S: Scripted> Luggage for Place<S> {
    ghost use Rattle.crl_protocol.specs.Chosen.{block_of};
    ghost use Rattle.crl_crew.specs.Standing.{StandsAt};

    ghost stands = { λ node heard place. StandsAt node (block_of S.blocks node) heard place.player };

    #[tactic(auto, using(crate::proofs::Places::stands_first))]
    fn start(alloc: Global, _node: NodeNo) -> Result<Place<S>, OutOfMemory> {
        Ok(Place::new(Player::new(alloc)))
    }
}
