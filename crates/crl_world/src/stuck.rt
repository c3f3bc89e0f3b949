//! What a node waits for.
ghost use Rattle.std.specs.Prelude.{◌≡◌, ◌<◌, length};
ghost use Rattle.crl_protocol.specs.Ends.{least_node, holds_open, is_absent, blocked_at};
ghost use Rattle.crl_world.specs.Seen.{world_seen};

use crate::world::World;
use crl_member::Member;
use crl_model::NodeNo;
use crl_model::activity::Awaited;
use crl_model::blocked::Blocked;
use crl_model::directory::Section;
use crl_model::name::Name;

impl<N: Member> World<N> {
    /// The node has a section of the region open.
    fn has_open(&self, i: NodeNo, name: Name, m: NodeNo) -> bool
        requires { m < length self.now.nodes }
        ensures { result ≡ holds_open i name m ((world_seen N.state self.now).nodes m) }
    {
        m != i && !matches!(self.node(m).section(name), Section::Closed)
    }

    /// The least other node that has a section of the region open.
    fn least_holder(&self, i: NodeNo, name: Name) -> Option<NodeNo>
        ensures { result ≡ least_node (holds_open i name) (world_seen N.state self.now) }
    {
        for m in 0..self.count() {
            if self.has_open(i, name, m) {
                return Some(m);
            }
        }
        None
    }

    /// The least node that hasn't come to the round.
    fn least_absent(&self, round: u64) -> Option<NodeNo>
        ensures { result ≡ least_node (is_absent round) (world_seen N.state self.now) }
    {
        for m in 0..self.count() {
            if self.node(m).rounds() < round {
                return Some(m);
            }
        }
        None
    }

    /// What blocks the node: the least other node that has a section open for which it waits, or the least that hasn't
    /// come to the round in which it waits.
    pub fn blocked(&self, i: NodeNo) -> Option<Blocked>
        requires { i < length self.now.nodes }
        ensures { result ≡ blocked_at i (world_seen N.state self.now) }
    {
        match self.node(i).awaited() {
            Some(Awaited::ForSection { name }) => {
                let holder = self.least_holder(i, name)?;
                Some(Blocked::Region {
                    node: i,
                    name,
                    holder,
                })
            }
            Some(Awaited::ForRound { round, kind: _ }) => {
                let absent = self.least_absent(round)?;
                Some(Blocked::Round {
                    node: i,
                    round,
                    absent,
                })
            }
            _ => None,
        }
    }
}
