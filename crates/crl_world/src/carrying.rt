//! A piece goes from one node to another.
ghost use Rattle.std.specs.Prelude.{◌≡◌, ◌≢◌, ◌<◌, ◌≤◌, ◌^◌, true, length, map, MatchResult, OnOk, OnErr};
ghost use Rattle.crl_model.specs.declared.event.Event.TheVariants as event;
ghost use Rattle.crl_protocol.specs.Places.{take_out};
ghost use Rattle.crl_protocol.specs.World.{is_enabled};
ghost use Rattle.crl_safety.specs.Safety.{IsSafe};
ghost use Rattle.crl_member.specs.Members.{TakenIsInTable};
ghost use Rattle.crl_world.specs.Seen.{world_seen, NodesAreSafe, node_at};
ghost use Rattle.crl_world.specs.Stepping.{EventIsDone, StepIsUndone, GoesElsewhere, nodes_after_carry};

use crate::faults::StepFault;
use crate::steps::EVENT_LIMIT;
use crate::world::World;
use crl_member::Member;
use crl_model::{NodeNo, OutOfMemory};

/// Carries the piece at this place of the outbox of node `i` to node `j`, which comes after it.
fn carry_up<N: Member>(
    nodes: &mut [N],
    i: usize,
    j: usize,
    at: u64,
    place: usize,
) -> Result<(), OutOfMemory>
    requires places { (i < j) × (j < length nodes.old) }
    requires position { at < 2 ^ 62 }
    requires safe { IsSafe (node_at i (map N.state nodes.old)) }
    requires there { place < length (node_at i (map N.state nodes.old)).outbox }
    requires in_table { TakenIsInTable (take_out place (node_at i (map N.state nodes.old)).outbox) }
    ensures ok { OnOk result (map N.state nodes.new ≡ nodes_after_carry at i j place (map N.state nodes.old)) }
    ensures err { OnErr result (map N.state nodes.new ≡ map N.state nodes.old) }
{
    let (front, back) = nodes.split_at_mut(j);
    front[i].carry(&mut back[0], at, place)
}

/// Carries the piece at this place of the outbox of node `i` to node `j`, which comes before it.
fn carry_down<N: Member>(
    nodes: &mut [N],
    i: usize,
    j: usize,
    at: u64,
    place: usize,
) -> Result<(), OutOfMemory>
    requires places { (j < i) × (i < length nodes.old) }
    requires position { at < 2 ^ 62 }
    requires safe { IsSafe (node_at i (map N.state nodes.old)) }
    requires there { place < length (node_at i (map N.state nodes.old)).outbox }
    requires in_table { TakenIsInTable (take_out place (node_at i (map N.state nodes.old)).outbox) }
    ensures ok { OnOk result (map N.state nodes.new ≡ nodes_after_carry at i j place (map N.state nodes.old)) }
    ensures err { OnErr result (map N.state nodes.new ≡ map N.state nodes.old) }
{
    let (front, back) = nodes.split_at_mut(i);
    back[0].carry(&mut front[j], at, place)
}

/// Carries the piece at this place of the outbox of node `i` to node `j`.
fn carry_between<N: Member>(
    nodes: &mut [N],
    i: usize,
    j: usize,
    at: u64,
    place: usize,
) -> Result<(), OutOfMemory>
    requires places { (i < length nodes.old) × (j < length nodes.old) × (i ≢ j) }
    requires position { at < 2 ^ 62 }
    requires safe { IsSafe (node_at i (map N.state nodes.old)) }
    requires there { place < length (node_at i (map N.state nodes.old)).outbox }
    requires in_table { TakenIsInTable (take_out place (node_at i (map N.state nodes.old)).outbox) }
    ensures ok { OnOk result (map N.state nodes.new ≡ nodes_after_carry at i j place (map N.state nodes.old)) }
    ensures err { OnErr result (map N.state nodes.new ≡ map N.state nodes.old) }
{
    if i < j {
        carry_up(nodes, i, j, at, place)
    } else {
        carry_down(nodes, i, j, at, place)
    }
}

impl<N: Member> World<N> {
    /// The piece at this place of the node's outbox comes into the inbox of its addressee, in its frame. So it is one of the
    /// table of frames, as in every run of so few nodes.
    ///
    /// # Errors
    ///
    /// `Spent` where there were 2^62 events, and else `OutOfMemory`.
    pub fn carry(&mut self, i: NodeNo, place: usize) -> Result<(), StepFault>
        requires node { i < length self.old.nodes }
        requires safe { NodesAreSafe (world_seen N.state self.old) }
        requires enabled { is_enabled (event.Carry i place) (world_seen N.state self.old) ≡ true }
        requires elsewhere { let w = world_seen N.state self.old in GoesElsewhere i w.count (take_out place (w.nodes i).outbox) }
        requires in_table { let w = world_seen N.state self.old in w.count ≤ 64 → TakenIsInTable (take_out place (w.nodes i).outbox) }
        ensures { let w = world_seen N.state self.old in
            let v = world_seen N.state self.new in
            MatchResult result (λ _. EventIsDone (event.Carry i place) w v) (StepIsUndone w v) }
    {
        if self.events == EVENT_LIMIT {
            return Err(StepFault::Spent);
        }
        let at = self.events;
        let j = self.nodes[i as usize].addressee(place);
        match carry_between(self.nodes.as_mut_slice(), i as usize, j as usize, at, place) {
            Ok(()) => {
                self.events = at + 1;
                Ok(())
            }
            Err(_) => Err(StepFault::OutOfMemory),
        }
    }
}
