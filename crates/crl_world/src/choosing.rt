//! The choices of a turn. They take a few steps for each node, and no memory.
ghost use Rattle.std.specs.Prelude.{◌≡◌, ◌+◌, ◌<◌, ◌≤◌, ◌*◌, ◌^◌, [], length, Some, slice_get, MatchOption, MatchResult};
ghost use Rattle.crl_world.specs.Seen.{world_seen};
ghost use Rattle.crl_world.specs.Choosing.{choices_in, row_of, choices_by, left_in, AreCounts};

use crate::counts::Counts;
use crate::rows::Rows;
use crate::world::World;
use crl_member::Member;
use crl_model::NodeNo;
use crl_model::choice::Choice;

impl<N: Member> World<N> {
    /// The number of the node's choices in these rows.
    fn count_at(&self, rows: Rows, left: &[bool], i: NodeNo) -> usize
        requires node { (i < length self.now.nodes) × (length left.now ≡ length self.now.nodes) }
        ensures { result ≡ length (choices_in rows (left_in left.now) (world_seen N.state self.now) i) }
    {
        match rows {
            Rows::Nexts => {
                if self.is_ready(i) || (self.is_free(i) && left[i as usize]) {
                    1
                } else {
                    0
                }
            }
            Rows::Inboxes => self.node(i).inbox_len(),
            Rows::Outboxes => self.node(i).outbox_len(),
        }
    }

    /// The node's choice at this place of these rows.
    fn choice_at(&self, rows: Rows, left: &[bool], i: NodeNo, place: usize) -> Choice
        requires node { (i < length self.now.nodes) × (length left.now ≡ length self.now.nodes) }
        requires there { place < length (choices_in rows (left_in left.now) (world_seen N.state self.now) i) }
        ensures { slice_get (choices_in rows (left_in left.now) (world_seen N.state self.now) i) place ≡ Some result }
    {
        match rows {
            Rows::Nexts => {
                if self.is_ready(i) {
                    Choice::Collect(i)
                } else {
                    Choice::Statement(i)
                }
            }
            Rows::Inboxes => Choice::Handle(i, place),
            Rows::Outboxes => Choice::Carry(i, place),
        }
    }

    /// The numbers of choices, where `left` says of each node whether it has a statement left.
    pub fn counts(&self, left: &[bool]) -> Counts
        requires { length left.now ≡ length self.now.nodes }
        ensures { AreCounts (left_in left.now) (world_seen N.state self.now) result }
    {
        let mut nexts: u128 = 0;
        let mut inboxes: u128 = 0;
        let mut outboxes: u128 = 0;
        for i in 0..self.count() {
            nexts += self.count_at(Rows::Nexts, left, i) as u128;
            inboxes += self.count_at(Rows::Inboxes, left, i) as u128;
            outboxes += self.count_at(Rows::Outboxes, left, i) as u128;
        }
        Counts {
            nexts,
            with_inboxes: nexts + inboxes,
            all: nexts + inboxes + outboxes,
        }
    }

    /// The choice at this place of these rows, or how far behind their end the place is.
    fn find_in(&self, rows: Rows, left: &[bool], k: u128) -> Result<Choice, u128>
        requires nodes { length left.now ≡ length self.now.nodes }
        ensures { let row = row_of rows (left_in left.now) (world_seen N.state self.now) in
            MatchResult result (λ choice. slice_get row k ≡ Some choice) (λ rest. k ≡ length row + rest) }
    {
        let mut rest = k;
        for i in 0..self.count() {
            let here = self.count_at(rows, left, i);
            if rest < here as u128 {
                return Ok(self.choice_at(rows, left, i, rest as usize));
            }
            rest -= here as u128;
        }
        Err(rest)
    }

    /// The choice at this place of these rows, which is there.
    fn found_in(&self, rows: Rows, left: &[bool], k: u128) -> Choice
        requires nodes { length left.now ≡ length self.now.nodes }
        requires there { k < length (row_of rows (left_in left.now) (world_seen N.state self.now)) }
        ensures { slice_get (row_of rows (left_in left.now) (world_seen N.state self.now)) k ≡ Some result }
    {
        match self.find_in(rows, left, k) {
            Ok(choice) => choice,
            Err(_) => unreachable!(),
        }
    }

    /// The choice at this place, from 0.
    pub fn choice(&self, left: &[bool], counts: &Counts, k: u128) -> Choice
        requires nodes { length left.now ≡ length self.now.nodes }
        requires counts { AreCounts (left_in left.now) (world_seen N.state self.now) counts.now }
        requires there { k < counts.now.all }
        ensures { slice_get (choices_by (left_in left.now) (world_seen N.state self.now)) k ≡ Some result }
    {
        if k < counts.nexts {
            self.found_in(Rows::Nexts, left, k)
        } else if k < counts.with_inboxes {
            self.found_in(Rows::Inboxes, left, k - counts.nexts)
        } else {
            self.found_in(Rows::Outboxes, left, k - counts.with_inboxes)
        }
    }

    /// The first choice, if there is one. Where a node can go on by itself, no box is looked at.
    pub fn first_choice(&self, left: &[bool]) -> Option<Choice>
        requires { length left.now ≡ length self.now.nodes }
        ensures { let choices = choices_by (left_in left.now) (world_seen N.state self.now) in
            MatchOption result (choices ≡ []) (λ choice. slice_get choices 0 ≡ Some choice) }
    {
        if let Ok(choice) = self.find_in(Rows::Nexts, left, 0) {
            return Some(choice);
        }
        if let Ok(choice) = self.find_in(Rows::Inboxes, left, 0) {
            return Some(choice);
        }
        self.find_in(Rows::Outboxes, left, 0).ok()
    }
}
