//! A node is a member of a world.
ghost use Rattle.crl_protocol.specs.Places.{take_out};
ghost use Rattle.crl_desk.specs.Desks.{state, HasRoom};
ghost use Rattle.crl_node.specs.Calling.{IsCallReady};
ghost use Rattle.crl_node.specs.Handling.{piece_taken, IsPieceReady};
ghost use Rattle.crl_node.specs.Nodes.{CanCarry};

use crate::calling::{make_call, make_end_read, make_end_write, ready_call};
use crate::carrying::{make_carry, ready_carry};
use crate::concluding::conclude;
use crate::kits::{CallKit, PieceKit};
use crate::node::Node;
use crate::readying::{make_handle, ready_piece};
use crate::showing::{addressee_in, table_bytes};
use crl_guard::{Reading, Writing};
use crl_journal::Records;
use crl_member::Member;
use crl_model::activity::{Answer, Awaited};
use crl_model::call::{Call, Refusal};
use crl_model::directory::Section;
use crl_model::event::Event;
use crl_model::name::Name;
use crl_model::stage::Stage;
use crl_model::{NodeNo, OutOfMemory};
use crl_verdict::verdict;
use crl_wire::Received;
use std::alloc::Global;

impl Member for Node {
    type CallKit = CallKit;

    type PieceKit = PieceKit;

    ghost state = { λ node. state node };

    ghost can_call = { λ call kit node. IsCallReady call kit node };

    ghost can_collect = { λ node. HasRoom 0 0 1 node };

    ghost can_handle = { λ place kit node. IsPieceReady (piece_taken (take_out place node.inbox.list)) kit node };

    ghost can_carry = { λ node to. CanCarry node to };

    fn new(alloc: Global, me: NodeNo, nodes: NodeNo, capacity: u16) -> Result<Node, OutOfMemory> {
        Node::start(alloc, me, nodes, capacity)
    }

    fn is_free(&self) -> bool {
        self.desk.standing.is_free()
    }

    fn is_ready(&self) -> bool {
        self.desk.standing.is_ready()
    }

    fn awaited(&self) -> Option<Awaited> {
        self.desk.standing.awaited()
    }

    fn rounds(&self) -> u64 {
        self.desk.rounds
    }

    fn section(&self, name: Name) -> Section {
        self.desk.sections.section(name)
    }

    fn inbox_len(&self) -> usize {
        self.desk.inbox.len()
    }

    fn outbox_len(&self) -> usize {
        self.desk.outbox.len()
    }

    fn addressee(&self, place: usize) -> NodeNo {
        addressee_in(&self.desk.outbox, place)
    }

    fn verdict(&self, call: &Call) -> Option<Refusal> {
        verdict(&self.desk, call)
    }

    fn fits_reading(&self, guard: &Reading) -> bool {
        guard.node() == self.desk.me && self.desk.sections.fits_reading(guard)
    }

    fn fits_writing(&self, guard: &Writing) -> bool {
        guard.node() == self.desk.me && self.desk.sections.fits_writing(guard)
    }

    fn ready_call(
        &mut self,
        call: &Call,
        refusal: Option<Refusal>,
    ) -> Result<CallKit, OutOfMemory> {
        ready_call(&mut self.desk, call, refusal)
    }

    fn make_call(&mut self, at: u64, call: Call, kit: CallKit) -> Answer<Reading, Writing> {
        make_call(&mut self.desk, at, call, kit)
    }

    fn end_read(&mut self, at: u64, guard: Reading) {
        make_end_read(&mut self.desk, at, guard);
    }

    fn end_write(&mut self, at: u64, guard: Writing) {
        make_end_write(&mut self.desk, at, guard);
    }

    fn ready_collect(&mut self) -> Result<(), OutOfMemory> {
        self.desk.make_room(0, 0, 1)
    }

    fn make_collect(&mut self, at: u64) -> Answer<Reading, Writing> {
        let before = self.desk.outbox.len();
        let answer = self.desk.standing.take();
        let node = self.desk.me;
        conclude(&mut self.desk, at, Event::Collect { node }, before);
        answer.unwrap()
    }

    fn ready_handle(&mut self, place: usize) -> Result<PieceKit, OutOfMemory> {
        ready_piece(&mut self.desk, place)
    }

    fn make_handle(&mut self, at: u64, place: usize, kit: PieceKit) {
        make_handle(&mut self.desk, at, place, kit);
    }

    fn ready_carry(&mut self, to: &mut Node, place: usize) -> Result<Received, OutOfMemory> {
        ready_carry(&mut self.desk, &mut to.desk, place)
    }

    fn make_carry(&mut self, to: &mut Node, at: u64, place: usize, came: Received) {
        make_carry(&mut self.desk, &mut to.desk, at, place, came);
    }

    fn record_count(&self) -> usize {
        self.desk.journal.record_count()
    }

    fn into_records(self) -> Records {
        self.desk.journal.into_records()
    }

    fn posted(&self) -> u128 {
        self.desk.posted
    }

    fn serials(&self) -> u32 {
        self.desk.homes.serial()
    }

    fn home_bytes(&self, name: Name) -> Option<&[u8]> {
        if name.home != self.desk.me {
            return None;
        }
        match self.desk.stages.stage(name.serial) {
            Stage::Live | Stage::Going(_) => table_bytes(&self.desk, name),
            Stage::Unknown | Stage::Gone => None,
        }
    }

    fn exclusive_bytes(&self, name: Name) -> Option<&[u8]> {
        if self.desk.remotes.is_exclusive(name) {
            return self.desk.remotes.bytes(name);
        }
        None
    }
}
