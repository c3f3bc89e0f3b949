//! A member that is watched: what is made ready for an event, or wants memory, must not show.
ghost use Rattle.std.specs.Prelude.{◌≡◌};

use crl_guard::{Reading, Writing};
use crl_journal::Records;
use crl_member::Member;
use crl_model::activity::{Answer, Awaited};
use crl_model::call::{Call, Refusal};
use crl_model::directory::Section;
use crl_model::name::Name;
use crl_model::{NodeNo, OutOfMemory};
use crl_wire::Received;
use std::alloc::Global;

/// What a member shows of a region: its open sections, and of the bytes that it has as the home, and of an exclusive copy,
/// the number and the last eight, where they change here.
#[derive(Clone, Copy, PartialEq)]
struct ShownRegion {
    section: Section,
    home: (usize, u64),
    copy: (usize, u64),
}

/// What a member shows of its state. Of the regions it is that of the first two of node 0.
#[derive(Clone, Copy, PartialEq)]
struct Shown {
    is_free: bool,
    is_ready: bool,
    awaited: Option<Awaited>,
    rounds: u64,
    inbox: usize,
    outbox: usize,
    records: usize,
    posted: u128,
    serials: u32,
    first: ShownRegion,
    second: ShownRegion,
}

/// The number of the bytes, and the last eight as a number, the highest first.
fn end_of(bytes: Option<&[u8]>) -> (usize, u64) {
    let bytes = bytes.unwrap_or_default();
    let mut end: u64 = 0;
    for byte in &bytes[bytes.len().saturating_sub(8)..] {
        end = end.wrapping_mul(256).wrapping_add(*byte as u64);
    }
    (bytes.len(), end)
}

fn region_of<N: Member>(member: &N, name: Name) -> ShownRegion {
    ShownRegion {
        section: member.section(name),
        home: end_of(member.home_bytes(name)),
        copy: end_of(member.exclusive_bytes(name)),
    }
}

fn shown_by<N: Member>(member: &N) -> Shown {
    Shown {
        is_free: member.is_free(),
        is_ready: member.is_ready(),
        awaited: member.awaited(),
        rounds: member.rounds(),
        inbox: member.inbox_len(),
        outbox: member.outbox_len(),
        records: member.record_count(),
        posted: member.posted(),
        serials: member.serials(),
        first: region_of(member, Name::new(0, 1)),
        second: region_of(member, Name::new(0, 2)),
    }
}

/// A member, and whether it showed the same before and behind each first half of an event so far. Once it didn't, nothing
/// more is made ready: a run comes to no end.
#[derive(Drop)]
pub struct Watched<N: Member> {
    member: N,
    is_whole: bool,
}

impl<N: Member> Member for Watched<N> {
    type CallKit = N::CallKit;

    type PieceKit = N::PieceKit;

    ghost state = { λ w. N.state w.member };

    ghost can_call = { λ call kit w. N.can_call call kit w.member };

    ghost can_collect = { λ w. N.can_collect w.member };

    ghost can_handle = { λ place kit w. N.can_handle place kit w.member };

    ghost can_carry = { λ w to. N.can_carry w.member to.member };

    fn new(
        alloc: Global,
        me: NodeNo,
        nodes: NodeNo,
        capacity: u16,
    ) -> Result<Watched<N>, OutOfMemory> {
        Ok(Watched {
            member: N::new(alloc, me, nodes, capacity)?,
            is_whole: true,
        })
    }

    fn is_free(&self) -> bool {
        self.member.is_free()
    }

    fn is_ready(&self) -> bool {
        self.member.is_ready()
    }

    fn awaited(&self) -> Option<Awaited> {
        self.member.awaited()
    }

    fn rounds(&self) -> u64 {
        self.member.rounds()
    }

    fn section(&self, name: Name) -> Section {
        self.member.section(name)
    }

    fn inbox_len(&self) -> usize {
        self.member.inbox_len()
    }

    fn outbox_len(&self) -> usize {
        self.member.outbox_len()
    }

    fn addressee(&self, place: usize) -> NodeNo {
        self.member.addressee(place)
    }

    fn verdict(&self, call: &Call) -> Option<Refusal> {
        self.member.verdict(call)
    }

    fn fits_reading(&self, guard: &Reading) -> bool {
        self.member.fits_reading(guard)
    }

    fn fits_writing(&self, guard: &Writing) -> bool {
        self.member.fits_writing(guard)
    }

    fn ready_call(
        &mut self,
        call: &Call,
        refusal: Option<Refusal>,
    ) -> Result<N::CallKit, OutOfMemory> {
        if !self.is_whole {
            return Err(OutOfMemory);
        }
        let before = shown_by(&self.member);
        let ready = self.member.ready_call(call, refusal);
        self.is_whole = shown_by(&self.member) == before;
        ready
    }

    fn make_call(&mut self, at: u64, call: Call, kit: N::CallKit) -> Answer<Reading, Writing> {
        self.member.make_call(at, call, kit)
    }

    fn end_read(&mut self, at: u64, guard: Reading) {
        self.member.end_read(at, guard);
    }

    fn end_write(&mut self, at: u64, guard: Writing) {
        self.member.end_write(at, guard);
    }

    fn ready_collect(&mut self) -> Result<(), OutOfMemory> {
        if !self.is_whole {
            return Err(OutOfMemory);
        }
        let before = shown_by(&self.member);
        let ready = self.member.ready_collect();
        self.is_whole = shown_by(&self.member) == before;
        ready
    }

    fn make_collect(&mut self, at: u64) -> Answer<Reading, Writing> {
        self.member.make_collect(at)
    }

    fn ready_handle(&mut self, place: usize) -> Result<N::PieceKit, OutOfMemory> {
        if !self.is_whole {
            return Err(OutOfMemory);
        }
        let before = shown_by(&self.member);
        let ready = self.member.ready_handle(place);
        self.is_whole = shown_by(&self.member) == before;
        ready
    }

    fn make_handle(&mut self, at: u64, place: usize, kit: N::PieceKit) {
        self.member.make_handle(at, place, kit);
    }

    fn ready_carry(&mut self, to: &mut Watched<N>, place: usize) -> Result<Received, OutOfMemory> {
        if !self.is_whole {
            return Err(OutOfMemory);
        }
        let before = (shown_by(&self.member), shown_by(&to.member));
        let ready = self.member.ready_carry(&mut to.member, place);
        self.is_whole = (shown_by(&self.member), shown_by(&to.member)) == before;
        ready
    }

    fn make_carry(&mut self, to: &mut Watched<N>, at: u64, place: usize, came: Received) {
        self.member.make_carry(&mut to.member, at, place, came);
    }

    fn record_count(&self) -> usize {
        self.member.record_count()
    }

    fn into_records(self) -> Records {
        self.member.into_records()
    }

    fn posted(&self) -> u128 {
        self.member.posted()
    }

    fn serials(&self) -> u32 {
        self.member.serials()
    }

    fn home_bytes(&self, name: Name) -> Option<&[u8]> {
        self.member.home_bytes(name)
    }

    fn exclusive_bytes(&self, name: Name) -> Option<&[u8]> {
        self.member.exclusive_bytes(name)
    }
}
