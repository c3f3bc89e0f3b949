//! A node's place in its script, and the guards that it holds.
ghost use Rattle.std.specs.Prelude.{◌≡◌, ◌+◌, ◌^◌, ◌<◌, ◌≤◌, ◌++◌, ◌∷◌, [], suc, true, false, OnOk, IfOk, Some, None, drop, length, MatchOption};
ghost use Rattle.std.specs.Option.{option_map};
ghost use Rattle.crl_model.specs.Patches.{put_at};
ghost use Rattle.crl_protocol.specs.Chosen.{with_sum};
ghost use Rattle.crl_protocol.specs.Home.{is_empty};
ghost use Rattle.crl_run.specs.Holding.{given};
ghost use Rattle.crl_run.specs.Players.{guards_given, newest, guards_without, guards_with, IsOfKind, CanChange};
ghost use Rattle.crl_run.specs.Acting.{IsShort, CanAct, Acts};
ghost use Rattle.crl_run.specs.Holders.{GuardStandsAt, GuardStandsNowhere};

use crate::act::{Act, plain_call};
use crate::guards::{Reading, Writing};
use crate::held::Held;
use crl_model::OutOfMemory;
use crl_model::activity::Answer;
use crl_model::call::{Call, Refusal};
use crl_model::name::Name;
use crl_model::statement::Statement;
use std::alloc::Global;
use std::collections::VecDeque;
use std::marker::Model;

/// A node's place in its list of statements, and the guards of its open sections, the newest first. A contract sees it as
/// a `PlayerState`.
#[derive(Drop)]
pub struct Player {
    place: usize,
    guards: VecDeque<Held>,
}

impl Model for Player {
    ghost use Rattle.std.specs.Prelude.{◌-◌, map};
    ghost use Rattle.std.specs.VecDeque.{deque_len, deque_capacity};
    ghost use Rattle.crl_run.specs.PlayerState.{PlayerState};
    ghost use Rattle.crl_run.specs.Holding.{given};

    ghost Value = { PlayerState };

    ghost view = { λ p. record { place = p.place; guards = map given p.guards.items; room = deque_capacity p.guards - deque_len p.guards } };
}

impl Player {
    /// Before the first statement, without guards.
    pub fn new(alloc: Global) -> Player
        ensures place { result.place ≡ 0 }
        ensures guards { result.guards ≡ [] }
    {
        Player {
            place: 0,
            guards: VecDeque::new(alloc),
        }
    }

    /// How many statements it took.
    pub fn place(&self) -> usize
        ensures { result ≡ self.now.place }
    {
        self.place
    }

    /// Whether no statement is left of these.
    pub fn is_done(&self, statements: &[Statement]) -> bool
        ensures { result ≡ is_empty (drop self.now.place statements.now) }
    {
        self.place >= statements.len()
    }

    /// The next of these statements.
    pub fn statement<'a>(&self, statements: &'a [Statement]) -> &'a Statement
        requires { self.now.place < length statements.now }
        ensures { drop self.now.place statements.now ≡ result.now ∷ drop (suc self.now.place) statements.now }
    {
        &statements[self.place]
    }

    /// Makes room for a guard.
    ///
    /// # Errors
    ///
    /// `OutOfMemory`.
    pub fn reserve(&mut self) -> Result<(), OutOfMemory>
        ensures place { self.new.place ≡ self.old.place }
        ensures guards { self.new.guards ≡ self.old.guards }
        ensures room { OnOk result (1 ≤ self.new.room) }
    {
        self.guards.reserve(1)
    }

    /// Keeps the guard of the answer, if it gives one. It takes no memory.
    #[inline(always)]
    pub fn keep(&mut self, answer: Answer<Reading, Writing>)
        requires { 1 ≤ self.old.room }
        ensures place { self.new.place ≡ self.old.place }
        ensures guards { self.new.guards ≡ guards_given answer ++ self.old.guards }
    {
        match answer {
            Answer::Reading(guard) => self.hold(Held::Read(guard)),
            Answer::Writing(guard) => self.hold(Held::Write(guard)),
            Answer::Made(_) => {}
            Answer::Mapped { .. } => {}
            Answer::Done => {}
            Answer::Came { .. } => {}
            Answer::Refused(_) => {}
            Answer::Wait => {}
        }
    }

    /// Hands out the newest guard of the region, which is of a read section.
    pub fn take_reading(&mut self, name: Name) -> Reading
        requires { IsOfKind false (newest name self.old.guards) }
        ensures place { self.new.place ≡ self.old.place }
        ensures taken { newest name self.old.guards ≡ Some (record { write = false; guard = result }) }
        ensures guards { self.new.guards ≡ guards_without name self.old.guards }
    {
        match self.take(name) {
            Some(held) => held.into_reading(),
            None => unreachable!(),
        }
    }

    /// Hands out the newest guard of the region, which is of a write section.
    pub fn take_writing(&mut self, name: Name) -> Writing
        requires { IsOfKind true (newest name self.old.guards) }
        ensures place { self.new.place ≡ self.old.place }
        ensures taken { newest name self.old.guards ≡ Some (record { write = true; guard = result }) }
        ensures guards { self.new.guards ≡ guards_without name self.old.guards }
    {
        match self.take(name) {
            Some(held) => held.into_writing(),
            None => unreachable!(),
        }
    }

    /// Hands out the newest guard of the region, if there is one.
    #[inline(always)]
    fn take(&mut self, name: Name) -> Option<Held>
        ensures place { self.new.place ≡ self.old.place }
        ensures taken { option_map given result ≡ newest name self.old.guards }
        ensures guards { self.new.guards ≡ guards_without name self.old.guards }
    {
        match place_of(&self.guards, name) {
            Some(place) => self.guards.remove(place),
            None => None,
        }
    }

    /// Puts these bytes into the open write section of the region, from `offset` on.
    pub fn put(&mut self, name: Name, offset: usize, bytes: &[u8])
        requires { CanChange (offset + length bytes.now) (newest name self.old.guards) }
        ensures place { self.new.place ≡ self.old.place }
        ensures guards { self.new.guards ≡ guards_with name (put_at offset bytes.now) self.old.guards }
    {
        match place_of(&self.guards, name) {
            Some(place) => self.guards[place].put(offset, bytes),
            None => unreachable!(),
        }
    }

    /// Adds to the eight bytes of the open write section of the region, from `offset` on.
    pub fn add(&mut self, name: Name, offset: usize, number: u64)
        requires { CanChange (offset + 8) (newest name self.old.guards) }
        ensures place { self.new.place ≡ self.old.place }
        ensures guards { self.new.guards ≡ guards_with name (with_sum offset number) self.old.guards }
    {
        match place_of(&self.guards, name) {
            Some(place) => self.guards[place].add(offset, number),
            None => unreachable!(),
        }
    }

    /// Takes the next statement, for whose call the node has this verdict. A change that is allowed is made on the bytes
    /// of the guard; a section that may end is ended by its newest guard, which is handed out.
    ///
    /// # Errors
    ///
    /// `OutOfMemory`.
    #[inline(always)]
    pub fn act(
        &mut self,
        alloc: Global,
        statement: &Statement,
        refusal: Option<Refusal>,
    ) -> Result<Act, OutOfMemory>
        requires place { self.old.place + 1 < 2 ^ 64 }
        requires short { IsShort statement.now }
        requires can { CanAct refusal statement.now self.old.guards }
        ensures place { self.new.place ≡ self.old.place + 1 }
        ensures ok { IfOk result (λ act. Acts refusal statement.now self.old.guards act self.new.guards) }
    {
        self.place += 1;
        match refusal {
            Some(_) => Ok(Act::Call(plain_call(alloc, statement)?)),
            None => self.allowed(alloc, statement),
        }
    }

    /// The same for a statement that isn't refused.
    #[inline(always)]
    fn allowed(&mut self, alloc: Global, statement: &Statement) -> Result<Act, OutOfMemory>
        requires { CanAct None statement.now self.old.guards }
        ensures place { self.new.place ≡ self.old.place }
        ensures ok { IfOk result (λ act. Acts None statement.now self.old.guards act self.new.guards) }
    {
        match statement {
            Statement::Call(call) => self.allowed_call(alloc, call),
            Statement::Put {
                name,
                offset,
                bytes,
            } => {
                self.put(*name, *offset as usize, bytes.as_slice());
                Ok(Act::Inside)
            }
            Statement::Add {
                name,
                offset,
                number,
            } => {
                self.add(*name, *offset as usize, *number);
                Ok(Act::Inside)
            }
        }
    }

    /// The same for a call that isn't refused.
    #[inline(always)]
    fn allowed_call(&mut self, alloc: Global, call: &Call) -> Result<Act, OutOfMemory>
        requires { CanAct None (Statement.Call call.now) self.old.guards }
        ensures place { self.new.place ≡ self.old.place }
        ensures ok { IfOk result (λ act. Acts None (Statement.Call call.now) self.old.guards act self.new.guards) }
    {
        match call {
            Call::EndRead { name } => Ok(Act::EndRead(self.take_reading(*name))),
            Call::EndWrite { name, .. } => Ok(Act::EndWrite(self.take_writing(*name))),
            _ => Ok(Act::Call(call.copy(alloc)?)),
        }
    }

    /// Holds one guard more.
    #[inline(always)]
    fn hold(&mut self, held: Held)
        requires { 1 ≤ self.old.room }
        ensures place { self.new.place ≡ self.old.place }
        ensures guards { self.new.guards ≡ given held ∷ self.old.guards }
    {
        self.guards.push_front_reserved(held);
    }
}

/// The place of the newest guard of the region, if there is one.
fn place_of(guards: &VecDeque<Held>, name: Name) -> Option<usize>
    ensures { MatchOption result (GuardStandsNowhere name guards.now.items) (GuardStandsAt name guards.now.items) }
{
    for place in 0..guards.len() {
        if guards[place].name() == name {
            return Some(place);
        }
    }
    None
}
