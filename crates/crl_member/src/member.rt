//! The trait of a node.
ghost use Rattle.std.specs.Prelude.{◌≡◌, ℕ, ◌<◌, ◌≤◌, ◌^◌, true, false, None, length, IfOk, OnOk, OnErr, MatchResult};
ghost use Rattle.std.specs.Option.{option_copied};
ghost use Rattle.crl_model.specs.declared.call.Call.TheVariants as call;
ghost use Rattle.crl_protocol.specs.Node.{Node, new_node, serials_used};
ghost use Rattle.crl_protocol.specs.Places.{take_out};
ghost use Rattle.crl_protocol.specs.Sections.{section_at};
ghost use Rattle.crl_protocol.specs.Verdict as verdict;
ghost use Rattle.crl_protocol.specs.World as world;
ghost use Rattle.crl_protocol.specs.Ends as ends;
ghost use Rattle.crl_safety.specs.Safety.{IsSafe};
ghost use Rattle.crl_member.specs.Fitting as fitting;
ghost use Rattle.crl_member.specs.Fitting.{MayCall};
ghost use Rattle.crl_member.specs.Members.{awaited_of, addressee_of, bytes_at_home, TakenIsSafe};
ghost use Rattle.crl_member.specs.Members.{CallIsDone, CallIsBack, CollectIsDone, CarryIsDone, TakenIsInTable, HasCome};
ghost use Rattle.crl_member.specs.Members.{node_after_read, node_after_write, node_after_handle};

use crl_guard::{Reading, Writing};
use crl_journal::Records;
use crl_model::activity::{Answer, Awaited};
use crl_model::call::{Call, Refusal};
use crl_model::directory::Section;
use crl_model::name::Name;
use crl_model::{NodeNo, OutOfMemory};
use crl_wire::Received;
use std::alloc::Global;

/// A node. A contract sees it as the protocol's node, its state.
///
/// An event of the node has a position, the number of the events before it. Where memory is wanting for an event, the
/// node stays as it was.
///
/// An event comes in two halves. The first makes ready what the event takes, and leaves the state. The second is the
/// event: it takes no memory and can't fail. Between the two the node is left alone.
pub trait Member: Sized + Drop {
    ghost use Rattle.crl_model.specs.declared.call.Call.{Call};
    ghost use Rattle.crl_protocol.specs.Node.{Node};

    /// What was made ready for a call.
    type CallKit: Drop;

    /// What was made ready for a piece of the inbox.
    type PieceKit: Drop;

    // The protocol's node for which a value stands.
    ghost state: { Self → Node };

    // The call can be made with this kit.
    ghost can_call: { Call → Self.CallKit → Self → Type 0 };

    // The answer can be taken.
    ghost can_collect: { Self → Type 0 };

    // The piece at this place of the inbox can be handled with this kit.
    ghost can_handle: { ℕ → Self.PieceKit → Self → Type 0 };

    // A piece can be carried from the first node to the second.
    ghost can_carry: { Self → Self → Type 0 };

    /// The node of this number, of so many nodes, with room for so many names in its cache. Nothing was done yet.
    ///
    /// # Errors
    ///
    /// `OutOfMemory`.
    fn new(alloc: Global, me: NodeNo, nodes: NodeNo, capacity: u16) -> Result<Self, OutOfMemory>
        requires { (me < nodes) × (nodes ≤ 64) }
        ensures { IfOk result (λ member. state member ≡ new_node nodes capacity me) };

    /// It may make a call.
    fn is_free(&self) -> bool
        ensures { result ≡ world.is_free (state self.now).activity };

    /// It has an answer to take.
    fn is_ready(&self) -> bool
        ensures { result ≡ world.is_ready (state self.now).activity };

    /// What it waits for, if it waits.
    fn awaited(&self) -> Option<Awaited>
        ensures { result ≡ awaited_of (state self.now).activity };

    /// The number of rounds to which it came.
    fn rounds(&self) -> u64
        ensures { result ≡ (state self.now).rounds };

    /// Its sections of the region.
    fn section(&self, name: Name) -> Section
        ensures { result ≡ section_at name (state self.now).sections };

    /// The number of pieces in its inbox.
    fn inbox_len(&self) -> usize
        ensures { result ≡ length (state self.now).inbox };

    /// The number of pieces in its outbox.
    fn outbox_len(&self) -> usize
        ensures { result ≡ length (state self.now).outbox };

    /// The addressee of the piece at this place of the outbox.
    fn addressee(&self, place: usize) -> NodeNo
        requires { place < length (state self.now).outbox }
        ensures { result ≡ addressee_of (take_out place (state self.now).outbox) };

    /// The reason for which the node refuses the call at once, if there is one.
    fn verdict(&self, call: &Call) -> Option<Refusal>
        ensures { result ≡ verdict.verdict (state self.now) call.now };

    /// The guard is of a read section that is open here, and has its bytes.
    fn fits_reading(&self, guard: &Reading) -> bool
        ensures { result ≡ fitting.fits_reading (state self.now) guard.now };

    /// The guard is of a write section that is open here, and has as many bytes.
    fn fits_writing(&self, guard: &Writing) -> bool
        ensures { result ≡ fitting.fits_writing (state self.now) guard.now };

    /// Makes ready what the call takes, on which this is the node's verdict.
    ///
    /// # Errors
    ///
    /// `OutOfMemory`.
    fn ready_call(
        &mut self,
        call: &Call,
        refusal: Option<Refusal>,
    ) -> Result<Self::CallKit, OutOfMemory>
        requires safe { IsSafe (state self.old) }
        requires free { world.is_free (state self.old).activity ≡ true }
        requires may { MayCall (state self.old) call.now }
        requires judged { refusal ≡ verdict.verdict (state self.old) call.now }
        ensures state { state self.new ≡ state self.old }
        ensures ready { IfOk result (λ kit. can_call call.now kit self.new) };

    /// Makes the call for which this was made ready.
    fn make_call(&mut self, at: u64, call: Call, kit: Self::CallKit) -> Answer<Reading, Writing>
        requires safe { IsSafe (state self.old) }
        requires position { at < 2 ^ 62 }
        requires free { world.is_free (state self.old).activity ≡ true }
        requires may { MayCall (state self.old) call }
        requires ready { can_call call kit self.old }
        ensures { CallIsDone at call (state self.old) (state self.new) result };

    /// Makes the call, on which this is the node's verdict. The end of a section that is allowed goes by its guard.
    ///
    /// # Errors
    ///
    /// The call, if memory is wanting.
    fn call_judged(
        &mut self,
        at: u64,
        call: Call,
        refusal: Option<Refusal>,
    ) -> Result<Answer<Reading, Writing>, Call>
        requires safe { IsSafe (state self.old) }
        requires position { at < 2 ^ 62 }
        requires free { world.is_free (state self.old).activity ≡ true }
        requires may { MayCall (state self.old) call }
        requires judged { refusal ≡ verdict.verdict (state self.old) call }
        ensures { MatchResult result (CallIsDone at call (state self.old) (state self.new)) (λ back. CallIsBack call back (state self.old) (state self.new)) }
    {
        match self.ready_call(&call, refusal) {
            Ok(kit) => Ok(self.make_call(at, call, kit)),
            Err(_) => Err(call),
        }
    }

    /// Ends the newest read section of the guard's region. It takes no memory.
    fn end_read(&mut self, at: u64, guard: Reading)
        requires safe { IsSafe (state self.old) }
        requires position { at < 2 ^ 62 }
        requires free { world.is_free (state self.old).activity ≡ true }
        requires fits { fitting.fits_reading (state self.old) guard ≡ true }
        requires allowed { verdict.verdict (state self.old) (call.EndRead guard.name) ≡ None }
        ensures { state self.new ≡ node_after_read at guard (state self.old) };

    /// Ends the write section of the guard's region, which has the guard's bytes from then on. It takes no memory.
    fn end_write(&mut self, at: u64, guard: Writing)
        requires safe { IsSafe (state self.old) }
        requires position { at < 2 ^ 62 }
        requires free { world.is_free (state self.old).activity ≡ true }
        requires fits { fitting.fits_writing (state self.old) guard ≡ true }
        requires allowed { verdict.verdict (state self.old) (call.EndWrite guard.name guard.bytes) ≡ None }
        ensures { state self.new ≡ node_after_write at guard (state self.old) };

    /// Makes ready what it takes to take an answer.
    ///
    /// # Errors
    ///
    /// `OutOfMemory`.
    fn ready_collect(&mut self) -> Result<(), OutOfMemory>
        ensures state { state self.new ≡ state self.old }
        ensures ready { OnOk result (can_collect self.new) };

    /// Takes the answer for which the node waited, where that was made ready.
    fn make_collect(&mut self, at: u64) -> Answer<Reading, Writing>
        requires safe { IsSafe (state self.old) }
        requires position { at < 2 ^ 62 }
        requires ready { world.is_ready (state self.old).activity ≡ true }
        requires can { can_collect self.old }
        ensures { CollectIsDone at (state self.old) (state self.new) result };

    /// Takes the answer for which the node waited.
    ///
    /// # Errors
    ///
    /// `OutOfMemory`.
    fn collect(&mut self, at: u64) -> Result<Answer<Reading, Writing>, OutOfMemory>
        requires safe { IsSafe (state self.old) }
        requires position { at < 2 ^ 62 }
        requires ready { world.is_ready (state self.old).activity ≡ true }
        ensures { MatchResult result (CollectIsDone at (state self.old) (state self.new)) (λ _. state self.new ≡ state self.old) }
    {
        self.ready_collect()?;
        Ok(self.make_collect(at))
    }

    /// Makes ready what the piece at this place of the inbox takes.
    ///
    /// # Errors
    ///
    /// `OutOfMemory`.
    fn ready_handle(&mut self, place: usize) -> Result<Self::PieceKit, OutOfMemory>
        requires safe { IsSafe (state self.old) }
        requires there { place < length (state self.old).inbox }
        requires piece { TakenIsSafe (state self.old) (take_out place (state self.old).inbox) }
        ensures state { state self.new ≡ state self.old }
        ensures ready { IfOk result (λ kit. can_handle place kit self.new) };

    /// Handles the piece at this place of the inbox, for which this was made ready.
    fn make_handle(&mut self, at: u64, place: usize, kit: Self::PieceKit)
        requires safe { IsSafe (state self.old) }
        requires position { at < 2 ^ 62 }
        requires there { place < length (state self.old).inbox }
        requires piece { TakenIsSafe (state self.old) (take_out place (state self.old).inbox) }
        requires ready { can_handle place kit self.old }
        ensures { state self.new ≡ node_after_handle at place (state self.old) };

    /// Handles the piece at this place of the inbox.
    ///
    /// # Errors
    ///
    /// `OutOfMemory`.
    fn handle(&mut self, at: u64, place: usize) -> Result<(), OutOfMemory>
        requires safe { IsSafe (state self.old) }
        requires position { at < 2 ^ 62 }
        requires there { place < length (state self.old).inbox }
        requires piece { TakenIsSafe (state self.old) (take_out place (state self.old).inbox) }
        ensures ok { OnOk result (state self.new ≡ node_after_handle at place (state self.old)) }
        ensures err { OnErr result (state self.new ≡ state self.old) }
    {
        let kit = self.ready_handle(place)?;
        self.make_handle(at, place, kit);
        Ok(())
    }

    /// Makes ready what it takes to carry the piece at this place of the outbox to another node. The piece is one of the table
    /// of frames: this node encodes its frame, and what `to` reads of that is answered.
    ///
    /// # Errors
    ///
    /// `OutOfMemory`.
    fn ready_carry(&mut self, to: &mut Self, place: usize) -> Result<Received, OutOfMemory>
        requires there { place < length (state self.old).outbox }
        requires in_table { TakenIsInTable (take_out place (state self.old).outbox) }
        ensures state { (state self.new ≡ state self.old) × (state to.new ≡ state to.old) }
        ensures ready { OnOk result (can_carry self.new to.new) }
        ensures came { IfOk result (λ came. HasCome came (take_out place (state self.old).outbox)) };

    /// Carries the piece at this place of the outbox into the inbox of `to`, where that was made ready: what comes there is
    /// the piece that was read of the frame.
    fn make_carry(&mut self, to: &mut Self, at: u64, place: usize, came: Received)
        requires safe { IsSafe (state self.old) }
        requires position { at < 2 ^ 62 }
        requires there { place < length (state self.old).outbox }
        requires ready { can_carry self.old to.old }
        requires came { HasCome came (take_out place (state self.old).outbox) }
        ensures { CarryIsDone at place (state self.old) (state to.old) (state self.new) (state to.new) };

    /// Carries the piece at this place of the outbox into the inbox of `to`, in its frame.
    ///
    /// # Errors
    ///
    /// `OutOfMemory`.
    fn carry(&mut self, to: &mut Self, at: u64, place: usize) -> Result<(), OutOfMemory>
        requires safe { IsSafe (state self.old) }
        requires position { at < 2 ^ 62 }
        requires there { place < length (state self.old).outbox }
        requires in_table { TakenIsInTable (take_out place (state self.old).outbox) }
        ensures ok { OnOk result (CarryIsDone at place (state self.old) (state to.old) (state self.new) (state to.new)) }
        ensures err { OnErr result ((state self.new ≡ state self.old) × (state to.new ≡ state to.old)) }
    {
        let came = self.ready_carry(to, place)?;
        self.make_carry(to, at, place, came);
        Ok(())
    }

    /// The number of its records.
    fn record_count(&self) -> usize
        ensures { result ≡ length (state self.now).records };

    /// What it recorded, the oldest first. The node is let go.
    fn into_records(self) -> Records
        ensures { result.list ≡ (state self).records };

    /// The number of messages that it sent.
    fn posted(&self) -> u128
        ensures { result ≡ (state self.now).posted };

    /// The number of serials that its creates used.
    fn serials(&self) -> u32
        ensures { result ≡ serials_used (state self.now) };

    /// The bytes that it has as the home of a region that is there.
    fn home_bytes(&self, name: Name) -> Option<&[u8]>
        ensures { option_copied result ≡ bytes_at_home name (state self.now) };

    /// The bytes of its copy of another home's region, if the copy is exclusive.
    fn exclusive_bytes(&self, name: Name) -> Option<&[u8]>
        ensures { option_copied result ≡ ends.exclusive_bytes (ends.copy_of ((state self.now).remotes name)) };
}
