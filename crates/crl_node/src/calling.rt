//! A call of a node, and the ends of sections by their guards.
ghost use Rattle.std.specs.Prelude.{◌≡◌, ◌<◌, ◌^◌, true, None, IfOk};
ghost use Rattle.crl_model.specs.declared.call.Call.TheVariants as call;
ghost use Rattle.crl_protocol.specs.Verdict as verdict;
ghost use Rattle.crl_protocol.specs.World.{is_free};
ghost use Rattle.crl_safety.specs.Safety.{IsSafe};
ghost use Rattle.crl_desk.specs.Desks.{state, HasRoom};
ghost use Rattle.crl_member.specs.Fitting as fitting;
ghost use Rattle.crl_member.specs.Members.{CallIsDone, node_after_read, node_after_write};
ghost use Rattle.crl_node.specs.Calling.{IsCallReady};
ghost use Rattle.crl_node.specs.Nodes.{IsNode, ActIsDone};

use crate::acting::{Acted, act_refused, act_taken, ready_taken};
use crate::concluding::conclude;
use crate::kits::CallKit;
use crl_desk::Desk;
use crl_guard::{Reading, Writing};
use crl_model::OutOfMemory;
use crl_model::activity::Answer;
use crl_model::bytes::Bytes;
use crl_model::call::{Call, Refusal};
use crl_model::event::Event;

/// Makes ready what the call takes, on which this is the node's verdict.
///
/// # Errors
///
/// `OutOfMemory`.
pub(crate) fn ready_call(
    desk: &mut Desk,
    call: &Call,
    refusal: Option<Refusal>,
) -> Result<CallKit, OutOfMemory>
    requires node { IsNode desk.old }
    requires judged { refusal ≡ verdict.verdict (state desk.old) call.now }
    ensures state { state desk.new ≡ state desk.old }
    ensures kit { IfOk result (λ kit. IsCallReady call.now kit desk.new) }
    ensures node { IsNode desk.new }
{
    match refusal {
        Some(why) => {
            crl_naming::ready_refuse(desk, call)?;
            Ok(CallKit::Refused(why))
        }
        None => {
            let kit = ready_taken(desk, call)?;
            Ok(CallKit::Taken(kit))
        }
    }
}

/// What the node does with the call, before the call is noted.
fn act(desk: &mut Desk, at: u64, call: Call, kit: CallKit) -> Acted
    requires ready { IsCallReady call kit desk.old }
    requires safe { IsSafe (state desk.old) }
    requires free { is_free (state desk.old).activity ≡ true }
    ensures { ActIsDone at call (state desk.old) desk.new result }
{
    match kit {
        CallKit::Refused(why) => act_refused(desk, at, call, why),
        CallKit::Taken(kit) => act_taken(desk, at, call, kit),
    }
}

/// Makes the call, which was made ready.
pub(crate) fn make_call(
    desk: &mut Desk,
    at: u64,
    call: Call,
    kit: CallKit,
) -> Answer<Reading, Writing>
    requires node { IsNode desk.old }
    requires ready { IsCallReady call kit desk.old }
    requires safe { IsSafe (state desk.old) }
    requires free { is_free (state desk.old).activity ≡ true }
    ensures told { CallIsDone at call (state desk.old) (state desk.new) result }
    ensures node { IsNode desk.new }
{
    let before = desk.outbox.len();
    let node = desk.me;
    let Acted { answer, noted } = act(desk, at, call, kit);
    conclude(desk, at, Event::Call { node, call: noted }, before);
    answer
}

/// The answer of an end is dropped.
fn spend(answer: Answer<Reading, Writing>) {
    match answer {
        Answer::Reading(guard) => guard.discard(),
        Answer::Writing(guard) => guard.discard(),
        Answer::Came { round: _, fold } => drop(fold),
        Answer::Made(_)
        | Answer::Mapped { name: _, size: _ }
        | Answer::Done
        | Answer::Refused(_)
        | Answer::Wait => (),
    }
}

/// Ends the read section of the guard.
pub(crate) fn make_end_read(desk: &mut Desk, at: u64, guard: Reading)
    requires node { IsNode desk.old }
    requires safe { IsSafe (state desk.old) }
    requires fits { fitting.fits_reading (state desk.old) guard ≡ true }
    requires allowed { verdict.verdict (state desk.old) (call.EndRead guard.name) ≡ None }
    ensures state { state desk.new ≡ node_after_read at guard (state desk.old) }
    ensures node { IsNode desk.new }
{
    let before = desk.outbox.len();
    let node = desk.me;
    let name = guard.name();
    spend(crl_sectioning::end_read(desk, at, name, guard.into_bytes()));
    let call = Call::EndRead { name };
    conclude(desk, at, Event::Call { node, call }, before);
}

/// Ends the write section of the guard.
pub(crate) fn make_end_write(desk: &mut Desk, at: u64, guard: Writing)
    requires node { IsNode desk.old }
    requires safe { IsSafe (state desk.old) }
    requires fits { fitting.fits_writing (state desk.old) guard ≡ true }
    requires allowed { verdict.verdict (state desk.old) (call.EndWrite guard.name guard.bytes) ≡ None }
    ensures state { state desk.new ≡ node_after_write at guard (state desk.old) }
    ensures node { IsNode desk.new }
{
    let before = desk.outbox.len();
    let node = desk.me;
    let name = guard.name();
    let none = Bytes::from_vec(Vec::new(desk.alloc));
    spend(crl_sectioning::end_write(desk, at, name, guard.into_bytes()));
    let call = Call::EndWrite { name, after: none };
    conclude(desk, at, Event::Call { node, call }, before);
}
