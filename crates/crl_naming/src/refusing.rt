//! A refusal.
ghost use Rattle.std.specs.Prelude.{◌≡◌, ◌+◌, ◌<◌, ◌≤◌, ◌^◌, OnOk};
ghost use Rattle.crl_model.specs.Calls.{kind_of};
ghost use Rattle.crl_protocol.specs.Verdict as verdict;
ghost use Rattle.crl_desk.specs.Desks.{state, acted, HasRoom};
ghost use Rattle.crl_naming.specs.Readied.{HasSerial, HasSerialFor, RefuseIsReady};

use crl_desk::Desk;
use crl_guard::{Reading, Writing};
use crl_model::OutOfMemory;
use crl_model::activity::Answer;
use crl_model::call::{Call, CallKind, Refusal};
use crl_model::collective::Part;
use crl_model::entry::{Entry, Place, What};
use crl_model::name::Name;

/// The script's word for a call that brings this part.
fn word_of_part(part: &Part) -> CallKind
    ensures { result ≡ kind_of part.now }
{
    match part {
        Part::Barrier => CallKind::Barrier,
        Part::Send(_) => CallKind::Send,
        Part::Receive => CallKind::Receive,
        Part::Sum(_) => CallKind::Sum,
        Part::Min(_) => CallKind::Min,
        Part::Max(_) => CallKind::Max,
    }
}

/// The script's word for a call.
pub fn word_of(call: &Call) -> CallKind
    ensures { result ≡ verdict.word_of call.now }
{
    match call {
        Call::Create { size: _ } => CallKind::Create,
        Call::Delete { name: _ } => CallKind::Delete,
        Call::Map { name: _ } => CallKind::Map,
        Call::Unmap { name: _ } => CallKind::Unmap,
        Call::StartRead { name: _ } => CallKind::Read,
        Call::EndRead { name: _ } => CallKind::EndRead,
        Call::StartWrite { name: _ } => CallKind::Write,
        Call::EndWrite { name: _, after: _ } => CallKind::EndWrite,
        Call::Put {
            name: _,
            offset: _,
            len: _,
        } => CallKind::Put,
        Call::Add { name: _, offset: _ } => CallKind::Add,
        Call::Flush { name: _ } => CallKind::Flush,
        Call::Come { part } => word_of_part(part),
    }
}

/// The serial of a refused create: the next one, or 0 if all are used.
fn refused_serial(desk: &Desk) -> u32
    ensures { result ≡ verdict.refused_serial (state desk.now) }
{
    let serial = desk.homes.serial();
    if serial == u32::MAX { 0 } else { serial + 1 }
}

/// What a refused call is about. Asked before the refusal, which may use up a serial.
pub fn place_of(desk: &Desk, call: &Call) -> Place
    requires round { desk.now.rounds + 1 < 2 ^ 64 }
    ensures { result ≡ verdict.place_of (state desk.now) call.now }
{
    match call {
        Call::Create { size: _ } => Place::Region(Name::new(desk.me, refused_serial(desk))),
        Call::Come { part: _ } => Place::Round(desk.rounds + 1),
        Call::Delete { name }
        | Call::Map { name }
        | Call::Unmap { name }
        | Call::StartRead { name }
        | Call::EndRead { name }
        | Call::StartWrite { name }
        | Call::EndWrite { name, after: _ }
        | Call::Put {
            name,
            offset: _,
            len: _,
        }
        | Call::Add { name, offset: _ }
        | Call::Flush { name } => Place::Region(*name),
    }
}

/// What a refusal of this call uses up.
///
/// # Errors
///
/// `OutOfMemory`.
pub fn ready_refuse(desk: &mut Desk, call: &Call) -> Result<(), OutOfMemory>
    requires room { HasRoom 0 0 0 desk.old }
    ensures state { state desk.new ≡ state desk.old }
    ensures room { HasRoom 0 0 0 desk.new }
    ensures ready { OnOk result (RefuseIsReady call.now desk.new) }
{
    desk.make_room(0, 1, 1)?;
    ready_serial_for(desk, call)
}

/// A place for the serial that a refusal of this call uses up.
fn ready_serial_for(desk: &mut Desk, call: &Call) -> Result<(), OutOfMemory>
    requires room { HasRoom 0 1 1 desk.old }
    ensures state { state desk.new ≡ state desk.old }
    ensures room { HasRoom 0 1 1 desk.new }
    ensures ready { OnOk result (HasSerialFor call.now desk.new) }
{
    match call {
        Call::Create { size: _ } => {
            desk.stages.ready_serial()?;
            desk.homes.ready_serial()
        }
        _ => Ok(()),
    }
}

/// The next serial is used up, unless all are.
fn use_serial(desk: &mut Desk)
    requires room { HasRoom 0 1 1 desk.old }
    requires serial { HasSerial desk.old }
    ensures state { state desk.new ≡ verdict.uses_serial (state desk.old) }
    ensures room { HasRoom 0 1 1 desk.new }
{
    if desk.homes.serial() == u32::MAX {
        return;
    }
    let _ = desk.homes.skip_serial();
    desk.stages.skip();
}

/// What a refused call leaves, but for its entry.
fn leave_refused(desk: &mut Desk, call: &Call)
    requires ready { RefuseIsReady call.now desk.old }
    ensures state { state desk.new ≡ verdict.after_refusal call.now (state desk.old) }
    ensures room { HasRoom 0 1 1 desk.new }
{
    match call {
        Call::Create { size: _ } => use_serial(desk),
        _ => (),
    }
}

/// A call that is refused.
#[tactic(auto, unfolding(crl_protocol::specs::Verdict::refuses_call))]
pub fn refuse(desk: &mut Desk, at: u64, call: &Call, why: Refusal) -> Answer<Reading, Writing>
    requires ready { RefuseIsReady call.now desk.old }
    requires round { desk.old.rounds + 1 < 2 ^ 64 }
    ensures state { state desk.new ≡ acted at (verdict.refuses_call why call.now (state desk.old)) }
    ensures answer { result ≡ (verdict.refuses_call why call.now (state desk.old)).answer }
    ensures room { HasRoom 0 0 1 desk.new }
{
    let entry = Entry {
        node: desk.me,
        what: What::Refused {
            kind: word_of(call),
            place: place_of(desk, call),
            why,
        },
    };
    leave_refused(desk, call);
    desk.journal.record(at, entry);
    Answer::Refused(why)
}
