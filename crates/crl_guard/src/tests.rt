//! Tests: bytes are changed through the guard of a write section, and what a node is at is taken once.
ghost use Rattle.std.specs.Prelude.{◌≡◌, IfOk};

use crate::{Reading, Standing, Writing};
use crl_model::OutOfMemory;
use crl_model::activity::{Activity, Answer, Awaited};
use crl_model::bytes::Bytes;
use crl_model::name::Name;
use std::alloc::Global;

fn writing_of(alloc: Global, bytes: &[u8]) -> Result<Writing, OutOfMemory>
    ensures { IfOk result (λ guard. guard.bytes ≡ bytes.now) }
{
    Ok(Writing::new(Vec::from_slice(alloc, bytes)?, 3, Name::new(0, 1), 7))
}

#[test]
fn bytes_are_changed(rt: HostRuntime) -> Result<(), OutOfMemory> {
    let mut writing = writing_of(rt.alloc(), &[1, 2, 3])?;
    writing.bytes_mut().copy_from_slice(&[4, 5, 6]);
    writing.put(1, &[9, 8]);
    assert_eq!(rt; writing.number(), 7);
    let written = writing.into_bytes();
    assert_eq!(rt; written.as_slice(), [4, 9, 8].as_slice());
    Ok(())
}

/// The number of the guard that is taken, or 0.
fn taken_number(standing: &mut Standing) -> u64 {
    let mut taken = Standing::new();
    if let Some(answer) = standing.take() {
        taken.ready(answer);
    }
    match taken.activity() {
        Activity::Ready(Answer::Reading(guard)) => guard.number(),
        Activity::Ready(Answer::Writing(guard)) => guard.number(),
        _ => 0,
    }
}

#[test]
fn an_answer_is_taken_once(rt: HostRuntime) -> Result<(), OutOfMemory> {
    let name = Name::new(0, 1);
    let mut standing = Standing::new();
    standing.wait(Awaited::ForSection { name });
    assert_eq!(rt; standing.is_free(), false);
    let bytes = Bytes::zeros(rt.alloc(), 2)?;
    standing.ready(Answer::Reading(Reading::new(bytes, 3, name, 7)));
    assert_eq!(rt; standing.is_ready(), true);
    assert_eq!(rt; taken_number(&mut standing), 7);
    assert_eq!(rt; standing.is_free(), true);
    assert_eq!(rt; taken_number(&mut standing), 0);
    Ok(())
}
