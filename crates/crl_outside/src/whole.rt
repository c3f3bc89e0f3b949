//! All that a source gives, and all bytes to a sink.
ghost use Rattle.std.specs.Prelude.{◌≡◌, ◌≤◌, ◌⊎◌, length, take, OnOk, OnErr, IfOk, IfSome, IsErrOf};
ghost use Rattle.std.specs.Io.KnownBytes.{Appends, Consumes, IsAtEnd};
ghost use Rattle.crl_outside.specs.Faults.{Rose, HasCause, AppendsFront, ConsumesFront};

use crate::Failed;
use crate::sink::Sink;
use crate::source::Source;
use crl_model::OutOfMemory;
use std::alloc::Global;

/// The most bytes that one pull of `read_all` asks for. They go into a buffer on the stack, so that
/// memory is taken only for bytes that came.
const BUFFER_SIZE: usize = 16_384;

/// Why `read_all` gave up.
#[derive(Clone, Copy, Debug, PartialEq, Eq)]
pub enum ReadFault {
    /// A pull failed.
    Failed,
    /// Memory was refused.
    OutOfMemory,
}

impl From<Failed> for ReadFault {
    ghost use Rattle.crl_outside.specs.declared.whole.ReadFault.TheVariants.{Failed};

    ghost from_gives = { λ _ fault. fault ≡ Failed };

    fn from(_failed: Failed) -> ReadFault {
        ReadFault::Failed
    }
}

impl From<OutOfMemory> for ReadFault {
    ghost use Rattle.crl_outside.specs.declared.whole.ReadFault.TheVariants.{OutOfMemory};

    ghost from_gives = { λ _ fault. fault ≡ OutOfMemory };

    fn from(_refused: OutOfMemory) -> ReadFault {
        ReadFault::OutOfMemory
    }
}

/// The bytes of the source up to its end, or its first `limit` bytes if there are more. No byte
/// past those is taken.
///
/// # Errors
///
/// `Failed`: a pull failed. `OutOfMemory`: memory was refused. In both cases some bytes may have
/// been taken from the source, and are lost.
pub fn read_all<S: Source>(
    alloc: Global,
    source: &mut S,
    limit: usize,
) -> Result<Vec<u8>, ReadFault>
    ensures bytes { IfOk result (λ v.
        IfSome (S.left source.old) (λ bytes. v.items ≡ take limit bytes)) }

    // The vector has exactly the bytes that were taken, and stops only at the limit or the end.
    ensures taken { IfOk result (λ v. Consumes (S.left source.old) (S.left source.new) v.items) }
    ensures within { IfOk result (λ v. length v.items ≤ limit) }
    ensures whole { IfOk result (λ v. (length v.items ≡ limit) ⊎ IsAtEnd (S.left source.new)) }

    ensures lost { OnErr result (ConsumesFront (S.left source.old) (S.left source.new)) }
    ensures later { S.faults source.old ≤ S.faults source.new }
    ensures unfailed { OnOk result (S.faults source.new ≡ S.faults source.old) }
    ensures cause { IsErrOf result ReadFault.Failed →
        Rose (S.faults source.old) (S.faults source.new) }
{
    let mut all = Vec::new(alloc);
    let mut buffer = [0; BUFFER_SIZE];
    while all.len() < limit {
        let room = (limit - all.len()).min(BUFFER_SIZE);
        let count = source.pull(&mut buffer[..room])?;
        if count == 0 {
            return Ok(all);
        }
        all.extend_from_slice(&buffer[..count])?;
    }
    Ok(all)
}

/// Pushes all the bytes, as often as the sink takes only a part. It takes no memory.
///
/// # Errors
///
/// `Failed`: a push failed. The sink holds a first part of the bytes more.
pub fn push_all<K: Sink>(sink: &mut K, bytes: &[u8]) -> Result<(), Failed>
    ensures ok { OnOk result (Appends (K.held sink.old) (K.held sink.new) bytes.now) }
    ensures err { OnErr result (AppendsFront (K.held sink.old) (K.held sink.new) bytes.now) }
    ensures cause { HasCause (K.faults sink.old) (K.faults sink.new) result }
{
    let mut rest = bytes;
    while !rest.is_empty() {
        let count = sink.push(rest)?;
        rest = &rest[count..];
    }
    Ok(())
}
