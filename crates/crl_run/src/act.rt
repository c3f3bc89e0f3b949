//! What a node does for a statement.
ghost use Rattle.std.specs.Prelude.{◌≡◌, IfOk};
ghost use Rattle.crl_run.specs.Acting.{IsShort, plain_call as plain};

use crate::guards::{Reading, Writing};
use crl_model::OutOfMemory;
use crl_model::bytes::Bytes;
use crl_model::call::Call;
use crl_model::statement::Statement;
use std::alloc::Global;

/// What a node does for a statement. The guard of a section that ends is spent with it.
pub enum Act {
    /// It makes this call.
    Call(Call),
    EndRead(Reading),
    EndWrite(Writing),
    /// A change of the bytes of its own write section, which is done, and no call.
    Inside,
}

/// The call that a statement makes where it is refused. An end of a write section brings no bytes there.
///
/// # Errors
///
/// `OutOfMemory`.
pub(crate) fn plain_call(alloc: Global, statement: &Statement) -> Result<Call, OutOfMemory>
    requires { IsShort statement.now }
    ensures { IfOk result (λ call. call ≡ plain statement.now) }
{
    match statement {
        Statement::Call(call) => bare_call(alloc, call),
        Statement::Put {
            name,
            offset,
            bytes,
        } => Ok(Call::Put {
            name: *name,
            offset: *offset,
            len: bytes.len() as u32,
        }),
        Statement::Add { name, offset, .. } => Ok(Call::Add {
            name: *name,
            offset: *offset,
        }),
    }
}

/// The call, without the bytes of an end of a write section.
fn bare_call(alloc: Global, call: &Call) -> Result<Call, OutOfMemory>
    ensures { IfOk result (λ bare. bare ≡ plain (Statement.Call call.now)) }
{
    match call {
        Call::EndWrite { name, .. } => Ok(Call::EndWrite {
            name: *name,
            after: Bytes::from_vec(Vec::new(alloc)),
        }),
        _ => call.copy(alloc),
    }
}
