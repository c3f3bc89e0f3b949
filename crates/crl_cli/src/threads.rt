//! `threads`: the run of a script by several threads, and its account.
ghost use Rattle.std.specs.Prelude.{◌≡◌, ◌<◌, ◌≤◌, ◌+◌, Some, IfOk, length};
ghost use Rattle.crl_commands.specs.declared.command.Command.TheVariants as command;
ghost use Rattle.crl_cli.specs.Outcome.{SaysSome, Comes, asked};

use crate::SCRIPT_LIMIT;
use crate::account::{Unread, account_of, script_of};
use crate::outcome::{Outcome, read_fault};
use crate::running::run_threads;
use crl_crew::Gate;
use crl_model::OutOfMemory;
use crl_outside::source::Source;
use crl_outside::whole::{ReadFault, read_all};
use std::alloc::Global;
use std::sync::Wait;
use std::thread::Threads;

/// The run of the script that these bytes are, by so many threads.
fn threads_text<R: Threads + Wait + Sync, G: Gate + Sync>(
    rt: &R,
    alloc: Global,
    bytes: &[u8],
    workers: u16,
    gate: &G,
) -> Result<Outcome, OutOfMemory>
    requires within { length bytes.now ≤ SCRIPT_LIMIT + 1 }
    requires workers { (1 ≤ workers) × (workers ≤ 16) }
    ensures { IfOk result (λ o. SaysSome o.status bytes.now o.text.items) }
{
    match script_of(alloc, bytes) {
        Ok(script) => {
            let ended = run_threads(rt, alloc, &script, workers, gate)?;
            account_of(alloc, &ended)
        }
        Err(Unread::Bad(outcome)) => Ok(outcome),
        Err(Unread::OutOfMemory) => Err(OutOfMemory),
    }
}

/// The answer to `threads`, before any of it is printed.
pub(crate) fn threads_outcome<R: Threads + Wait + Sync, S: Source, G: Gate + Sync>(
    rt: &R,
    alloc: Global,
    workers: u16,
    source: &mut S,
    gate: &G,
) -> Result<Outcome, OutOfMemory>
    requires workers { (1 ≤ workers) × (workers ≤ 16) }
    ensures comes { IfOk result (λ o. Comes (asked (Some (command.Threads workers)) (S.left source.old) (S.left source.new) (S.faults source.old) (S.faults source.new)) o.status o.text.items) }
    ensures later { S.faults source.old ≤ S.faults source.new }
{
    match read_all(alloc, source, SCRIPT_LIMIT + 1) {
        Ok(bytes) => threads_text(rt, alloc, bytes.as_slice(), workers, gate),
        Err(ReadFault::Failed) => read_fault(alloc),
        Err(ReadFault::OutOfMemory) => Err(OutOfMemory),
    }
}
