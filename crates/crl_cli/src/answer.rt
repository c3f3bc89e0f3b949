//! The calls that the program makes.
ghost use Rattle.std.specs.Prelude.{◌≡◌, ◌≤◌, ℕ, Some, IfOk, false, map, string_bytes};
ghost use Rattle.crl_order.specs.declared.order.Order as orders;
ghost use Rattle.crl_commands.specs.Commands.{command_of};
ghost use Rattle.crl_commands.specs.declared.command.Command.TheVariants as command;
ghost use Rattle.crl_outside.specs.Faults.{Rose};
ghost use Rattle.crl_cli.specs.Answers.{Prints, HasHeadline, HasSomeHeadline};
ghost use Rattle.crl_cli.specs.Outcome.{Comes, asked, quietly, reads_any};

use crate::outcome::{Outcome, quiet_outcome};
use crate::printing::print;
use crate::status::Status;
use crate::threads::threads_outcome;
use crl_commands::command::Command;
use crl_commands::command_of;
use crl_crew::Gate;
use crl_model::OutOfMemory;
use crl_outside::sink::Sink;
use crl_outside::source::Source;
use std::alloc::Global;
use std::sync::Wait;
use std::thread::Threads;

/// Does what the words say: `order` reads a script from the source to its end, or up to the first byte that is too many,
/// runs it, and prints its account to the sink; `check NODES` reads an account and judges it; `gen` makes a script and
/// prints it; `summary` makes one, runs it and prints one line. The whole text is made before the first push. It waits for
/// nobody, and returns where the pulls and pushes do: so `threads` is no command of it.
///
/// The clauses on bytes say nothing of a source or a sink that doesn't tell its bytes, as std's standard
/// input and output.
pub fn quiet<S: Source, K: Sink>(
    alloc: Global,
    words: &[String],
    source: &mut S,
    sink: &mut K,
) -> Status
    // `order`, status 0 and 3, for every script, node count and order of steps: what the sink took is one history of a single
    // machine with one array of byte regions.
    ensures headline { (order : orders.Order) → command_of (map string_bytes words.now) ≡ Some (command.Order order)
        → HasHeadline order (S.left source.old) (S.left source.new) (K.held sink.old) (K.held sink.new) result }

    // Each status but those of wanting memory and of a failed write comes for its cause, with its text; at a failed write a
    // beginning of such a text is in the sink.
    ensures prints { let c = quietly (command_of (map string_bytes words.now)) in
        Prints (asked c (S.left source.old) (S.left source.new) (S.faults source.old) (S.faults source.new)) (K.held sink.old) (K.held sink.new) result }
    ensures write_fault { result ≡ Status.WriteFault → Rose (K.faults sink.old) (K.faults sink.new) }
    ensures unprinted { result ≡ Status.OutOfMemory → sink.new ≡ sink.old }
    ensures unpulled { reads_any (quietly (command_of (map string_bytes words.now))) ≡ false → source.new ≡ source.old }
    ensures faults { (S.faults source.old ≤ S.faults source.new) × (K.faults sink.old ≤ K.faults sink.new) }
{
    match command_of(alloc, words) {
        Ok(command) => print(sink, quiet_outcome(alloc, command, source)),
        Err(_) => Status::OutOfMemory,
    }
}

/// The answer to the words, before any of it is printed.
fn outcome_of<R: Threads + Wait + Sync, S: Source, G: Gate + Sync>(
    rt: &R,
    alloc: Global,
    words: &[String],
    source: &mut S,
    gate: &G,
) -> Result<Outcome, OutOfMemory>
    ensures comes { let c = command_of (map string_bytes words.now) in
        IfOk result (λ o. Comes (asked c (S.left source.old) (S.left source.new) (S.faults source.old) (S.faults source.new)) o.status o.text.items) }
    ensures unpulled { reads_any (command_of (map string_bytes words.now)) ≡ false → source.new ≡ source.old }
    ensures later { S.faults source.old ≤ S.faults source.new }
{
    match command_of(alloc, words)? {
        Some(Command::Threads(workers)) => threads_outcome(rt, alloc, workers, source, gate),
        command => quiet_outcome(alloc, command, source),
    }
}

/// The call that the program makes: what `quiet` does, and `threads`, which reads a script as `order` does and runs it by
/// so many threads. They pass the gate before each statement. It waits for the threads, and so owes no return.
pub fn top<R: Threads + Wait + Sync, S: Source, K: Sink, G: Gate + Sync>(
    rt: &R,
    alloc: Global,
    words: &[String],
    source: &mut S,
    sink: &mut K,
    gate: &G,
) -> Status
    ensures headline { (order : orders.Order) → command_of (map string_bytes words.now) ≡ Some (command.Order order)
        → HasHeadline order (S.left source.old) (S.left source.new) (K.held sink.old) (K.held sink.new) result }

    // `threads`, whatever the threads do: the same of a run that some words choose.
    ensures threads { (workers : ℕ) → command_of (map string_bytes words.now) ≡ Some (command.Threads workers)
        → HasSomeHeadline (S.left source.old) (S.left source.new) (K.held sink.old) (K.held sink.new) result }
    ensures prints { let c = command_of (map string_bytes words.now) in
        Prints (asked c (S.left source.old) (S.left source.new) (S.faults source.old) (S.faults source.new)) (K.held sink.old) (K.held sink.new) result }
    ensures write_fault { result ≡ Status.WriteFault → Rose (K.faults sink.old) (K.faults sink.new) }
    ensures unprinted { result ≡ Status.OutOfMemory → sink.new ≡ sink.old }
    ensures unpulled { reads_any (command_of (map string_bytes words.now)) ≡ false → source.new ≡ source.old }
    ensures faults { (S.faults source.old ≤ S.faults source.new) × (K.faults sink.old ≤ K.faults sink.new) }
{
    print(sink, outcome_of(rt, alloc, words, source, gate))
}
