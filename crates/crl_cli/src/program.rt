//! What the program does with the words that the system gives it.
ghost use Rattle.std.specs.Prelude.{◌≡◌, List, ℕ};
ghost use Rattle.crl_outside.specs.Faults.{Rose};
ghost use Rattle.crl_cli.specs.Answers.{PrintsForWords};

use crate::answer::top;
use crate::status::Status;
use crl_crew::NoGate;
use crl_outside::sink::Sink;
use crl_outside::source::Source;
use std::env::{self, Env};
use std::io::{self, ErrorKind};
use std::sync::Wait;
use std::thread::Threads;

/// Answers the words after the program's name, by `top`. Words of which one isn't text stand in no command.
pub fn run<R: Threads + Wait + Sync + Env + AllocGlobal, S: Source, K: Sink>(
    rt: &R,
    source: &mut S,
    sink: &mut K,
) -> Status
    ensures prints { PrintsForWords (S.left source.old) (S.left source.new) (S.faults source.old) (S.faults source.new) (K.held sink.old) (K.held sink.new) result }
    ensures write_fault { result ≡ Status.WriteFault → Rose (K.faults sink.old) (K.faults sink.new) }
    ensures unprinted { result ≡ Status.OutOfMemory → sink.new ≡ sink.old }
{
    let words = match command_words(rt) {
        Ok(words) => words,
        Err(error) if error.kind() == ErrorKind::OutOfMemory => return Status::OutOfMemory,
        Err(_) => Vec::new(rt.alloc()),
    };
    top(rt, rt.alloc(), words.as_slice(), source, sink, &NoGate)
}

/// The words after the program's name.
fn command_words<R: Env + AllocGlobal>(rt: &R) -> io::Result<Vec<String>> {
    let mut words = Vec::new(rt.alloc());
    for word in env::args(rt)?.skip(1) {
        words.push(word)?;
    }
    Ok(words)
}
