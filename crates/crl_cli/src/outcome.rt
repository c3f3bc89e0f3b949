//! What a command ends with: its status, and the text to be printed with it.
ghost use Rattle.std.specs.Prelude.{◌≡◌, ◌≤◌, ◌+◌, IfOk, IfSome, false, length};
ghost use Rattle.crl_commands.specs.Commands.{IsSound};
ghost use Rattle.crl_cli.specs.Outcome.{Says, Comes, asked, limit_of, does_read, reads_any, quietly, IsQuiet};
ghost use Rattle.crl_cli.specs.Texts.{usage_text, read_fault_text};

use crate::check::check_text;
use crate::generate::generate;
use crate::order::order_text;
use crate::status::Status;
use crate::summary::summarize;
use crate::{ACCOUNT_LIMIT, SCRIPT_LIMIT};
use crl_commands::command::Command;
use crl_model::OutOfMemory;
use crl_outside::source::Source;
use crl_outside::whole::{ReadFault, read_all};
use std::alloc::Global;

/// A status, and the text that is printed with it.
#[derive(Drop)]
pub(crate) struct Outcome {
    pub(crate) status: Status,
    pub(crate) text: Vec<u8>,
}

/// The answer of a call that waits for nobody, before any of it is printed. `threads` is no command of it.
pub(crate) fn quiet_outcome<S: Source>(
    alloc: Global,
    command: Option<Command>,
    source: &mut S,
) -> Result<Outcome, OutOfMemory>
    requires sound { IfSome command IsSound }
    ensures comes { IfOk result (λ o. Comes (asked (quietly command) (S.left source.old) (S.left source.new) (S.faults source.old) (S.faults source.new)) o.status o.text.items) }
    ensures unpulled { reads_any (quietly command) ≡ false → source.new ≡ source.old }
    ensures later { S.faults source.old ≤ S.faults source.new }
{
    let Some(command) = quietly(command) else {
        return usage(alloc);
    };
    if !does_read(&command) {
        return say(alloc, command, &[]);
    }
    match read_all(alloc, source, limit_of(&command) + 1) {
        Ok(bytes) => say(alloc, command, bytes.as_slice()),
        Err(ReadFault::Failed) => read_fault(alloc),
        Err(ReadFault::OutOfMemory) => Err(OutOfMemory),
    }
}

/// The command, but for `threads`.
fn quietly(command: Option<Command>) -> Option<Command>
    requires sound { IfSome command IsSound }
    ensures command { result ≡ quietly command }
    ensures quiet { IfSome result IsQuiet }
    ensures sound { IfSome result IsSound }
{
    match command {
        Some(Command::Threads(_)) => None,
        other => other,
    }
}

/// Whether the command reads a text.
fn does_read(command: &Command) -> bool
    ensures { result ≡ does_read command.now }
{
    match command {
        Command::Order(_) | Command::Check(_) | Command::Threads(_) => true,
        Command::Gen(_) | Command::Summary(_) => false,
    }
}

/// The most bytes of a text that the command reads.
fn limit_of(command: &Command) -> usize
    ensures { result ≡ limit_of command.now }
{
    match command {
        Command::Order(_) | Command::Threads(_) => SCRIPT_LIMIT,
        Command::Check(_) => ACCOUNT_LIMIT,
        Command::Gen(_) | Command::Summary(_) => 0,
    }
}

/// What the command says of the bytes that were read.
fn say(alloc: Global, command: Command, bytes: &[u8]) -> Result<Outcome, OutOfMemory>
    requires within { length bytes.now ≤ limit_of command + 1 }
    requires sound { IsSound command }
    requires quiet { IsQuiet command }
    ensures { IfOk result (λ o. Says command o.status bytes.now o.text.items) }
{
    match command {
        Command::Order(order) => order_text(alloc, bytes, order),
        Command::Check(nodes) => check_text(alloc, bytes, nodes),
        Command::Gen(recipe) => generate(alloc, recipe),
        Command::Summary(recipe) => summarize(alloc, recipe),
        Command::Threads(_) => unreachable!(),
    }
}

/// The answer to words that are no command.
fn usage(alloc: Global) -> Result<Outcome, OutOfMemory>
    ensures status { IfOk result (λ o. o.status ≡ Status.Usage) }
    ensures text { IfOk result (λ o. o.text.items ≡ usage_text) }
{
    Ok(Outcome {
        status: Status::Usage,
        text: Vec::from_slice(alloc, b"usage: crl COMMAND\n")?,
    })
}

/// The answer to a source that failed.
pub(crate) fn read_fault(alloc: Global) -> Result<Outcome, OutOfMemory>
    ensures status { IfOk result (λ o. o.status ≡ Status.ReadFault) }
    ensures text { IfOk result (λ o. o.text.items ≡ read_fault_text) }
{
    Ok(Outcome {
        status: Status::ReadFault,
        text: Vec::from_slice(alloc, b"read fault\n")?,
    })
}
