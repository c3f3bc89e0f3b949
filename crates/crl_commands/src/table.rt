//! The table of the commands.
ghost use Rattle.std.specs.Prelude.{◌≡◌, map, string_bytes, IfOk, IfSome};
ghost use Rattle.clap.specs.Words.{subcommand_rows_of};
ghost use Rattle.crl_commands.specs.Commands.{command_of, command_named, order_of, order_by, first_of, check_of, threads_of, IsSound};
ghost use Rattle.crl_commands.specs.CommandLine.{command_in, named_words};

use crate::command::Command;
use crate::command_line::{any_hyphenated, command_line};
use crate::items::picks_of;
use crate::recipe::{number_of, recipe_of};
use clap::ArgMatches;
use clap::error::ErrorKind;
use crl_model::{NODE_LIMIT, NodeNo, OutOfMemory};
use crl_order::{Order, Picks, Seeded};
use std::alloc::Global;

/// The most threads that run a script.
const WORKER_LIMIT: u64 = 16;

/// The command that the words are, if they are one. What `clap` says of other words is dropped.
///
/// # Errors
///
/// `OutOfMemory`.
pub fn command_of(alloc: Global, words: &[String]) -> Result<Option<Command>, OutOfMemory>
    ensures command { IfOk result (λ r. r ≡ command_of (map string_bytes words.entry.now)) }
    ensures sound { IfOk result (λ r. IfSome r IsSound) }
{
    if any_hyphenated(words) {
        return Ok(None);
    }
    match command_line(alloc)?.try_get_matches_from(words) {
        Ok(matches) => command_in(alloc, &matches),
        Err(error) => match error.kind() {
            ErrorKind::OutOfMemory => Err(OutOfMemory),
            _ => Ok(None),
        },
    }
}

/// The command that was found in the words.
fn command_in(alloc: Global, matches: &ArgMatches<'_>) -> Result<Option<Command>, OutOfMemory>
    ensures command { IfOk result (λ r. r ≡ command_in (named_words (subcommand_rows_of matches.now))) }
    ensures sound { IfOk result (λ r. IfSome r IsSound) }
{
    let Some((name, found)) = matches.subcommand() else {
        return Ok(None);
    };
    match found.get_strs("words") {
        Some(words) => command_named(alloc, name, words),
        None => Ok(None),
    }
}

/// The command of a name and the words behind it.
fn command_named(alloc: Global, name: &str, words: &[&str]) -> Result<Option<Command>, OutOfMemory>
    ensures command { IfOk result (λ r. r ≡ command_named name.now (map (λ w. w.now) words.now)) }
    ensures sound { IfOk result (λ r. IfSome r IsSound) }
{
    match name {
        "order" => order_of(alloc, words),
        "check" => Ok(check_of(words)),
        "gen" => Ok(recipe_of(words).map(Command::Gen)),
        "summary" => Ok(recipe_of(words).map(Command::Summary)),
        "threads" => Ok(threads_of(words)),
        _ => Ok(None),
    }
}

/// The order that the words are.
fn order_of(alloc: Global, words: &[&str]) -> Result<Option<Command>, OutOfMemory>
    ensures command { IfOk result (λ r. r ≡ order_of (map (λ w. w.now) words.now)) }
    ensures sound { IfOk result (λ r. IfSome r IsSound) }
{
    match words {
        [word] => Ok(first_of(word)),
        [word, value] => order_by(alloc, word, value),
        _ => Ok(None),
    }
}

/// The order of one word.
fn first_of(word: &str) -> Option<Command>
    ensures command { result ≡ first_of word.now }
    ensures sound { IfSome result IsSound }
{
    if word == "first" {
        Some(Command::Order(Order::First))
    } else {
        None
    }
}

/// The order of a word and a value.
fn order_by(alloc: Global, word: &str, value: &str) -> Result<Option<Command>, OutOfMemory>
    ensures command { IfOk result (λ r. r ≡ order_by word.now value.now) }
    ensures sound { IfOk result (λ r. IfSome r IsSound) }
{
    match word {
        "picks" => match picks_of(alloc, value)? {
            Some(values) => Ok(Some(Command::Order(Order::Picks(Picks::new(alloc, &values)?)))),
            None => Ok(None),
        },
        "seed" => match number_of(value, 0, u64::MAX) {
            Some(seed) => Ok(Some(Command::Order(Order::Seed(Seeded::new(seed))))),
            None => Ok(None),
        },
        _ => Ok(None),
    }
}

/// The check of so many nodes.
fn check_of(words: &[&str]) -> Option<Command>
    ensures command { result ≡ check_of (map (λ w. w.now) words.now) }
    ensures sound { IfSome result IsSound }
{
    match words {
        [nodes] => {
            let nodes = number_of(nodes, 1, NODE_LIMIT as u64)?;
            Some(Command::Check(nodes as NodeNo))
        }
        _ => None,
    }
}

/// The run by so many threads.
fn threads_of(words: &[&str]) -> Option<Command>
    ensures command { result ≡ threads_of (map (λ w. w.now) words.now) }
    ensures sound { IfSome result IsSound }
{
    match words {
        [workers] => {
            let workers = number_of(workers, 1, WORKER_LIMIT)?;
            Some(Command::Threads(workers as u16))
        }
        _ => None,
    }
}
