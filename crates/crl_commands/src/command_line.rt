//! The command line as `clap` is told it: a command's name in full, and then its words by place.
ghost use Rattle.std.specs.Prelude.{◌≡◌, false, IfOk, string_bytes};
ghost use Rattle.std.specs.List.{list_any};
ghost use Rattle.clap.specs.Words.{app_of};
ghost use Rattle.clap.specs.declared.builder.command.Command.TheViews.{out-Command};
ghost use Rattle.crl_commands.specs.Commands.{is_hyphenated};
ghost use Rattle.crl_commands.specs.CommandLine.{command_line, words_behind};

use clap::{Arg, ArgAction, Command};
use crl_model::OutOfMemory;
use std::alloc::Global;

/// The program and its commands. There are no flags, and no command for help.
pub(crate) fn command_line<'a>(alloc: Global) -> Result<Command<'a>, OutOfMemory>
    ensures { IfOk result (λ c. app_of c ≡ command_line) }
{
    Command::new(alloc, "crl")
        .no_binary_name(true)
        .disable_help_flag(true)
        .disable_help_subcommand(true)
        .subcommand_required(true)
        .subcommand(words_behind(alloc, "order")?)?
        .subcommand(words_behind(alloc, "check")?)?
        .subcommand(words_behind(alloc, "gen")?)?
        .subcommand(words_behind(alloc, "summary")?)?
        .subcommand(words_behind(alloc, "threads")?)
}

/// A command of this name, with words behind it.
fn words_behind<'a>(alloc: Global, name: &'a str) -> Result<Command<'a>, OutOfMemory>
    ensures shape { IfOk result (λ c. app_of c ≡ words_behind name.now) }
    ensures local { IfOk result (λ c. (out-Command c).has_globals ≡ false) }
{
    let words = Arg::new(alloc, "words")
        .required(true)
        .action(ArgAction::Append);
    Command::new(alloc, name).arg(words)
}

/// Whether one of the words begins with a hyphen. `clap` would take some such words, as `--` before a value.
pub(crate) fn any_hyphenated(words: &[String]) -> bool
    ensures { result ≡ list_any (λ word. is_hyphenated (string_bytes word)) words.now }
{
    words.iter().any(|word| is_hyphenated(word.as_str()))
}

/// Whether the word begins with a hyphen.
fn is_hyphenated(word: &str) -> bool
    ensures { result ≡ is_hyphenated word.now }
{
    matches!(word.as_bytes(), [b'-', ..])
}
