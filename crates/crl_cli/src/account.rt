//! What is said of bytes that may be a script, and the account of one that ran.
ghost use Rattle.std.specs.Prelude.{◌≡◌, ◌+◌, ◌≤◌, ℕ, IfOk, MatchResult, length};
ghost use Rattle.crl_script.specs.Program.{Program};
ghost use Rattle.crl_cli.specs.Outcome.{SaysOf, status_of};
ghost use Rattle.crl_cli.specs.Reading.{IsScriptOf, IsUnread, unread_for};
ghost use Rattle.crl_cli.specs.Runs.{IsHistoryOf};
ghost use Rattle.crl_cli.specs.Texts.{bad_script_text, why_word};

use crate::SCRIPT_LIMIT;
use crate::outcome::Outcome;
use crate::running::Ended;
use crate::status::Status;
use crl_account::print_report;
use crl_model::OutOfMemory;
use crl_script::{Script, ScriptFault, ScriptWhy, read_script};
use std::alloc::Global;

/// Why there is no script.
#[derive(Drop)]
pub(crate) enum Unread {
    /// The bytes aren't one, and this is the answer to them.
    Bad(Outcome),
    OutOfMemory,
}

/// The script that these bytes are.
pub(crate) fn script_of(alloc: Global, bytes: &[u8]) -> Result<Script, Unread>
    requires { length bytes.now ≤ SCRIPT_LIMIT + 1 }
    ensures { MatchResult result (IsScriptOf bytes.now) (IsUnread bytes.now) }
{
    if bytes.len() > SCRIPT_LIMIT {
        return Err(unread_for(bad_script(alloc, 0, "TooLong")));
    }
    match read_script(alloc, bytes) {
        Ok(script) => Ok(script),
        Err(ScriptFault::Bad { line, why }) => {
            Err(unread_for(bad_script(alloc, line, why_of(why))))
        }
        Err(ScriptFault::OutOfMemory) => Err(Unread::OutOfMemory),
    }
}

/// No script, for this answer.
fn unread_for(answer: Result<Outcome, OutOfMemory>) -> Unread
    ensures { result ≡ unread_for answer }
{
    match answer {
        Ok(outcome) => Unread::Bad(outcome),
        Err(_) => Unread::OutOfMemory,
    }
}

/// The account of a run that ended.
pub(crate) fn account_of(alloc: Global, ended: &Ended) -> Result<Outcome, OutOfMemory>
    ensures { (program : Program) (words : ℕ → ℕ) → IsHistoryOf program words ended.now.stuck ended.now.report
        → IfOk result (λ o. SaysOf words o.status program o.text.items) }
{
    let text = print_report(alloc, &ended.report)?;
    Ok(Outcome {
        status: status_of(ended.stuck),
        text,
    })
}

/// The status of a run that is stuck, or isn't.
fn status_of(stuck: bool) -> Status
    ensures { result ≡ status_of stuck }
{
    if stuck { Status::Stuck } else { Status::Ok }
}

/// The answer to bytes that aren't a script: the line, from 1 or 0 for the whole, and what is wrong.
fn bad_script(alloc: Global, line: u64, why: &str) -> Result<Outcome, OutOfMemory>
    ensures status { IfOk result (λ o. o.status ≡ Status.BadScript) }
    ensures text { IfOk result (λ o. o.text.items ≡ bad_script_text line why.now) }
{
    let text = format!(in alloc; "bad script {line} {why}\n")?;
    Ok(Outcome {
        status: Status::BadScript,
        text: text.into_bytes(),
    })
}

/// The word for what is wrong with a script.
fn why_of(why: ScriptWhy) -> &'static str
    ensures { result.now ≡ why_word why }
{
    match why {
        ScriptWhy::NoNodes => "NoNodes",
        ScriptWhy::BadNodes => "BadNodes",
        ScriptWhy::BadWord => "BadWord",
        ScriptWhy::BadNumber => "BadNumber",
        ScriptWhy::BadHex => "BadHex",
        ScriptWhy::UnknownLabel => "UnknownLabel",
        ScriptWhy::TwiceLabel => "TwiceLabel",
        ScriptWhy::BadSize => "BadSize",
        ScriptWhy::BadNode => "BadNode",
        ScriptWhy::TwiceNode => "TwiceNode",
        ScriptWhy::LineTooLong => "LineTooLong",
    }
}
