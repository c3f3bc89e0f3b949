//! `summary`: the run of the script that a recipe makes, in one line.
ghost use Rattle.std.specs.Prelude.{◌≡◌, IfOk, false};
ghost use Rattle.crl_order.specs.Words.{words_of_seed};
ghost use Rattle.crl_commands.specs.Commands.{IsRecipe};
ghost use Rattle.crl_cli.specs.Outcome.{SaysSummary};
ghost use Rattle.crl_cli.specs.Runs.{IsHistoryOf, made_of, is_section, sections_in};
ghost use Rattle.crl_cli.specs.Texts.{summary_text};

use crate::generate::made_of;
use crate::outcome::Outcome;
use crate::running::run_script;
use crate::status::Status;
use crl_commands::command::Recipe;
use crl_gen::made_scripts_finish;
use crl_model::entry::{Entry, What};
use crl_model::report::Report;
use crl_model::{NodeNo, OutOfMemory};
use crl_order::Order;
use std::alloc::Global;

/// Runs the script that a recipe makes, under the order of its seed, and sums up.
pub(crate) fn summarize(alloc: Global, recipe: Recipe) -> Result<Outcome, OutOfMemory>
    requires { IsRecipe recipe }
    ensures { IfOk result (λ o. SaysSummary recipe o.status o.text.items) }
{
    let report = report_of(alloc, recipe)?;
    line_of(alloc, recipe, &report)
}

/// The report of that run, which is never stuck.
fn report_of(alloc: Global, recipe: Recipe) -> Result<Report, OutOfMemory>
    requires { IsRecipe recipe }
    ensures { IfOk result (λ report. IsHistoryOf (made_of recipe) (words_of_seed recipe.seed) false report) }
{
    made_scripts_finish();
    let script = made_of(alloc, recipe)?;
    let ended = run_script(alloc, &script, Order::seed(recipe.seed))?;
    if ended.stuck {
        unreachable!();
    }
    Ok(ended.report)
}

/// The line that sums up a report.
fn line_of(alloc: Global, recipe: Recipe, report: &Report) -> Result<Outcome, OutOfMemory>
    ensures status { IfOk result (λ o. o.status ≡ Status.Ok) }
    ensures text { IfOk result (λ o. o.text.items ≡ summary_text recipe.nodes recipe.regions (sections_in report.now.entries) report.now.events report.now.messages) }
{
    let sections = sections_in(report.entries.as_slice());
    let text = summary_text(
        alloc,
        recipe.nodes,
        recipe.regions,
        sections,
        report.events,
        report.messages,
    )?;
    Ok(Outcome {
        status: Status::Ok,
        text,
    })
}

/// The line of these numbers.
fn summary_text(
    alloc: Global,
    nodes: NodeNo,
    regions: u16,
    sections: usize,
    events: u64,
    messages: u64,
) -> Result<Vec<u8>, OutOfMemory>
    ensures { IfOk result (λ text. text.items ≡ summary_text nodes regions sections events messages) }
{
    let text = format!(in alloc;
        "nodes {nodes} regions {regions} sections {sections} events {events} messages {messages}\n"
    )?;
    Ok(text.into_bytes())
}

/// The number of sections that were ended.
fn sections_in(entries: &[Entry]) -> usize
    ensures { result ≡ sections_in entries.now }
{
    entries.iter().filter(|entry| is_section(entry)).count()
}

/// The entry ends a section.
fn is_section(entry: &Entry) -> bool
    ensures { result ≡ is_section entry.now }
{
    matches!(entry.what, What::Read { .. } | What::Write { .. })
}
