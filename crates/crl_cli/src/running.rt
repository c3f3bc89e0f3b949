//! The run of a script, under an order or by threads.
ghost use Rattle.std.specs.Prelude.{◌≡◌, ◌≤◌, IfOk};
ghost use Rattle.crl_order.specs.Words.{words_to_come};
ghost use Rattle.crl_cli.specs.Reading.{IsEndOf};
ghost use Rattle.crl_cli.specs.Runs.{IsHistoryOf, IsSomeHistoryOf};

use crl_crew::{Gate, work};
use crl_headline::reports_are_histories;
use crl_model::OutOfMemory;
use crl_model::report::Report;
use crl_node::Node;
use crl_order::Order;
use crl_run::{RunFault, run};
use crl_script::Script;
use std::alloc::Global;
use std::sync::Wait;
use std::thread::Threads;

/// A run that ended: whether it is stuck, and its report.
#[derive(Drop)]
pub(crate) struct Ended {
    pub(crate) stuck: bool,
    pub(crate) report: Report,
}

/// Runs a script under an order, to its end. More statements than a run may have are more than memory has room for.
pub(crate) fn run_script(alloc: Global, script: &Script, order: Order) -> Result<Ended, OutOfMemory>
    ensures { IfOk result (λ e. IsHistoryOf script.now (words_to_come order) e.stuck e.report) }
{
    reports_are_histories();
    if !script.fits() {
        return Err(OutOfMemory);
    }
    ended_of(run::<Node>(
        alloc,
        script.blocks(),
        script.nodes(),
        script.cache(),
        order,
    ))
}

/// Runs a script by so many threads, to its end. What they choose among the steps is nobody's order.
pub(crate) fn run_threads<R: Threads + Wait + Sync, G: Gate + Sync>(
    rt: &R,
    alloc: Global,
    script: &Script,
    workers: u16,
    gate: &G,
) -> Result<Ended, OutOfMemory>
    requires { (1 ≤ workers) × (workers ≤ 16) }
    ensures { IfOk result (λ e. IsSomeHistoryOf script.now e.stuck e.report) }
{
    reports_are_histories();
    if !script.fits() {
        return Err(OutOfMemory);
    }
    ended_of(work::<Node, G, R>(
        rt,
        alloc,
        script.blocks(),
        script.nodes(),
        script.cache(),
        workers,
        gate,
    ))
}

/// The end of a run that returned this.
fn ended_of(returned: Result<Report, RunFault>) -> Result<Ended, OutOfMemory>
    ensures { IfOk result (IsEndOf returned) }
{
    match returned {
        Ok(report) => Ok(Ended {
            stuck: false,
            report,
        }),
        Err(RunFault::Stuck(report)) => Ok(Ended {
            stuck: true,
            report,
        }),
        Err(RunFault::OutOfMemory) => Err(OutOfMemory),
    }
}
