//! A script is run by workers.
ghost use Rattle.std.specs.Prelude.{◌<◌, ◌≤◌};

use crl_crew::{Gate, work};
use crl_model::report::Report;
use crl_node::Node;
use crl_script::Script;
use std::alloc::Global;
use std::sync::Wait;
use std::thread::Threads;

/// The report of the script's run by so many workers. None if the run is stuck, or memory is wanting.
pub fn play<G: Gate + Sync, R: Threads + Wait + Sync>(
    rt: &R,
    alloc: Global,
    script: &Script,
    workers: u16,
    gate: &G,
) -> Option<Report>
    requires { (0 < workers) × (workers ≤ 16) }
{
    if !script.fits() {
        return None;
    }
    work::<Node, G, R>(
        rt,
        alloc,
        script.blocks(),
        script.nodes(),
        script.cache(),
        workers,
        gate,
    )
    .ok()
}
