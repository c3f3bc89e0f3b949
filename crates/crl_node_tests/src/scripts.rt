//! What the tests share: a script, an order of its steps, and the account that it gives.

use crate::play;
use crl_account::print_report;
use crl_model::OutOfMemory;
use crl_model::report::Report;
use crl_order::Order;
use crl_script::read_script;
use std::alloc::Global;
use std::process::Abort;
use std::test::Fail;

/// A script, the words of its order in runs of equal ones (how many, and which), and its account.
#[derive(Drop)]
pub struct Case {
    /// What happens in it.
    pub what: &'static str,
    pub script: &'static str,
    pub order: &'static [(u32, u32)],
    pub account: &'static str,
}

/// The order of these words.
fn order_of(alloc: Global, runs: &[(u32, u32)]) -> Result<Order, OutOfMemory> {
    let mut words = Vec::new(alloc);
    for (many, word) in runs {
        for _ in 0..*many {
            words.push(*word)?;
        }
    }
    Order::picks(alloc, words.as_slice())
}

/// The report of the script's run under the order.
pub fn report_of(alloc: Global, script: &str, order: Order) -> Option<Report> {
    let text = script.as_bytes();
    if text.len() >= 1_000_000 {
        return None;
    }
    let script = read_script(alloc, text).ok()?;
    play(alloc, &script, order)
}

/// The account of the script's run under the order of these words.
fn account_of(alloc: Global, script: &str, runs: &[(u32, u32)]) -> Result<Vec<u8>, OutOfMemory> {
    match report_of(alloc, script, order_of(alloc, runs)?) {
        Some(report) => print_report(alloc, &report),
        None => Vec::from_slice(alloc, b"no report"),
    }
}

/// Asserts that the case's script gives its account.
pub fn assert_gives(rt: &impl Abort, alloc: Global, case: &Case) -> Result<(), Fail> {
    let account = account_of(alloc, case.script, case.order)?;
    assert_eq!(rt;
        str::from_utf8(account.as_slice())?,
        case.account,
        "{}",
        case.what
    );
    Ok(())
}
