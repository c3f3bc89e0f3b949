//! `crl_calls_bench WORK THREADS SECTIONS`: so many sections by so many threads, through the calls of a program.
#![tactic(auto)]

mod failed;
mod numbers;
mod parts;
mod plan;
mod sections;
mod threads;

use crate::failed::Failed;
use crate::plan::{Work, plan_of};
use crate::threads::done_by_all;
use std::env::{self, Env};
use std::io;
use std::process::ExitCode;
use std::sync::Wait;
use std::thread::Threads;

const USAGE: &str = "usage: crl_calls_bench own|own64k|counter|reads THREADS SECTIONS";

/// What the program prints, and its exit status.
#[derive(Clone, Copy, Debug, PartialEq, Eq)]
enum Outcome {
    Done { work: Work, sum: u64 },
    Usage,
    Failed,
}

/// The words after the program's name.
fn command_words<R: Env + AllocGlobal>(rt: &R) -> Result<Vec<String>, Failed> {
    let mut words = Vec::new(rt.alloc());
    for word in env::args(rt)?.skip(1) {
        words.push(word)?;
    }
    Ok(words)
}

/// Does what the words say.
fn outcome_of<R: Threads + Wait + Sync + Env + AllocGlobal>(rt: &R) -> Result<Outcome, Failed> {
    let words = command_words(rt)?;
    let Some(plan) = plan_of(words.as_slice()) else {
        return Ok(Outcome::Usage);
    };
    Ok(Outcome::Done {
        work: plan.work,
        sum: done_by_all(rt, rt.alloc(), plan)?,
    })
}

/// Prints the outcome, and gives the exit status.
fn printed<R: Print + Alloc>(rt: &R, outcome: Outcome) -> io::Result<u8> {
    match outcome {
        Outcome::Done { work, sum } => {
            println!(rt; "{} {sum}", work.word())?;
            Ok(0)
        }
        Outcome::Failed => {
            println!(rt; "failed")?;
            Ok(1)
        }
        Outcome::Usage => {
            println!(rt; "{USAGE}")?;
            Ok(2)
        }
    }
}

fn main(rt: HostRuntime) -> ExitCode {
    let outcome = outcome_of(&rt).unwrap_or(Outcome::Failed);
    ExitCode::from(printed(&rt, outcome).unwrap_or(1))
}
