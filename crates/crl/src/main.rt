//! `crl COMMAND`: the command's words, a script or an account on standard input, and the answer on standard
//! output.
#![tactic(auto)]

use crl_cli::program::run;
use crl_outside::adapters::{ReadSource, WriteSink};
use std::process::ExitCode;

fn main(rt: HostRuntime) -> ExitCode {
    let mut source = ReadSource::new(rt.stdin());
    let mut sink = WriteSink::new(rt.stdout());
    ExitCode::from(run(&rt, &mut source, &mut sink).code())
}
