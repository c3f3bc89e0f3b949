//! The program's commands: words in, a script or an account from a source, and the answer to a sink.
#![tactic(auto)]

mod account;
pub mod answer;
mod check;
mod generate;
mod order;
mod outcome;
mod printing;
pub mod program;
mod running;
pub mod status;
mod summary;
mod threads;

/// The most bytes that a script may have.
pub const SCRIPT_LIMIT: usize = 16_777_216;

/// The most bytes that an account may have.
pub const ACCOUNT_LIMIT: usize = 268_435_456;
