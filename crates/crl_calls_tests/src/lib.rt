//! Programs of several threads over nodes in code: uses of `crl_calls`, and its tests.
#![tactic(auto)]

pub mod beside;
pub mod callers;
pub mod handing;
pub mod meeting;
#[cfg(test)]
mod tests;
