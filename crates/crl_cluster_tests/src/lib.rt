//! Nodes in code behind turns: a use of `crl_cluster`, and its tests.
#![tactic(auto)]

pub mod making;
#[cfg(test)]
mod tests;
