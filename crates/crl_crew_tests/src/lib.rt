//! Scripts that workers run over nodes in code: a use of `crl_crew`, and its tests.
#![tactic(auto)]

pub mod playing;
#[cfg(test)]
mod tests;
