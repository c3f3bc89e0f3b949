//! Scripts that are made from a seed.
#![tactic(auto)]

mod finishing;
mod making;
mod rounds;
#[cfg(test)]
mod tests;
mod words;

pub use finishing::made_scripts_finish;
pub use making::make;

/// The size of each region, in bytes.
pub const REGION_SIZE: u32 = 16;

/// The names that a node keeps.
pub const CACHE: u16 = 16;
