//! Tables of rows by the names of regions, with places that are made beforehand.
#![tactic(auto)]

mod table;

pub use table::Table;
