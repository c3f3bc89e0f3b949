//! The guards that nodes are given.

pub use crl_guard::{Reading, Writing};
