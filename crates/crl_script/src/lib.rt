//! Reads and prints scripts: texts that say what each node calls, in order.
#![tactic(auto)]

pub mod fault;
mod label;
mod line;
mod place;
mod printing;
mod progress;
mod reading;
pub mod script;
mod sentence;
mod word;

pub use crl_model::statement::Statement;
pub use fault::{ScriptFault, ScriptWhy};
pub use printing::{canonical_is_read_again, plain_scripts_are_printable, print_script};
pub use reading::read_script;
pub use script::Script;
pub use word::natural;
