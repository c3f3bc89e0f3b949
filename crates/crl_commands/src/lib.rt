//! The commands, as their words say.
#![tactic(auto)]

pub mod command;
mod command_line;
mod items;
mod recipe;
mod table;
#[cfg(test)]
mod tests;

pub use table::command_of;
