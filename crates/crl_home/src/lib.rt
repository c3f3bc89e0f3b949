//! The home's side of its regions: which copies there are of a region, who waits for one, and what each
//! event posts. No step takes memory: an ask brings the paper for its grant, and the mailbox has places
//! for all that the tables owe.
#![tactic(auto)]

mod copies;
mod home;
mod homes;
mod rows;
mod rule;
mod serving;
mod steps;
mod waiting;

pub use home::Home;
pub use homes::Homes;
