//! Reading accounts, entry by entry or whole. What an account is, `crl_account` says; `specs/Reader.antt` says what
//! a reader has read and given.
#![tactic(auto)]

mod fault;
mod field;
mod guess;
mod read;
mod reader;
mod what;
mod words;

pub use fault::AccountFault;
pub use reader::{Reader, read_account};
