//! The text of accounts: what nodes did, one line an entry. `specs/Text.antt` says what is written, and
//! `specs/Account.antt` what an account is: the lines that would be written, and nothing else.
#![tactic(auto)]

mod entry;
mod fit;
mod line;
mod piece;
mod report;
mod sound;
mod words;
mod write;

pub use line::{Line, Stage, is_line, stage_of};
pub use report::print_report;
pub use sound::is_printable;
pub use words::{call_word, refusal_word};
pub use write::{
    write_account, write_counts, write_entry, write_region, write_stuck_round, write_stuck_section,
};
