//! How many choices a turn has.

/// The numbers of choices in the first of the three rows, in the first two, and in all three.
#[derive(Clone, Copy)]
pub struct Counts {
    pub nexts: u128,
    pub with_inboxes: u128,
    pub all: u128,
}
