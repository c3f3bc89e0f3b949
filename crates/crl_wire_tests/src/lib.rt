//! Tests of frames and of pieces.
//!
//! What they expect was worked out by hand, from the table of frames.
#![tactic(auto)]

#[cfg(test)]
mod frames;
#[cfg(test)]
mod pieces;
