//! Optimistic ranges: every access is granted at once, and a vote is a window of numbers with which the attempt may commit.
#![tactic(auto)]

mod accesses;
mod ends;
mod lines;
mod ranges;
mod table;
mod threads;

pub use ranges::Ranges;
