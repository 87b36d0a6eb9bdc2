//! Trials of runs: one that was worked out by hand, entry by entry, and one that is stopped and resumed.
#![tactic(auto)]

#[cfg(test)]
mod by_hand;
mod runs;
#[cfg(test)]
mod tests;
#[cfg(test)]
mod works;

pub use runs::{history_of, resumed_history};
