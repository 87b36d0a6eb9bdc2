//! The coordinator of a node under the voting protocols.
#![tactic(auto)]

mod attempts;
mod ballots;
mod coord;
mod counters;
mod open;
mod replies;
mod saying;
#[cfg(test)]
mod tests;
#[cfg(test)]
mod tests_leaves;
mod threads;

pub use coord::Coord;
