//! Outcomes: what came of a run, taken from its history, and of a serial execution.
#![tactic(auto)]

mod abort_lines;
mod ballots;
mod decided_lines;
mod ends;
mod groups;
mod lists;
mod ordered;
mod received;
mod runs;
mod serial;
mod serial_laws;
mod stories;
#[cfg(test)]
mod tests;
mod voting;

pub use runs::{outcome_of, undecided};
pub use serial::serial_outcome;
pub use serial_laws::serial_outcomes_are_serial;
