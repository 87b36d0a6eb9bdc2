//! Runs of a whole workload under a protocol and an order of deliveries, and what came of them.
#![tactic(auto)]

mod runs;
mod threads;

pub use runs::{Ran, replay};
