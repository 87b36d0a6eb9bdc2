//! Calvin's global order of transactions: epochs, the batches of each sequencer, and the number of each transaction.
#![tactic(auto)]

mod order;
mod partitions;
mod sequencer;
#[cfg(test)]
mod tests;
mod threads;
mod ticks;

pub use order::{calvin_number, epochs, numbers_of};
pub use partitions::participant_counts;
pub use sequencer::Sequencer;
