//! The rows of a partition in memory: one row for each key, with the number of the transaction that wrote it.
#![tactic(auto)]

mod store;
#[cfg(test)]
mod tests;
mod threads;
mod versions;

pub use store::Store;
pub use versions::Version;
