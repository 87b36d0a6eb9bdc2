//! A node of a voting protocol: the coordinator of its home transactions, and the concurrency control of its partition.
#![tactic(auto)]

mod loading;
mod node;
mod participant;
mod telling;
mod threads;

pub use node::Node;
