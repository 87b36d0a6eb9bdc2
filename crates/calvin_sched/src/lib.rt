//! The scheduler of a node of Calvin: it takes the batches in the global order, grants locks in that order, and exchanges
//! rows between participants.
#![tactic(auto)]

mod arrivals;
mod batches;
mod freeing;
mod hearing;
mod locks;
mod node;
mod reading;
mod requests;
mod rows;
mod threads;

pub use node::CalvinNode;
