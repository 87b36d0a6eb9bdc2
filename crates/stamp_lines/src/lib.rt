//! The rows of a partition, and the accesses of its attempts that have not ended, by key, for protocols that order attempts by
//! their stamps. What is granted, and whom the end of an attempt wakes, is for a control to say.
#![tactic(auto)]

mod accesses;
mod lines;
mod requests;
mod threads;

pub use accesses::Accesses;
pub use lines::Waiter;
pub use requests::Request;
