//! Timestamp ordering: an access that comes too late for its stamp is refused, and one that reads waits for the undecided
//! writers of smaller stamps.
#![tactic(auto)]

mod fronts;
mod pasts;
mod stamps;
mod table;
mod threads;

pub use stamps::Stamps;
