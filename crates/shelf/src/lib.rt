//! What every control of a partition keeps beside its own lines: the rows, and what each attempt has here until it ends.
#![tactic(auto)]

mod holding;
mod laws;
mod shelf;
mod threads;
mod writing;

pub use holding::Holding;
pub use shelf::{Ended, Shelf};
pub use writing::find_row;
