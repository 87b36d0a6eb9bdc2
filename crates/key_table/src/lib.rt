//! A table that has a value at every key: the empty one, if none was put there.
#![tactic(auto)]

mod laws;
mod table;
mod threads;

pub use table::{Empty, Table};
