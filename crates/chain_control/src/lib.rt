//! Multiversion ordering by stamps: an access reads the version below its stamp, of the versions of a key that are kept.
#![tactic(auto)]

mod chains;
mod line;
mod lines;
mod links;
mod requests;
mod table;
mod threads;

pub use chains::Chains;
