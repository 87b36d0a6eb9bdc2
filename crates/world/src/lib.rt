//! Runs of nodes under any order of deliveries: worlds, which hold the nodes of a run with its history and what is in
//! flight after it.
#![tactic(auto)]

mod finishing;
mod flight;
mod opening;
mod picker;
mod settling;
mod threads;
mod world;

pub use server_core::Schedule;
pub use world::{Finished, Stopped, World, run_all};
