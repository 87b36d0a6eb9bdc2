//! Laws of every run of a voting protocol. Each function does nothing, and its contract is the laws.
#![tactic(auto)]

mod laws;
mod voting_runs;

pub use laws::{
    aborts_are_named, commits_are_atomic, deliveries_are_runs, mails_fit, quiet_means_decided,
    quiet_runs_are_serial, runs_are_bounded, runs_keep_account, stamps_tell,
};
pub use voting_runs::{voting_runs_are_right, voting_runs_keep_account};
