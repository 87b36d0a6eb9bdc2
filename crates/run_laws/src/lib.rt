//! The law of every run, whatever the protocol: its function does nothing, and its contract is the law.
#![tactic(auto)]

mod every_run;

pub use every_run::runs_are_right;
