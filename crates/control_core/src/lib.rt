//! What a concurrency control of a partition is.
#![tactic(auto)]

mod control;
mod laws;

pub use control::{Chosen, Control, PrepareNoMemory};
pub use deneva_base::{Answer, Vote, Wake, Woken};
pub use laws::last_versions_agree;
