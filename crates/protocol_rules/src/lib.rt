//! The local history of a partition, the rules of the five voting protocols over it, and the laws of each rule: which
//! windows, waits and wakes every history has whose calls met their conditions and were answered by the rule.
#![tactic(auto)]

mod laws;
mod named;
mod waits_laws;

pub use laws::{
    committed_writes_agree, maat_laws, mvcc_laws, no_wait_laws, protocols_are_served, rules_serve,
    timestamp_laws, wait_die_laws,
};
pub use named::{
    maat_names_its_ends, mvcc_names_the_greatest, no_wait_names_the_least,
    timestamp_names_the_greatest, wait_die_names_the_least, windows_have_their_ends,
};
pub use waits_laws::{mvcc_reads, protocols_wait};
