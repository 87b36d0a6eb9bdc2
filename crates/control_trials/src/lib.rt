//! Trials of controls: calls drawn at random, on which each control has to agree with a plain body that reads its rule off a
//! list of all calls before.
#![tactic(auto)]

mod draws;
mod log;
mod plain;
mod steps;
mod stores;
#[cfg(test)]
mod tests;
mod trials;
