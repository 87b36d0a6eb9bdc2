//! Trials of a node: messages that fit, handed to it one after another, and what it says on them.
#![tactic(auto)]

mod scripts;
mod steps;
#[cfg(test)]
mod tests;
mod works;
