//! The texts of outcomes: the report, which has every decided transaction, give-up, abort and row, and the brief line,
//! which counts them.
#![tactic(auto)]

mod aborts;
mod decided;
mod fields;
mod rows;
#[cfg(test)]
mod tests;
mod texts;

pub use fields::Line;
pub use server_core::{AbortLine, Decided, Giveup, Outcome, RunKind};
pub use texts::{write_brief, write_line, write_report};
