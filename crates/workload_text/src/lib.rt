//! Workload files: the text of a workload, read to its `end` or refused by its first fault.
#![tactic(auto)]

mod cells;
mod faults;
mod fields;
mod heads;
mod laws;
mod lines;
mod loaded;
mod numbers;
mod ordered_rows;
mod orders;
mod originals;
mod payments;
mod reader;
mod reading;
mod said;
mod sources;
mod steps;
mod tables;
#[cfg(test)]
mod tests;
mod texts;
mod tpcc_records;
mod ycsb_records;

pub use faults::{FaultKind, InputFault, ReadError};
pub use laws::{
    files_are_read_back, files_are_valid, prefixes_are_files, steps_are_all_read,
    valid_workloads_have_files,
};
pub use lines::{parse_prefix, parse_workload};
pub use numbers::{integer_within, long_number_within, number_within};
pub use ordered_rows::rows_in_order;
pub use sources::{read_bytes, read_workload};
