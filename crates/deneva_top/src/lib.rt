//! The top calls of Deneva.
#![tactic(auto)]

mod calls;
mod fault_text;
mod options;
pub mod serial_model;
mod values;
mod words;

pub use calls::{Ended, deneva};
pub use replay::Ran;
pub use workload_text::{
    FaultKind, InputFault, ReadError, files_are_valid, parse_workload, read_bytes, read_workload,
    steps_are_all_read, valid_workloads_have_files,
};

#[cfg(test)]
mod tests;
