//! Transactions as functions: what each accesses, what it makes of the rows that it reads, and where it lives.
#![tactic(auto)]

mod accesses;
mod effects;
mod laws;
mod partitions;
mod programs;
mod serial;
#[cfg(test)]
mod tests;
mod threads;
#[cfg(test)]
mod tpcc_tests;
mod tpcc_validity;
mod validity;

pub use accesses::{accesses_of, home, ycsb_key_of};
use deneva_base::Items;
pub use effects::{effect_of, effect_within};
pub use laws::{
    accesses_are_lawful, effects_are_lawful, ids_are_lawful, loads_are_lawful,
    participants_are_lawful,
};
pub use partitions::{Partition, partitions_of};
pub use programs::{Load, Program, WorkKind, Workload, YcsbAct, YcsbPut, YcsbStep};
pub use serial::{SerialRun, SerialTxn};
pub use tpcc_rules::{
    Effect, Item, ItemList, Line, LineList, NewOrder, Payment, ReadRow, Reason, Verdict, row_among,
};
pub use validity::valid;

/// The steps of a YCSB transaction.
pub type StepList = Items<YcsbStep>;
/// The transactions of a workload, in the order of their ids.
pub type ProgramList = Items<Program>;
/// What each transaction of a serial run did, in the order of execution.
pub type SerialList = Items<SerialTxn>;
