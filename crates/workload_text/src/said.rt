//! What a record of a workload file says.
use deneva_base::Keyed;
use txn_program::{Item, Program};

/// What a record after the head says.
#[derive(Debug, Drop)]
pub enum Said {
    /// A row to be loaded.
    Loads(Keyed),
    /// An item to be loaded.
    Sells(Item),
    /// The next transaction.
    Runs(Program),
    Ends,
}
