//! Transactions, their attempts, and the numbers that order them.
ghost use Rattle.std.specs.Prelude.{◌≡◌, IfOk};

use crate::items::Copied;
use crate::memory::NoMemory;
use std::alloc::Global;

/// A transaction's place in its workload, counted from 1.
#[derive(Clone, Copy, Debug, PartialEq, Eq, PartialOrd, Ord, Hash)]
pub struct TxnId(pub u32);

impl Copied for TxnId {
    fn copied(&self, _alloc: Global) -> Result<TxnId, NoMemory> {
        Ok(*self)
    }
}

/// One try of a transaction. Turns count from 1.
#[derive(Clone, Copy, Debug, PartialEq, Eq, PartialOrd, Ord, Hash)]
pub struct Attempt {
    pub txn: TxnId,
    pub turn: u8,
}

/// Where a transaction stands in the serial order: by `n`, and by its id where two have one `n`. A row that was loaded
/// has n 0 and id 0.
#[derive(Clone, Copy, Debug, PartialEq, Eq, PartialOrd, Ord, Hash)]
pub struct Number {
    pub n: u64,
    pub id: TxnId,
}
