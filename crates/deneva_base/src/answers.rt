//! What a concurrency control answers.
ghost use Rattle.std.specs.Prelude.{◌≡◌, IfOk};

use crate::Row;
use crate::causes::Cause;
use crate::items::Copied;
use crate::keys::Key;
use crate::memory::NoMemory;
use crate::numbers::{Attempt, Number};
use std::alloc::Global;

/// The answer to an attempt that asks for an access.
#[derive(Debug, Drop, PartialEq, Eq)]
pub enum Answer {
    /// The access is granted: the row that it reads with the number of its version (no cells and number 0 for a `Put`),
    /// and a lower bound of the attempt's number, which is 0 but for MAAT.
    Granted {
        row: Row,
        version: Number,
        bound: u64,
    },
    /// The access waits. A later call wakes it.
    Waits,
    /// The attempt has to abort.
    Refused(Cause),
}

/// The vote of a partition on an attempt that prepares.
#[derive(Clone, Copy, Debug, PartialEq, Eq)]
pub enum Vote {
    /// The attempt may commit with any number from `lo` to `hi`.
    Yes { lo: u64, hi: u64 },
    No(Cause),
}

/// A waiting access that the end of another attempt granted.
#[derive(Debug, Drop, PartialEq, Eq)]
pub struct Wake {
    pub who: Attempt,
    pub key: Key,
    pub row: Row,
    pub version: Number,
    pub bound: u64,
}

impl Copied for Wake {
    fn copied(&self, _alloc: Global) -> Result<Wake, NoMemory> {
        let row = self.row.share()?;
        Ok(Wake {
            who: self.who,
            key: self.key,
            row,
            version: self.version,
            bound: self.bound,
        })
    }
}
