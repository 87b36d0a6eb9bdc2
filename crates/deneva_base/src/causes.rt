//! Why an attempt is aborted, and the bound that it prepares with.
use crate::keys::Key;
use crate::numbers::Attempt;

/// Why an attempt is aborted. Stamps, ends of windows and floors are numbers below 2^48, partitions count from 0.
#[derive(Clone, Copy, Debug, PartialEq, Eq)]
pub enum Cause {
    /// NO_WAIT: the least other attempt that holds a conflicting lock on the key.
    Held {
        key: Key,
        by: Attempt,
    },
    /// WAIT_DIE: the least older attempt that holds a conflicting lock on the key, and its stamp.
    Younger {
        key: Key,
        by: Attempt,
        age: u64,
    },
    /// TIMESTAMP: the key was written under this number, which is above the stamp of the one that reads.
    Written {
        key: Key,
        stamp: u64,
    },
    /// TIMESTAMP and MVCC: an access of this stamp, which is above that of the one that writes, has read the key (under
    /// MVCC the version that the write would come after).
    ReadLater {
        key: Key,
        stamp: u64,
    },
    /// MAAT, at prepare: the window is empty. Its lower end and the key that gives it, its upper end and the attempt
    /// that gives that.
    EmptyRange {
        lo: u64,
        lo_key: Key,
        hi: u64,
        hi_by: Attempt,
    },
    /// The coordinator: the windows that the participants voted do not meet. The greatest lower end and the least
    /// upper end, each with the least partition that voted it.
    Apart {
        lo: u64,
        lo_part: u8,
        hi: u64,
        hi_part: u8,
    },
    /// MVCC with bounded chains: the stamp is below the floor, which is the number of the last version that is kept for its
    /// age.
    Trimmed {
        key: Key,
        floor: u64,
    },
}

/// A lower bound of an attempt's number, with the key that gave it.
#[derive(Clone, Copy, Debug, PartialEq, Eq)]
pub struct Bound {
    pub n: u64,
    pub key: Key,
}
