//! The plain data that every part of Deneva speaks of: keys, rows, accesses, numbers, configurations, the answers of
//! concurrency controls, and the one list type behind every name that ends in `List`.
#![tactic(auto)]

mod answers;
mod causes;
mod config;
mod items;
mod keys;
mod memory;
mod numbers;
mod partitions;
mod rows;
mod shared;
#[cfg(test)]
mod tests;
mod threads;

pub use answers::{Answer, Vote, Wake};
pub use causes::{Bound, Cause};
pub use config::{Config, Protocol};
pub use items::{Copied, Items, PushNoMemory};
pub use keys::{Access, Key, Mode};
pub use memory::NoMemory;
pub use numbers::{Attempt, Number, TxnId};
pub use partitions::partition_of;
pub use rows::{Cell, Keyed};
pub use shared::Shared;

/// A text of any bytes, or the bytes of a file.
pub type ByteList = Items<u8>;

pub type CellList = Items<Cell>;

pub type CountList = Items<u32>;

/// The cells of a row, in the order of its table's columns. What a row holds stands in memory once, however many reads,
/// messages and versions show it.
pub type Row = Shared<Cell>;

pub type RowList = Items<Keyed>;

pub type AccessList = Items<Access>;

pub type IdList = Items<TxnId>;

pub type Woken = Items<Wake>;
