//! Keys, and the accesses that a transaction makes of them.
ghost use Rattle.std.specs.Prelude.{◌≡◌, IfOk, IsTrue, ◌↔◌};
ghost use Rattle.deneva_base.specs.Modes.{reads, writes};

use crate::items::Copied;
use crate::memory::NoMemory;
use std::alloc::Global;

/// The key of a row: the number of its table, and three numbers whose meaning is the table's. Keys are ordered by their
/// fields in this order. Table 0 is the YCSB table, whose rows have their number in `a`, and 0 in `b` and `c`.
#[derive(Clone, Copy, Debug, PartialEq, Eq, PartialOrd, Ord, Hash)]
pub struct Key {
    pub table: u8,
    pub a: u32,
    pub b: u32,
    pub c: u32,
}

/// What an access does with its row.
#[derive(Clone, Copy, Debug, PartialEq, Eq)]
pub enum Mode {
    /// Reads the row.
    Read,
    /// Reads the row and writes one made of it.
    Update,
    /// Writes a row that depends on no row read (a blind write).
    Put,
}

impl Mode {
    /// Whether the access reads its row: unless it is a `Put`.
    pub fn is_reading(self) -> bool
        ensures { result ≡ reads self }
    {
        match self {
            Mode::Read | Mode::Update => true,
            Mode::Put => false,
        }
    }

    /// Whether the access writes its row: unless it is a `Read`.
    pub fn is_writing(self) -> bool
        ensures { result ≡ writes self }
    {
        match self {
            Mode::Update | Mode::Put => true,
            Mode::Read => false,
        }
    }
}

#[derive(Clone, Copy, Debug, PartialEq, Eq)]
pub struct Access {
    pub key: Key,
    pub mode: Mode,
}

impl Copied for Access {
    fn copied(&self, _alloc: Global) -> Result<Access, NoMemory> {
        Ok(*self)
    }
}
