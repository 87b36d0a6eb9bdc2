//! Cells and rows.
ghost use Rattle.std.specs.Prelude.{◌≡◌, IfOk};

use crate::items::Copied;
use crate::keys::Key;
use crate::memory::NoMemory;
use crate::{ByteList, Row};
use std::alloc::Global;

/// One cell of a row.
#[derive(Debug, Drop, PartialEq, Eq)]
pub enum Cell {
    Num(i64),
    /// Any bytes.
    Text(ByteList),
}

impl Copied for Cell {
    fn copied(&self, alloc: Global) -> Result<Cell, NoMemory> {
        match self {
            Cell::Num(number) => Ok(Cell::Num(*number)),
            Cell::Text(text) => {
                let text = ByteList::from_bytes(alloc, text.as_slice())?;
                Ok(Cell::Text(text))
            }
        }
    }
}

/// A row with its key.
#[derive(Debug, Drop, PartialEq, Eq)]
pub struct Keyed {
    pub key: Key,
    pub row: Row,
}

impl Copied for Keyed {
    fn copied(&self, _alloc: Global) -> Result<Keyed, NoMemory> {
        let row = self.row.share()?;
        Ok(Keyed { key: self.key, row })
    }
}
