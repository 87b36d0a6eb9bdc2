//! Rows with their numbers.
ghost use Rattle.std.specs.Prelude.{◌≡◌};
ghost use Rattle.row_store.specs.Stores.{loaded, newer, numbered};

use deneva_base::{Number, Row, TxnId};

/// A row, and the number of the transaction that wrote it: (0, 0) for a row that was loaded.
#[derive(Debug, Drop)]
pub struct Version {
    pub number: Number,
    pub row: Row,
}

impl Version {
    /// A row as it is loaded.
    pub(crate) fn loaded(row: Row) -> Version
        ensures { result ≡ loaded row }
    {
        let number = Number { n: 0, id: TxnId(0) };
        Version { number, row }
    }

    /// Takes a row in the place of the one that is here, if its number is greater.
    pub(crate) fn offer(&mut self, number: Number, row: Row)
        ensures { self.new ≡ newer self.old (numbered number row) }
    {
        if self.number < number {
            *self = Version { number, row };
        }
    }
}
