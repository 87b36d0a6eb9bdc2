//! Columns: which cells a row can have.
ghost use Rattle.std.specs.Prelude.{◌≡◌};
ghost use Rattle.tpcc_rules.specs.Columns as specs;

use deneva_base::Cell;

/// What a column holds.
#[derive(Clone, Copy, Debug, PartialEq, Eq)]
pub enum Column {
    /// A number from `low` to `high`.
    Between { low: i64, high: i64 },
    /// A text of at most so many bytes.
    UpTo { most: usize },
    /// The credit of a customer: `GC`, good, or `BC`, bad.
    Credit,
    /// Any number of 64 bits.
    AnyNumber,
    /// Any text.
    AnyText,
}

impl Column {
    /// Whether a cell has what the column holds.
    pub fn fits(self, cell: &Cell) -> bool
        ensures { result ≡ specs.fits self cell.now }
    {
        match (self, cell) {
            (Column::Between { low, high }, Cell::Num(number)) => low <= *number && *number <= high,
            (Column::UpTo { most }, Cell::Text(text)) => text.len() <= most,
            (Column::Credit, Cell::Text(text)) => is_credit(text.as_slice()),
            (Column::AnyNumber, Cell::Num(_)) | (Column::AnyText, Cell::Text(_)) => true,
            _ => false,
        }
    }
}

fn is_credit(text: &[u8]) -> bool
    ensures { result ≡ specs.is_credit text.now }
{
    text == b"GC".as_slice() || text == b"BC".as_slice()
}

/// Whether a row has a cell for each column, in their order, that fits it.
pub fn fits_all(columns: &[Column], row: &[Cell]) -> bool
    ensures { result ≡ specs.fits_all columns.now row.now }
{
    let [column, columns @ ..] = columns else {
        return row.is_empty();
    };
    match row {
        [cell, row @ ..] => column.fits(cell) && fits_all(columns, row),
        [] => false,
    }
}
