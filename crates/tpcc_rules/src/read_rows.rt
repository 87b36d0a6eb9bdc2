//! Rows that transactions read, found by their keys.
ghost use Rattle.std.specs.Prelude.{◌≡◌, map, IfOk, option_map};
ghost use Rattle.deneva_base.specs.Rows.{row_at, row_of, row_or_empty};
ghost use Rattle.tpcc_rules.specs.ReadRows.{as_read};

use deneva_base::{Cell, Key, Keyed, NoMemory, Row};
use std::alloc::Global;

/// A row that a transaction reads, where it lies: none where the key is absent.
#[derive(Clone, Copy, Debug)]
pub struct ReadRow<'r> {
    pub key: Key,
    pub row: Option<&'r Row>,
}

/// The row of a key among these.
pub fn row_among<'r>(rows: &'r [Keyed], key: Key) -> Option<&'r Row>
    ensures row { option_map (λ r. r.now) result ≡ row_of rows.now key }
    ensures cells { row_or_empty (option_map (λ r. r.now) result) ≡ row_at rows.now key }
{
    for keyed in rows {
        if keyed.key == key {
            return Some(&keyed.row);
        }
    }
    None
}

/// The rows of a list, where they lie in it.
pub fn rows_lying<'r>(alloc: Global, rows: &'r [Keyed]) -> Result<Vec<ReadRow<'r>>, NoMemory>
    ensures { IfOk result (λ list. map as_read list.items ≡ rows.now) }
{
    let mut list = Vec::new(alloc);
    for keyed in rows {
        list.push(ReadRow {
            key: keyed.key,
            row: Some(&keyed.row),
        })?;
    }
    Ok(list)
}

/// The cells of the row of a key, or none where the key is absent.
pub fn cells_of<'r>(rows: &[ReadRow<'r>], key: Key) -> &'r [Cell]
    ensures { result.now ≡ row_at (map as_read rows.now) key }
{
    for read in rows {
        if read.key == key {
            return match read.row {
                Some(row) => row.as_slice(),
                None => &[],
            };
        }
    }
    &[]
}
