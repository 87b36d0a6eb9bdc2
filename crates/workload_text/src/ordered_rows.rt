//! Rows out of an ordered map.
ghost use Rattle.std.specs.Prelude.{◌≡◌, IfOk};
ghost use Rattle.deneva_base.specs.Rows.{rows_in};

use deneva_base::{Key, Keyed, NoMemory, Row, RowList};
use std::alloc::Global;
use std::collections::BTreeMap;

/// The rows of a map in key order.
pub fn rows_in_order(alloc: Global, rows: BTreeMap<Key, Row>) -> Result<RowList, NoMemory>
    ensures { IfOk result (λ list. list ≡ rows_in rows.entries) }
{
    let mut list = RowList::with_capacity(alloc, rows.len())?;
    for (key, row) in rows {
        list.push(Keyed { key, row })?;
    }
    Ok(list)
}
