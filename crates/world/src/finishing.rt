//! The rows of all nodes in one list.
ghost use Rattle.std.specs.Prelude.{◌≡◌, true, map, IfOk};
ghost use Rattle.std.specs.List.{IsDistinct};
ghost use Rattle.deneva_base.specs.Keys.{key_eq};
ghost use Rattle.deneva_base.specs.Rising.{keys_rise};
ghost use Rattle.deneva_base.specs.Rows.{row_of};
ghost use Rattle.deneva_base.specs.declared.keys.Key.{Key};
ghost use Rattle.world.specs.Gathered.{Gathered};

use deneva_base::{NoMemory, RowList};
use server_core::Handles;
use std::alloc::Global;

/// The rows of each node, one node after another.
pub fn gather<S: Handles>(alloc: Global, nodes: &[S]) -> Result<RowList, NoMemory>
    ensures { IfOk result (λ rows. Gathered S.role S.stands nodes.now rows) }
{
    let mut all = RowList::new(alloc);
    for node in nodes {
        let rows = node.rows()?;
        all.append(rows)?;
    }
    Ok(all)
}

/// The rows in key order.
pub fn in_key_order(rows: RowList) -> Result<RowList, NoMemory>
    requires distinct { IsDistinct key_eq (map (λ r. r.key) rows) }
    ensures order { IfOk result (λ sorted. keys_rise sorted ≡ true) }
    ensures rows { IfOk result (λ sorted. (key : Key) → row_of sorted key ≡ row_of rows key) }
{
    let mut rows = rows.into_vec();
    rows.sort_by_key(|row| row.key)?;
    Ok(RowList::of(rows))
}
