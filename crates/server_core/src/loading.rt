//! The rows of a partition.
ghost use Rattle.std.specs.Prelude.{◌≡◌, ◌≤◌, map, IfOk};
ghost use Rattle.std.specs.List.{IsDistinct};
ghost use Rattle.deneva_base.specs.Keys.{key_eq};
ghost use Rattle.deneva_base.specs.Lists.{IsIn};
ghost use Rattle.deneva_base.specs.Rows.{row_of};
ghost use Rattle.deneva_base.specs.declared.keys.Key as keys;
ghost use Rattle.deneva_base.specs.declared.rows.Keyed as keyed;
ghost use Rattle.server_core.specs.Coordinator.{at_part};
ghost use Rattle.server_core.specs.Roles.{setting_of};
ghost use Rattle.server_core.specs.Setting.{loaded_at};

use crate::role::Role;
use deneva_base::{Copied, Keyed, NoMemory, RowList, partition_of};

impl Role<'_> {
    /// Copies of those of the rows that lie at a partition, in their order.
    pub fn rows_at(&self, part: u8, rows: &[Keyed]) -> Result<RowList, NoMemory>
        ensures { IfOk result (λ list. list ≡ at_part self.now.config.parts part rows.now) }
    {
        let mut found = RowList::new(self.alloc);
        for keyed in rows {
            if partition_of(keyed.key, self.config.parts) == part {
                found.push(keyed.copied(self.alloc)?)?;
            }
        }
        Ok(found)
    }

    /// Copies of the rows that are loaded at this node, whatever their tables.
    pub fn loaded_rows(&self) -> Result<RowList, NoMemory>
        ensures rows { IfOk result (λ rows. (key : keys.Key) → row_of rows key ≡ loaded_at (setting_of self.now) self.now.part key) }
        ensures distinct { IfOk result (λ rows. IsDistinct key_eq (map (λ r. r.key) rows)) }
        ensures tables { IfOk result (λ rows. (r : keyed.Keyed) → IsIn r rows → r.key.table ≤ 4) }
    {
        self.rows_at(self.part, self.work.load.rows.as_slice())
    }
}
