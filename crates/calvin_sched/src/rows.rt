//! The rows of a partition as a transaction leaves them.
ghost use Rattle.std.specs.Prelude.{◌≡◌, ◌≤◌, length, option_map, IfOk};
ghost use Rattle.deneva_base.specs.Rows.{row_of};
ghost use Rattle.deneva_base.specs.declared.keys.Key.{Key};
ghost use Rattle.row_store.specs.Stores.{version_at, loaded};
ghost use Rattle.server_core.specs.Roles.{setting_of};
ghost use Rattle.server_core.specs.Setting.{loaded_at};
ghost use Rattle.calvin_sched.specs.Versions.{offered};

use deneva_base::{Keyed, NoMemory, Number, RowList};
use row_store::Store;
use server_core::Role;

/// Puts the rows that a transaction leaves into the store, which has room for them. At each key the row of the greatest
/// number stays.
pub(crate) fn put_rows(store: &mut Store, number: Number, left: RowList)
    requires room { length left ≤ store.old.spare }
    ensures { (key : Key) → version_at store.new key ≡ offered (version_at store.old key) number (row_of left key) }
{
    for Keyed { key, row } in left.into_vec() {
        store.append(key, number, row);
    }
}

/// A store of the rows that are loaded at a node.
pub(crate) fn store_of(role: &Role<'_>) -> Result<Store, NoMemory>
    ensures { IfOk result (λ s. (key : Key) → version_at s key ≡ option_map loaded (loaded_at (setting_of role.now) role.now.part key)) }
{
    Store::begin(role.alloc, role.loaded_rows()?)
}
