//! The store that a partition begins with.
ghost use Rattle.std.specs.Prelude.{◌≡◌, IfOk};
ghost use Rattle.row_store.specs.Stores.{row_in};
ghost use Rattle.control_core.specs.Leaving.{IsLoadedStore};
ghost use Rattle.server_core.specs.Roles.{setting_of};
ghost use Rattle.server_core.specs.Setting.{loaded_at};

use deneva_base::NoMemory;
use row_store::Store;
use server_core::Role;

/// A store of the rows that are loaded at a node.
pub(crate) fn store_of(role: &Role<'_>) -> Result<Store, NoMemory>
    ensures loaded { IfOk result IsLoadedStore }
    ensures rows { IfOk result (λ s. row_in s ≡ loaded_at (setting_of role.now) role.now.part) }
{
    Store::begin(role.alloc, role.loaded_rows()?)
}
