//! Rows by their keys, and into the store.
ghost use Rattle.std.specs.Prelude.{◌≡◌, ◌≤◌, ◌+◌, true, length, option_map};
ghost use Rattle.deneva_base.specs.Rows.{row_of};
ghost use Rattle.deneva_base.specs.Lists.{IsIn};
ghost use Rattle.deneva_base.specs.declared.keys.Key.{Key};
ghost use Rattle.deneva_base.specs.declared.rows.Keyed.{Keyed};
ghost use Rattle.row_store.specs.Stores.{version_at, has};
ghost use Rattle.shelf.specs.Offers.{offered, row_left};

use deneva_base::{Key, Keyed, Number, Row, RowList};
use row_store::Store;

/// The first row of a key.
pub fn find_row(rows: &[Keyed], key: Key) -> Option<&Row>
    ensures { option_map (λ r. r.now) result ≡ row_of rows.now key }
{
    for keyed in rows {
        if keyed.key == key {
            return Some(&keyed.row);
        }
    }
    None
}

/// If there is a number, writes rows whose keys are present, and appends rows, for which there is room.
pub(crate) fn commit_rows(
    store: &mut Store,
    number: Option<Number>,
    writes: RowList,
    appends: RowList,
)
    requires present { (w : Keyed) → IsIn w writes → has store.old w.key ≡ true }
    requires room { length appends ≤ store.old.spare }
    ensures versions { (key : Key) → version_at store.new key ≡ row_left number writes appends key (version_at store.old key) }
    ensures spare { store.old.spare ≤ store.new.spare + length appends }
{
    if let Some(number) = number {
        write_rows(store, number, writes);
        append_rows(store, number, appends);
    }
}

/// Writes rows whose keys are present.
fn write_rows(store: &mut Store, number: Number, rows: RowList)
    requires present { (w : Keyed) → IsIn w rows → has store.old w.key ≡ true }
    ensures versions { (key : Key) → version_at store.new key ≡ offered number rows key (version_at store.old key) }
    ensures spare { store.new.spare ≡ store.old.spare }
{
    for Keyed { key, row } in rows.into_vec() {
        store.put_at(key, number, row);
    }
}

/// Appends rows, for which there is room.
fn append_rows(store: &mut Store, number: Number, rows: RowList)
    requires room { length rows ≤ store.old.spare }
    ensures versions { (key : Key) → version_at store.new key ≡ offered number rows key (version_at store.old key) }
    ensures spare { store.old.spare ≤ store.new.spare + length rows }
{
    for Keyed { key, row } in rows.into_vec() {
        store.append(key, number, row);
    }
}
