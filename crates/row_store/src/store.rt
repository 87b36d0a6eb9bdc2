//! The store of a partition.
ghost use Rattle.std.specs.Prelude.{◌≡◌, ◌≤◌, ◌+◌, true, Some, option_map, is_some, IfOk, OnOk};
ghost use Rattle.std.specs.declared.alloc.Global.{Global};
ghost use Rattle.deneva_base.specs.Rising.{keys_rise};
ghost use Rattle.deneva_base.specs.declared.keys.Key.{Key};
ghost use Rattle.row_store.specs.Stores.{version_at, has, row_in, HaveDistinctKeys};
ghost use Rattle.deneva_base.specs.Rows.{row_of};
ghost use Rattle.row_store.specs.Stores.{Sets, loaded, numbered, with_row, newest};

use crate::versions::Version;
use deneva_base::{Copied, Key, Keyed, NoMemory, Number, Row, RowList};
use std::alloc::Global;
use std::collections::HashMap;
use std::marker::Model;

/// The rows of a partition by their keys, each with its number, and room for so many more keys. It keeps the allocator
/// that it was made with.
#[derive(Debug, Drop)]
pub struct Store {
    alloc: Global,
    versions: HashMap<Key, Version>,
}

impl Model for Store {
    ghost use Rattle.std.specs.FinMap as map;
    ghost use Rattle.std.specs.HashMap as table;
    ghost use Rattle.row_store.specs.Stores.{Seen, seen_code};

    ghost Value = { Seen };

    ghost coded = { seen_code };

    ghost view = { λ s. record { versions = map.from_entries s.versions.entries; spare = table.spare s.versions } };
}

impl Store {
    /// A store of these rows, of which no two have one key. They count as loaded.
    pub fn begin(alloc: Global, rows: RowList) -> Result<Store, NoMemory>
        requires distinct { HaveDistinctKeys rows }
        ensures loaded { IfOk result (λ s. (key : Key) → version_at s key ≡ option_map loaded (row_of rows key)) }
    {
        let mut versions = HashMap::with_capacity(alloc, rows.len())?;
        for Keyed { key, row } in rows.into_vec() {
            versions.insert(key, Version::loaded(row))?;
        }
        Ok(Store { alloc, versions })
    }

    /// The row of a key.
    pub fn get(&self, key: Key) -> Option<&Row>
        ensures row { option_map (λ r. r.now) result ≡ row_in self.now key }
        ensures present { is_some result ≡ has self.now key }
    {
        self.versions.get(&key).map(|version| &version.row)
    }

    /// The row of a key with its number.
    pub fn version(&self, key: Key) -> Option<&Version>
        ensures { option_map (λ v. v.now) result ≡ version_at self.now key }
    {
        self.versions.get(&key)
    }

    /// The allocator that the store was made with. There is only one.
    pub fn allocator(&self) -> Global
        ensures { (alloc : Global) → result ≡ alloc }
    {
        self.alloc
    }

    /// Replaces the row of a key that is present. Its number stays.
    pub fn put(&mut self, key: Key, row: Row)
        requires present { has self.old key ≡ true }
        ensures written { Sets self.old key (option_map (with_row row) (version_at self.old key)) self.new }
        ensures spare { self.new.spare ≡ self.old.spare }
    {
        if let Some(version) = self.versions.get_mut(&key) {
            version.row = row;
        }
    }

    /// Replaces the row of a key that is present and its number, unless the row there has this number or a greater one.
    pub fn put_at(&mut self, key: Key, number: Number, row: Row)
        requires present { has self.old key ≡ true }
        ensures written { Sets self.old key (newest (version_at self.old key) (numbered number row)) self.new }
        ensures spare { self.new.spare ≡ self.old.spare }
    {
        if let Some(version) = self.versions.get_mut(&key) {
            version.offer(number, row);
        }
    }

    /// Makes room for this many more keys. Where there is no memory for it, the room stays as it was or has grown.
    pub fn reserve(&mut self, more: usize) -> Result<(), NoMemory>
        ensures versions { self.new.versions ≡ self.old.versions }
        ensures ok { OnOk result (more ≤ self.new.spare) }
        ensures spare { self.old.spare ≤ self.new.spare }
    {
        Ok(self.versions.reserve(more)?)
    }

    /// Adds a row, for which there is room. Where the key is present, the row of the greater number stays, and at equal
    /// numbers the one that was there.
    pub fn append(&mut self, key: Key, number: Number, row: Row)
        requires room { 1 ≤ self.old.spare }
        ensures written { Sets self.old key (newest (version_at self.old key) (numbered number row)) self.new }
        ensures spare { self.old.spare ≤ self.new.spare + 1 }
    {
        match self.versions.get_mut(&key) {
            Some(version) => version.offer(number, row),
            None => drop(self.versions.insert(key, Version { number, row })),
        }
    }

    /// A copy of the rows, in key order.
    pub fn rows_in_order(&self) -> Result<RowList, NoMemory>
        ensures order { IfOk result (λ rows. keys_rise rows ≡ true) }
        ensures rows { IfOk result (λ rows. (key : Key) → row_of rows key ≡ row_in self.now key) }
    {
        let mut rows = Vec::with_capacity(self.alloc, self.versions.len())?;
        for (key, version) in &self.versions {
            let row = version.row.copied(self.alloc)?;
            rows.push(Keyed { key: *key, row })?;
        }
        rows.sort_by_key(|row| row.key)?;
        Ok(RowList::of(rows))
    }
}
