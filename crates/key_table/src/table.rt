//! The table.
ghost use Rattle.std.specs.Prelude.{◌≡◌, ◌≤◌, None, option_map, IfOk, OnOk, OnErr};
ghost use Rattle.std.specs.Borrow.{sem};
ghost use Rattle.key_table.specs.Tables.{at, or_empty, Sets, Same};

use deneva_base::NoMemory;
use std::alloc::Global;
use std::collections::HashMap;
use std::hash::Hash;

/// A type with an empty value.
pub trait Empty: Sized + Drop {
    /// The empty value, as clauses see it.
    ghost empty: { Self };

    /// The empty value. It takes no memory.
    fn empty(alloc: Global) -> Self
        ensures { result ≡ empty };
}

/// `None` is empty.
impl<V: Drop> Empty for Option<V> {
    ghost empty = { None };

    fn empty(_alloc: Global) -> Option<V> {
        None
    }
}

/// A value at each key: the empty one, if none was put there.
#[derive(Drop)]
pub struct Table<K: Eq + Hash, V> {
    alloc: Global,
    values: HashMap<K, V>,
}

impl<K: Eq + Hash + Copy + Drop, V: Empty> Table<K, V> {
    ghost use Rattle.key_table.specs.Lends.{lends_value, lends_slot};

    /// A table with the empty value at each key.
    pub fn new(alloc: Global) -> Table<K, V>
        ensures { (key : K) → at K.eq V.empty result key ≡ V.empty }
    {
        Table {
            alloc,
            values: HashMap::new(alloc),
        }
    }

    /// The value at a key. With `None` it is the empty one.
    pub fn get(&self, key: K) -> Option<&V>
        ensures { or_empty V.empty (option_map (λ v. v.now) result) ≡ at K.eq V.empty self.now key }
    {
        self.values.get(&key)
    }

    /// The value at a key, to write to. With `None` it is the empty one.
    pub fn get_mut(&mut self, key: K) -> Option<&mut V>
        ensures* writes_back { sem 𝓛 (lends_value K.row V.row K.Hash V.empty self.entry key result) }
        ensures value { or_empty V.empty (option_map (λ v. v.now) result) ≡ at K.eq V.empty self.old key }
    {
        self.values.get_mut(&key)
    }

    /// Makes room for a value at the key. No value changes.
    fn hold(&mut self, key: K) -> Result<(), NoMemory>
        ensures { Same K.eq V.empty self.old self.new }
    {
        if !self.values.contains_key(&key) {
            self.values.insert(key, V::empty(self.alloc))?;
        }
        Ok(())
    }

    /// The value at a key, to write to. An empty one takes memory, if none was put there.
    pub fn slot(&mut self, key: K) -> Result<&mut V, NoMemory>
        ensures* writes_back { sem 𝓛 (lends_slot K.row V.row K.Hash V.empty self.entry key result) }
        ensures value { IfOk result (λ v. v.now ≡ at K.eq V.empty self.old key) }
    {
        self.hold(key)?;
        match self.get_mut(key) {
            Some(value) => Ok(value),
            None => Err(NoMemory),
        }
    }

    /// Takes out the value at a key, and leaves the empty one.
    pub fn take(&mut self, key: K) -> V
        ensures value { result ≡ at K.eq V.empty self.old key }
        ensures rest { Sets K.eq V.empty self.old key V.empty self.new }
    {
        match self.values.remove(&key) {
            Some(value) => value,
            None => V::empty(self.alloc),
        }
    }
}
