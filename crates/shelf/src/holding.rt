//! What an attempt has here until it ends.
ghost use Rattle.std.specs.Prelude.{◌≡◌, OnOk, OnErr};
ghost use Rattle.shelf.specs.Held.{nothing, put_key, with_key, with_rows};

use deneva_base::{Key, Keyed, NoMemory, RowList};
use key_table::Empty;
use std::alloc::Global;
use std::marker::Model;

/// What an attempt has at a partition: the stamp of its last access, the keys that it asked for, in key order, and the rows that
/// it voted to commit. `copies` are those that its control takes back when it ends.
#[derive(Drop)]
pub struct Holding {
    stamp: u64,
    keys: Vec<Key>,
    writes: RowList,
    copies: RowList,
    appends: RowList,
}

impl Model for Holding {
    ghost use Rattle.shelf.specs.Seen.{Held};

    ghost Value = { Held };

    ghost view = { λ h. record { stamp = h.stamp; keys = h.keys.items; writes = h.writes; copies = h.copies; appends = h.appends } };
}

impl Empty for Holding {
    ghost empty = { nothing };

    fn empty(alloc: Global) -> Holding {
        Holding {
            stamp: 0,
            keys: Vec::new(alloc),
            writes: RowList::new(alloc),
            copies: RowList::new(alloc),
            appends: RowList::new(alloc),
        }
    }
}

impl Holding {
    /// The stamp of its last access.
    pub fn stamp(&self) -> u64
        ensures { result ≡ self.now.stamp }
    {
        self.stamp
    }

    /// The keys that it asked for, in key order.
    pub fn keys(&self) -> &[Key]
        ensures { result.now ≡ self.now.keys }
    {
        &self.keys
    }

    /// The rows that it voted to write.
    pub fn writes(&self) -> &[Keyed]
        ensures { result.now ≡ self.now.writes }
    {
        self.writes.as_slice()
    }

    /// Its keys, the rows that it writes, their copies, and the rows that it appends.
    pub(crate) fn into_lists(self) -> (Vec<Key>, RowList, RowList, RowList)
        ensures keys { result.0.items ≡ self.keys }
        ensures writes { result.1 ≡ self.writes }
        ensures copies { result.2 ≡ self.copies }
        ensures appends { result.3 ≡ self.appends }
    {
        (self.keys, self.writes, self.copies, self.appends)
    }

    /// Adds a key, asked for with the stamp.
    pub(crate) fn note(&mut self, stamp: u64, key: Key) -> Result<(), NoMemory>
        ensures ok { OnOk result (self.new ≡ with_key stamp key self.old) }
        ensures err { OnErr result (self.new ≡ self.old) }
    {
        put_key(&mut self.keys, key)?;
        self.stamp = stamp;
        Ok(())
    }

    /// Keeps the rows that it voted to commit.
    pub(crate) fn promise(&mut self, writes: RowList, copies: RowList, appends: RowList)
        ensures { self.new ≡ with_rows writes copies appends self.old }
    {
        self.writes = writes;
        self.copies = copies;
        self.appends = appends;
    }
}

/// Puts a key in its place among keys in key order, if it is not there.
fn put_key(keys: &mut Vec<Key>, key: Key) -> Result<(), NoMemory>
    ensures ok { OnOk result (keys.new.items ≡ put_key key keys.old.items) }
    ensures err { OnErr result (keys.new.items ≡ keys.old.items) }
{
    let mut place = 0;
    while place < keys.len() && keys[place] < key {
        place += 1;
    }
    if place == keys.len() || keys[place] != key {
        keys.insert(place, key)?;
    }
    Ok(())
}
