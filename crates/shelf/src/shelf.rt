//! The shelf.
ghost use Rattle.std.specs.Prelude.{◌≡◌, ◌≤◌, [], ◌<◌, true, length, option_map, IfOk, OnOk, OnErr, IfErr};
ghost use Rattle.deneva_base.specs.Lists.{IsIn};
ghost use Rattle.deneva_base.specs.Rising.{keys_rise};
ghost use Rattle.deneva_base.specs.Rows.{row_of};
ghost use Rattle.deneva_base.specs.declared.keys.Key.{Key};
ghost use Rattle.deneva_base.specs.declared.rows.Keyed.{Keyed};
ghost use Rattle.row_store.specs.Stores.{version_at, has, row_in};
ghost use Rattle.shelf.specs.Shelves.{held, read_in, IsFresh, IsSame, Notes, Promises, MayReserve, Ends};

use crate::holding::Holding;
use crate::writing::commit_rows;
use control_core::PrepareNoMemory;
use deneva_base::{Attempt, Key, Keyed, Mode, NoMemory, Number, Row, RowList, TxnId};
use key_table::Table;
use row_store::{Store, Version};
use std::alloc::Global;

/// What is left of an attempt that ended.
#[derive(Drop)]
pub struct Ended {
    /// The keys that it asked for, in key order.
    pub keys: Vec<Key>,
    /// The copies of the rows that it voted to write.
    pub copies: RowList,
}

/// The rows of a partition, what each attempt has there, and the number of promised rows: those to append, for which there is
/// room in the store.
#[derive(Drop)]
pub struct Shelf {
    store: Store,
    holdings: Table<Attempt, Holding>,
    promised: usize,
}

impl Shelf {
    /// A shelf over a store.
    pub fn new(store: Store) -> Shelf
        ensures { IsFresh store result }
    {
        let alloc = store.allocator();
        Shelf {
            store,
            holdings: Table::new(alloc),
            promised: 0,
        }
    }

    /// The allocator of the store. There is only one.
    pub fn allocator(&self) -> Global
        ensures { (alloc : Global) → result ≡ alloc }
    {
        self.store.allocator()
    }

    /// The row of a key with its number.
    pub fn version(&self, key: Key) -> Option<&Version>
        ensures { option_map (λ v. v.now) result ≡ version_at self.now.store key }
    {
        self.store.version(key)
    }

    /// What an access is granted: the row of its key with its number, or no cells for a Put.
    pub fn read(&self, key: Key, mode: Mode) -> Result<(Row, Number), NoMemory>
        ensures { IfOk result (λ r. r ≡ read_in mode (version_at self.now.store key)) }
    {
        match self.store.version(key) {
            Some(version) if mode.is_reading() => Ok((version.row.share()?, version.number)),
            _ => {
                let number = Number { n: 0, id: TxnId(0) };
                Ok((Row::empty(self.store.allocator())?, number))
            }
        }
    }

    /// The stamp of an attempt's last access, or 0.
    pub fn stamp(&self, who: Attempt) -> u64
        ensures { result ≡ (held self.now who).stamp }
    {
        match self.holdings.get(who) {
            Some(holding) => holding.stamp(),
            None => 0,
        }
    }

    /// The keys that an attempt asked for, in key order.
    pub fn keys(&self, who: Attempt) -> &[Key]
        ensures { result.now ≡ (held self.now who).keys }
    {
        match self.holdings.get(who) {
            Some(holding) => holding.keys(),
            None => &[],
        }
    }

    /// The rows that an attempt voted to write.
    pub fn writes(&self, who: Attempt) -> &[Keyed]
        ensures { result.now ≡ (held self.now who).writes }
    {
        match self.holdings.get(who) {
            Some(holding) => holding.writes(),
            None => &[],
        }
    }

    /// Notes that the attempt asks for the key with the stamp.
    pub fn note(&mut self, who: Attempt, stamp: u64, key: Key) -> Result<(), NoMemory>
        ensures ok { OnOk result (Notes who stamp key self.old self.new) }
        ensures err { OnErr result (IsSame self.old self.new) }
    {
        let holding = self.holdings.slot(who)?;
        holding.note(stamp, key)
    }

    /// Keeps the rows that the attempt voted to commit, with room for those that it appends. If there is no memory for that,
    /// they are handed back.
    pub fn promise(
        &mut self,
        who: Attempt,
        writes: RowList,
        appends: RowList,
    ) -> Result<(), PrepareNoMemory>
        ensures ok { OnOk result (Promises who writes [] appends self.old self.new) }
        ensures err { OnErr result (MayReserve self.old self.new) }
        ensures returned { IfErr result (λ e. (e.writes ≡ writes) × (e.appends ≡ appends)) }
    {
        let copies = RowList::new(self.store.allocator());
        self.keep(who, writes, copies, appends)
    }

    /// Does as `promise`, and keeps a second copy of the written rows, which `end` hands out.
    pub fn promise_copied(
        &mut self,
        who: Attempt,
        writes: RowList,
        appends: RowList,
    ) -> Result<(), PrepareNoMemory>
        ensures ok { OnOk result (Promises who writes writes appends self.old self.new) }
        ensures err { OnErr result (MayReserve self.old self.new) }
        ensures returned { IfErr result (λ e. (e.writes ≡ writes) × (e.appends ≡ appends)) }
    {
        let Ok(copies) = writes.copy(self.store.allocator()) else {
            return Err(PrepareNoMemory { writes, appends });
        };
        self.keep(who, writes, copies, appends)
    }

    fn keep(
        &mut self,
        who: Attempt,
        writes: RowList,
        copies: RowList,
        appends: RowList,
    ) -> Result<(), PrepareNoMemory>
        ensures ok { OnOk result (Promises who writes copies appends self.old self.new) }
        ensures err { OnErr result (MayReserve self.old self.new) }
        ensures returned { IfErr result (λ e. (e.writes ≡ writes) × (e.appends ≡ appends)) }
    {
        let Some(promised) = self.promised.checked_add(appends.len()) else {
            return Err(PrepareNoMemory { writes, appends });
        };
        if self.store.reserve(promised).is_err() {
            return Err(PrepareNoMemory { writes, appends });
        }
        match self.holdings.slot(who) {
            Ok(holding) => {
                holding.promise(writes, copies, appends);
                self.promised = promised;
                Ok(())
            }
            Err(_) => Err(PrepareNoMemory { writes, appends }),
        }
    }

    /// Ends an attempt: what it has here is taken out. If there is a number, it commits, and its rows are written under it.
    pub fn end(&mut self, who: Attempt, number: Option<Number>) -> Ended
        requires present { (w : Keyed) → IsIn w (held self.old who).writes → has self.old.store w.key ≡ true }
        requires promised { length (held self.old who).appends ≤ self.old.promised }
        requires room { self.old.promised ≤ self.old.store.spare }
        ensures keys { result.keys.items ≡ (held self.old who).keys }
        ensures copies { result.copies ≡ (held self.old who).copies }
        ensures ends { Ends who number self.old self.new }
    {
        let (keys, writes, copies, appends) = self.holdings.take(who).into_lists();
        self.promised -= appends.len();
        commit_rows(&mut self.store, number, writes, appends);
        Ended { keys, copies }
    }

    /// A copy of the rows, in key order.
    pub fn rows_in_order(&self) -> Result<RowList, NoMemory>
        ensures order { IfOk result (λ rows. keys_rise rows ≡ true) }
        ensures rows { IfOk result (λ rows. (key : Key) → row_of rows key ≡ row_in self.now.store key) }
    {
        self.store.rows_in_order()
    }
}
