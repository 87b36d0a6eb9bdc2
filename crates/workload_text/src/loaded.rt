//! The rows that were loaded so far, and customers found among them by their last names.
ghost use Rattle.std.specs.Prelude.{◌≡◌, [], length, IfOk, OnOk};
ghost use Rattle.std.specs.List.{filter};
ghost use Rattle.deneva_base.specs.Rows.{put, has_key, rows_in};
ghost use Rattle.deneva_base.specs.declared.rows.Keyed.{Keyed};
ghost use Rattle.tpcc_rules.specs.Names.{by_last_name, is_customer};
ghost use Rattle.workload_text.specs.LastNames.{HasMiddles};

use crate::ordered_rows::rows_in_order;
use deneva_base::{Key, Keyed, NoMemory, Row, RowList};
use std::alloc::Global;
use std::collections::BTreeMap;
use std::marker::Model;
use tpcc_rules::{Namesakes, text_at};

/// The number of the table of customers.
const CUSTOMER: u8 = 3;

/// The place of a customer's last name in its row.
const LAST: usize = 1;

/// The last name of customers, with the warehouse and the district that are theirs.
#[derive(Drop, PartialEq, Eq, PartialOrd, Ord)]
pub struct Name {
    pub w: u32,
    pub d: u32,
    pub last: Vec<u8>,
}

fn name_of(alloc: Global, w: u32, d: u32, last: &[u8]) -> Result<Name, NoMemory>
    ensures { IfOk result (λ name. (name.w ≡ w) × (name.d ≡ d) × (name.last.items ≡ last.now)) }
{
    let last = Vec::from_slice(alloc, last)?;
    Ok(Name { w, d, last })
}

/// The number of the middle customer of each last name among these rows. It sorts them once for all the names.
fn middles_of(alloc: Global, rows: &[Keyed]) -> Result<BTreeMap<Name, u32>, NoMemory>
    ensures { IfOk result (λ m. HasMiddles m rows.now) }
{
    let namesakes = Namesakes::of(alloc, rows)?;
    let mut middles = BTreeMap::new(alloc);
    for row in rows {
        let last = text_at(row.row.as_slice(), LAST);
        let middle = namesakes.middle(row.key.a, row.key.b, last);
        if let Some(number) = middle {
            let name = name_of(alloc, row.key.a, row.key.b, last)?;
            middles.insert(name, number)?;
        }
    }
    Ok(middles)
}

/// The customers among the rows of a map. Their cells stay where they are.
fn customers_in(alloc: Global, rows: &BTreeMap<Key, Row>) -> Result<RowList, NoMemory>
    ensures { IfOk result (λ list. list ≡ filter is_customer (rows_in rows.now.entries)) }
{
    let mut list = RowList::new(alloc);
    for (key, row) in rows {
        if key.table == CUSTOMER {
            let row = row.share()?;
            list.push(Keyed { key: *key, row })?;
        }
    }
    Ok(list)
}

/// The rows that were loaded so far, which contracts see as their list in key order.
#[derive(Drop)]
pub struct Loaded {
    rows: BTreeMap<Key, Row>,
    /// The number of the middle customer of each last name, once a payment has asked for one.
    middles: Option<BTreeMap<Name, u32>>,
}

impl Model for Loaded {
    ghost use Rattle.std.specs.Prelude.{List, IfSome};
    ghost use Rattle.deneva_base.specs.Rows.{rows_in};
    ghost use Rattle.deneva_base.specs.declared.rows.Keyed.{Keyed};
    ghost use Rattle.workload_text.specs.LastNames.{HasMiddles};

    ghost Value = { List Keyed };

    ghost view = { λ l. rows_in l.rows.entries };

    ghost invariant = { λ l. IfSome l.middles (λ m. HasMiddles m (rows_in l.rows.entries)) };
}

impl Loaded {
    /// No rows yet.
    pub fn new(alloc: Global) -> Loaded
        ensures { result ≡ [] }
    {
        Loaded {
            rows: BTreeMap::new(alloc),
            middles: None,
        }
    }

    /// Whether a row with this key is loaded.
    pub fn has(&self, key: Key) -> bool
        ensures { result ≡ has_key self.now key }
    {
        self.rows.contains_key(&key)
    }

    pub fn len(&self) -> usize
        ensures { result ≡ length self.now }
    {
        self.rows.len()
    }

    /// Puts a row at its key.
    pub fn insert(&mut self, key: Key, row: Row) -> Result<(), NoMemory>
        ensures { OnOk result (self.new ≡ put self.old (record { key = key; row = row })) }
    {
        self.middles = None;
        self.rows.insert(key, row)?;
        Ok(())
    }

    /// The number of the middle one of the customers of a district with a last name (TPC-C 2.5.2.2). None where there
    /// is none. The first call makes an index of all last names, which stays until a row is put.
    pub fn customer_named(
        &mut self,
        alloc: Global,
        w: u32,
        d: u32,
        last: &[u8],
    ) -> Result<Option<u32>, NoMemory>
        ensures number { IfOk result (λ number. number ≡ by_last_name self.old w d last.now) }
        ensures rows { self.new ≡ self.old }
    {
        let name = name_of(alloc, w, d, last)?;
        let middles = match self.middles.take() {
            Some(middles) => middles,
            None => {
                let customers = customers_in(alloc, &self.rows)?;
                middles_of(alloc, customers.as_slice())?
            }
        };
        let number = middles.get(&name).copied();
        self.middles = Some(middles);
        Ok(number)
    }

    /// The rows in key order.
    pub fn into_rows(self, alloc: Global) -> Result<RowList, NoMemory>
        ensures { IfOk result (λ list. list ≡ self) }
    {
        let Loaded { rows, middles: _ } = self;
        rows_in_order(alloc, rows)
    }
}
