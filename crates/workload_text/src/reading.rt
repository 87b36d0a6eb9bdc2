//! What was read of a workload file so far.
ghost use Rattle.std.specs.Prelude.{◌≡◌, ◌++◌, ◌≤◌, length, IfOk, Ok};
ghost use Rattle.tpcc_rules.specs.Items.{has_item};
ghost use Rattle.txn_program.specs.declared.programs.Workload.{Workload};
ghost use Rattle.workload_text.specs.Grammar as grammar;
ghost use Rattle.workload_text.specs.SortedItems.{items_in};
ghost use Rattle.workload_text.specs.declared.faults.FaultKind.TheVariants.{TooMany};

use crate::faults::{FaultKind, Flaw};
use crate::fields::flaw;
use crate::heads::Head;
use crate::loaded::Loaded;
use crate::said::Said;
use deneva_base::{Key, Keyed, NoMemory, Row};
use std::alloc::Global;
use std::collections::BTreeMap;
use txn_program::{Item, ItemList, Load, Program, ProgramList, Workload};

/// The most rows that a file may have.
const ROW_LIMIT: u32 = 1_000_000;

/// The most transactions that a file may have.
const TXN_LIMIT: u32 = 10_000;

/// An item without its number.
#[derive(Clone, Copy, Debug, PartialEq, Eq)]
pub struct Sale {
    pub price: i64,
    pub original: bool,
}

/// What was read so far.
#[derive(Drop)]
pub struct Reading {
    pub head: Head,
    pub rows: Loaded,
    pub items: BTreeMap<u32, Sale>,
    pub programs: ProgramList,
}

/// Whether more records may follow.
#[derive(Clone, Copy, Debug, PartialEq, Eq)]
pub enum Progress {
    More,
    Ended,
}

/// More of something than the limit allows.
pub fn too_many(limit: u32) -> FaultKind
    ensures { result ≡ TooMany limit }
{
    FaultKind::TooMany { limit }
}

pub fn is_sold(items: &BTreeMap<u32, Sale>, number: u32) -> bool
    ensures { result ≡ has_item (items_in items.now.entries) number }
{
    items.contains_key(&number)
}

/// The items of a map in the order of their numbers.
fn items_in_order(alloc: Global, items: BTreeMap<u32, Sale>) -> Result<ItemList, NoMemory>
    ensures { IfOk result (λ list. list ≡ items_in items.entries) }
{
    let mut list = ItemList::new(alloc);
    for (number, sale) in items {
        list.push(Item {
            number,
            price: sale.price,
            original: sale.original,
        })?;
    }
    Ok(list)
}

impl Reading {
    ghost use Rattle.workload_text.specs.Reader.{work_of, Advances};
    ghost use Rattle.workload_text.specs.Loading as loading;

    /// Nothing read but the head.
    pub fn new(alloc: Global, head: Head) -> Reading
        ensures work { work_of result ≡ grammar.empty head }
        ensures head { result.head ≡ head }
    {
        Reading {
            head,
            rows: Loaded::new(alloc),
            items: BTreeMap::new(alloc),
            programs: ProgramList::new(alloc),
        }
    }

    /// What a row says whose key and cells were read, where this is the field of its key's last number.
    pub fn row_of(&self, field_no: usize, key: Key, row: Row) -> Result<Said, Flaw>
        ensures { result ≡ loading.row_of (work_of self.now) field_no key row }
    {
        if self.rows.has(key) {
            return Err(flaw(field_no, FaultKind::Repeated));
        }
        if self.rows.len() >= ROW_LIMIT as usize {
            return Err(flaw(0, too_many(ROW_LIMIT)));
        }
        Ok(Said::Loads(Keyed { key, row }))
    }

    /// What a transaction says whose keys are loaded, where there is room for it.
    pub fn run_of(&self, program: Program) -> Result<Said, Flaw>
        ensures { result ≡ loading.run_of (work_of self.now) program }
    {
        if self.programs.len() >= TXN_LIMIT as usize {
            return Err(flaw(0, too_many(TXN_LIMIT)));
        }
        Ok(Said::Runs(program))
    }

    /// Adds what a record says.
    pub fn add(&mut self, said: Said) -> Result<Progress, NoMemory>
        ensures work { IfOk result (λ progress. Advances (work_of self.old) (work_of self.new) (Ok said) progress) }
        ensures head { self.new.head ≡ self.old.head }
    {
        match said {
            Said::Loads(keyed) => {
                let Keyed { key, row } = keyed;
                self.rows.insert(key, row)?;
                Ok(Progress::More)
            }
            Said::Sells(item) => {
                let sale = Sale {
                    price: item.price,
                    original: item.original,
                };
                self.items.insert(item.number, sale)?;
                Ok(Progress::More)
            }
            Said::Runs(program) => {
                self.programs.push(program)?;
                Ok(Progress::More)
            }
            Said::Ends => Ok(Progress::Ended),
        }
    }

    /// The workload that was read.
    pub fn finish(self, alloc: Global) -> Result<Workload, NoMemory>
        ensures { IfOk result (λ work. work ≡ work_of self) }
    {
        let Reading {
            head,
            rows,
            items,
            programs,
        } = self;
        let rows = rows.into_rows(alloc)?;
        let items = items_in_order(alloc, items)?;
        let load = Load {
            kind: head.kind(),
            fields: head.fields(),
            rows,
            items,
        };
        Ok(Workload { load, programs })
    }
}
