//! What a transaction accesses, and where it lives.
ghost use Rattle.std.specs.Prelude.{◌≡◌, ◌≤◌, ◌<◌, IfOk, true, map, length};
ghost use Rattle.deneva_base.specs.Partitions.{partition_of};
ghost use Rattle.txn_program.specs.Transactions as transactions;
ghost use Rattle.txn_program.specs.Transactions.{accesses, access_of, first_key, home_of, mode_of, new_order_accesses, ycsb_key};
ghost use Rattle.tpcc_rules.specs.NewOrders.{stocks};
ghost use Rattle.txn_program.specs.Valid.{is_valid_program};

use crate::programs::{Load, Program, YcsbAct, YcsbStep};
use deneva_base::{Access, AccessList, Key, Mode, NoMemory, partition_of};
use std::alloc::{AllocError, Global};
use tpcc_rules::{
    ItemList, NewOrder, Payment, customer_key, district_key, stock_keys, warehouse_key,
};

/// The key of a YCSB row.
pub fn ycsb_key_of(number: u32) -> Key
    ensures { result ≡ ycsb_key number }
{
    Key {
        table: 0,
        a: number,
        b: 0,
        c: 0,
    }
}

impl YcsbAct {
    fn mode(&self) -> Mode
        ensures { result ≡ mode_of self.now }
    {
        match self {
            YcsbAct::Read => Mode::Read,
            YcsbAct::Update(_) => Mode::Update,
            YcsbAct::Put(_) => Mode::Put,
        }
    }
}

impl YcsbStep {
    fn access(&self) -> Access
        ensures { result ≡ access_of self.now }
    {
        Access {
            key: ycsb_key_of(self.key),
            mode: self.act.mode(),
        }
    }
}

fn ycsb_accesses(alloc: Global, steps: &[YcsbStep]) -> Result<Vec<Access>, AllocError>
    ensures { IfOk result (λ list. list.items ≡ map access_of steps.now) }
{
    steps.iter().map(|step| step.access()).collect(alloc)
}

fn reads_key(key: Key) -> Access
    ensures { result ≡ transactions.reads_key key }
{
    Access {
        key,
        mode: Mode::Read,
    }
}

fn updates_key(key: Key) -> Access
    ensures { result ≡ transactions.updates_key key }
{
    Access {
        key,
        mode: Mode::Update,
    }
}

fn payment_accesses(alloc: Global, payment: &Payment) -> Result<AccessList, NoMemory>
    ensures { IfOk result (λ list. list ≡ transactions.payment_accesses payment.now) }
{
    let mut list = AccessList::new(alloc);
    list.push(updates_key(warehouse_key(payment.w)))?;
    list.push(updates_key(district_key(payment.w, payment.d)))?;
    list.push(updates_key(customer_key(payment.cw, payment.cd, payment.c)))?;
    Ok(list)
}

/// An update of the stock of each line whose item is loaded, each stock once.
fn stock_accesses(
    alloc: Global,
    items: &ItemList,
    order: &NewOrder,
) -> Result<Vec<Access>, NoMemory>
    ensures { IfOk result (λ list. list.items ≡ map transactions.updates_key (stocks items.now order.now.lines)) }
{
    let keys = stock_keys(alloc, items, order.lines.as_slice())?;
    let list = keys.iter().map(|key| updates_key(*key)).collect(alloc)?;
    Ok(list)
}

fn order_accesses(alloc: Global, items: &ItemList, order: &NewOrder) -> Result<AccessList, NoMemory>
    ensures { IfOk result (λ list. list ≡ new_order_accesses items.now order.now) }
{
    let mut list = AccessList::new(alloc);
    list.push(reads_key(warehouse_key(order.w)))?;
    list.push(updates_key(district_key(order.w, order.d)))?;
    list.push(reads_key(customer_key(order.w, order.d, order.c)))?;
    list.append(AccessList::of(stock_accesses(alloc, items, order)?))?;
    Ok(list)
}

/// The accesses of a transaction, in its order.
pub fn accesses_of(alloc: Global, load: &Load, program: &Program) -> Result<AccessList, NoMemory>
    ensures { IfOk result (λ list. list ≡ accesses load.now program.now) }
{
    match program {
        Program::Ycsb(steps) => Ok(AccessList::of(ycsb_accesses(alloc, steps.as_slice())?)),
        Program::Payment(payment) => payment_accesses(alloc, payment),
        Program::NewOrder(order) => order_accesses(alloc, &load.items, order),
    }
}

fn ycsb_home(steps: &[YcsbStep], parts: u8) -> u8
    requires parts { 1 ≤ parts }
    requires steps { 1 ≤ length steps.now }
    ensures home { result ≡ partition_of (first_key (map access_of steps.now)) parts }
    ensures below { result < parts }
{
    partition_of(steps[0].access().key, parts)
}

/// The partition of a transaction's first access, where its coordinator stands.
pub fn home(load: &Load, program: &Program, parts: u8) -> u8
    requires parts { 1 ≤ parts }
    requires valid { is_valid_program load.now program.now ≡ true }
    ensures home { result ≡ home_of load.now program.now parts }
    ensures below { result < parts }
{
    match program {
        Program::Ycsb(steps) => ycsb_home(steps.as_slice(), parts),
        Program::Payment(payment) => partition_of(warehouse_key(payment.w), parts),
        Program::NewOrder(order) => partition_of(warehouse_key(order.w), parts),
    }
}
