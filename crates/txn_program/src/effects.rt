//! What a transaction makes of the rows that it reads.
ghost use Rattle.std.specs.Prelude.{◌≡◌, ◌≤◌, ◌==◌, IfOk, IfSome, List, map, slice_set};
ghost use Rattle.std.specs.List.{filter, filter_map};
ghost use Rattle.deneva_base.specs.Partitions as base;
ghost use Rattle.deneva_base.specs.Rows.{row_at};
ghost use Rattle.deneva_base.specs.declared.rows.Cell.TheVariants.{Text};
ghost use Rattle.deneva_base.specs.declared.rows.Keyed as keyed;
ghost use Rattle.tpcc_rules.specs.ReadRows.{as_read};
ghost use Rattle.txn_program.specs.Transactions.{effect, effect_within, rows_within, written, ycsb_key};

use crate::accesses::ycsb_key_of;
use crate::partitions::{Partition, is_within};
use crate::programs::{Load, Program, YcsbAct, YcsbPut, YcsbStep};
use deneva_base::{
    ByteList, Cell, CellList, Key, Keyed, NoMemory, Row, RowList, TxnId, partition_of,
};
use std::alloc::Global;
use tpcc_rules::{
    Effect, ReadRow, Verdict, cells_of, new_order_effect, payment_effect, rows_lying,
};

/// A copy of the cells, one of which is replaced by a text.
fn with_text(alloc: Global, cells: &[Cell], field: u8, text: ByteList) -> Result<CellList, NoMemory>
    ensures { IfOk result (λ new. new ≡ slice_set cells.now field (Text text)) }
{
    let mut new = CellList::copy_of(alloc, cells)?.into_vec();
    if usize::from(field) < new.len() {
        new[usize::from(field)] = Cell::Text(text);
    }
    Ok(CellList::of(new))
}

/// What a step writes, where its row has these cells.
fn write_of(alloc: Global, cells: &[Cell], step: &YcsbStep) -> Result<Option<Keyed>, NoMemory>
    ensures { IfOk result (λ write. (rows : List keyed.Keyed) → cells.now ≡ row_at rows (ycsb_key step.now.key) → write ≡ written rows step.now) }
{
    let key = ycsb_key_of(step.key);
    let row = match &step.act {
        YcsbAct::Read => return Ok(None),
        YcsbAct::Update(put) => {
            let text = put.text.copy(alloc)?;
            Row::of(alloc, with_text(alloc, cells, put.field, text)?)?
        }
        YcsbAct::Put(row) => row.share()?,
    };
    Ok(Some(Keyed { key, row }))
}

/// Those of the writes that are made.
fn ycsb_writes(
    alloc: Global,
    rows: &[ReadRow<'_>],
    steps: &[YcsbStep],
    made: Option<Partition>,
) -> Result<RowList, NoMemory>
    requires parts { IfSome made (λ p. 1 ≤ p.parts) }
    ensures { IfOk result (λ writes. writes ≡ rows_within made (filter_map (written (map as_read rows.now)) steps.now)) }
{
    let mut writes = RowList::new(alloc);
    for step in steps {
        let key = ycsb_key_of(step.key);
        if is_within(made, key) {
            if let Some(write) = write_of(alloc, cells_of(rows, key), step)? {
                writes.push(write)?;
            }
        }
    }
    Ok(writes)
}

/// Those of the rows that lie at the partition.
fn lying_at(partition: Partition, mut rows: Vec<Keyed>) -> Vec<Keyed>
    requires { 1 ≤ partition.parts }
    ensures { result.items ≡ filter (λ r. base.partition_of r.key partition.parts == partition.part) rows.items }
{
    rows.retain(|keyed| partition_of(keyed.key, partition.parts) == partition.part);
    rows
}

/// The same, and without a partition all of the rows.
fn kept_rows(rows: RowList, made: Option<Partition>) -> RowList
    requires parts { IfSome made (λ p. 1 ≤ p.parts) }
    ensures { result ≡ rows_within made rows }
{
    match made {
        Some(partition) => RowList::of(lying_at(partition, rows.into_vec())),
        None => rows,
    }
}

/// What of an effect lies at the partition, and without one all of it.
fn kept_within(effect: Effect, made: Option<Partition>) -> Effect
    requires parts { IfSome made (λ p. 1 ≤ p.parts) }
    ensures { result ≡ effect_within made effect }
{
    let Effect {
        verdict,
        writes,
        appends,
        answer,
    } = effect;
    Effect {
        verdict,
        writes: kept_rows(writes, made),
        appends: kept_rows(appends, made),
        answer,
    }
}

/// What a transaction makes of the rows that it reads, or of that what lies at one partition: rows that lie elsewhere are
/// not made. A YCSB transaction always commits, appends nothing and answers 0; TPC-C's effects are made whole, and then
/// cut down.
pub fn effect_within(
    alloc: Global,
    load: &Load,
    id: TxnId,
    program: &Program,
    rows: &[ReadRow<'_>],
    made: Option<Partition>,
) -> Result<Effect, NoMemory>
    requires parts { IfSome made (λ p. 1 ≤ p.parts) }
    ensures { IfOk result (λ e. e ≡ effect_within made (effect load.now id program.now (map as_read rows.now))) }
{
    match program {
        Program::Ycsb(steps) => Ok(Effect {
            verdict: Verdict::Commit,
            writes: ycsb_writes(alloc, rows, steps.as_slice(), made)?,
            appends: RowList::new(alloc),
            answer: 0,
        }),
        Program::Payment(payment) => {
            let whole = payment_effect(alloc, id, payment, rows)?;
            Ok(kept_within(whole, made))
        }
        Program::NewOrder(order) => {
            let whole = new_order_effect(alloc, &load.items, id, order, rows)?;
            Ok(kept_within(whole, made))
        }
    }
}

/// What a transaction makes of the rows that it reads, which are those of its accesses that read.
pub fn effect_of(
    alloc: Global,
    load: &Load,
    id: TxnId,
    program: &Program,
    rows: &RowList,
) -> Result<Effect, NoMemory>
    ensures { IfOk result (λ e. e ≡ effect load.now id program.now rows.now) }
{
    let rows = rows_lying(alloc, rows.as_slice())?;
    effect_within(alloc, load, id, program, &rows, None)
}
