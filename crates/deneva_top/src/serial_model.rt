//! The plain executor: transactions one at a time on one map.
ghost use Rattle.std.specs.Prelude.{◌≡◌, ◌≤◌, ◌<◌, IfOk, OnOk, length};
ghost use Rattle.std.specs.List.{All};
ghost use Rattle.deneva_base.specs.Rows.{rows_in, row_at, put_all, in_key_order};
ghost use Rattle.txn_program.specs.Serial.{serial, turn, map_after, effect_on, reads_from, settled};
ghost use Rattle.deneva_top.specs.Executor.{IsKnown};

use deneva_base::{Access, Copied, IdList, Key, Keyed, NoMemory, Row, RowList, TxnId};
use std::alloc::Global;
use std::collections::BTreeMap;
use txn_program::{
    Effect, SerialList, SerialRun, SerialTxn, Verdict, Workload, accesses_of, effect_of,
};
use workload_text::rows_in_order;

/// The row of a key, or a row of no cells where the key is absent.
fn row_of(alloc: Global, rows: &BTreeMap<Key, Row>, key: Key) -> Result<Row, NoMemory>
    ensures { IfOk result (λ row. row ≡ row_at (rows_in rows.now.entries) key) }
{
    match rows.get(&key) {
        Some(row) => row.share(),
        None => Row::empty(alloc),
    }
}

/// What the accesses that read find in the map.
fn read_rows(
    alloc: Global,
    rows: &BTreeMap<Key, Row>,
    accesses: &[Access],
) -> Result<RowList, NoMemory>
    ensures { IfOk result (λ reads. reads ≡ reads_from (rows_in rows.now.entries) accesses.now) }
{
    let mut reads = RowList::with_capacity(alloc, accesses.len())?;
    for access in accesses {
        if access.mode.is_reading() {
            let row = row_of(alloc, rows, access.key)?;
            reads.push(Keyed {
                key: access.key,
                row,
            })?;
        }
    }
    Ok(reads)
}

/// Puts rows in the places of their keys, one after another.
fn put_rows(rows: &mut BTreeMap<Key, Row>, writes: RowList) -> Result<(), NoMemory>
    ensures { OnOk result (rows_in rows.new.entries ≡ put_all (rows_in rows.old.entries) writes) }
{
    for write in writes.into_vec() {
        let Keyed { key, row } = write;
        rows.insert(key, row)?;
    }
    Ok(())
}

/// The loaded rows as a map.
fn load_rows(alloc: Global, loaded: &RowList) -> Result<BTreeMap<Key, Row>, NoMemory>
    ensures { IfOk result (λ rows. rows_in rows.entries ≡ in_key_order loaded.now) }
{
    let mut rows = BTreeMap::new(alloc);
    put_rows(&mut rows, loaded.copy(alloc)?)?;
    Ok(rows)
}

/// What an effect leaves of the map: a transaction that rolls itself back leaves it as it is.
fn settle(
    rows: &mut BTreeMap<Key, Row>,
    verdict: Verdict,
    writes: RowList,
    appends: RowList,
) -> Result<(), NoMemory>
    ensures { OnOk result (rows_in rows.new.entries ≡ settled (rows_in rows.old.entries) verdict writes appends) }
{
    match verdict {
        Verdict::Commit => {
            put_rows(rows, writes)?;
            put_rows(rows, appends)
        }
        Verdict::Rollback(_) => Ok(()),
    }
}

/// One transaction's turn on the map.
fn run_one(
    alloc: Global,
    work: &Workload,
    id: TxnId,
    rows: &mut BTreeMap<Key, Row>,
) -> Result<SerialTxn, NoMemory>
    requires { IsKnown work.now id }
    ensures turn { IfOk result (λ txn. txn ≡ turn work.now (rows_in rows.old.entries) id) }
    ensures rows { OnOk result (rows_in rows.new.entries ≡ map_after (rows_in rows.old.entries) (effect_on work.now (rows_in rows.old.entries) id)) }
{
    let program = work.programs.get(id.0 as usize - 1);
    let accesses = accesses_of(alloc, &work.load, program)?;
    let reads = read_rows(alloc, rows, accesses.as_slice())?;
    let Effect {
        verdict,
        writes,
        appends,
        answer,
    } = effect_of(alloc, &work.load, id, program, &reads)?;
    settle(rows, verdict, writes, appends)?;
    Ok(SerialTxn {
        id,
        reads,
        verdict,
        answer,
    })
}

/// Executes the listed transactions, one at a time, on one map that begins with the loaded rows.
pub fn run_serial(alloc: Global, work: &Workload, order: &IdList) -> Result<SerialRun, NoMemory>
    requires { All (IsKnown work.now) order.now }
    ensures { IfOk result (λ run. run ≡ serial work.now order.now) }
{
    let mut rows = load_rows(alloc, &work.load.rows)?;
    let mut runs = SerialList::new(alloc);
    for id in order.as_slice() {
        let run = run_one(alloc, work, *id, &mut rows)?;
        runs.push(run)?;
    }
    let rows = rows_in_order(alloc, rows)?;
    Ok(SerialRun { runs, rows })
}
