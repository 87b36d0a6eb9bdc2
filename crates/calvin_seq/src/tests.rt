//! Ten transactions at two nodes, nine of them at one, and what its sequencers make of them.
ghost use Rattle.std.specs.Prelude.{◌≡◌, IfOk, map};
ghost use Rattle.calvin_seq.specs.Trials.{one_field, one_read, ten_reads};

use crate::{Sequencer, calvin_number, epochs, numbers_of, participant_counts};
use deneva_base::{
    ByteList, Cell, CellList, Config, IdList, Key, Keyed, NoMemory, Number, Protocol, Row, RowList,
    TxnId,
};
use server_core::{Mail, Msg, Outbox, Role};
use std::alloc::Global;
use std::test::Fail;
use txn_program::{
    ItemList, Load, Program, ProgramList, StepList, WorkKind, Workload, YcsbAct, YcsbStep,
};

/// The key of each transaction, whose home is the key itself.
const KEYS: [u32; 10] = [1, 1, 0, 1, 1, 1, 1, 1, 1, 1];

/// The number of each. The first eight of node 1 have 9 to 16, and its ninth is in the next epoch: (1 * 2 + 1) * 8 + 0 + 1.
const NUMBERS: [u64; 10] = [9, 10, 1, 11, 12, 13, 14, 15, 16, 25];

/// How many participants each has: that of its one key alone.
const COUNTS: [u8; 10] = [1, 1, 1, 1, 1, 1, 1, 1, 1, 1];

fn row_of(alloc: Global, a: u32) -> Result<Keyed, NoMemory>
    ensures { IfOk result (λ r. r ≡ one_field a) }
{
    let mut cells = CellList::new(alloc);
    cells.push(Cell::Text(ByteList::new(alloc)))?;
    let row = Row::of(alloc, cells)?;
    let key = Key {
        table: 0,
        a,
        b: 0,
        c: 0,
    };
    Ok(Keyed { key, row })
}

fn program_of(alloc: Global, key: u32) -> Result<Program, NoMemory>
    ensures { IfOk result (λ p. p ≡ one_read key) }
{
    let mut steps = StepList::new(alloc);
    steps.push(YcsbStep {
        key,
        act: YcsbAct::Read,
    })?;
    Ok(Program::Ycsb(steps))
}

fn programs_of(alloc: Global, keys: &[u32]) -> Result<ProgramList, NoMemory>
    ensures { IfOk result (λ list. list ≡ map one_read keys.now) }
{
    let mut programs = ProgramList::new(alloc);
    for key in keys {
        programs.push(program_of(alloc, *key)?)?;
    }
    Ok(programs)
}

fn ten_reads_of(alloc: Global) -> Result<Workload, NoMemory>
    ensures { IfOk result (λ w. w ≡ ten_reads) }
{
    let mut rows = RowList::new(alloc);
    rows.push(row_of(alloc, 0)?)?;
    rows.push(row_of(alloc, 1)?)?;
    let load = Load {
        kind: WorkKind::Ycsb,
        fields: 1,
        rows,
        items: ItemList::new(alloc),
    };
    let programs = programs_of(alloc, &KEYS)?;
    Ok(Workload { load, programs })
}

fn ids_of(alloc: Global, ids: &[u32]) -> Result<IdList, NoMemory> {
    let mut list = IdList::new(alloc);
    for id in ids {
        list.push(TxnId(*id))?;
    }
    Ok(list)
}

#[test]
fn transactions_have_numbers(rt: HostRuntime) -> Result<(), Fail> {
    let alloc = rt.alloc();
    let work = ten_reads_of(alloc)?;
    let numbers = numbers_of(alloc, &work, 2)?;
    assert_eq!(rt; numbers.len(), NUMBERS.len());
    for at in 0..NUMBERS.len() {
        let id = TxnId(at as u32 + 1);
        let number = Number { n: NUMBERS[at], id };
        assert_eq!(rt; numbers.get(at), Some(&number));
        assert_eq!(rt; calvin_number(&work, 2, id), number);
    }
    Ok(())
}

#[test]
fn each_transaction_has_one_participant(rt: HostRuntime) -> Result<(), Fail> {
    let alloc = rt.alloc();
    let work = ten_reads_of(alloc)?;
    let counts = participant_counts(alloc, &work, 2)?;
    assert_eq!(rt; counts.len(), COUNTS.len());
    for at in 0..COUNTS.len() {
        assert_eq!(rt; counts.get(at), Some(&COUNTS[at]));
    }
    Ok(())
}

/// Of two nodes one has nine transactions, and one node alone has all ten.
#[test]
fn the_node_with_most_tells_the_epochs(rt: HostRuntime) -> Result<(), Fail> {
    let alloc = rt.alloc();
    let work = ten_reads_of(alloc)?;
    assert_eq!(rt; epochs(&work, 2), 2);
    assert_eq!(rt; epochs(&work, 1), 2);
    Ok(())
}

/// What a node says in an epoch: its batch to both nodes, and a Tick to itself after the first.
#[test]
fn batches_go_to_each_node(rt: HostRuntime) -> Result<(), Fail> {
    let alloc = rt.alloc();
    let work = ten_reads_of(alloc)?;
    let config = Config {
        protocol: Protocol::Calvin,
        parts: 2,
        attempts: 1,
        limit: 1,
    };
    let sequencer = Sequencer::begin(Role::new(alloc, config, 1, &work))?;
    let mut out = Outbox::new(alloc);
    sequencer.tick(0, &mut out)?;
    sequencer.tick(1, &mut out)?;
    let first = ids_of(alloc, &[1, 2, 4, 5, 6, 7, 8, 9])?;
    let batch = |epoch, ids| Msg::Batch { epoch, seq: 1, ids };
    let expected = [
        (0, batch(0, first.copy(alloc)?)),
        (1, batch(0, first)),
        (1, Msg::Tick { epoch: 1 }),
        (0, batch(1, ids_of(alloc, &[10])?)),
        (1, batch(1, ids_of(alloc, &[10])?)),
    ];
    assert_eq!(rt; out.len(), 5);
    for (place, (to, msg)) in expected.into_iter().enumerate() {
        let mail = Mail { from: 1, to, msg };
        assert_eq!(rt; out.get(place), &mail);
    }
    Ok(())
}
