//! Outcomes of histories, worked out by hand.

use super::*;
use deneva_base::{
    Attempt, Bound, ByteList, Cause, Cell, CellList, Config, IdList, Key, Keyed, Mode, NoMemory,
    Number, Protocol, Row, RowList, TxnId,
};
use server_core::{AbortLine, Entry, Giveup, History, Msg, SentRows};
use std::alloc::Global;
use std::test::Fail;
use txn_program::{
    ItemList, Load, Program, ProgramList, StepList, WorkKind, Workload, YcsbAct, YcsbPut, YcsbStep,
    valid, ycsb_key_of,
};

fn keyed_of(alloc: Global, key: u32, letter: u8) -> Result<Keyed, NoMemory> {
    let mut cells = CellList::new(alloc);
    cells.push(Cell::Text(ByteList::from_bytes(alloc, &[letter])?))?;
    Ok(Keyed {
        key: ycsb_key_of(key),
        row: Row::of(alloc, cells)?,
    })
}

fn one_row(alloc: Global, key: u32, letter: u8) -> Result<RowList, NoMemory> {
    let mut rows = RowList::new(alloc);
    rows.push(keyed_of(alloc, key, letter)?)?;
    Ok(rows)
}

/// A step: its key, and the letter that it writes, if it writes one.
type Step = (u32, Option<u8>);

fn step_of(alloc: Global, step: Step) -> Result<YcsbStep, NoMemory> {
    let act = match step.1 {
        None => YcsbAct::Read,
        Some(letter) => YcsbAct::Update(YcsbPut {
            field: 0,
            text: ByteList::from_bytes(alloc, &[letter])?,
        }),
    };
    Ok(YcsbStep { key: step.0, act })
}

fn program_of(alloc: Global, transaction: &[Step]) -> Result<Program, NoMemory> {
    let mut steps = StepList::new(alloc);
    for step in transaction {
        steps.push(step_of(alloc, *step)?)?;
    }
    Ok(Program::Ycsb(steps))
}

/// Keys 1 and 2 are loaded with the letters a and b.
fn work_of(alloc: Global, transactions: &[&[Step]]) -> Result<Workload, NoMemory> {
    let mut rows = one_row(alloc, 1, b'a')?;
    rows.push(keyed_of(alloc, 2, b'b')?)?;
    let mut programs = ProgramList::new(alloc);
    for transaction in transactions {
        programs.push(program_of(alloc, transaction)?)?;
    }
    let load = Load {
        kind: WorkKind::Ycsb,
        fields: 1,
        rows,
        items: ItemList::new(alloc),
    };
    Ok(Workload { load, programs })
}

fn first_try(id: u32) -> Attempt {
    Attempt {
        txn: TxnId(id),
        turn: 1,
    }
}

fn ask(id: u32, stamp: u64) -> Msg {
    Msg::Ask {
        who: first_try(id),
        stamp,
        key: ycsb_key_of(1),
        mode: Mode::Update,
    }
}

/// The node handles a message from another.
fn handle(history: &mut History, from: u8, node: u8, msg: Msg) -> Result<(), NoMemory> {
    let place = history.len() as u64;
    history.push(Entry {
        place,
        from,
        node,
        msg,
    })?;
    Ok(())
}

/// Both transactions ask for key 1.
fn ask_both(alloc: Global, history: &mut History) -> Result<(), NoMemory> {
    let key = ycsb_key_of(1);
    handle(history, 0, 0, Msg::Start { who: first_try(1) })?;
    handle(history, 0, 0, Msg::Start { who: first_try(2) })?;
    handle(history, 0, 0, ask(1, 1))?;
    handle(history, 0, 0, ask(2, 2))?;
    let granted = Msg::Granted {
        who: first_try(1),
        key,
        row: keyed_of(alloc, 1, b'a')?.row,
        version: Number { n: 0, id: TxnId(0) },
        bound: 0,
    };
    handle(history, 0, 0, granted)?;
    let cause = Cause::Held {
        key,
        by: first_try(1),
    };
    let who = first_try(2);
    handle(history, 0, 0, Msg::Refused { who, key, cause })
}

/// Transaction 1 prepares, and 2 aborts.
fn vote_and_abort(alloc: Global, history: &mut History) -> Result<(), NoMemory> {
    let who = first_try(1);
    let prepare = Msg::Prepare {
        who,
        bound: Bound {
            n: 0,
            key: ycsb_key_of(1),
        },
        writes: one_row(alloc, 1, b'p')?,
        appends: RowList::new(alloc),
    };
    handle(history, 0, 0, prepare)?;
    handle(history, 0, 0, Msg::Abort { who: first_try(2) })?;
    let (part, lo, hi) = (0, 5, 9);
    handle(history, 0, 0, Msg::Yes { who, part, lo, hi })?;
    let undone = Msg::Undone {
        who: first_try(2),
        part,
    };
    handle(history, 0, 0, undone)
}

/// Transaction 1 commits.
fn commit(history: &mut History) -> Result<(), NoMemory> {
    let who = first_try(1);
    let number = Number { n: 5, id: TxnId(1) };
    handle(history, 0, 0, Msg::Commit { who, number })?;
    handle(history, 0, 0, Msg::Done { who, part: 0 })
}

/// Two transactions that update key 1 at one partition: 1 commits; 2 is refused at entry 3, and given up.
fn lock_run(alloc: Global) -> Result<(Workload, History), NoMemory> {
    let work = work_of(alloc, &[&[(1, Some(b'p'))], &[(1, Some(b'q'))]])?;
    let mut history = History::new(alloc);
    ask_both(alloc, &mut history)?;
    vote_and_abort(alloc, &mut history)?;
    commit(&mut history)?;
    Ok((work, history))
}

const ONE_PART: Config = Config {
    protocol: Protocol::NoWait,
    parts: 1,
    attempts: 1,
    limit: 2,
};

const TWO_PARTS: Config = Config {
    protocol: Protocol::Calvin,
    parts: 2,
    attempts: 1,
    limit: 2,
};

#[test]
fn a_commit_and_a_refusal(rt: HostRuntime) -> Result<(), Fail> {
    let alloc = rt.alloc();
    let (work, history) = lock_run(alloc)?;
    assert!(rt; valid(&work));
    let rows = one_row(alloc, 1, b'p')?;
    let outcome = outcome_of(alloc, ONE_PART, &work, history.as_slice(), rows)?;
    assert_eq!(rt; outcome.decided.len(), 1);
    let decided = outcome.decided.get(0);
    assert_eq!(rt; decided.number, Number { n: 5, id: TxnId(1) });
    assert_eq!(rt; decided.participants.as_slice(), &[0][..]);
    assert!(rt; decided.reads == one_row(alloc, 1, b'a')?);
    let giveup = Giveup {
        id: TxnId(2),
        turns: 1,
    };
    assert_eq!(rt; outcome.giveups.as_slice(), &[giveup][..]);
    let abort = AbortLine {
        who: first_try(2),
        place: 3,
        node: 0,
        cause: Cause::Held {
            key: ycsb_key_of(1),
            by: first_try(1),
        },
    };
    assert_eq!(rt; outcome.aborts.as_slice(), &[abort][..]);
    assert!(rt; outcome.rows == one_row(alloc, 1, b'p')?);
    Ok(())
}

#[test]
fn the_undecided(rt: HostRuntime) -> Result<(), Fail> {
    let alloc = rt.alloc();
    let (work, history) = lock_run(alloc)?;
    assert!(rt; valid(&work));
    let entries = history.as_slice();
    assert_eq!(rt; entries.len(), 12);
    // without the Done of 1, the Undone of 2 too, or the Starts
    assert_eq!(rt;
        undecided(alloc, ONE_PART, &work, &entries[..11])?,
        Some(TxnId(1))
    );
    assert_eq!(rt;
        undecided(alloc, ONE_PART, &work, &entries[..9])?,
        Some(TxnId(1))
    );
    assert_eq!(rt;
        undecided(alloc, ONE_PART, &work, &entries[2..])?,
        Some(TxnId(1))
    );
    assert_eq!(rt; undecided(alloc, ONE_PART, &work, entries)?, None);
    let mut late = History::new(alloc);
    ask_both(alloc, &mut late)?;
    commit(&mut late)?;
    assert_eq!(rt;
        undecided(alloc, ONE_PART, &work, late.as_slice())?,
        Some(TxnId(2))
    );
    Ok(())
}

/// The sequencers close epoch 0.
fn close_epoch(alloc: Global, history: &mut History) -> Result<(), NoMemory> {
    for node in 0..2 {
        handle(history, node, node, Msg::Tick { epoch: 0 })?;
    }
    let mut ids = IdList::new(alloc);
    ids.push(TxnId(3))?;
    let (epoch, seq) = (0, 0);
    handle(history, 0, 1, Msg::Batch { epoch, seq, ids })
}

/// The node handles the row of a key that a partition sent for a transaction.
fn send_row(
    alloc: Global,
    history: &mut History,
    node: u8,
    id: u32,
    row: (u32, u8),
) -> Result<(), NoMemory> {
    let part = (row.0 % 2) as u8;
    let rows = SentRows::of(alloc, one_row(alloc, row.0, row.1)?)?;
    let id = TxnId(id);
    handle(history, part, node, Msg::Rows { id, part, rows })
}

fn finish(history: &mut History, node: u8, id: u32, part: u8, n: u64) -> Result<(), NoMemory> {
    let id = TxnId(id);
    let number = Number { n, id };
    handle(history, part, node, Msg::Finished { id, part, number })
}

/// Transactions 1 and 2 have their home at node 1, and 3 at node 0. In the global order 3 stands before 1, and 2 is not
/// finished.
fn calvin_run(alloc: Global) -> Result<(Workload, History), NoMemory> {
    let work = work_of(
        alloc,
        &[
            &[(1, None), (2, Some(b's'))],
            &[(1, Some(b'q'))],
            &[(2, Some(b'r'))],
        ],
    )?;
    let mut history = History::new(alloc);
    close_epoch(alloc, &mut history)?;
    send_row(alloc, &mut history, 0, 3, (2, b'b'))?;
    finish(&mut history, 0, 3, 0, 1)?;
    send_row(alloc, &mut history, 1, 1, (2, b'r'))?;
    send_row(alloc, &mut history, 1, 1, (1, b'a'))?;
    finish(&mut history, 1, 1, 1, 9)?;
    finish(&mut history, 1, 1, 0, 9)?;
    Ok((work, history))
}

#[test]
fn a_global_order(rt: HostRuntime) -> Result<(), Fail> {
    let alloc = rt.alloc();
    let (work, history) = calvin_run(alloc)?;
    assert!(rt; valid(&work));
    let rows = RowList::new(alloc);
    let outcome = outcome_of(alloc, TWO_PARTS, &work, history.as_slice(), rows)?;
    assert_eq!(rt; outcome.decided.len(), 2);
    let first = outcome.decided.get(0);
    assert_eq!(rt; first.number, Number { n: 1, id: TxnId(3) });
    assert_eq!(rt; first.participants.as_slice(), &[0][..]);
    assert!(rt; first.reads == one_row(alloc, 2, b'b')?);
    let second = outcome.decided.get(1);
    assert_eq!(rt; second.number, Number { n: 9, id: TxnId(1) });
    assert_eq!(rt; second.participants.as_slice(), &[0, 1][..]);
    let mut reads = one_row(alloc, 1, b'a')?;
    reads.push(keyed_of(alloc, 2, b'r')?)?;
    assert!(rt; second.reads == reads);
    assert_eq!(rt; outcome.giveups.len() + outcome.aborts.len(), 0);
    let open = undecided(alloc, TWO_PARTS, &work, history.as_slice())?;
    assert_eq!(rt; open, Some(TxnId(2)));
    Ok(())
}
