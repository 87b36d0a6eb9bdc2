//! Each public call once, on its happy path.

use super::*;
use deneva_base::{
    Attempt, Bound, ByteList, Cause, Cell, CellList, Config, Copied, IdList, Key, Keyed, Mode,
    Number, Protocol, Row, RowList, TxnId,
};
use std::alloc::Global;
use std::test::Fail;
use txn_program::{
    ItemList, Load, Program, ProgramList, StepList, Verdict, WorkKind, Workload, YcsbAct, YcsbStep,
    valid, ycsb_key_of,
};

const WHO: Attempt = Attempt {
    txn: TxnId(3),
    turn: 2,
};

const KEY: Key = Key {
    table: 0,
    a: 9,
    b: 0,
    c: 0,
};

const NUMBER: Number = Number { n: 7, id: TxnId(3) };

const CAUSE: Cause = Cause::Held { key: KEY, by: WHO };

fn row(alloc: Global) -> Result<Row, Fail> {
    let mut cells = CellList::new(alloc);
    cells.push(Cell::Num(5))?;
    Ok(Row::of(alloc, cells)?)
}

fn rows(alloc: Global) -> Result<RowList, Fail> {
    let mut rows = RowList::new(alloc);
    let keyed = Keyed {
        key: KEY,
        row: row(alloc)?,
    };
    rows.push(keyed)?;
    Ok(rows)
}

#[test]
fn messages_without_a_list_are_copied(rt: HostRuntime) -> Result<(), Fail> {
    for msg in [
        Msg::Start { who: WHO },
        Msg::Ask {
            who: WHO,
            stamp: 4,
            key: KEY,
            mode: Mode::Put,
        },
        Msg::Refused {
            who: WHO,
            key: KEY,
            cause: CAUSE,
        },
        Msg::Yes {
            who: WHO,
            part: 1,
            lo: 2,
            hi: 3,
        },
        Msg::No {
            who: WHO,
            part: 1,
            cause: CAUSE,
        },
        Msg::Commit {
            who: WHO,
            number: NUMBER,
        },
        Msg::Abort { who: WHO },
        Msg::Done { who: WHO, part: 1 },
        Msg::Undone { who: WHO, part: 1 },
        Msg::Tick { epoch: 6 },
        Msg::Finished {
            id: TxnId(3),
            part: 1,
            number: NUMBER,
        },
    ] {
        assert_eq!(rt; msg.copied(rt.alloc())?, msg);
    }
    Ok(())
}

#[test]
fn messages_with_a_list_are_copied(rt: HostRuntime) -> Result<(), Fail> {
    let granted = Msg::Granted {
        who: WHO,
        key: KEY,
        row: row(rt.alloc())?,
        version: NUMBER,
        bound: 8,
    };
    assert_eq!(rt; granted.copied(rt.alloc())?, granted);
    let prepare = Msg::Prepare {
        who: WHO,
        bound: Bound { n: 8, key: KEY },
        writes: rows(rt.alloc())?,
        appends: RowList::new(rt.alloc()),
    };
    assert_eq!(rt; prepare.copied(rt.alloc())?, prepare);
    let mut ids = IdList::new(rt.alloc());
    ids.push(TxnId(3))?;
    let batch = Msg::Batch {
        epoch: 1,
        seq: 2,
        ids,
    };
    assert_eq!(rt; batch.copied(rt.alloc())?, batch);
    let mail = Mail {
        from: 1,
        to: 2,
        msg: Msg::Rows {
            id: TxnId(3),
            part: 1,
            rows: SentRows::of(rt.alloc(), rows(rt.alloc())?)?,
        },
    };
    assert_eq!(rt; mail.copied(rt.alloc())?, mail);
    let entry = Entry {
        place: 5,
        from: 1,
        node: 2,
        msg: Msg::Tick { epoch: 6 },
    };
    assert_eq!(rt; entry.copied(rt.alloc())?, entry);
    Ok(())
}

#[test]
fn lines_of_an_outcome_are_copied(rt: HostRuntime) -> Result<(), Fail> {
    let decided = Decided {
        number: NUMBER,
        verdict: Verdict::Commit,
        answer: -2,
        participants: ByteList::from_bytes(rt.alloc(), &[0, 1])?,
        reads: rows(rt.alloc())?,
    };
    assert_eq!(rt; decided.copied(rt.alloc())?, decided);
    let giveup = Giveup {
        id: TxnId(3),
        turns: 8,
    };
    assert_eq!(rt; giveup.copied(rt.alloc())?, giveup);
    let line = AbortLine {
        who: WHO,
        place: 5,
        node: 2,
        cause: CAUSE,
    };
    assert_eq!(rt; line.copied(rt.alloc())?, line);
    assert_ne!(rt; RunKind::Under(Protocol::Maat), RunKind::Serial);
    Ok(())
}

/// A row for each key, and a transaction for each that reads it.
fn work_over(alloc: Global, keys: &[u32]) -> Result<Workload, Fail> {
    let mut rows = RowList::new(alloc);
    let mut programs = ProgramList::new(alloc);
    for key in keys {
        let mut cells = CellList::new(alloc);
        cells.push(Cell::Text(ByteList::from_bytes(alloc, b"a")?))?;
        rows.push(Keyed {
            key: ycsb_key_of(*key),
            row: Row::of(alloc, cells)?,
        })?;
        let mut steps = StepList::new(alloc);
        steps.push(YcsbStep {
            key: *key,
            act: YcsbAct::Read,
        })?;
        programs.push(Program::Ycsb(steps))?;
    }
    let load = Load {
        kind: WorkKind::Ycsb,
        fields: 1,
        rows,
        items: ItemList::new(alloc),
    };
    Ok(Workload { load, programs })
}

#[test]
fn nodes_begin_as_many_as_they_may_have_open(rt: HostRuntime) -> Result<(), Fail> {
    let work = work_over(rt.alloc(), &[1, 2, 3])?;
    assert!(rt; valid(&work));
    let config = Config {
        protocol: Protocol::NoWait,
        parts: 2,
        attempts: 1,
        limit: 1,
    };
    let mails = opening(rt.alloc(), config, &work)?;
    let start = |node, id| Mail {
        from: node,
        to: node,
        msg: Msg::Start {
            who: Attempt {
                txn: TxnId(id),
                turn: 1,
            },
        },
    };
    assert_eq!(rt; mails.as_slice(), [start(0, 2), start(1, 1)].as_slice());
    Ok(())
}

#[test]
fn nodes_begin_their_first_epoch(rt: HostRuntime) -> Result<(), Fail> {
    let config = Config {
        protocol: Protocol::Calvin,
        parts: 2,
        attempts: 1,
        limit: 1,
    };
    let work = work_over(rt.alloc(), &[1])?;
    assert!(rt; valid(&work));
    let mails = opening(rt.alloc(), config, &work)?;
    let tick = |node| Mail {
        from: node,
        to: node,
        msg: Msg::Tick { epoch: 0 },
    };
    assert_eq!(rt; mails.as_slice(), [tick(0), tick(1)].as_slice());
    let none = work_over(rt.alloc(), &[])?;
    assert!(rt; valid(&none));
    assert!(rt; opening(rt.alloc(), config, &none)?.is_empty());
    Ok(())
}
