//! Each control against the plain body of its rule on calls drawn at random, and on a few calls whose answers are written out.

use crate::plain::Rule;
use crate::steps::{Cells, Effect, Said, Step, attempt, key};
use crate::stores::two_rows;
use crate::trials::{said_to, trial};
use chain_control::Chains;
use control_core::Control;
use deneva_base::{
    Answer, Cause, Cell, CellList, Key, Keyed, Mode, NoMemory, Number, Row, RowList, TxnId, Vote,
    Wake, Woken,
};
use lock_control::Locks;
use range_control::Ranges;
use stamp_control::Stamps;
use std::alloc::Global;
use std::test::Fail;

const NONE: Cells = Cells {
    first: None,
    second: None,
};

const NOTHING: Effect = Effect {
    writes: NONE,
    appends: NONE,
};

/// Writes a row of this number for key 0.
fn writes(cell: u32) -> Effect {
    Effect {
        writes: Cells {
            first: Some(cell),
            second: None,
        },
        appends: NONE,
    }
}

/// A row of one cell, or of none.
fn row_of(alloc: Global, cell: Option<i64>) -> Result<Row, NoMemory> {
    let mut cells = CellList::new(alloc);
    if let Some(cell) = cell {
        cells.push(Cell::Num(cell))?;
    }
    Row::of(alloc, cells)
}

/// A grant of the version that this transaction wrote under the number of this `n`.
fn granted(
    alloc: Global,
    cell: Option<i64>,
    (n, id): (u64, u32),
    bound: u64,
) -> Result<Said, NoMemory> {
    Ok(Said::Answer(Answer::Granted {
        row: row_of(alloc, cell)?,
        version: Number { n, id: TxnId(id) },
        bound,
    }))
}

fn yes(lo: u64, hi: u64) -> Said {
    Said::Vote(Vote::Yes { lo, hi })
}

/// An end that wakes the first attempt of this transaction, which waits for key 0, and leaves as many waiting.
fn wakes(
    alloc: Global,
    txn: u32,
    cell: i64,
    (n, id): (u64, u32),
    waiting: usize,
) -> Result<Said, NoMemory> {
    let mut woken = Woken::new(alloc);
    woken.push(Wake {
        who: attempt(txn, 1),
        key: key(0),
        row: row_of(alloc, Some(cell))?,
        version: Number { n, id: TxnId(id) },
        bound: 0,
    })?;
    Ok(Said::Ended(woken, waiting))
}

/// An end that wakes nobody.
fn ends(alloc: Global, waiting: usize) -> Said {
    Said::Ended(Woken::new(alloc), waiting)
}

#[test]
fn no_wait_is_its_rule(rt: HostRuntime) -> Result<(), Fail> {
    let met = trial::<Locks<0>>(rt.alloc(), Rule::NoWait)?.expect(&rt, "a seed");
    assert!(rt; met.held > 0 && met.commits > 0 && met.waits == 0);
    assert!(rt; met.double_writes > 0 && met.appends > 0);
    Ok(())
}

#[test]
fn wait_die_is_its_rule(rt: HostRuntime) -> Result<(), Fail> {
    let met = trial::<Locks<1>>(rt.alloc(), Rule::WaitDie)?.expect(&rt, "a seed");
    assert!(rt; met.younger > 0 && met.commits > 0 && met.updates_that_wait > 0);
    assert!(rt; met.commits_that_wake_more > 0 && met.aborts_that_wake_more > 0);
    assert!(rt; met.double_writes > 0 && met.appends > 0);
    Ok(())
}

#[test]
fn timestamp_is_its_rule(rt: HostRuntime) -> Result<(), Fail> {
    let met = trial::<Stamps>(rt.alloc(), Rule::Timestamp)?.expect(&rt, "a seed");
    assert!(rt; met.written > 0 && met.read_later > 0);
    assert!(rt; met.commits > 0 && met.updates_that_wait > 0);
    assert!(rt; met.commits_that_wake_more > 0 && met.aborts_that_wake_more > 0);
    assert!(rt; met.double_writes > 0 && met.appends > 0);
    Ok(())
}

#[test]
fn mvcc_is_its_rule(rt: HostRuntime) -> Result<(), Fail> {
    let met = trial::<Chains<2>>(rt.alloc(), Rule::Mvcc(2))?.expect(&rt, "a seed");
    assert!(rt; met.trimmed > 0 && met.read_later > 0);
    assert!(rt; met.commits > 0 && met.updates_that_wait > 0);
    assert!(rt; met.commits_that_wake_more > 0 && met.aborts_that_wake_more > 0);
    assert!(rt; met.double_writes > 0 && met.appends > 0);
    Ok(())
}

#[test]
fn maat_is_its_rule(rt: HostRuntime) -> Result<(), Fail> {
    let met = trial::<Ranges<4096>>(rt.alloc(), Rule::Maat(4096))?.expect(&rt, "a seed");
    assert!(rt; met.empty_ranges > 0 && met.commits > 0 && met.waits == 0);
    assert!(rt; met.double_writes > 0 && met.appends > 0);
    Ok(())
}

/// An attempt writes two rows and appends one under the number 10, and another that reads one of them is aborted after it
/// has prepared with a row and another append.
fn two_rows_and_appends() -> [Step; 7] {
    let first = Effect {
        writes: Cells {
            first: Some(7),
            second: Some(8),
        },
        appends: Cells {
            first: Some(9),
            second: None,
        },
    };
    let second = Effect {
        writes: Cells {
            first: None,
            second: Some(5),
        },
        appends: Cells {
            first: None,
            second: Some(6),
        },
    };
    [
        Step::Ask(attempt(1, 1), 10, 0, Mode::Update),
        Step::Ask(attempt(1, 1), 10, 1, Mode::Put),
        Step::Prepare(attempt(1, 1), 0, first),
        Step::Commit(attempt(1, 1), 10),
        Step::Ask(attempt(2, 1), 20, 1, Mode::Update),
        Step::Prepare(attempt(2, 1), 0, second),
        Step::Abort(attempt(2, 1)),
    ]
}

/// What a control says to those calls with these two votes, where the bounds are 0 or those of MAAT.
fn two_rows_said(
    alloc: Global,
    (first, later): (u64, u64),
    one: (u64, u64),
    other: (u64, u64),
) -> Result<[Said; 7], NoMemory> {
    Ok([
        granted(alloc, Some(100), (0, 0), first)?,
        granted(alloc, None, (0, 0), first)?,
        yes(one.0, one.1),
        ends(alloc, 0),
        granted(alloc, Some(8), (10, 1), later)?,
        yes(other.0, other.1),
        ends(alloc, 0),
    ])
}

/// The rows after those calls.
fn two_rows_left(alloc: Global) -> Result<RowList, NoMemory> {
    let mut rows = RowList::new(alloc);
    for (table, a, cell) in [(0, 0, 7), (0, 1, 8), (5, 0, 9)] {
        let row = row_of(alloc, Some(cell))?;
        let key = Key {
            table,
            a,
            b: 0,
            c: 0,
        };
        rows.push(Keyed { key, row })?;
    }
    Ok(rows)
}

#[test]
fn no_wait_writes_two_rows_and_appends(rt: HostRuntime) -> Result<(), Fail> {
    let alloc = rt.alloc();
    let wanted = two_rows_said(alloc, (0, 0), (1, 1 << 63), (11, 1 << 63))?;
    let (said, rows) = said_to::<Locks<0>>(alloc, &two_rows_and_appends())?;
    assert_eq!(rt; said.as_slice(), wanted.as_slice());
    assert_eq!(rt; rows, two_rows_left(alloc)?);
    Ok(())
}

#[test]
fn wait_die_writes_two_rows_and_appends(rt: HostRuntime) -> Result<(), Fail> {
    let alloc = rt.alloc();
    let wanted = two_rows_said(alloc, (0, 0), (1, 1 << 63), (11, 1 << 63))?;
    let (said, rows) = said_to::<Locks<1>>(alloc, &two_rows_and_appends())?;
    assert_eq!(rt; said.as_slice(), wanted.as_slice());
    assert_eq!(rt; rows, two_rows_left(alloc)?);
    Ok(())
}

#[test]
fn timestamp_writes_two_rows_and_appends(rt: HostRuntime) -> Result<(), Fail> {
    let alloc = rt.alloc();
    let wanted = two_rows_said(alloc, (0, 0), (10, 10), (20, 20))?;
    let (said, rows) = said_to::<Stamps>(alloc, &two_rows_and_appends())?;
    assert_eq!(rt; said.as_slice(), wanted.as_slice());
    assert_eq!(rt; rows, two_rows_left(alloc)?);
    Ok(())
}

#[test]
fn mvcc_writes_two_rows_and_appends(rt: HostRuntime) -> Result<(), Fail> {
    let alloc = rt.alloc();
    let wanted = two_rows_said(alloc, (0, 0), (10, 10), (20, 20))?;
    let (said, rows) = said_to::<Chains<2>>(alloc, &two_rows_and_appends())?;
    assert_eq!(rt; said.as_slice(), wanted.as_slice());
    assert_eq!(rt; rows, two_rows_left(alloc)?);
    Ok(())
}

#[test]
fn maat_writes_two_rows_and_appends(rt: HostRuntime) -> Result<(), Fail> {
    let alloc = rt.alloc();
    let wanted = two_rows_said(alloc, (1, 11), (1, 4096), (11, 4106))?;
    let (said, rows) = said_to::<Ranges<4096>>(alloc, &two_rows_and_appends())?;
    assert_eq!(rt; said.as_slice(), wanted.as_slice());
    assert_eq!(rt; rows, two_rows_left(alloc)?);
    Ok(())
}

#[test]
fn an_older_attempt_waits_for_the_younger(rt: HostRuntime) -> Result<(), Fail> {
    let alloc = rt.alloc();
    let steps = [
        Step::Ask(attempt(1, 1), 30, 0, Mode::Read),
        Step::Ask(attempt(2, 1), 20, 0, Mode::Update),
        Step::Ask(attempt(3, 1), 25, 0, Mode::Read),
        Step::Ask(attempt(4, 1), 10, 0, Mode::Read),
        Step::Abort(attempt(1, 1)),
        Step::Abort(attempt(3, 1)),
    ];
    let wanted = [
        granted(alloc, Some(100), (0, 0), 0)?,
        Said::Answer(Answer::Waits),
        granted(alloc, Some(100), (0, 0), 0)?,
        Said::Answer(Answer::Waits),
        ends(alloc, 2),
        wakes(alloc, 2, 100, (0, 0), 1)?,
    ];
    let (said, _) = said_to::<Locks<1>>(alloc, &steps)?;
    assert_eq!(rt; said.as_slice(), wanted.as_slice());
    Ok(())
}

#[test]
fn a_window_without_numbers_is_refused(rt: HostRuntime) -> Result<(), Fail> {
    let alloc = rt.alloc();
    let steps = [
        Step::Ask(attempt(1, 1), 1, 0, Mode::Read),
        Step::Ask(attempt(2, 1), 2, 0, Mode::Update),
        Step::Prepare(attempt(2, 1), 1, writes(7)),
        Step::Commit(attempt(2, 1), 1),
        Step::Prepare(attempt(1, 1), 1, NOTHING),
    ];
    let refused = Cause::EmptyRange {
        lo: 1,
        lo_key: key(0),
        hi: 0,
        hi_by: attempt(2, 1),
    };
    let wanted = [
        granted(alloc, Some(100), (0, 0), 1)?,
        granted(alloc, Some(100), (0, 0), 1)?,
        yes(1, 4096),
        ends(alloc, 0),
        Said::Vote(Vote::No(refused)),
    ];
    let (said, _) = said_to::<Ranges<4096>>(alloc, &steps)?;
    assert_eq!(rt; said.as_slice(), wanted.as_slice());
    Ok(())
}

#[test]
fn a_put_goes_past_a_smaller_update(rt: HostRuntime) -> Result<(), Fail> {
    let alloc = rt.alloc();
    let steps = [
        Step::Ask(attempt(1, 1), 1, 0, Mode::Update),
        Step::Ask(attempt(2, 1), 3, 0, Mode::Put),
        Step::Ask(attempt(3, 1), 2, 0, Mode::Read),
        Step::Prepare(attempt(2, 1), 0, writes(7)),
        Step::Commit(attempt(2, 1), 3),
        Step::Prepare(attempt(1, 1), 0, writes(6)),
        Step::Commit(attempt(1, 1), 1),
    ];
    let wanted = [
        granted(alloc, Some(100), (0, 0), 0)?,
        granted(alloc, None, (0, 0), 0)?,
        Said::Answer(Answer::Waits),
        yes(3, 3),
        ends(alloc, 1),
        yes(1, 1),
        wakes(alloc, 3, 6, (1, 1), 0)?,
    ];
    let (said, rows) = said_to::<Stamps>(alloc, &steps)?;
    assert_eq!(rt; said.as_slice(), wanted.as_slice());
    let row = row_of(alloc, Some(7))?;
    assert!(rt; rows.as_slice().contains(&Keyed { key: key(0), row }));
    Ok(())
}

#[test]
fn a_version_below_a_waiter_is_kept(rt: HostRuntime) -> Result<(), Fail> {
    let alloc = rt.alloc();
    // Two puts overtake an update and a read that waits for it.
    let steps = [
        Step::Ask(attempt(1, 1), 10, 0, Mode::Update),
        Step::Ask(attempt(2, 1), 12, 0, Mode::Read),
        Step::Ask(attempt(3, 1), 20, 0, Mode::Put),
        Step::Prepare(attempt(3, 1), 0, writes(3)),
        Step::Commit(attempt(3, 1), 20),
        Step::Ask(attempt(4, 1), 30, 0, Mode::Put),
        Step::Prepare(attempt(4, 1), 0, writes(4)),
        Step::Commit(attempt(4, 1), 30),
        Step::Prepare(attempt(1, 1), 0, writes(1)),
        Step::Commit(attempt(1, 1), 10),
        Step::Ask(attempt(5, 1), 15, 0, Mode::Read),
    ];
    let trimmed = Cause::Trimmed {
        key: key(0),
        floor: 20,
    };
    let wanted = [
        granted(alloc, Some(100), (0, 0), 0)?,
        Said::Answer(Answer::Waits),
        granted(alloc, None, (0, 0), 0)?,
        yes(20, 20),
        ends(alloc, 1),
        granted(alloc, None, (0, 0), 0)?,
        yes(30, 30),
        ends(alloc, 1),
        yes(10, 10),
        wakes(alloc, 2, 1, (10, 1), 0)?,
        Said::Answer(Answer::Refused(trimmed)),
    ];
    let (said, _) = said_to::<Chains<2>>(alloc, &steps)?;
    assert_eq!(rt; said.as_slice(), wanted.as_slice());
    Ok(())
}

#[test]
fn the_loaded_version_is_kept(rt: HostRuntime) -> Result<(), Fail> {
    let chains = Chains::<2>::begin(two_rows(rt.alloc())?)?;
    assert_eq!(rt; chains.kept(key(0)), 1);
    Ok(())
}
