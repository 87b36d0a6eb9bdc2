//! Texts of outcomes, worked out by hand.

use super::*;
use crate::texts::write_lines;
use deneva_base::{
    Attempt, ByteList, Cause, Cell, CellList, Key, Keyed, NoMemory, Number, Protocol, Row, RowList,
    TxnId,
};
use server_core::{AbortList, DecidedList, GiveupList};
use std::alloc::Global;
use std::test::Fail;
use txn_program::{Reason, Verdict};

/// The report of `mixed`.
const REPORT: &str = "deneva-report,1,maat,2
commit,5,3,-7,0.1
read,0.1.0.0,a
read,1.7.0.0,w,-12
rollback,6,1,1,unused,100001
rollback,6,2,0,range,2.7.3.0
read,0.9.0.0,
giveup,4,8
abort,4,1,10,1,held,0.1.0.0,3.1
abort,4,2,11,0,younger,0.9.0.0,3.2,17
abort,4,3,12,1,written,0.1.0.0,33
abort,4,4,13,0,readlater,0.9.0.0,34
abort,4,5,14,1,trimmed,0.9.0.0,2
abort,4,6,15,0,emptyrange,40,0.1.0.0,39,2.1
abort,4,7,16,1,apart,50,0,49,1
row,0.1.0.0,z
row,0.9.0.0,
row,1.7.0.0,w,-12
row,7.1.2.3
end
";

fn key_of(table: u8, a: u32, b: u32, c: u32) -> Key {
    Key { table, a, b, c }
}

fn attempt_of(id: u32, turn: u8) -> Attempt {
    Attempt {
        txn: TxnId(id),
        turn,
    }
}

/// A row of a text and a number, of a text alone, or of no cells.
fn keyed_of(
    alloc: Global,
    key: Key,
    text: Option<&str>,
    number: Option<i64>,
) -> Result<Keyed, NoMemory> {
    let mut cells = CellList::new(alloc);
    if let Some(text) = text {
        cells.push(Cell::Text(ByteList::from_bytes(alloc, text.as_bytes())?))?;
    }
    if let Some(number) = number {
        cells.push(Cell::Num(number))?;
    }
    let row = Row::of(alloc, cells)?;
    Ok(Keyed { key, row })
}

fn last_rows(alloc: Global) -> Result<RowList, NoMemory> {
    let mut rows = RowList::new(alloc);
    rows.push(keyed_of(alloc, key_of(0, 1, 0, 0), Some("z"), None)?)?;
    rows.push(keyed_of(alloc, key_of(0, 9, 0, 0), Some(""), None)?)?;
    rows.push(keyed_of(alloc, key_of(1, 7, 0, 0), Some("w"), Some(-12))?)?;
    rows.push(keyed_of(alloc, key_of(7, 1, 2, 3), None, None)?)?;
    Ok(rows)
}

fn decided_of(
    alloc: Global,
    n: u64,
    id: u32,
    verdict: Verdict,
    answer: i64,
    parts: &[u8],
) -> Result<Decided, NoMemory> {
    Ok(Decided {
        number: Number { n, id: TxnId(id) },
        verdict,
        answer,
        participants: ByteList::from_bytes(alloc, parts)?,
        reads: RowList::new(alloc),
    })
}

/// A commit, and a rollback for each reason.
fn three_decided(alloc: Global) -> Result<DecidedList, NoMemory> {
    let unused = Verdict::Rollback(Reason::UnusedItem { item: 100_001 });
    let range = Verdict::Rollback(Reason::Range {
        key: key_of(2, 7, 3, 0),
    });
    let mut first = decided_of(alloc, 5, 3, Verdict::Commit, -7, &[0, 1])?;
    first
        .reads
        .push(keyed_of(alloc, key_of(0, 1, 0, 0), Some("a"), None)?)?;
    first
        .reads
        .push(keyed_of(alloc, key_of(1, 7, 0, 0), Some("w"), Some(-12))?)?;
    let mut last = decided_of(alloc, 6, 2, range, 0, &[0])?;
    last.reads
        .push(keyed_of(alloc, key_of(0, 9, 0, 0), Some(""), None)?)?;
    let mut decided = DecidedList::new(alloc);
    decided.push(first)?;
    decided.push(decided_of(alloc, 6, 1, unused, 0, &[1])?)?;
    decided.push(last)?;
    Ok(decided)
}

/// A cause of each kind that refuses an access.
fn refusals(one: Key, nine: Key) -> [Cause; 5] {
    [
        Cause::Held {
            key: one,
            by: attempt_of(3, 1),
        },
        Cause::Younger {
            key: nine,
            by: attempt_of(3, 2),
            age: 17,
        },
        Cause::Written {
            key: one,
            stamp: 33,
        },
        Cause::ReadLater {
            key: nine,
            stamp: 34,
        },
        Cause::Trimmed {
            key: nine,
            floor: 2,
        },
    ]
}

/// A cause of each kind that leaves no number.
fn no_numbers(one: Key) -> [Cause; 2] {
    [
        Cause::EmptyRange {
            lo: 40,
            lo_key: one,
            hi: 39,
            hi_by: attempt_of(2, 1),
        },
        Cause::Apart {
            lo: 50,
            lo_part: 0,
            hi: 49,
            hi_part: 1,
        },
    ]
}

fn abort_of(turn: u8, cause: Cause) -> AbortLine {
    AbortLine {
        who: attempt_of(4, turn),
        place: u64::from(turn) + 9,
        node: turn % 2,
        cause,
    }
}

/// An abort of transaction 4 for each cause.
fn seven_aborts(alloc: Global) -> Result<AbortList, NoMemory> {
    let (one, nine) = (key_of(0, 1, 0, 0), key_of(0, 9, 0, 0));
    let refused = refusals(one, nine);
    let unnumbered = no_numbers(one);
    let lines = [
        abort_of(1, refused[0]),
        abort_of(2, refused[1]),
        abort_of(3, refused[2]),
        abort_of(4, refused[3]),
        abort_of(5, refused[4]),
        abort_of(6, unnumbered[0]),
        abort_of(7, unnumbered[1]),
    ];
    let mut aborts = AbortList::new(alloc);
    for line in lines {
        aborts.push(line)?;
    }
    Ok(aborts)
}

fn empty_outcome(alloc: Global, kind: RunKind, parts: u8) -> Outcome {
    Outcome {
        kind,
        parts,
        decided: DecidedList::new(alloc),
        giveups: GiveupList::new(alloc),
        aborts: AbortList::new(alloc),
        rows: RowList::new(alloc),
    }
}

/// An outcome with a line of each kind.
fn mixed(alloc: Global) -> Result<Outcome, NoMemory> {
    let mut outcome = empty_outcome(alloc, RunKind::Under(Protocol::Maat), 2);
    outcome.decided = three_decided(alloc)?;
    outcome.giveups.push(Giveup {
        id: TxnId(4),
        turns: 8,
    })?;
    outcome.aborts = seven_aborts(alloc)?;
    outcome.rows = last_rows(alloc)?;
    Ok(outcome)
}

#[test]
fn reports_have_a_line_for_each_thing(rt: HostRuntime) -> Result<(), Fail> {
    let outcome = mixed(rt.alloc())?;
    assert_eq!(rt;
        write_lines(rt.alloc(), &outcome)?.as_slice(),
        REPORT.as_bytes()
    );
    assert_eq!(rt;
        write_brief(rt.alloc(), &outcome)?.as_slice(),
        b"brief,maat,2,1,2,1,7,4\n".as_slice()
    );
    Ok(())
}

#[test]
fn heads_name_the_kind(rt: HostRuntime) -> Result<(), Fail> {
    let cases = [
        (RunKind::Serial, "serial"),
        (RunKind::Under(Protocol::NoWait), "nowait"),
        (RunKind::Under(Protocol::WaitDie), "waitdie"),
        (RunKind::Under(Protocol::Timestamp), "timestamp"),
        (RunKind::Under(Protocol::Mvcc), "mvcc"),
        (RunKind::Under(Protocol::Maat), "maat"),
        (RunKind::Under(Protocol::Calvin), "calvin"),
    ];
    for (kind, word) in cases {
        let outcome = empty_outcome(rt.alloc(), kind, 16);
        let report = format!(in rt.alloc(); "deneva-report,1,{word},16\nend\n")?;
        assert_eq!(rt;
            write_lines(rt.alloc(), &outcome)?.as_slice(),
            report.as_bytes()
        );
        let brief = format!(in rt.alloc(); "brief,{word},16,0,0,0,0,0\n")?;
        assert_eq!(rt;
            write_brief(rt.alloc(), &outcome)?.as_slice(),
            brief.as_bytes()
        );
    }
    Ok(())
}

#[test]
fn records_of_any_fields_have_lines(rt: HostRuntime) -> Result<(), Fail> {
    let mut line = Line::new(rt.alloc());
    line.begin(b"a")?;
    line.push(b"")?;
    line.push(b"b,c")?;
    line.push_number(-40_i64)?;
    line.push_number(0_u8)?;
    assert_eq!(rt;
        write_line(rt.alloc(), &line)?.as_slice(),
        b"a,,\"b,c\",-40,0\n".as_slice()
    );
    line.begin(b"\"")?;
    assert_eq!(rt;
        write_line(rt.alloc(), &line)?.as_slice(),
        b"\"\"\"\"\n".as_slice()
    );
    Ok(())
}

/// The head, the last rows and the end of an outcome with one row.
const QUOTED: &str = "deneva-report,1,serial,1
row,0.3.0.0,\"a,b\",\"say \"\"so\"\"\",\"one\rtwo\",\"\r\n\", bare \t,5
end
";

#[test]
fn cells_of_any_bytes_are_quoted_where_they_must(rt: HostRuntime) -> Result<(), Fail> {
    let texts = ["a,b", "say \"so\"", "one\rtwo", "\r\n", " bare \t"];
    let mut cells = CellList::new(rt.alloc());
    for text in texts {
        cells.push(Cell::Text(ByteList::from_bytes(rt.alloc(), text.as_bytes())?))?;
    }
    cells.push(Cell::Num(5))?;
    let mut outcome = empty_outcome(rt.alloc(), RunKind::Serial, 1);
    outcome.rows.push(Keyed {
        key: key_of(0, 3, 0, 0),
        row: Row::of(rt.alloc(), cells)?,
    })?;
    assert_eq!(rt;
        write_lines(rt.alloc(), &outcome)?.as_slice(),
        QUOTED.as_bytes()
    );
    Ok(())
}
