//! A transaction that is refused at each of its turns, and the one after it.
ghost use Rattle.std.specs.Prelude.{◌≡◌, ◌≤◌, List, ◌∷◌, [], IfOk};
ghost use Rattle.server_core.specs.declared.messages.Msg as messages;
ghost use Rattle.coord.specs.Standing.{Coordinates, role_of};
ghost use Rattle.coord.specs.Trials.{FitInTurn, one_field, one_read, two_reads};

use crate::Coord;
use deneva_base::{
    Attempt, ByteList, Cause, Cell, CellList, Config, Key, Keyed, Mode, NoMemory, Protocol, Row,
    RowList, TxnId,
};
use server_core::{Mail, Msg, Outbox};
use std::alloc::Global;
use std::test::Fail;
use txn_program::{
    ItemList, Load, Program, ProgramList, StepList, WorkKind, Workload, YcsbAct, YcsbStep,
};

const KEY: Key = Key {
    table: 0,
    a: 1,
    b: 0,
    c: 0,
};

const fn attempt(txn: u32, turn: u8) -> Attempt
    ensures { result ≡ record { txn = record { 0 = txn }; turn = turn } }
{
    Attempt {
        txn: TxnId(txn),
        turn,
    }
}

fn row_of(alloc: Global, a: u32) -> Result<Keyed, NoMemory>
    ensures { IfOk result (λ r. r ≡ one_field a) }
{
    let mut cells = CellList::new(alloc);
    cells.push(Cell::Text(ByteList::new(alloc)))?;
    let row = Row::of(alloc, cells)?;
    let key = Key {
        table: 0,
        a,
        b: 0,
        c: 0,
    };
    Ok(Keyed { key, row })
}

fn program_of(alloc: Global, a: u32) -> Result<Program, NoMemory>
    ensures { IfOk result (λ p. p ≡ one_read a) }
{
    let mut steps = StepList::new(alloc);
    steps.push(YcsbStep {
        key: a,
        act: YcsbAct::Read,
    })?;
    Ok(Program::Ycsb(steps))
}

/// Two transactions, each of which reads one row.
fn two_reads_of(alloc: Global, a: u32, b: u32) -> Result<Workload, NoMemory>
    ensures { IfOk result (λ w. w ≡ two_reads a b) }
{
    let mut rows = RowList::new(alloc);
    rows.push(row_of(alloc, a)?)?;
    rows.push(row_of(alloc, b)?)?;
    let mut programs = ProgramList::new(alloc);
    programs.push(program_of(alloc, a)?)?;
    programs.push(program_of(alloc, b)?)?;
    let load = Load {
        kind: WorkKind::Ycsb,
        fields: 1,
        rows,
        items: ItemList::new(alloc),
    };
    Ok(Workload { load, programs })
}

/// Has the coordinator handle these messages.
fn handle_all(coord: &mut Coord, msgs: &[Msg], out: &mut Outbox) -> Result<(), NoMemory>
    requires { (ms : List messages.Msg) × (Coordinates coord.old ms × FitInTurn (role_of coord.old) ms msgs.now) }
{
    for msg in msgs {
        coord.step(msg, out)?;
    }
    Ok(())
}

/// What node 1 of three says where its first transaction is refused at both of its turns, by writes of these numbers.
fn mails_of_refusals(alloc: Global, limit: u8) -> Result<Outbox, NoMemory>
    requires some { 1 ≤ limit }
    requires few { limit ≤ 64 }
{
    let work = two_reads_of(alloc, 1, 4)?;
    let config = Config {
        protocol: Protocol::Timestamp,
        parts: 3,
        attempts: 2,
        limit,
    };
    let mut coord = Coord::begin(alloc, config, 1, false, &work)?;
    let mut out = Outbox::new(alloc);
    let first = attempt(1, 1);
    let second = attempt(1, 2);
    let msgs = [
        Msg::Start { who: first },
        Msg::Refused {
            who: first,
            key: KEY,
            cause: Cause::Written {
                key: KEY,
                stamp: 100,
            },
        },
        Msg::Undone {
            who: first,
            part: 1,
        },
        Msg::Start { who: second },
        Msg::Refused {
            who: second,
            key: KEY,
            cause: Cause::Written {
                key: KEY,
                stamp: 110,
            },
        },
        Msg::Undone {
            who: second,
            part: 1,
        },
    ];
    handle_all(&mut coord, &msgs, &mut out)?;
    Ok(out)
}

/// The stamp of the second turn is the first of node 1 above 100: 34 * 3 + 1 + 1. Where one transaction is open at a time,
/// the next begins when the first is given up; where two are, both began at first.
#[test]
fn a_refused_transaction_restarts_and_is_given_up(rt: HostRuntime) -> Result<(), Fail> {
    let alloc = rt.alloc();
    let ask = |who, stamp| Msg::Ask {
        who,
        stamp,
        key: KEY,
        mode: Mode::Read,
    };
    let expected = [
        ask(attempt(1, 1), 2),
        Msg::Abort { who: attempt(1, 1) },
        Msg::Start { who: attempt(1, 2) },
        ask(attempt(1, 2), 104),
        Msg::Abort { who: attempt(1, 2) },
        Msg::Start { who: attempt(2, 1) },
    ];
    let one_open = mails_of_refusals(alloc, 1)?;
    let two_open = mails_of_refusals(alloc, 2)?;
    assert_eq!(rt; one_open.len(), 6);
    assert_eq!(rt; two_open.len(), 5);
    for (place, msg) in expected.into_iter().enumerate() {
        let mail = Mail {
            from: 1,
            to: 1,
            msg,
        };
        if place < one_open.len() {
            assert_eq!(rt; one_open.get(place), &mail);
        }
        if place < two_open.len() {
            assert_eq!(rt; two_open.get(place), &mail);
        }
    }
    Ok(())
}
