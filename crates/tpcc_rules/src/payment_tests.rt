//! A payment by a customer of bad credit, to the last cell, and one that leaves its range.
use crate::{
    Payment, Reason, Verdict, customer_key, district_key, history_key, payment_effect, rows_lying,
    warehouse_key,
};
use deneva_base::{ByteList, Cell, CellList, Key, Keyed, NoMemory, Row, RowList, TxnId};
use std::alloc::Global;
use std::test::Fail;

const PAYMENT: Payment = Payment {
    w: 1,
    d: 2,
    cw: 3,
    cd: 4,
    c: 5,
    amount: 7,
};

fn text(alloc: Global, bytes: &[u8]) -> Result<Cell, NoMemory> {
    Ok(Cell::Text(ByteList::from_bytes(alloc, bytes)?))
}

fn keyed(alloc: Global, key: Key, cells: Vec<Cell>) -> Result<Keyed, NoMemory> {
    let row = Row::of(alloc, CellList::of(cells))?;
    Ok(Keyed { key, row })
}

fn warehouse(alloc: Global, ytd: i64) -> Result<Keyed, NoMemory> {
    let cells = vec![in alloc; text(alloc, b"west")?, Cell::Num(0), Cell::Num(ytd)]?;
    keyed(alloc, warehouse_key(1), cells)
}

fn district(alloc: Global, ytd: i64) -> Result<Keyed, NoMemory> {
    let cells = vec![in alloc;
        text(alloc, b"north")?,
        Cell::Num(0),
        Cell::Num(ytd),
        Cell::Num(3_001),
    ]?;
    keyed(alloc, district_key(1, 2), cells)
}

fn customer(
    alloc: Global,
    balance: i64,
    ytd: i64,
    count: i64,
    data: &[u8],
) -> Result<Keyed, NoMemory> {
    let cells = vec![in alloc;
        text(alloc, b"ANN")?,
        text(alloc, b"BARBARBAR")?,
        text(alloc, b"BC")?,
        Cell::Num(0),
        Cell::Num(balance),
        Cell::Num(ytd),
        Cell::Num(count),
        text(alloc, data)?,
    ]?;
    keyed(alloc, customer_key(3, 4, 5), cells)
}

fn history(alloc: Global) -> Result<Keyed, NoMemory> {
    let cells = vec![in alloc;
        Cell::Num(5),
        Cell::Num(4),
        Cell::Num(3),
        Cell::Num(2),
        Cell::Num(1),
        Cell::Num(9),
        Cell::Num(7),
        text(alloc, b"west    north")?,
    ]?;
    keyed(alloc, history_key(1, 9), cells)
}

fn rows(alloc: Global, balance: i64) -> Result<RowList, NoMemory> {
    Ok(RowList::of(vec![in alloc;
        warehouse(alloc, 100)?,
        district(alloc, 200)?,
        customer(alloc, balance, 5, 1, b"old")?,
    ]?))
}

#[test]
fn a_customer_of_bad_credit_pays(rt: HostRuntime) -> Result<(), Fail> {
    let alloc = rt.alloc();
    let rows = rows(alloc, 10)?;
    let read = rows_lying(alloc, rows.as_slice())?;
    let effect = payment_effect(alloc, TxnId(9), &PAYMENT, &read)?;
    let writes = vec![in alloc;
        warehouse(alloc, 107)?,
        district(alloc, 207)?,
        customer(alloc, 3, 12, 2, b"5 4 3 2 1 7 old")?,
    ]?;
    assert_eq!(rt; effect.verdict, Verdict::Commit);
    assert_eq!(rt; effect.writes, RowList::of(writes));
    assert_eq!(rt;
        effect.appends,
        RowList::of(vec![in alloc; history(alloc)?]?)
    );
    assert_eq!(rt; effect.answer, 3);
    Ok(())
}

#[test]
fn a_balance_at_its_end_rolls_back(rt: HostRuntime) -> Result<(), Fail> {
    let alloc = rt.alloc();
    let rows = rows(alloc, i64::MIN)?;
    let read = rows_lying(alloc, rows.as_slice())?;
    let effect = payment_effect(alloc, TxnId(9), &PAYMENT, &read)?;
    let key = customer_key(3, 4, 5);
    assert_eq!(rt; effect.verdict, Verdict::Rollback(Reason::Range { key }));
    assert!(rt; effect.writes.is_empty());
    assert!(rt; effect.appends.is_empty());
    Ok(())
}
