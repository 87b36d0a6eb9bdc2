//! A new order of one item in two lines, to the last cell, one from another warehouse, one of an unused item, and one whose
//! district has no number left.
use crate::{
    Item, ItemList, Line, LineList, NewOrder, Reason, Verdict, customer_key, district_key,
    line_key, new_order_effect, new_order_key, order_key, rows_lying, stock_key, stock_keys,
    warehouse_key,
};
use deneva_base::{ByteList, Cell, CellList, Key, Keyed, NoMemory, Row, RowList, TxnId};
use std::alloc::Global;
use std::test::Fail;

fn item(number: u32) -> Item {
    Item {
        number,
        price: 250,
        original: true,
    }
}

fn line(item: u32, supplier: u32) -> Line {
    Line {
        item,
        supplier,
        quantity: 5,
    }
}

fn order(alloc: Global, lines: &[Line]) -> Result<NewOrder, NoMemory> {
    Ok(NewOrder {
        w: 1,
        d: 1,
        c: 1,
        lines: LineList::copy_of(alloc, lines)?,
    })
}

fn text(alloc: Global, bytes: &[u8]) -> Result<Cell, NoMemory> {
    Ok(Cell::Text(ByteList::from_bytes(alloc, bytes)?))
}

fn keyed(alloc: Global, key: Key, cells: Vec<Cell>) -> Result<Keyed, NoMemory> {
    let row = Row::of(alloc, CellList::of(cells))?;
    Ok(Keyed { key, row })
}

fn warehouse(alloc: Global) -> Result<Keyed, NoMemory> {
    let cells = vec![in alloc; text(alloc, b"west")?, Cell::Num(1_000), Cell::Num(0)]?;
    keyed(alloc, warehouse_key(1), cells)
}

fn district(alloc: Global, next: i64) -> Result<Keyed, NoMemory> {
    let cells = vec![in alloc;
        text(alloc, b"north")?,
        Cell::Num(500),
        Cell::Num(0),
        Cell::Num(next),
    ]?;
    keyed(alloc, district_key(1, 1), cells)
}

fn customer(alloc: Global) -> Result<Keyed, NoMemory> {
    let cells = vec![in alloc;
        text(alloc, b"ANN")?,
        text(alloc, b"BARBARBAR")?,
        text(alloc, b"GC")?,
        Cell::Num(2_000),
        Cell::Num(0),
        Cell::Num(0),
        Cell::Num(0),
        text(alloc, b"x")?,
    ]?;
    keyed(alloc, customer_key(1, 1, 1), cells)
}

/// The stock of item 1 at a warehouse, with its four numbers.
fn stock(alloc: Global, w: u32, numbers: [i64; 4], data: &[u8]) -> Result<Keyed, NoMemory> {
    let [quantity, ytd, orders, remotes] = numbers;
    let cells = vec![in alloc;
        Cell::Num(quantity),
        Cell::Num(ytd),
        Cell::Num(orders),
        Cell::Num(remotes),
        text(alloc, data)?,
    ]?;
    keyed(alloc, stock_key(w, 1), cells)
}

/// The four rows that an order of item 1 from warehouse `w` reads.
fn rows(alloc: Global, next: i64, w: u32, quantity: i64, data: &[u8]) -> Result<RowList, NoMemory> {
    Ok(RowList::of(vec![in alloc;
        warehouse(alloc)?,
        district(alloc, next)?,
        customer(alloc)?,
        stock(alloc, w, [quantity, 0, 0, 0], data)?,
    ]?))
}

fn order_line(alloc: Global, key: Key, w: i64, letter: &[u8]) -> Result<Keyed, NoMemory> {
    let cells = vec![in alloc;
        Cell::Num(1),
        Cell::Num(w),
        Cell::Num(5),
        Cell::Num(1_250),
        text(alloc, letter)?,
    ]?;
    keyed(alloc, key, cells)
}

/// The rows of ORDER and NEW-ORDER.
fn heads(alloc: Global, lines: i64, all_local: i64) -> Result<Vec<Keyed>, NoMemory> {
    let cells = vec![in alloc;
        Cell::Num(1),
        Cell::Num(9),
        Cell::Num(lines),
        Cell::Num(all_local),
    ]?;
    Ok(vec![in alloc;
        keyed(alloc, order_key(1, 1, 3_001), cells)?,
        keyed(alloc, new_order_key(1, 1, 3_001), Vec::new(alloc))?,
    ]?)
}

#[test]
fn two_lines_take_from_one_stock(rt: HostRuntime) -> Result<(), Fail> {
    let alloc = rt.alloc();
    let items = ItemList::copy_of(alloc, &[item(1), item(2)])?;
    let order = order(alloc, &[line(1, 1), line(1, 1)])?;
    let rows = rows(alloc, 3_001, 1, 20, b"xORIGINALx")?;
    let read = rows_lying(alloc, rows.as_slice())?;
    let effect = new_order_effect(alloc, &items, TxnId(9), &order, &read)?;
    let writes = vec![in alloc;
        district(alloc, 3_002)?,
        stock(alloc, 1, [10, 10, 2, 0], b"xORIGINALx")?,
    ]?;
    let mut appends = RowList::of(heads(alloc, 2, 1)?);
    appends.push(order_line(alloc, line_key(1, 1, 3_001, 1), 1, b"B")?)?;
    appends.push(order_line(alloc, line_key(1, 1, 3_001, 2), 1, b"B")?)?;
    assert_eq!(rt; effect.verdict, Verdict::Commit);
    assert_eq!(rt; effect.writes, RowList::of(writes));
    assert_eq!(rt; effect.appends, appends);
    assert_eq!(rt; effect.answer, 2_300);
    Ok(())
}

#[test]
fn a_stock_of_another_warehouse_is_refilled(rt: HostRuntime) -> Result<(), Fail> {
    let alloc = rt.alloc();
    let items = ItemList::copy_of(alloc, &[item(1)])?;
    let order = order(alloc, &[line(1, 2)])?;
    let rows = rows(alloc, 3_001, 2, 14, b"ORIGINA")?;
    let read = rows_lying(alloc, rows.as_slice())?;
    let effect = new_order_effect(alloc, &items, TxnId(9), &order, &read)?;
    let writes = vec![in alloc;
        district(alloc, 3_002)?,
        stock(alloc, 2, [100, 5, 1, 1], b"ORIGINA")?,
    ]?;
    let mut appends = RowList::of(heads(alloc, 1, 0)?);
    appends.push(order_line(alloc, line_key(1, 1, 3_001, 1), 2, b"G")?)?;
    assert_eq!(rt; effect.verdict, Verdict::Commit);
    assert_eq!(rt; effect.writes, RowList::of(writes));
    assert_eq!(rt; effect.appends, appends);
    assert_eq!(rt; effect.answer, 1_150);
    Ok(())
}

#[test]
fn an_unused_item_in_the_last_line_rolls_back(rt: HostRuntime) -> Result<(), Fail> {
    let alloc = rt.alloc();
    let items = ItemList::copy_of(alloc, &[item(1)])?;
    let order = order(alloc, &[line(1, 1), line(2, 1)])?;
    let rows = rows(alloc, 3_001, 1, 20, b"")?;
    let read = rows_lying(alloc, rows.as_slice())?;
    let effect = new_order_effect(alloc, &items, TxnId(9), &order, &read)?;
    let reason = Reason::UnusedItem { item: 2 };
    assert_eq!(rt; effect.verdict, Verdict::Rollback(reason));
    assert!(rt; effect.writes.is_empty());
    assert!(rt; effect.appends.is_empty());
    let keys = stock_keys(alloc, &items, order.lines.as_slice())?;
    assert!(rt; keys == vec![in alloc; stock_key(1, 1)]?);
    Ok(())
}

#[test]
fn a_district_without_a_number_left_rolls_back(rt: HostRuntime) -> Result<(), Fail> {
    let alloc = rt.alloc();
    let items = ItemList::copy_of(alloc, &[item(1)])?;
    let order = order(alloc, &[line(1, 1)])?;
    let rows = rows(alloc, 200_000_000, 1, 20, b"")?;
    let read = rows_lying(alloc, rows.as_slice())?;
    let effect = new_order_effect(alloc, &items, TxnId(9), &order, &read)?;
    let key = district_key(1, 1);
    assert_eq!(rt; effect.verdict, Verdict::Rollback(Reason::Range { key }));
    assert!(rt; effect.writes.is_empty());
    Ok(())
}

#[test]
fn items_are_found_in_any_order(rt: HostRuntime) -> Result<(), Fail> {
    let alloc = rt.alloc();
    let rising = ItemList::copy_of(alloc, &[item(1), item(3), item(8)])?;
    let falling = ItemList::copy_of(alloc, &[item(8), item(3), item(8)])?;
    assert_eq!(rt; rising.find(8), Some(&item(8)));
    assert_eq!(rt; rising.find(2), None);
    assert_eq!(rt; falling.find(3), Some(&item(3)));
    assert!(rt; rising.has(3));
    assert!(rt; rising.has_own_numbers());
    assert!(rt; !falling.has_own_numbers());
    assert_eq!(rt; falling.len(), 3);
    Ok(())
}
