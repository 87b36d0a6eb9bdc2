//! NewOrder (TPC-C 2.4).
ghost use Rattle.std.specs.Prelude.{◌≡◌, ◌≤◌, ◌<◌, ◌^◌, All, IfOk, MatchOption, MatchResult, Some, None, false, true, map, not, option_map, pos, take, length};
ghost use Rattle.std.specs.List.{find, list_any};
ghost use Rattle.deneva_base.specs.Rows.{row_at};
ghost use Rattle.tpcc_rules.specs.Columns as columns;
ghost use Rattle.tpcc_rules.specs.Columns.{fits_all};
ghost use Rattle.tpcc_rules.specs.Effects.{raised, whole};
ghost use Rattle.tpcc_rules.specs.Items.{item_numbered};
ghost use Rattle.tpcc_rules.specs.NewOrders as orders;
ghost use Rattle.tpcc_rules.specs.NewOrders.{is_loaded, is_out_of_range, is_remote, new_order, written_rows};
ghost use Rattle.tpcc_rules.specs.ReadRows.{as_read};
ghost use Rattle.tpcc_rules.specs.Tables as tables;

use crate::cells::{number_at, raised_row, text_at};
use crate::effects::{Effect, Reason, Verdict};
use crate::items::ItemList;
use crate::payments::{keyed, rolled_back};
use crate::programs::{Line, NewOrder};
use crate::read_rows::{ReadRow, cells_of};
use crate::stocks::{stock_key_of, stock_keys, stock_rows, whole_of};
use crate::tables::{
    CUSTOMER_DISCOUNT, DISTRICT, DISTRICT_NEXT, DISTRICT_TAX, STOCK_DATA, WAREHOUSE_TAX,
    customer_key, district_key, line_key, new_order_key, order_key, warehouse_key,
};
use deneva_base::{ByteList, Cell, CellList, Key, Keyed, NoMemory, Row, RowList, TxnId};
use std::alloc::Global;

/// The first line whose item is not loaded.
fn first_unused(items: &ItemList, lines: &[Line]) -> Option<Line>
    ensures { result ≡ find (λ line. not (is_loaded items.now line)) lines.now }
{
    for line in lines {
        if !items.has(line.item) {
            return Some(*line);
        }
    }
    None
}

/// The lines that are written down and cost something.
fn lines_of(order: &NewOrder) -> &[Line]
    ensures lines { result.now ≡ orders.lines_of order.now }
    ensures few { length result.now ≤ 15 }
{
    let lines = order.lines.as_slice();
    if lines.len() > 15 {
        &lines[..15]
    } else {
        lines
    }
}

/// Whether bytes hold these bytes somewhere.
fn includes(needle: &[u8], bytes: &[u8]) -> bool
    ensures { result ≡ orders.includes needle.now bytes.now }
{
    let mut rest = bytes;
    while !rest.starts_with(needle) {
        match rest.split_first() {
            Some((_, more)) => rest = more,
            None => return false,
        }
    }
    true
}

/// The price of an item in cents.
fn price_of(items: &ItemList, number: u32) -> u64
    ensures price { result ≡ orders.price_of (item_numbered items.now number) }
    ensures small { result ≤ 1000000 }
{
    match items.find(number) {
        Some(item) => whole_of(item.price).min(1_000_000),
        None => 0,
    }
}

/// What a line costs.
fn amount_of(items: &ItemList, line: &Line) -> u64
    ensures amount { result ≡ orders.amount_of items.now line.now }
    ensures small { result ≤ 255000000 }
{
    u64::from(line.quantity) * price_of(items, line.item)
}

/// What the lines cost together.
fn sum_of(items: &ItemList, lines: &[Line]) -> u64
    requires { length lines.now ≤ 15 }
    ensures sum { result ≡ orders.sum_of items.now lines.now }
    ensures small { result ≤ 3825000000 }
{
    let mut sum = 0;
    for line in lines {
        sum += amount_of(items, line);
    }
    sum
}

/// A tax or a discount of a row, in ten-thousandths.
fn rate_at(cells: &[Cell], place: usize) -> u64
    ensures rate { result ≡ orders.rate_at cells.now place }
    ensures small { result ≤ 10000 }
{
    whole_of(number_at(cells, place)).min(10_000)
}

/// The total in cents: the discount is taken off, the taxes are added, and what is less than a cent is dropped.
fn total(items: &ItemList, order: &NewOrder, rows: &[ReadRow<'_>]) -> u64
    ensures total { result ≡ orders.total items.now order.now (row_at (map as_read rows.now) (tables.warehouse_key order.now.w))
        (row_at (map as_read rows.now) (tables.district_key order.now.w order.now.d)) (row_at (map as_read rows.now) (tables.customer_key order.now.w order.now.d order.now.c)) }
    ensures small { result < 2 ^ 63 }
{
    let warehouse = cells_of(rows, warehouse_key(order.w));
    let district = cells_of(rows, district_key(order.w, order.d));
    let customer = cells_of(rows, customer_key(order.w, order.d, order.c));
    let sum = sum_of(items, lines_of(order));
    let discounted = sum * (10_000 - rate_at(customer, CUSTOMER_DISCOUNT));
    let taxed = 10_000 + rate_at(warehouse, WAREHOUSE_TAX) + rate_at(district, DISTRICT_TAX);
    discounted * taxed / 100_000_000
}

fn is_original(items: &ItemList, number: u32) -> bool
    ensures { result ≡ orders.is_original (item_numbered items.now number) }
{
    match items.find(number) {
        Some(item) => item.original,
        None => false,
    }
}

/// `B` for a line whose item and stock are both original, else `G`.
fn letter_of(items: &ItemList, rows: &[ReadRow<'_>], line: &Line) -> &'static [u8]
    ensures { result.now ≡ orders.letter_of items.now (map as_read rows.now) line.now }
{
    let data = text_at(cells_of(rows, stock_key_of(line)), STOCK_DATA);
    if is_original(items, line.item) && includes(b"ORIGINAL", data) {
        b"B"
    } else {
        b"G"
    }
}

/// The row of ORDER-LINE of a line.
fn line_row(
    alloc: Global,
    items: &ItemList,
    rows: &[ReadRow<'_>],
    line: &Line,
) -> Result<Row, NoMemory>
    ensures { IfOk result (λ row. row ≡ orders.line_row items.now (map as_read rows.now) line.now) }
{
    let letter = ByteList::from_bytes(alloc, letter_of(items, rows, line))?;
    let cells = vec![in alloc;
        Cell::Num(i64::from(line.item)),
        Cell::Num(i64::from(line.supplier)),
        Cell::Num(i64::from(line.quantity)),
        Cell::Num(amount_of(items, line) as i64),
        Cell::Text(letter),
    ]?;
    Row::of(alloc, CellList::of(cells))
}

/// The rows of ORDER-LINE of an order with this number.
fn line_rows(
    alloc: Global,
    items: &ItemList,
    rows: &[ReadRow<'_>],
    order: &NewOrder,
    number: u32,
) -> Result<RowList, NoMemory>
    requires { number < 200000000 }
    ensures { IfOk result (λ list. list ≡ orders.line_rows items.now (map as_read rows.now) order.now number 1 (orders.lines_of order.now)) }
{
    let lines = lines_of(order);
    let mut list = RowList::with_capacity(alloc, lines.len())?;
    for (index, line) in lines.iter().enumerate() {
        let key = line_key(order.w, order.d, number, index as u32 + 1);
        let row = line_row(alloc, items, rows, line)?;
        list.push(Keyed { key, row })?;
    }
    Ok(list)
}

fn has_remote(w: u32, lines: &[Line]) -> bool
    ensures { result ≡ list_any (is_remote w) lines.now }
{
    lines.iter().any(|line| line.supplier != w)
}

/// The row of ORDER.
fn order_row(alloc: Global, id: TxnId, order: &NewOrder) -> Result<Row, NoMemory>
    ensures { IfOk result (λ row. row ≡ orders.order_row id order.now) }
{
    let lines = order.lines.as_slice();
    let all_local = if has_remote(order.w, lines) { 0 } else { 1 };
    let cells = vec![in alloc;
        Cell::Num(i64::from(order.c)),
        Cell::Num(i64::from(id.0)),
        Cell::Num(lines.len() as i64),
        Cell::Num(all_local),
    ]?;
    Row::of(alloc, CellList::of(cells))
}

/// The rows that an order with this number appends: those of ORDER and NEW-ORDER, and those of its lines.
fn appended_rows(
    alloc: Global,
    items: &ItemList,
    id: TxnId,
    order: &NewOrder,
    rows: &[ReadRow<'_>],
    number: u32,
) -> Result<RowList, NoMemory>
    requires { number < 200000000 }
    ensures { IfOk result (λ list. list ≡ orders.appended_rows items.now id order.now (map as_read rows.now) number) }
{
    let row = order_row(alloc, id, order)?;
    let heads = vec![in alloc;
        Keyed {
            key: order_key(order.w, order.d, number),
            row,
        },
        keyed(
            alloc,
            new_order_key(order.w, order.d, number),
            CellList::new(alloc)
        )?,
    ]?;
    let mut list = RowList::of(heads);
    list.append(line_rows(alloc, items, rows, order, number)?)?;
    Ok(list)
}

/// The district's next number, and its cells with the one after it, unless no row of the table has them.
fn next_number(alloc: Global, district: &[Cell]) -> Result<Option<(u32, CellList)>, NoMemory>
    ensures { IfOk result (λ next. MatchOption next (fits_all (tables.columns 2) (raised tables.d_next (pos 1) district.now) ≡ false)
        (λ p. (p.0 ≡ whole (columns.number_at district.now tables.d_next)) × (p.0 < 200000000)
        × (p.1 ≡ raised tables.d_next (pos 1) district.now) × (fits_all (tables.columns 2) p.1 ≡ true))) }
{
    let Some(cells) = raised_row(alloc, DISTRICT, district, DISTRICT_NEXT, 1)? else {
        return Ok(None);
    };
    let number = whole_of(number_at(district, DISTRICT_NEXT));
    Ok(Some((number as u32, cells)))
}

/// The order's number and the rows that it writes, or the key of the first of them that would not be well formed.
fn number_and_writes(
    alloc: Global,
    order: &NewOrder,
    keys: &[Key],
    rows: &[ReadRow<'_>],
) -> Result<Result<(u32, RowList), Key>, NoMemory>
    requires { All (λ k. k.table ≡ 4) keys.now }
    ensures { IfOk result (λ made. MatchResult made
        (λ p. (p.0 ≡ whole (columns.number_at (row_at (map as_read rows.now) (tables.district_key order.now.w order.now.d)) tables.d_next)) × (p.0 < 200000000)
        × (p.1 ≡ written_rows order.now (map as_read rows.now) keys.now) × (find is_out_of_range (written_rows order.now (map as_read rows.now) keys.now) ≡ None))
        (λ key. option_map (λ r. r.key) (find is_out_of_range (written_rows order.now (map as_read rows.now) keys.now)) ≡ Some key)) }
{
    let at_district = district_key(order.w, order.d);
    let Some((number, cells)) = next_number(alloc, cells_of(rows, at_district))? else {
        return Ok(Err(at_district));
    };
    let mut writes = RowList::of(vec![in alloc; keyed(alloc, at_district, cells)?]?);
    match stock_rows(alloc, order, keys, rows)? {
        Ok(stocks) => {
            writes.append(stocks)?;
            Ok(Ok((number, writes)))
        }
        Err(key) => Ok(Err(key)),
    }
}

/// What a new order makes of the rows that it reads, whatever they are: it takes the district's next number, takes its lines
/// from the stock rows, and answers its total in cents. It is rolled back where an item is not loaded, and where a row
/// that it writes would not be well formed.
pub fn new_order_effect(
    alloc: Global,
    items: &ItemList,
    id: TxnId,
    order: &NewOrder,
    rows: &[ReadRow<'_>],
) -> Result<Effect, NoMemory>
    ensures { IfOk result (λ e. e ≡ new_order items.now id order.now (map as_read rows.now)) }
{
    let lines = order.lines.as_slice();
    if let Some(line) = first_unused(items, lines) {
        return Ok(rolled_back(alloc, Reason::UnusedItem { item: line.item }));
    }
    let keys = stock_keys(alloc, items, lines)?;
    match number_and_writes(alloc, order, &keys, rows)? {
        Ok((number, writes)) => Ok(Effect {
            verdict: Verdict::Commit,
            writes,
            appends: appended_rows(alloc, items, id, order, rows, number)?,
            answer: total(items, order, rows) as i64,
        }),
        Err(key) => Ok(rolled_back(alloc, Reason::Range { key })),
    }
}
