//! The stock rows of a new order (TPC-C 2.4.2.2).
ghost use Rattle.std.specs.Prelude.{◌≡◌, ◌++◌, ◌<◌, ◌^◌, All, IfOk, MatchOption, MatchResult, Some, None, false, map, option_map, pos, slice_set, true};
ghost use Rattle.std.specs.List.{find, list_any};
ghost use Rattle.deneva_base.specs.Keys.{key_eq};
ghost use Rattle.deneva_base.specs.declared.rows.Cell.TheVariants.{Num};
ghost use Rattle.tpcc_rules.specs.Columns as columns;
ghost use Rattle.tpcc_rules.specs.Effects.{raised, whole};
ghost use Rattle.tpcc_rules.specs.NewOrders as orders;
ghost use Rattle.tpcc_rules.specs.NewOrders.{after_lines, is_great, is_past, is_out_of_range, stock_after, stock_of, stocks, supplied};
ghost use Rattle.tpcc_rules.specs.ReadRows.{as_read};

use crate::cells::number_at;
use crate::items::ItemList;
use crate::programs::{Line, NewOrder};
use crate::read_rows::{ReadRow, cells_of};
use crate::tables::{
    STOCK_ORDERS, STOCK_QUANTITY, STOCK_REMOTES, STOCK_YTD, is_table_row, stock_key,
};
use deneva_base::{Cell, CellList, Key, Keyed, NoMemory, Row, RowList};
use std::alloc::Global;

pub fn stock_key_of(line: &Line) -> Key
    ensures { result ≡ stock_of line.now }
{
    stock_key(line.supplier, line.item)
}

fn has_key(keys: &[Key], key: Key) -> bool
    ensures { result ≡ list_any (λ k. key_eq k key) keys.now }
{
    keys.iter().any(|k| *k == key)
}

/// The keys of the stock rows that the lines take from: each once, in the order of the lines, and none for a line whose
/// item is not loaded.
pub fn stock_keys(alloc: Global, items: &ItemList, lines: &[Line]) -> Result<Vec<Key>, NoMemory>
    ensures { IfOk result (λ keys. keys.items ≡ stocks items.now lines.now) }
{
    let mut keys = Vec::new(alloc);
    for line in lines {
        let key = stock_key_of(line);
        if items.has(line.item) && !has_key(&keys, key) {
            keys.push(key)?;
        }
    }
    Ok(keys)
}

/// Raises the number at a place, unless it would leave 64 bits.
fn raise(cells: &mut Vec<Cell>, place: usize, by: u8) -> bool
    ensures ok { result ≡ true → cells.new.items ≡ raised place (pos by) cells.old.items }
    ensures past { result ≡ false → is_great (columns.number_at (raised place (pos by) cells.old.items) place) ≡ true }
{
    let Some(number) = number_at(cells, place).checked_add(i64::from(by)) else {
        return false;
    };
    if place < cells.len() {
        cells[place] = Cell::Num(number);
    }
    true
}

/// What is left of a quantity, with the refill.
fn left_after(there: u64, quantity: u8) -> u64
    requires { there < 2 ^ 63 }
    ensures left { result ≡ orders.left_after there quantity }
    ensures small { result < 2 ^ 63 }
{
    let quantity = u64::from(quantity);
    if there >= quantity + 10 {
        there - quantity
    } else {
        (there + 91).saturating_sub(quantity)
    }
}

/// A whole number, and 0 for a negative one.
pub fn whole_of(number: i64) -> u64
    ensures whole { result ≡ whole number }
    ensures small { result < 2 ^ 63 }
{
    u64::try_from(number).unwrap_or(0)
}

fn take_quantity(cells: &mut Vec<Cell>, quantity: u8)
    ensures { cells.new.items ≡ slice_set cells.old.items 0 (Num (pos (orders.left_after (whole (columns.number_at cells.old.items 0)) quantity))) }
{
    let left = left_after(whole_of(number_at(cells, STOCK_QUANTITY)), quantity);
    if !cells.is_empty() {
        cells[STOCK_QUANTITY] = Cell::Num(left as i64);
    }
}

/// What a line of an order of warehouse `w` makes of a stock row, unless a number would leave 64 bits.
fn supply(cells: &mut Vec<Cell>, w: u32, line: &Line) -> bool
    ensures ok { result ≡ true → cells.new.items ≡ supplied w cells.old.items line.now }
    ensures past { result ≡ false → is_past (supplied w cells.old.items line.now) ≡ true }
{
    take_quantity(cells, line.quantity);
    if !raise(cells, STOCK_YTD, line.quantity) {
        return false;
    }
    if !raise(cells, STOCK_ORDERS, 1) {
        return false;
    }
    line.supplier == w || raise(cells, STOCK_REMOTES, 1)
}

fn takes_from(line: &Line, key: Key) -> bool
    ensures { result ≡ key_eq (stock_of line.now) key }
{
    stock_key_of(line) == key
}

/// The cells of a stock row after the lines, and none where a number would leave 64 bits.
fn supplied_cells(
    alloc: Global,
    order: &NewOrder,
    key: Key,
    cells: &[Cell],
) -> Result<Option<CellList>, NoMemory>
    ensures { IfOk result (λ copy. MatchOption copy (is_past (after_lines order.now.w order.now.lines key cells.now) ≡ true)
        (λ new. new ≡ after_lines order.now.w order.now.lines key cells.now)) }
{
    let mut cells = CellList::copy_of(alloc, cells)?.into_vec();
    for line in order.lines.as_slice() {
        if takes_from(line, key) && !supply(&mut cells, order.w, line) {
            return Ok(None);
        }
    }
    Ok(Some(CellList::of(cells)))
}

/// The stock row of a key after the order, and none where it would not be well formed.
fn stock_row(
    alloc: Global,
    order: &NewOrder,
    key: Key,
    rows: &[ReadRow<'_>],
) -> Result<Option<Keyed>, NoMemory>
    requires { key.table ≡ 4 }
    ensures { IfOk result (λ row. MatchOption row (is_out_of_range (stock_after order.now (map as_read rows.now) key) ≡ true)
        (λ r. (r ≡ stock_after order.now (map as_read rows.now) key) × (is_out_of_range r ≡ false))) }
{
    let Some(cells) = supplied_cells(alloc, order, key, cells_of(rows, key))? else {
        return Ok(None);
    };
    if !is_table_row(key, cells.as_slice()) {
        return Ok(None);
    }
    let row = Row::of(alloc, cells)?;
    Ok(Some(Keyed { key, row }))
}

/// The stock rows of these keys after the order, in their order, or the key of the first that would not be well formed.
pub fn stock_rows(
    alloc: Global,
    order: &NewOrder,
    keys: &[Key],
    rows: &[ReadRow<'_>],
) -> Result<Result<RowList, Key>, NoMemory>
    requires { All (λ k. k.table ≡ 4) keys.now }
    ensures { IfOk result (λ made. MatchResult made
        (λ list. (list ≡ map (stock_after order.now (map as_read rows.now)) keys.now)
        × (find is_out_of_range (map (stock_after order.now (map as_read rows.now)) keys.now) ≡ None))
        (λ key. option_map (λ r. r.key) (find is_out_of_range (map (stock_after order.now (map as_read rows.now)) keys.now)) ≡ Some key)) }
{
    let mut list = RowList::with_capacity(alloc, keys.len())?;
    for key in keys {
        match stock_row(alloc, order, *key, rows)? {
            Some(row) => list.push(row)?,
            None => return Ok(Err(*key)),
        }
    }
    Ok(Ok(list))
}
