//! What the records of a file of TPC-C say.
ghost use Rattle.std.specs.Prelude.{◌≡◌, ◌<◌, ◌≤◌, ◌+◌, ◌-◌, ◌*◌, ◌^◌, map, length};
ghost use Rattle.workload_text.specs.Gives.{Gives};
ghost use Rattle.workload_text.specs.Reader.{work_of};
ghost use Rattle.workload_text.specs.Tpcc as tpcc;

use crate::cells::{columns_of, row_from};
use crate::faults::{FaultKind, Flaw, RecordError};
use crate::fields::{field, flaw, flaw_error, integer_at};
use crate::orders::ordered_from;
use crate::originals::is_original;
use crate::payments::{Naming, Payer, Places, naming_of, payer_from, places_from};
use crate::reading::{Reading, is_sold, too_many};
use crate::said::Said;
use crate::tables::{Table, item_at, key_from};
use deneva_base::Key;
use std::alloc::Global;
use tpcc_rules::{customer_key, district_key, stock_key, warehouse_key};
use txn_program::{Item, Line, NewOrder, Payment, Program};

/// The most items that a file may have.
const ITEM_LIMIT: u32 = 100_000;

/// The most lines that an order may have.
const LINE_LIMIT: u32 = 15;

/// What a row of a table says.
pub fn table_row_said(
    alloc: Global,
    reading: &Reading,
    table: Table,
    fields: &[&[u8]],
) -> Result<Said, RecordError>
    requires { length fields.now < 2 ^ 63 }
    ensures { Gives result (tpcc.before_runs (work_of reading.now) (tpcc.row_from table (work_of reading.now) (map (λ f. f.now) fields.now))) }
{
    if !reading.programs.is_empty() {
        return Err(flaw_error(1, FaultKind::Kind));
    }
    let columns = columns_of(table);
    if fields.len() != 1 + table.width() + columns.len() {
        return Err(flaw_error(0, FaultKind::Arity));
    }
    let key = key_from(table, fields)?;
    let row = row_from(alloc, 2 + table.width(), columns, fields)?;
    let said = reading.row_of(1 + table.width(), key, row)?;
    Ok(said)
}

/// What an item says that was read.
fn sold(reading: &Reading, item: Item) -> Result<Said, Flaw>
    ensures { result ≡ tpcc.item_of (work_of reading.now) item }
{
    if is_sold(&reading.items, item.number) {
        return Err(flaw(2, FaultKind::Repeated));
    }
    if reading.items.len() >= ITEM_LIMIT as usize {
        return Err(flaw(0, too_many(ITEM_LIMIT)));
    }
    Ok(Said::Sells(item))
}

/// The item of a record.
fn item_from(fields: &[&[u8]]) -> Result<Item, Flaw>
    ensures { result ≡ tpcc.item_from (map (λ f. f.now) fields.now) }
{
    if fields.len() != 4 {
        return Err(flaw(0, FaultKind::Arity));
    }
    let number = item_at(fields, 2)?;
    let price = integer_at(3, field(fields, 3), 0, 1_000_000)?;
    let text = field(fields, 4);
    if text.len() > 50 {
        return Err(flaw(4, FaultKind::OutOfRange));
    }
    Ok(Item {
        number,
        price,
        original: is_original(text),
    })
}

/// What a record with the word `item` says.
pub fn item_said(reading: &Reading, fields: &[&[u8]]) -> Result<Said, Flaw>
    ensures { result ≡ tpcc.before_runs (work_of reading.now) (tpcc.sold_by (work_of reading.now) (map (λ f. f.now) fields.now)) }
{
    if !reading.programs.is_empty() {
        return Err(flaw(1, FaultKind::Kind));
    }
    let item = item_from(fields)?;
    sold(reading, item)
}

/// Whether the key that this field ends is loaded.
fn known_at(reading: &Reading, field_no: usize, key: Key) -> Result<(), Flaw>
    ensures { result ≡ tpcc.known_at (work_of reading.now) field_no key }
{
    if reading.rows.has(key) {
        Ok(())
    } else {
        Err(flaw(field_no, FaultKind::UnknownKey))
    }
}

/// Whether a transaction's warehouse and district are loaded.
fn place_known(reading: &Reading, w: u32, d: u32) -> Result<(), Flaw>
    ensures { result ≡ tpcc.place_known (work_of reading.now) w d }
{
    known_at(reading, 2, warehouse_key(w))?;
    known_at(reading, 3, district_key(w, d))
}

/// The number of the customer who pays: of several of one last name the middle one (TPC-C 2.5.2.2).
fn payer_of(
    alloc: Global,
    reading: &mut Reading,
    places: Places,
    payer: &Payer,
) -> Result<u32, RecordError>
    ensures number { Gives result (tpcc.payer_of (work_of reading.old) places.cw places.cd payer.now) }
    ensures same { reading.new ≡ reading.old }
{
    match payer {
        Payer::Numbered(number) => {
            known_at(reading, 7, customer_key(places.cw, places.cd, *number))?;
            Ok(*number)
        }
        Payer::Named(last) => {
            let rows = &mut reading.rows;
            match rows.customer_named(alloc, places.cw, places.cd, last.as_slice())? {
                Some(number) => Ok(number),
                None => Err(flaw_error(7, FaultKind::UnknownKey)),
            }
        }
    }
}

/// What a payment says whose fields were read.
fn paid(
    alloc: Global,
    reading: &mut Reading,
    places: Places,
    payer: &Payer,
    amount: i64,
) -> Result<Said, RecordError>
    ensures said { Gives result (tpcc.payment_of (work_of reading.old) places payer.now amount) }
    ensures same { reading.new ≡ reading.old }
{
    place_known(reading, places.w, places.d)?;
    let number = payer_of(alloc, reading, places, payer)?;
    let said = reading.run_of(Program::Payment(Payment {
        w: places.w,
        d: places.d,
        cw: places.cw,
        cd: places.cd,
        c: number,
        amount,
    }))?;
    Ok(said)
}

/// What a payment's record says, where its customer is named so.
fn payment_named(
    alloc: Global,
    reading: &mut Reading,
    naming: Naming,
    fields: &[&[u8]],
) -> Result<Said, RecordError>
    ensures said { Gives result (tpcc.payment_by (work_of reading.old) (map (λ f. f.now) fields.now) naming) }
    ensures same { reading.new ≡ reading.old }
{
    if fields.len() != 8 {
        return Err(flaw_error(0, FaultKind::Arity));
    }
    let places = places_from(fields)?;
    let payer = payer_from(alloc, naming, fields)?;
    let amount = integer_at(8, field(fields, 8), 1, 500_000)?;
    paid(alloc, reading, places, &payer, amount)
}

/// What a record with the word `payment` says.
pub fn payment_said(
    alloc: Global,
    reading: &mut Reading,
    fields: &[&[u8]],
) -> Result<Said, RecordError>
    ensures said { Gives result (tpcc.payment_from (work_of reading.old) (map (λ f. f.now) fields.now)) }
    ensures same { reading.new ≡ reading.old }
{
    if fields.len() < 6 {
        return Err(flaw_error(0, FaultKind::Arity));
    }
    match naming_of(field(fields, 6)) {
        Some(naming) => payment_named(alloc, reading, naming, fields),
        None => Err(flaw_error(6, FaultKind::Kind)),
    }
}

/// Whether the stock of a line whose item is loaded is loaded too, where the line begins at this field.
fn stock_known(reading: &Reading, field_no: usize, line: Line) -> Result<(), Flaw>
    requires { field_no < 2 ^ 64 - 1 }
    ensures { result ≡ tpcc.stock_known (work_of reading.now) field_no line }
{
    if is_sold(&reading.items, line.item) {
        known_at(reading, field_no + 1, stock_key(line.supplier, line.item))
    } else {
        Ok(())
    }
}

/// Whether the stocks of an order's lines are loaded, which begin at field 5.
fn stocks_known(reading: &Reading, lines: &[Line]) -> Result<(), Flaw>
    requires { 5 + 3 * length lines.now < 2 ^ 64 }
    ensures { result ≡ tpcc.stocks_known (work_of reading.now) 5 lines.now }
{
    for (place, line) in lines.iter().enumerate() {
        stock_known(reading, 5 + 3 * place, *line)?;
    }
    Ok(())
}

/// What an order says whose fields were read.
fn ordered(reading: &Reading, order: NewOrder) -> Result<Said, Flaw>
    requires { 5 + 3 * length order.lines < 2 ^ 64 }
    ensures { result ≡ tpcc.order_of (work_of reading.now) order }
{
    place_known(reading, order.w, order.d)?;
    known_at(reading, 4, customer_key(order.w, order.d, order.c))?;
    stocks_known(reading, order.lines.as_slice())?;
    if order.lines.len() > LINE_LIMIT as usize {
        return Err(flaw(0, too_many(LINE_LIMIT)));
    }
    reading.run_of(Program::NewOrder(order))
}

/// What a record with the word `neworder` says.
pub fn order_said(alloc: Global, reading: &Reading, fields: &[&[u8]]) -> Result<Said, RecordError>
    requires { length fields.now < 2 ^ 63 }
    ensures { Gives result (tpcc.order_from (work_of reading.now) (map (λ f. f.now) fields.now)) }
{
    if fields.len() < 7 || (fields.len() - 4) % 3 != 0 {
        return Err(flaw_error(0, FaultKind::Arity));
    }
    let order = ordered_from(alloc, fields)?;
    let said = ordered(reading, order)?;
    Ok(said)
}
