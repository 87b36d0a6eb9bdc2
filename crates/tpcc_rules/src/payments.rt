//! Payment (TPC-C 2.5).
ghost use Rattle.std.specs.Prelude.{◌≡◌, ◌++◌, IfOk, MatchOption, OnOk, true, false, codes, decimal, map, take, pos};
ghost use Rattle.std.specs.Fmt.{signed_decimal};
ghost use Rattle.tpcc_rules.specs.Columns.{fits_all};
ghost use Rattle.tpcc_rules.specs.Payments.{history, leaving, note, noted, paid, payment};
ghost use Rattle.tpcc_rules.specs.ReadRows.{as_read};
ghost use Rattle.tpcc_rules.specs.Effects as effects;
ghost use Rattle.tpcc_rules.specs.Tables as tables;

use crate::cells::{lowered_copy, number_at, raised_copy, raised_row, text_at};
use crate::columns::fits_all;
use crate::effects::{Effect, Reason, Verdict};
use crate::programs::Payment;
use crate::read_rows::{ReadRow, cells_of};
use crate::tables::{
    CUSTOMER, CUSTOMER_BALANCE, CUSTOMER_COUNT, CUSTOMER_CREDIT, CUSTOMER_DATA, CUSTOMER_YTD,
    DISTRICT, DISTRICT_NAME, DISTRICT_YTD, WAREHOUSE, WAREHOUSE_NAME, WAREHOUSE_YTD, columns_of,
    customer_key, district_key, history_key, warehouse_key,
};
use deneva_base::{ByteList, Cell, CellList, Key, Keyed, NoMemory, Row, RowList, TxnId};
use itoa::{Buffer, Integer};
use std::alloc::Global;

fn push_number<I: Integer>(text: &mut ByteList, number: I) -> Result<(), NoMemory>
    ensures { OnOk result (text.new ≡ text.old ++ I.text number ++ codes " ") }
{
    text.extend(Buffer::new().format(number).as_bytes())?;
    text.extend(b" ")
}

/// Puts three numbers, one space after each, at the end.
fn push_three(text: &mut ByteList, a: u32, b: u32, c: u32) -> Result<(), NoMemory>
    ensures { OnOk result (text.new ≡ text.old ++ (decimal a ++ codes " " ++ (decimal b ++ codes " " ++ (decimal c ++ codes " ")))) }
{
    push_number(text, a)?;
    push_number(text, b)?;
    push_number(text, c)
}

/// Puts two numbers and an amount likewise.
fn push_place(text: &mut ByteList, d: u32, w: u32, amount: i64) -> Result<(), NoMemory>
    ensures { OnOk result (text.new ≡ text.old ++ (decimal d ++ codes " " ++ (decimal w ++ codes " " ++ (signed_decimal amount ++ codes " ")))) }
{
    push_number(text, d)?;
    push_number(text, w)?;
    push_number(text, amount)
}

/// What is noted in the data of a customer with bad credit.
fn note_of(alloc: Global, p: &Payment) -> Result<ByteList, NoMemory>
    ensures { IfOk result (λ text. text ≡ note p.now) }
{
    let mut text = ByteList::new(alloc);
    push_three(&mut text, p.c, p.cd, p.cw)?;
    push_place(&mut text, p.d, p.w, p.amount)?;
    Ok(text)
}

/// The cells of a customer, with the note in his data where his credit is bad.
fn noted_cells(alloc: Global, p: &Payment, cells: CellList) -> Result<CellList, NoMemory>
    ensures { IfOk result (λ new. new ≡ noted p.now cells) }
{
    if text_at(cells.as_slice(), CUSTOMER_CREDIT) != b"BC".as_slice() {
        return Ok(cells);
    }
    let mut text = note_of(alloc, p)?;
    text.extend(text_at(cells.as_slice(), CUSTOMER_DATA))?;
    let mut text = text.into_vec();
    text.truncate(500);
    let mut cells = cells.into_vec();
    if cells.len() > CUSTOMER_DATA {
        cells[CUSTOMER_DATA] = Cell::Text(ByteList::of(text));
    }
    Ok(CellList::of(cells))
}

/// The row of a customer after his payment, and none where it would not be well formed.
pub fn customer_copy(
    alloc: Global,
    p: &Payment,
    cells: &[Cell],
) -> Result<Option<CellList>, NoMemory>
    ensures { IfOk result (λ copy. MatchOption copy (fits_all (tables.columns 3) (paid p.now cells.now) ≡ false)
        (λ new. (new ≡ paid p.now cells.now) × (fits_all (tables.columns 3) new ≡ true))) }
{
    let Some(cells) = lowered_copy(alloc, cells, CUSTOMER_BALANCE, p.amount)? else {
        return Ok(None);
    };
    let Some(cells) = raised_copy(alloc, cells.as_slice(), CUSTOMER_YTD, p.amount)? else {
        return Ok(None);
    };
    let Some(cells) = raised_copy(alloc, cells.as_slice(), CUSTOMER_COUNT, 1)? else {
        return Ok(None);
    };
    let cells = noted_cells(alloc, p, cells)?;
    if fits_all(columns_of(CUSTOMER), cells.as_slice()) {
        Ok(Some(cells))
    } else {
        Ok(None)
    }
}

/// The row of HISTORY.
fn history_row(
    alloc: Global,
    id: TxnId,
    p: &Payment,
    warehouse: &[u8],
    district: &[u8],
) -> Result<Row, NoMemory>
    ensures { IfOk result (λ row. row ≡ history id p.now warehouse.now district.now) }
{
    let mut name = ByteList::from_bytes(alloc, warehouse)?;
    name.extend(b"    ")?;
    name.extend(district)?;
    let cells = vec![in alloc;
        Cell::Num(i64::from(p.c)),
        Cell::Num(i64::from(p.cd)),
        Cell::Num(i64::from(p.cw)),
        Cell::Num(i64::from(p.d)),
        Cell::Num(i64::from(p.w)),
        Cell::Num(i64::from(id.0)),
        Cell::Num(p.amount),
        Cell::Text(name),
    ]?;
    Row::of(alloc, CellList::of(cells))
}

/// An effect that is rolled back.
pub fn rolled_back(alloc: Global, reason: Reason) -> Effect
    ensures { result ≡ effects.rolled_back reason }
{
    Effect {
        verdict: Verdict::Rollback(reason),
        writes: RowList::new(alloc),
        appends: RowList::new(alloc),
        answer: 0,
    }
}

/// A row with its key.
pub fn keyed(alloc: Global, key: Key, cells: CellList) -> Result<Keyed, NoMemory>
    ensures { IfOk result (λ r. r ≡ record { key = key; row = cells }) }
{
    let row = Row::of(alloc, cells)?;
    Ok(Keyed { key, row })
}

/// The effect of a payment that leaves these rows and this history.
fn paid_effect(
    alloc: Global,
    id: TxnId,
    p: &Payment,
    warehouse: CellList,
    district: CellList,
    customer: CellList,
    history: Row,
) -> Result<Effect, NoMemory>
    ensures { IfOk result (λ e. e ≡ leaving id p.now warehouse district customer history) }
{
    let answer = number_at(customer.as_slice(), CUSTOMER_BALANCE);
    let writes = vec![in alloc;
        keyed(alloc, warehouse_key(p.w), warehouse)?,
        keyed(alloc, district_key(p.w, p.d), district)?,
        keyed(alloc, customer_key(p.cw, p.cd, p.c), customer)?,
    ]?;
    let appends = vec![in alloc;
        Keyed {
            key: history_key(p.w, id.0),
            row: history
        },
    ]?;
    Ok(Effect {
        verdict: Verdict::Commit,
        writes: RowList::of(writes),
        appends: RowList::of(appends),
        answer,
    })
}

/// What a payment makes of the rows that it reads, whatever they are.
pub fn payment_effect(
    alloc: Global,
    id: TxnId,
    p: &Payment,
    rows: &[ReadRow<'_>],
) -> Result<Effect, NoMemory>
    ensures { IfOk result (λ e. e ≡ payment id p.now (map as_read rows.now)) }
{
    let at_warehouse = warehouse_key(p.w);
    let at_district = district_key(p.w, p.d);
    let at_customer = customer_key(p.cw, p.cd, p.c);
    let warehouse = cells_of(rows, at_warehouse);
    let district = cells_of(rows, at_district);
    let Some(new_warehouse) = raised_row(alloc, WAREHOUSE, warehouse, WAREHOUSE_YTD, p.amount)?
    else {
        return Ok(rolled_back(alloc, Reason::Range { key: at_warehouse }));
    };
    let Some(new_district) = raised_row(alloc, DISTRICT, district, DISTRICT_YTD, p.amount)? else {
        return Ok(rolled_back(alloc, Reason::Range { key: at_district }));
    };
    let Some(new_customer) = customer_copy(alloc, p, cells_of(rows, at_customer))? else {
        return Ok(rolled_back(alloc, Reason::Range { key: at_customer }));
    };
    let name = text_at(warehouse, WAREHOUSE_NAME);
    let history = history_row(alloc, id, p, name, text_at(district, DISTRICT_NAME))?;
    paid_effect(
        alloc,
        id,
        p,
        new_warehouse,
        new_district,
        new_customer,
        history,
    )
}
