//! Which workloads are valid.
ghost use Rattle.std.specs.Prelude.{◌≡◌, ◌&&◌, true, map};
ghost use Rattle.std.specs.List.{list_all, list_any};
ghost use Rattle.deneva_base.specs.Keys.{key_eq};
ghost use Rattle.deneva_base.specs.Rising.{keys_rise, rise_after};
ghost use Rattle.deneva_base.specs.Rows.{has_key};
ghost use Rattle.txn_program.specs.Transactions.{ycsb_key};
ghost use Rattle.txn_program.specs.Valid.{are_distinct, is_row, is_text_cell, is_tpcc_load, is_valid, is_valid_act, is_valid_load, is_valid_program, is_valid_row, is_valid_step, is_ycsb_key, is_ycsb_load};
ghost use Rattle.txn_program.specs.Valid as valid;
ghost use Rattle.tpcc_rules.specs.NewOrders.{is_loaded};

use crate::accesses::ycsb_key_of;
use crate::programs::{Load, Program, WorkKind, Workload, YcsbAct, YcsbStep};
use crate::tpcc_validity::{fit_items, fit_rows, fits_numbers};
use deneva_base::{Cell, Key, Keyed};
use tpcc_rules::{Line, NewOrder, Payment, customer_key, district_key, stock_key, warehouse_key};

fn fits_cell(cell: &Cell) -> bool
    ensures { result ≡ is_text_cell cell.now }
{
    match cell {
        Cell::Num(_) => false,
        Cell::Text(text) => text.len() <= 100,
    }
}

fn are_texts(row: &[Cell]) -> bool
    ensures { result ≡ list_all is_text_cell row.now }
{
    row.iter().all(|cell| fits_cell(cell))
}

/// Whether the row has a text for each field.
fn fits_row(fields: u8, row: &[Cell]) -> bool
    ensures { result ≡ is_row fields row.now }
{
    row.len() == usize::from(fields) && are_texts(row)
}

/// Whether the key is that of some YCSB row.
fn is_row_key(key: Key) -> bool
    ensures { result ≡ is_ycsb_key key }
{
    key.table == 0 && key.b == 0 && key.c == 0
}

fn fits_keyed(fields: u8, keyed: &Keyed) -> bool
    ensures { result ≡ is_valid_row fields keyed.now }
{
    is_row_key(keyed.key) && fits_row(fields, keyed.row.as_slice())
}

fn fits_rows(fields: u8, rows: &[Keyed]) -> bool
    ensures { result ≡ list_all (is_valid_row fields) rows.now }
{
    rows.iter().all(|keyed| fits_keyed(fields, keyed))
}

/// Whether a row of so many fields can take what the step writes.
fn fits_act(fields: u8, act: &YcsbAct) -> bool
    ensures { result ≡ is_valid_act fields act.now }
{
    match act {
        YcsbAct::Read => true,
        YcsbAct::Update(put) => put.field < fields && put.text.len() <= 100,
        YcsbAct::Put(row) => fits_row(fields, row.as_slice()),
    }
}

/// Whether the keys of the rows strictly rise from `key`, without it.
fn rises_after(key: Key, rows: &[Keyed]) -> bool
    ensures { result ≡ rise_after key rows.now }
{
    let mut last = key;
    for row in rows {
        if last >= row.key {
            return false;
        }
        last = row.key;
    }
    true
}

fn rises(rows: &[Keyed]) -> bool
    ensures { result ≡ keys_rise rows.now }
{
    match rows {
        [] => true,
        [first, rest @ ..] => rises_after(first.key, rest),
    }
}

fn has_row(rows: &[Keyed], key: Key) -> bool
    ensures { result ≡ has_key rows.now key }
{
    rows.iter().any(|row| row.key == key)
}

/// Whether no two rows have one key, found by comparing each with each.
fn rows_are_apart(rows: &[Keyed]) -> bool
    ensures { result ≡ are_distinct (map (λ r. r.key) rows.now) }
{
    for (index, row) in rows.iter().enumerate() {
        if has_row(&rows[index + 1..], row.key) {
            return false;
        }
    }
    true
}

fn has_step(steps: &[YcsbStep], key: Key) -> bool
    ensures { result ≡ list_any (λ step. key_eq (ycsb_key step.key) key) steps.now }
{
    steps.iter().any(|step| ycsb_key_of(step.key) == key)
}

fn steps_are_apart(steps: &[YcsbStep]) -> bool
    ensures { result ≡ are_distinct (map (λ step. ycsb_key step.key) steps.now) }
{
    for (index, step) in steps.iter().enumerate() {
        if has_step(&steps[index + 1..], ycsb_key_of(step.key)) {
            return false;
        }
    }
    true
}

/// Whether some row has this key, found by halves where the keys strictly rise.
fn has_rising_row(rows: &[Keyed], key: Key) -> bool
    requires { keys_rise rows.now ≡ true }
    ensures { result ≡ has_key rows.now key }
{
    rows.binary_search_by_key(&key, |row| row.key).is_ok()
}

/// A load, and whether the keys of its rows strictly rise: where they do, each key is looked up by halves.
#[derive(Drop)]
struct LoadView<'a> {
    load: &'a Load,
    rising: bool,
    ghost order: { rising ≡ keys_rise load.now.rows },
}

impl<'a> LoadView<'a> {
    fn of(load: &'a Load) -> LoadView<'a>
        ensures { result.load.now ≡ load.now }
    {
        LoadView {
            load,
            rising: rises(load.rows.as_slice()),
        }
    }

    fn has(&self, key: Key) -> bool
        ensures { result ≡ has_key self.now.load.now.rows key }
    {
        let rows = self.load.rows.as_slice();
        if self.rising {
            has_rising_row(rows, key)
        } else {
            has_row(rows, key)
        }
    }

    fn are_rows_apart(&self) -> bool
        ensures { result ≡ are_distinct (map (λ r. r.key) self.now.load.now.rows) }
    {
        self.rising || rows_are_apart(self.load.rows.as_slice())
    }

    /// Whether the load is one of YCSB.
    fn fits_ycsb(&self) -> bool
        ensures { result ≡ is_ycsb_load self.now.load.now }
    {
        let rows = self.load.rows.as_slice();
        let fields = self.load.fields;
        (1 <= fields && fields <= 10)
            && (rows.len() <= 1_000_000 && fits_rows(fields, rows) && self.are_rows_apart())
            && self.load.items.len() == 0
    }

    /// Whether the load is one of TPC-C.
    fn fits_tpcc(&self) -> bool
        ensures { result ≡ is_tpcc_load self.now.load.now }
    {
        let rows = self.load.rows.as_slice();
        let items = &self.load.items;
        self.load.fields == 0
            && (rows.len() <= 1_000_000 && fit_rows(rows) && self.are_rows_apart())
            && items.len() <= 100_000
            && fit_items(items.as_slice())
            && items.has_own_numbers()
    }

    /// Whether the load is valid.
    fn fits(&self) -> bool
        ensures { result ≡ is_valid_load self.now.load.now }
    {
        match self.load.kind {
            WorkKind::Ycsb => self.fits_ycsb(),
            WorkKind::Tpcc => self.fits_tpcc(),
        }
    }

    fn fits_step(&self, step: &YcsbStep) -> bool
        ensures { result ≡ is_valid_step self.now.load.now step.now }
    {
        self.has(ycsb_key_of(step.key)) && fits_act(self.load.fields, &step.act)
    }

    fn fits_steps(&self, steps: &[YcsbStep]) -> bool
        ensures { result ≡ list_all (is_valid_step self.now.load.now) steps.now }
    {
        steps.iter().all(|step| self.fits_step(step))
    }

    fn has_district(&self, w: u32, d: u32) -> bool
        ensures { result ≡ valid.has_district self.now.load.now w d }
    {
        self.has(warehouse_key(w)) && self.has(district_key(w, d))
    }

    fn has_customer(&self, w: u32, d: u32, c: u32) -> bool
        ensures { result ≡ valid.has_customer self.now.load.now w d c }
    {
        self.has(customer_key(w, d, c))
    }

    fn fits_payment(&self, payment: &Payment) -> bool
        ensures { result ≡ valid.is_valid_payment self.now.load.now payment.now }
    {
        1 <= payment.amount
            && payment.amount <= 500_000
            && self.has_district(payment.w, payment.d)
            && self.has_customer(payment.cw, payment.cd, payment.c)
    }

    /// Whether the line's item is loaded.
    #[tactic(auto, using(crate::proofs::Found::some_found))]
    fn has_item(&self, line: &Line) -> bool
        ensures { result ≡ is_loaded self.now.load.now.items line.now }
    {
        self.load.items.find(line.item).is_some()
    }

    fn fits_line(&self, line: &Line) -> bool
        ensures { result ≡ valid.is_valid_line self.now.load.now line.now }
    {
        fits_numbers(line)
            && (!self.has_item(line) || self.has(stock_key(line.supplier, line.item)))
    }

    fn fits_lines(&self, lines: &[Line]) -> bool
        ensures { result ≡ list_all (valid.is_valid_line self.now.load.now) lines.now }
    {
        lines.iter().all(|line| self.fits_line(line))
    }

    fn fits_order(&self, order: &NewOrder) -> bool
        ensures { result ≡ valid.is_valid_order self.now.load.now order.now }
    {
        let lines = order.lines.as_slice();
        (1 <= lines.len() && lines.len() <= 15)
            && self.fits_lines(lines)
            && self.has_district(order.w, order.d)
            && self.has_customer(order.w, order.d, order.c)
    }

    fn fits_program(&self, program: &Program) -> bool
        ensures { result ≡ is_valid_program self.now.load.now program.now }
    {
        match program {
            Program::Ycsb(steps) => {
                1 <= steps.len()
                    && steps.len() <= 16
                    && self.fits_steps(steps.as_slice())
                    && steps_are_apart(steps.as_slice())
            }
            Program::Payment(payment) => self.fits_payment(payment),
            Program::NewOrder(order) => self.fits_order(order),
        }
    }

    fn fits_programs(&self, programs: &[Program]) -> bool
        ensures { result ≡ list_all (is_valid_program self.now.load.now) programs.now }
    {
        programs.iter().all(|program| self.fits_program(program))
    }
}

/// Whether some file gives this workload: at most 1,000,000 rows, each with a key of its own, and at most 10,000
/// transactions.
///
/// A load of YCSB has 1 to 10 fields and rows of so many texts; each transaction has 1 to 16 steps, each on a loaded
/// key that no other step of its transaction has. A load of TPC-C has rows of the tables 1 to 4 and at most 100,000 items,
/// each with a number of its own, all with numbers in their ranges; a payment and an order name a
/// district with its warehouse and a customer that are loaded, and an order has 1 to 15 lines. A line may name an item
/// that is not loaded; if it is loaded, so is its stock at the supplier.
///
/// Where the keys of the rows and the numbers of the items strictly rise, as a reader of files leaves them, this takes one
/// pass over them and a binary search for each access; else its time grows with the square of their number.
pub fn valid(work: &Workload) -> bool
    ensures { result ≡ is_valid work.now }
{
    let load = LoadView::of(&work.load);
    load.fits() && work.programs.len() <= 10_000 && load.fits_programs(work.programs.as_slice())
}
