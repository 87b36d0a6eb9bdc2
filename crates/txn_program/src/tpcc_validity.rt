//! Which rows, items, payments and orders of TPC-C are valid.
ghost use Rattle.std.specs.Prelude.{◌≡◌, map};
ghost use Rattle.std.specs.List.{list_all, list_any};
ghost use Rattle.deneva_base.specs.declared.rows.Keyed as keyed;
ghost use Rattle.txn_program.specs.Valid as valid;

use deneva_base::{Cell, Key, Keyed};
use tpcc_rules::{Item, Line, is_loaded_row};

fn is_between(low: u32, high: u32, number: u32) -> bool
    ensures { result ≡ valid.is_between low high number }
{
    low <= number && number <= high
}

fn is_warehouse(number: u32) -> bool
    ensures { result ≡ valid.is_warehouse number }
{
    is_between(1, 65_535, number)
}

fn is_district(number: u32) -> bool
    ensures { result ≡ valid.is_district number }
{
    is_between(1, 100, number)
}

fn is_customer(number: u32) -> bool
    ensures { result ≡ valid.is_customer number }
{
    is_between(1, 100_000, number)
}

fn is_item(number: u32) -> bool
    ensures { result ≡ valid.is_item number }
{
    is_between(1, 1_000_000, number)
}

/// Whether the key is one of a table that is loaded.
fn is_tpcc_key(key: Key) -> bool
    ensures { result ≡ valid.is_tpcc_key key }
{
    is_warehouse(key.a)
        && match key.table {
            1 => key.b == 0 && key.c == 0,
            2 => is_district(key.b) && key.c == 0,
            3 => is_district(key.b) && is_customer(key.c),
            4 => is_item(key.b) && key.c == 0,
            _ => false,
        }
}

fn fits_row(keyed: &Keyed) -> bool
    ensures { result ≡ valid.is_tpcc_row keyed.now }
{
    let row = keyed.row.as_slice();
    is_tpcc_key(keyed.key) && is_loaded_row(keyed.key, row)
}

/// Whether each row is one that a load of TPC-C may have.
pub(crate) fn fit_rows(rows: &[Keyed]) -> bool
    ensures { result ≡ list_all valid.is_tpcc_row rows.now }
{
    rows.iter().all(|keyed| fits_row(keyed))
}

fn fits_item(item: &Item) -> bool
    ensures { result ≡ valid.is_valid_item item.now }
{
    is_item(item.number) && 0 <= item.price && item.price <= 1_000_000
}

/// Whether each item's number and price are in their ranges.
pub(crate) fn fit_items(items: &[Item]) -> bool
    ensures { result ≡ list_all valid.is_valid_item items.now }
{
    items.iter().all(|item| fits_item(item))
}

/// Whether the numbers of a line are in their ranges.
pub(crate) fn fits_numbers(line: &Line) -> bool
    ensures { result ≡ valid.is_line_of_numbers line.now }
{
    is_item(line.item) && is_warehouse(line.supplier) && 1 <= line.quantity && line.quantity <= 10
}
