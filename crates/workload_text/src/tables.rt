//! The tables of TPC-C that a file loads.
ghost use Rattle.std.specs.Prelude.{◌≡◌, ◌≤◌, map};
ghost use Rattle.workload_text.specs.Tpcc as tpcc;
ghost use Rattle.workload_text.specs.declared.tables.Table.TheVariants.{Warehouse, District, Customer, Stock};

use crate::faults::Flaw;
use crate::fields::{field, is_word, number_at};
use deneva_base::Key;
use tpcc_rules::{customer_key, district_key, stock_key, warehouse_key};

/// A table whose rows a file loads (TPC-C 1.3).
#[derive(Clone, Copy, Debug, PartialEq, Eq)]
pub enum Table {
    Warehouse,
    District,
    Customer,
    Stock,
}

/// The table of whose rows this is the word.
pub fn table_of(word: &[u8]) -> Option<Table>
    ensures { result ≡ tpcc.table_of word.now }
{
    if is_word(word, "warehouse") {
        Some(Table::Warehouse)
    } else if is_word(word, "district") {
        Some(Table::District)
    } else if is_word(word, "customer") {
        Some(Table::Customer)
    } else if is_word(word, "stock") {
        Some(Table::Stock)
    } else {
        None
    }
}

/// The number of a warehouse, 1 to 65,535, at this field.
pub fn warehouse_at(fields: &[&[u8]], field_no: usize) -> Result<u32, Flaw>
    requires { 1 ≤ field_no }
    ensures { result ≡ tpcc.warehouse_at field_no (map (λ f. f.now) fields.now) }
{
    number_at(field_no, field(fields, field_no), 1, 65_535)
}

/// The number of a district, 1 to 100, at this field.
pub fn district_at(fields: &[&[u8]], field_no: usize) -> Result<u32, Flaw>
    requires { 1 ≤ field_no }
    ensures { result ≡ tpcc.district_at field_no (map (λ f. f.now) fields.now) }
{
    number_at(field_no, field(fields, field_no), 1, 100)
}

/// The number of a customer, 1 to 100,000, at this field.
pub fn customer_at(fields: &[&[u8]], field_no: usize) -> Result<u32, Flaw>
    requires { 1 ≤ field_no }
    ensures { result ≡ tpcc.customer_at field_no (map (λ f. f.now) fields.now) }
{
    number_at(field_no, field(fields, field_no), 1, 100_000)
}

/// The number of an item, 1 to 1,000,000, at this field.
pub fn item_at(fields: &[&[u8]], field_no: usize) -> Result<u32, Flaw>
    requires { 1 ≤ field_no }
    ensures { result ≡ tpcc.item_at field_no (map (λ f. f.now) fields.now) }
{
    number_at(field_no, field(fields, field_no), 1, 1_000_000)
}

impl Table {
    /// How many numbers a key has.
    pub fn width(self) -> usize
        ensures width { result ≡ tpcc.width_of self }
        ensures few { result ≤ 3 }
    {
        match self {
            Table::Warehouse => 1,
            Table::District | Table::Stock => 2,
            Table::Customer => 3,
        }
    }
}

fn warehouse_from(fields: &[&[u8]]) -> Result<Key, Flaw>
    ensures { result ≡ tpcc.key_from Warehouse (map (λ f. f.now) fields.now) }
{
    let w = warehouse_at(fields, 2)?;
    Ok(warehouse_key(w))
}

fn district_from(fields: &[&[u8]]) -> Result<Key, Flaw>
    ensures { result ≡ tpcc.key_from District (map (λ f. f.now) fields.now) }
{
    let w = warehouse_at(fields, 2)?;
    let d = district_at(fields, 3)?;
    Ok(district_key(w, d))
}

fn customer_from(fields: &[&[u8]]) -> Result<Key, Flaw>
    ensures { result ≡ tpcc.key_from Customer (map (λ f. f.now) fields.now) }
{
    let w = warehouse_at(fields, 2)?;
    let d = district_at(fields, 3)?;
    let c = customer_at(fields, 4)?;
    Ok(customer_key(w, d, c))
}

fn stock_from(fields: &[&[u8]]) -> Result<Key, Flaw>
    ensures { result ≡ tpcc.key_from Stock (map (λ f. f.now) fields.now) }
{
    let w = warehouse_at(fields, 2)?;
    let i = item_at(fields, 3)?;
    Ok(stock_key(w, i))
}

/// The key of a row of the table, which begins at field 2.
pub fn key_from(table: Table, fields: &[&[u8]]) -> Result<Key, Flaw>
    ensures { result ≡ tpcc.key_from table (map (λ f. f.now) fields.now) }
{
    match table {
        Table::Warehouse => warehouse_from(fields),
        Table::District => district_from(fields),
        Table::Customer => customer_from(fields),
        Table::Stock => stock_from(fields),
    }
}
