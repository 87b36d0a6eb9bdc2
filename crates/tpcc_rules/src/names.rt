//! The last names of customers (TPC-C 4.3.2.3, 2.5), and the draw that is not uniform (2.1.6).
ghost use Rattle.std.specs.Prelude.{◌≡◌, ◌≤◌, IfOk, List, ℕ, map, option_map, length};
ghost use Rattle.std.specs.List.{filter};
ghost use Rattle.tpcc_rules.specs.Names as names;
ghost use Rattle.tpcc_rules.specs.Tables.{c_first, c_last};
ghost use Rattle.tpcc_rules.specs.Columns as columns;

use crate::cells::text_at;
use crate::tables::{CUSTOMER, CUSTOMER_FIRST, CUSTOMER_LAST};
use deneva_base::{ByteList, Keyed, NoMemory};
use std::alloc::Global;
use std::cmp::Ordering;
use std::marker::Model;

fn syllable(digit: u16) -> &'static str
    ensures { result.now ≡ names.syllable digit }
{
    match digit {
        0 => "BAR",
        1 => "OUGHT",
        2 => "ABLE",
        3 => "PRI",
        4 => "PRES",
        5 => "ESE",
        6 => "ANTI",
        7 => "CALLY",
        8 => "ATION",
        9 => "EING",
        _ => "",
    }
}

/// The last name of a number from 0 to 999, of a syllable for each of its three digits (TPC-C 4.3.2.3). A number from
/// 1,000 on has no syllable for its hundreds.
pub fn last_name(alloc: Global, number: u16) -> Result<ByteList, NoMemory>
    ensures { IfOk result (λ name. name ≡ names.last_name number) }
{
    let mut name = ByteList::new(alloc);
    name.extend(syllable(number / 100).as_bytes())?;
    name.extend(syllable(number / 10 % 10).as_bytes())?;
    name.extend(syllable(number % 10).as_bytes())?;
    Ok(name)
}

/// NURand(`a`, `x`, `y`) of TPC-C 2.1.6 with the constant `c`: a number from `x` to `y` of a draw `first` from 0 to `a`
/// and a draw `second` from `x` to `y`. Where `y` is below `x` it is `x`.
pub fn nurand(_a: u32, x: u32, y: u32, c: u32, first: u32, second: u32) -> u32
    ensures { result ≡ names.nurand _a x y c first second }
{
    let count = u64::from(y.saturating_sub(x)) + 1;
    let place = (u64::from(first | second) + u64::from(c)) % count;
    (place + u64::from(x)) as u32
}

fn last_of(row: &Keyed) -> &[u8]
    ensures { result.now ≡ columns.text_at row.now.row c_last }
{
    text_at(row.row.as_slice(), CUSTOMER_LAST)
}

fn first_of(row: &Keyed) -> &[u8]
    ensures { result.now ≡ columns.text_at row.now.row c_first }
{
    text_at(row.row.as_slice(), CUSTOMER_FIRST)
}

fn last_name_place(row: &Keyed, w: u32, d: u32, last: &[u8]) -> Ordering
    ensures { result ≡ names.last_name_place row.now w d last.now }
{
    let by_district = row.key.a.cmp(&w).then(row.key.b.cmp(&d));
    match by_district {
        Ordering::Equal => last_of(row).cmp(last),
        decided => decided,
    }
}

fn first_name_order(row: &Keyed, other: &Keyed) -> Ordering
    ensures { result ≡ names.first_name_order row.now other.now }
{
    let by_first = first_of(row).cmp(first_of(other));
    by_first.then(row.key.c.cmp(&other.key.c))
}

fn name_order(row: &Keyed, other: &Keyed) -> Ordering
    ensures { result ≡ names.name_order row.now other.now }
{
    match last_name_place(row, other.key.a, other.key.b, last_of(other)) {
        Ordering::Equal => first_name_order(row, other),
        decided => decided,
    }
}

fn customers(alloc: Global, rows: &[Keyed]) -> Result<Vec<&Keyed>, NoMemory>
    ensures { IfOk result (λ list. map (λ r. r.now) list.items ≡ filter names.is_customer rows.now) }
{
    let mut list = Vec::new(alloc);
    for row in rows {
        if row.key.table == CUSTOMER {
            list.push(row)?;
        }
    }
    Ok(list)
}

/// The customers among some rows in the order of their names, which contracts see as the list of their rows: for finding
/// customers by last names without a scan.
#[derive(Debug, Drop)]
pub struct Namesakes<'r> {
    /// By warehouse, district, last name, first name and number.
    sorted: Vec<&'r Keyed>,
}

impl<'r> Model for Namesakes<'r> {
    ghost use Rattle.std.specs.Prelude.{List, map, ◌≡◌};
    ghost use Rattle.std.specs.List.{filter};
    ghost use Rattle.std.specs.List.Sorted.{IsSorted};
    ghost use Rattle.deneva_base.specs.declared.rows.Keyed.{Keyed};
    ghost use Rattle.tpcc_rules.specs.Names.{name_order, is_customer};

    ghost Value = { List Keyed };

    ghost view = { λ a. map (λ r. r.now) a.sorted.items };

    ghost invariant = { λ a. IsSorted name_order (map (λ r. r.now) a.sorted.items) × (filter is_customer (map (λ r. r.now) a.sorted.items) ≡ map (λ r. r.now) a.sorted.items) };
}

impl<'r> Namesakes<'r> {
    /// The customers among these rows.
    pub fn of(alloc: Global, rows: &'r [Keyed]) -> Result<Namesakes<'r>, NoMemory>
        ensures { IfOk result (λ n. (w d : ℕ) (last : List ℕ) → names.by_last_name n w d last ≡ names.by_last_name rows.now w d last) }
    {
        let mut sorted = customers(alloc, rows)?;
        sorted.sort_by(|row, other| name_order(row, other))?;
        Ok(Namesakes { sorted })
    }

    fn named(&self, w: u32, d: u32, last: &[u8]) -> &[&'r Keyed]
        ensures { map (λ r. r.now) result.now ≡ names.namesakes self.now w d last.now }
    {
        let sorted = self.sorted.as_slice();
        let low = sorted.partition_point(|row| last_name_place(row, w, d, last).is_lt());
        let (_, from_first) = sorted.split_at(low);
        let count = from_first.partition_point(|row| last_name_place(row, w, d, last).is_eq());
        &from_first[..count]
    }

    /// The number of the middle one of the customers of a district with a last name, by first names as bytes and then
    /// by number; of an even count of them the lower of the two in the middle (TPC-C 2.5.2.2). None where there is none.
    pub fn middle(&self, w: u32, d: u32, last: &[u8]) -> Option<u32>
        ensures { result ≡ names.by_last_name self.now w d last.now }
    {
        let named = self.named(w, d, last);
        let place = named.len().div_ceil(2).saturating_sub(1);
        let row = named.get(place)?;
        Some(row.key.c)
    }
}

/// The same of one name. It sorts the customers: for many names make a `Namesakes` once.
pub fn by_last_name(
    alloc: Global,
    customers: &[Keyed],
    w: u32,
    d: u32,
    last: &[u8],
) -> Result<Option<u32>, NoMemory>
    ensures { IfOk result (λ number. number ≡ names.by_last_name customers.now w d last.now) }
{
    let namesakes = Namesakes::of(alloc, customers)?;
    Ok(namesakes.middle(w, d, last))
}
