//! The cells of a row.
ghost use Rattle.std.specs.Prelude.{◌≡◌, ◌+ℤ◌, ◌-ℤ◌, FitsSigned, IfOk, MatchOption, slice_get, true, false};
ghost use Rattle.std.specs.Int.{w64};
ghost use Rattle.tpcc_rules.specs.Columns as columns;
ghost use Rattle.tpcc_rules.specs.Columns.{fits_all, is_narrow};
ghost use Rattle.tpcc_rules.specs.Effects.{lowered, raised};
ghost use Rattle.tpcc_rules.specs.Tables as tables;

use crate::columns::fits_all;
use crate::tables::columns_of;
use deneva_base::{Cell, CellList, NoMemory};
use std::alloc::Global;

/// The number at a place, and 0 where there is none.
pub fn number_at(cells: &[Cell], place: usize) -> i64
    ensures { result ≡ columns.number_at cells.now place }
{
    match cells.get(place) {
        Some(Cell::Num(number)) => *number,
        _ => 0,
    }
}

/// The text at a place, and no bytes where there is none.
pub fn text_at(cells: &[Cell], place: usize) -> &[u8]
    ensures { result.now ≡ columns.text_at cells.now place }
{
    match cells.get(place) {
        Some(Cell::Text(text)) => text.as_slice(),
        _ => &[],
    }
}

/// A copy of the cells in which the number at a place is raised, and none where it would leave 64 bits.
pub fn raised_copy(
    alloc: Global,
    cells: &[Cell],
    place: usize,
    by: i64,
) -> Result<Option<CellList>, NoMemory>
    ensures { IfOk result (λ copy. MatchOption copy (FitsSigned w64 (columns.number_at cells.now place +ℤ by) → ⊥) (λ new. new ≡ raised place by cells.now)) }
{
    let Some(number) = number_at(cells, place).checked_add(by) else {
        return Ok(None);
    };
    let mut copy = CellList::copy_of(alloc, cells)?.into_vec();
    if place < copy.len() {
        copy[place] = Cell::Num(number);
    }
    Ok(Some(CellList::of(copy)))
}

/// The same with the number lowered.
pub fn lowered_copy(
    alloc: Global,
    cells: &[Cell],
    place: usize,
    by: i64,
) -> Result<Option<CellList>, NoMemory>
    ensures { IfOk result (λ copy. MatchOption copy (FitsSigned w64 (columns.number_at cells.now place -ℤ by) → ⊥) (λ new. new ≡ lowered place by cells.now)) }
{
    let Some(number) = number_at(cells, place).checked_sub(by) else {
        return Ok(None);
    };
    let mut copy = CellList::copy_of(alloc, cells)?.into_vec();
    if place < copy.len() {
        copy[place] = Cell::Num(number);
    }
    Ok(Some(CellList::of(copy)))
}

/// The cells of a row of a table with the number at a place raised, and none where no row of the table has them.
pub fn raised_row(
    alloc: Global,
    table: u8,
    cells: &[Cell],
    place: usize,
    by: i64,
) -> Result<Option<CellList>, NoMemory>
    requires { is_narrow (slice_get (tables.columns table) place) ≡ true }
    ensures { IfOk result (λ copy. MatchOption copy (fits_all (tables.columns table) (raised place by cells.now) ≡ false)
        (λ new. (new ≡ raised place by cells.now) × (fits_all (tables.columns table) new ≡ true))) }
{
    let Some(copy) = raised_copy(alloc, cells, place, by)? else {
        return Ok(None);
    };
    if fits_all(columns_of(table), copy.as_slice()) {
        Ok(Some(copy))
    } else {
        Ok(None)
    }
}
