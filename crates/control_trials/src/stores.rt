//! A store for the trials.
ghost use Rattle.std.specs.Prelude.{◌≡◌, ◌<◌, IfOk};
ghost use Rattle.control_core.specs.Leaving.{IsLoadedStore};
ghost use Rattle.control_trials.specs.Trials.{HasTwoRows};

use deneva_base::{Cell, CellList, Key, Keyed, NoMemory, Row, RowList};
use row_store::Store;
use std::alloc::Global;

/// A store of the keys 0 and 1 of table 0, whose rows have the numbers 100 and 101.
pub(crate) fn two_rows(alloc: Global) -> Result<Store, NoMemory>
    ensures loaded { IfOk result IsLoadedStore }
    ensures rows { IfOk result HasTwoRows }
{
    let mut rows = RowList::new(alloc);
    rows.push(numbered(alloc, 0)?)?;
    rows.push(numbered(alloc, 1)?)?;
    Store::begin(alloc, rows)
}

fn numbered(alloc: Global, a: u32) -> Result<Keyed, NoMemory>
    requires { a < 2 }
    ensures { IfOk result (λ r. r.key ≡ record { table = 0; a = a; b = 0; c = 0 }) }
{
    let mut cells = CellList::new(alloc);
    cells.push(Cell::Num(100 + a as i64))?;
    let row = Row::of(alloc, cells)?;
    let key = Key {
        table: 0,
        a,
        b: 0,
        c: 0,
    };
    Ok(Keyed { key, row })
}
