//! The cells of a row of TPC-C, read by the columns of its table.
ghost use Rattle.std.specs.Prelude.{◌≡◌, ◌≤◌, ◌+◌, ◌<◌, ◌^◌, map, length};
ghost use Rattle.tpcc_rules.specs.Columns as columns;
ghost use Rattle.workload_text.specs.Gives.{Gives};
ghost use Rattle.workload_text.specs.Tpcc as tpcc;

use crate::faults::{FaultKind, RecordError};
use crate::fields::{field, flaw_error, integer_at, is_word};
use crate::tables::Table;
use crate::texts::short_text_at;
use deneva_base::{ByteList, Cell, CellList, Row};
use std::alloc::Global;
use tpcc_rules::Column;

/// A tax or a discount, in ten-thousandths.
const RATE: Column = Column::Between {
    low: 0,
    high: 10_000,
};

/// A number of 64 bits with its sign.
const LONG: Column = Column::Between {
    low: i64::MIN,
    high: i64::MAX,
};

const WAREHOUSE: [Column; 3] = [Column::UpTo { most: 10 }, RATE, LONG];

const DISTRICT: [Column; 4] = [
    Column::UpTo { most: 10 },
    RATE,
    LONG,
    Column::Between {
        low: 1,
        high: 10_000_000,
    },
];

const CUSTOMER: [Column; 8] = [
    Column::UpTo { most: 16 },
    Column::UpTo { most: 16 },
    Column::Credit,
    RATE,
    LONG,
    LONG,
    LONG,
    Column::UpTo { most: 500 },
];

const STOCK: [Column; 5] = [
    Column::Between {
        low: 0,
        high: 9_999,
    },
    LONG,
    LONG,
    LONG,
    Column::UpTo { most: 50 },
];

/// The columns of a table's rows in a file.
pub fn columns_of(table: Table) -> &'static [Column]
    ensures columns { result.now ≡ tpcc.columns_of table }
    ensures few { length result.now ≤ 8 }
{
    match table {
        Table::Warehouse => &WAREHOUSE,
        Table::District => &DISTRICT,
        Table::Customer => &CUSTOMER,
        Table::Stock => &STOCK,
    }
}

fn is_credit(text: &[u8]) -> bool
    ensures { result ≡ columns.is_credit text.now }
{
    is_word(text, "GC") || is_word(text, "BC")
}

/// What a column takes of a field.
fn cell_at(
    alloc: Global,
    field_no: usize,
    column: Column,
    field: &[u8],
) -> Result<Cell, RecordError>
    ensures { Gives result (tpcc.cell_at field_no column field.now) }
{
    match column {
        Column::Between { low, high } => {
            let number = integer_at(field_no, field, low, high)?;
            Ok(Cell::Num(number))
        }
        Column::UpTo { most } => {
            let text = short_text_at(alloc, field_no, most, field)?;
            Ok(Cell::Text(text))
        }
        Column::Credit => {
            if !is_credit(field) {
                return Err(flaw_error(field_no, FaultKind::OutOfRange));
            }
            Ok(Cell::Text(ByteList::from_bytes(alloc, field)?))
        }
        Column::AnyNumber => {
            let number = integer_at(field_no, field, i64::MIN, i64::MAX)?;
            Ok(Cell::Num(number))
        }
        Column::AnyText => Ok(Cell::Text(ByteList::from_bytes(alloc, field)?)),
    }
}

/// The row of a record, whose cells begin at this field: one for each column.
pub fn row_from(
    alloc: Global,
    field_no: usize,
    columns: &[Column],
    fields: &[&[u8]],
) -> Result<Row, RecordError>
    requires first { 1 ≤ field_no }
    requires bound { field_no + length columns.now < 2 ^ 64 }
    ensures { Gives result (tpcc.cells_from field_no columns.now (map (λ f. f.now) fields.now)) }
{
    let mut cells = CellList::with_capacity(alloc, columns.len())?;
    for (place, column) in columns.iter().enumerate() {
        let cell = cell_at(
            alloc,
            field_no + place,
            *column,
            field(fields, field_no + place),
        )?;
        cells.push(cell)?;
    }
    Ok(Row::of(alloc, cells)?)
}
