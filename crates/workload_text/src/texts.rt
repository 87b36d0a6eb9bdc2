//! Texts of a record.
ghost use Rattle.std.specs.Prelude.{◌≡◌, ◌+◌, ◌<◌, ◌^◌, map, length};
ghost use Rattle.workload_text.specs.Gives.{Gives};
ghost use Rattle.workload_text.specs.Fields as spelled;

use crate::faults::{FaultKind, RecordError};
use crate::fields::flaw_error;
use deneva_base::{ByteList, Cell, CellList, Row};
use std::alloc::Global;

/// A text of at most so many bytes, which stands at this field of its record.
pub fn short_text_at(
    alloc: Global,
    field_no: usize,
    most: usize,
    field: &[u8],
) -> Result<ByteList, RecordError>
    ensures { Gives result (spelled.short_text_at field_no most field.now) }
{
    if field.len() > most {
        return Err(flaw_error(field_no, FaultKind::OutOfRange));
    }
    let text = ByteList::from_bytes(alloc, field)?;
    Ok(text)
}

/// A text of a row of YCSB.
pub fn text_at(alloc: Global, field_no: usize, field: &[u8]) -> Result<ByteList, RecordError>
    ensures { Gives result (spelled.text_at field_no field.now) }
{
    short_text_at(alloc, field_no, 100, field)
}

/// The row of these texts, the first of which stands at this field of its record.
pub fn texts_from(alloc: Global, field_no: usize, fields: &[&[u8]]) -> Result<Row, RecordError>
    requires { field_no + length fields.now < 2 ^ 64 }
    ensures { Gives result (spelled.texts_from field_no (map (λ f. f.now) fields.now)) }
{
    let mut cells = CellList::with_capacity(alloc, fields.len())?;
    for (place, field) in fields.iter().enumerate() {
        let text = text_at(alloc, field_no + place, field)?;
        cells.push(Cell::Text(text))?;
    }
    Ok(Row::of(alloc, cells)?)
}
