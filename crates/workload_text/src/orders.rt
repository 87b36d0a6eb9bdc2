//! The record of a new order.
ghost use Rattle.std.specs.Prelude.{◌≡◌, ◌<◌, ◌≤◌, ◌+◌, ◌-◌, ◌*◌, ◌/◌, ◌^◌, map, length};
ghost use Rattle.workload_text.specs.Gives.{Gives};
ghost use Rattle.workload_text.specs.Tpcc as tpcc;

use crate::faults::{Flaw, RecordError};
use crate::fields::{field, number_at};
use crate::tables::{customer_at, district_at, item_at, warehouse_at};
use std::alloc::Global;
use txn_program::{Line, LineList, NewOrder};

/// The line that begins at this field.
fn line_at(fields: &[&[u8]], field_no: usize) -> Result<Line, Flaw>
    requires first { 1 ≤ field_no }
    requires bound { field_no + 2 < 2 ^ 64 }
    ensures { result ≡ tpcc.line_at field_no (map (λ f. f.now) fields.now) }
{
    let item = item_at(fields, field_no)?;
    let supplier = warehouse_at(fields, field_no + 1)?;
    let quantity = number_at(field_no + 2, field(fields, field_no + 2), 1, 10)?;
    Ok(Line {
        item,
        supplier,
        quantity: quantity as u8,
    })
}

/// So many lines, the first of which begins at field 5.
fn lines_from(alloc: Global, count: usize, fields: &[&[u8]]) -> Result<LineList, RecordError>
    requires { 5 + 3 * count < 2 ^ 64 }
    ensures { Gives result (tpcc.lines_from count 5 (map (λ f. f.now) fields.now)) }
{
    let mut lines = LineList::new(alloc);
    for place in 0..count {
        let line = line_at(fields, 5 + 3 * place)?;
        lines.push(line)?;
    }
    Ok(lines)
}

/// The order of a record, whose lines begin at field 5.
pub fn ordered_from(alloc: Global, fields: &[&[u8]]) -> Result<NewOrder, RecordError>
    requires some { 4 ≤ length fields.now }
    requires bound { length fields.now < 2 ^ 63 }
    ensures { Gives result (tpcc.ordered_from (map (λ f. f.now) fields.now)) }
{
    let w = warehouse_at(fields, 2)?;
    let d = district_at(fields, 3)?;
    let c = customer_at(fields, 4)?;
    let lines = lines_from(alloc, (fields.len() - 4) / 3, fields)?;
    Ok(NewOrder { w, d, c, lines })
}
