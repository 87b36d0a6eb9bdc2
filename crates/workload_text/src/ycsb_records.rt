//! What the records of a file of YCSB say.
ghost use Rattle.std.specs.Prelude.{◌≡◌, ◌<◌, ◌≤◌, ◌^◌, map, length, IfOk, []};
ghost use Rattle.workload_text.specs.Gives.{Gives};
ghost use Rattle.workload_text.specs.Reader.{work_of};
ghost use Rattle.workload_text.specs.Ycsb as ycsb;

use crate::faults::{FaultKind, RecordError};
use crate::fields::{field, flaw_error, number_at};
use crate::heads::YcsbHead;
use crate::loaded::Loaded;
use crate::reading::{Reading, too_many};
use crate::said::Said;
use crate::steps::{Placed, steps_of};
use crate::texts::texts_from;
use deneva_base::{Items, NoMemory};
use std::alloc::Global;
use std::collections::BTreeSet;
use txn_program::{Program, StepList, ycsb_key_of};

const STEP_LIMIT: u32 = 16;

/// The field of the first step whose key is not loaded.
fn first_unknown(rows: &Loaded, steps: &[Placed]) -> Option<usize>
    ensures { result ≡ ycsb.first_unknown rows.now steps.now }
{
    for placed in steps {
        if !rows.has(ycsb_key_of(placed.step.key)) {
            return Some(placed.field_no);
        }
    }
    None
}

/// The field of the first step whose key is that of a step before it.
fn first_repeated(alloc: Global, steps: &[Placed]) -> Result<Option<usize>, NoMemory>
    ensures { IfOk result (λ found. found ≡ ycsb.first_repeated [] steps.now) }
{
    let mut keys: BTreeSet<u32> = BTreeSet::new(alloc);
    for placed in steps {
        if !keys.insert(placed.step.key)? {
            return Ok(Some(placed.field_no));
        }
    }
    Ok(None)
}

/// The steps without the places of their keys.
fn steps_alone(alloc: Global, placed: Items<Placed>) -> Result<StepList, NoMemory>
    ensures { IfOk result (λ steps. steps ≡ map (λ p. p.step) placed) }
{
    let mut steps = StepList::new(alloc);
    for one in placed.into_vec() {
        let Placed { field_no: _, step } = one;
        steps.push(step)?;
    }
    Ok(steps)
}

/// What a record with the word `row` says.
pub fn row_of_texts(
    alloc: Global,
    reading: &Reading,
    head: YcsbHead,
    fields: &[&[u8]],
) -> Result<Said, RecordError>
    requires { length fields.now < 2 ^ 63 }
    ensures { Gives result (ycsb.row_from head (work_of reading.now) (map (λ f. f.now) fields.now)) }
{
    if !reading.programs.is_empty() {
        return Err(flaw_error(1, FaultKind::Kind));
    }
    if fields.len() != 2 + usize::from(head.fields) {
        return Err(flaw_error(0, FaultKind::Arity));
    }
    let number = number_at(2, field(fields, 2), 0, u32::MAX)?;
    let row = texts_from(alloc, 3, &fields[2..])?;
    let said = reading.row_of(2, ycsb_key_of(number), row)?;
    Ok(said)
}

/// What a transaction says whose steps were walked.
fn txn_of(alloc: Global, reading: &Reading, steps: Items<Placed>) -> Result<Said, RecordError>
    ensures { Gives result (ycsb.txn_of (work_of reading.now) steps) }
{
    if steps.is_empty() {
        return Err(flaw_error(0, FaultKind::Arity));
    }
    if let Some(place) = first_unknown(&reading.rows, steps.as_slice()) {
        return Err(flaw_error(place, FaultKind::UnknownKey));
    }
    if let Some(place) = first_repeated(alloc, steps.as_slice())? {
        return Err(flaw_error(place, FaultKind::Repeated));
    }
    if steps.len() > STEP_LIMIT as usize {
        return Err(flaw_error(0, too_many(STEP_LIMIT)));
    }
    let steps = steps_alone(alloc, steps)?;
    let said = reading.run_of(Program::Ycsb(steps))?;
    Ok(said)
}

/// What a record with the word `txn` says.
pub fn txn_of_steps(
    alloc: Global,
    reading: &Reading,
    head: YcsbHead,
    fields: &[&[u8]],
) -> Result<Said, RecordError>
    requires word { 1 ≤ length fields.now }
    requires bound { length fields.now < 2 ^ 63 }
    ensures { Gives result (ycsb.txn_from head (work_of reading.now) (map (λ f. f.now) fields.now)) }
{
    let steps = steps_of(alloc, head, fields)?;
    txn_of(alloc, reading, steps)
}
