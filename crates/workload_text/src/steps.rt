//! The steps of a transaction's record.
ghost use Rattle.std.specs.Prelude.{◌≡◌, ◌+◌, ◌<◌, ◌≤◌, ◌^◌, map, length, drop};
ghost use Rattle.workload_text.specs.Gives.{Gives};
ghost use Rattle.workload_text.specs.Ycsb as ycsb;

use crate::faults::{FaultKind, RecordError};
use crate::fields::{field, flaw_error, is_word, number_at};
use crate::heads::{Format, YcsbHead};
use crate::texts::{text_at, texts_from};
use deneva_base::Items;
use std::alloc::Global;
use txn_program::{YcsbAct, YcsbPut, YcsbStep};

/// A step, and the number of the field in which its key stands.
#[derive(Debug, Drop)]
pub struct Placed {
    pub field_no: usize,
    pub step: YcsbStep,
}

/// How many fields a step has after its word.
fn width_of(head: YcsbHead, word: &[u8]) -> Option<usize>
    ensures { result ≡ ycsb.width head word.now }
{
    if is_word(word, "r") {
        Some(1)
    } else if is_word(word, "u") {
        Some(3)
    } else if is_word(word, "p") {
        match head.format {
            Format::One => None,
            Format::Two => Some(1 + usize::from(head.fields)),
        }
    } else {
        None
    }
}

/// The replacement of one field, from the fields after the key of a step whose word stands at this field.
fn put_of(
    alloc: Global,
    head: YcsbHead,
    word_no: usize,
    more: &[&[u8]],
) -> Result<YcsbPut, RecordError>
    requires { word_no + 3 < 2 ^ 64 }
    ensures { Gives result (ycsb.put_from head word_no (map (λ f. f.now) more.now)) }
{
    let last = u32::from(head.fields.saturating_sub(1));
    let place = number_at(word_no + 2, field(more, 1), 0, last)?;
    let text = text_at(alloc, word_no + 3, field(more, 2))?;
    Ok(YcsbPut {
        field: place as u8,
        text,
    })
}

/// What a step does, from the fields after its key.
fn act_of(
    alloc: Global,
    head: YcsbHead,
    word_no: usize,
    word: &[u8],
    more: &[&[u8]],
) -> Result<YcsbAct, RecordError>
    requires { word_no + 3 + length more.now < 2 ^ 64 }
    ensures { Gives result (ycsb.act_from head word_no word.now (map (λ f. f.now) more.now)) }
{
    if is_word(word, "r") {
        Ok(YcsbAct::Read)
    } else if is_word(word, "u") {
        let put = put_of(alloc, head, word_no, more)?;
        Ok(YcsbAct::Update(put))
    } else {
        let row = texts_from(alloc, word_no + 2, more)?;
        Ok(YcsbAct::Put(row))
    }
}

/// A step, from the fields after its word.
fn step_of(
    alloc: Global,
    head: YcsbHead,
    word_no: usize,
    word: &[u8],
    args: &[&[u8]],
) -> Result<Placed, RecordError>
    requires bound { word_no + 3 + length args.now < 2 ^ 64 }
    requires key { 1 ≤ length args.now }
    ensures { Gives result (ycsb.step_from head word_no word.now (map (λ f. f.now) args.now)) }
{
    let key = number_at(word_no + 1, field(args, 1), 0, u32::MAX)?;
    let act = act_of(alloc, head, word_no, word, &args[1..])?;
    Ok(Placed {
        field_no: word_no + 1,
        step: YcsbStep { key, act },
    })
}

/// The steps of a transaction's record, which follow its word.
pub fn steps_of(alloc: Global, head: YcsbHead, txn: &[&[u8]]) -> Result<Items<Placed>, RecordError>
    requires word { 1 ≤ length txn.now }
    requires bound { length txn.now < 2 ^ 63 }
    ensures { Gives result (ycsb.steps_from head (length txn.now) 2 (map (λ f. f.now) (drop 1 txn.now))) }
{
    let mut steps = Items::new(alloc);
    let mut at = 1;
    while at < txn.len() {
        let word = txn[at];
        let more = &txn[at + 1..];
        let Some(width) = width_of(head, word) else {
            return Err(flaw_error(at + 1, FaultKind::Kind));
        };
        if more.len() < width {
            return Err(flaw_error(0, FaultKind::Arity));
        }
        let step = step_of(alloc, head, at + 1, word, &more[..width])?;
        steps.push(step)?;
        at += 1 + width;
    }
    Ok(steps)
}
