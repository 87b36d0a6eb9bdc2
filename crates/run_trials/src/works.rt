//! A small workload, whose rows have one field with one letter.

use deneva_base::{ByteList, Cell, CellList, Keyed, Row, RowList};
use std::alloc::Global;
use std::test::Fail;
use txn_program::{
    ItemList, Load, Program, ProgramList, StepList, WorkKind, Workload, YcsbAct, YcsbPut, YcsbStep,
    ycsb_key_of,
};

/// A step of a transaction.
#[derive(Clone, Copy)]
pub(crate) enum Step {
    Read(u32),
    /// Writes this letter.
    Update(u32, u8),
}

pub(crate) fn row_of(alloc: Global, letter: u8) -> Result<Row, Fail> {
    let mut cells = CellList::new(alloc);
    cells.push(Cell::Text(ByteList::from_bytes(alloc, &[letter])?))?;
    Ok(Row::of(alloc, cells)?)
}

pub(crate) fn keyed_row(alloc: Global, key: u32, letter: u8) -> Result<Keyed, Fail> {
    let key = ycsb_key_of(key);
    let row = row_of(alloc, letter)?;
    Ok(Keyed { key, row })
}

/// Rows that are loaded, each with its key.
fn load(alloc: Global, letters: &[(u32, u8)]) -> Result<Load, Fail> {
    let mut rows = RowList::new(alloc);
    for (key, letter) in letters {
        rows.push(keyed_row(alloc, *key, *letter)?)?;
    }
    Ok(Load {
        kind: WorkKind::Ycsb,
        fields: 1,
        rows,
        items: ItemList::new(alloc),
    })
}

fn step_of(alloc: Global, step: Step) -> Result<YcsbStep, Fail> {
    match step {
        Step::Read(key) => Ok(YcsbStep {
            key,
            act: YcsbAct::Read,
        }),
        Step::Update(key, letter) => {
            let text = ByteList::from_bytes(alloc, &[letter])?;
            let act = YcsbAct::Update(YcsbPut { field: 0, text });
            Ok(YcsbStep { key, act })
        }
    }
}

fn program(alloc: Global, steps: &[Step]) -> Result<Program, Fail> {
    let mut list = StepList::new(alloc);
    for step in steps {
        list.push(step_of(alloc, *step)?)?;
    }
    Ok(Program::Ycsb(list))
}

/// Two transactions that meet on key 1. The first begins at partition 0 and goes on to partition 1, where the second
/// begins.
pub(crate) fn meeting_work(alloc: Global) -> Result<Workload, Fail> {
    let load = load(alloc, &[(1, b'a'), (2, b'b'), (3, b'c')])?;
    let mut programs = ProgramList::new(alloc);
    programs.push(program(alloc, &[Step::Update(2, b'p'), Step::Update(1, b'q')])?)?;
    programs.push(program(alloc, &[Step::Update(1, b'r'), Step::Read(3)])?)?;
    Ok(Workload { load, programs })
}
