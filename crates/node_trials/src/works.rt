//! A workload for the trials.
ghost use Rattle.std.specs.Prelude.{◌≡◌, map, IfOk};
ghost use Rattle.txn_program.specs.declared.programs.Program.TheVariants.{Ycsb};
ghost use Rattle.node_trials.specs.Works.{trial_row, trial_step, trial_work};

use deneva_base::{ByteList, Cell, CellList, Keyed, NoMemory, Row, RowList};
use std::alloc::Global;
use txn_program::{
    ItemList, Load, Program, ProgramList, StepList, WorkKind, Workload, YcsbAct, YcsbPut, YcsbStep,
    ycsb_key_of,
};

/// A row of one text.
pub(crate) fn row(alloc: Global, number: u32) -> Result<Keyed, NoMemory>
    ensures { IfOk result (λ r. r ≡ trial_row number) }
{
    let mut cells = CellList::new(alloc);
    let text = ByteList::from_bytes(alloc, b"a")?;
    cells.push(Cell::Text(text))?;
    let row = Row::of(alloc, cells)?;
    Ok(Keyed {
        key: ycsb_key_of(number),
        row,
    })
}

/// Replaces the text.
fn step(alloc: Global, key: u32) -> Result<YcsbStep, NoMemory>
    ensures { IfOk result (λ s. s ≡ trial_step key) }
{
    let text = ByteList::from_bytes(alloc, b"x")?;
    let put = YcsbPut { field: 0, text };
    Ok(YcsbStep {
        key,
        act: YcsbAct::Update(put),
    })
}

fn program(alloc: Global, keys: &[u32]) -> Result<Program, NoMemory>
    ensures { IfOk result (λ p. p ≡ Ycsb (map trial_step keys.now)) }
{
    let mut steps = StepList::new(alloc);
    for key in keys {
        steps.push(step(alloc, *key)?)?;
    }
    Ok(Program::Ycsb(steps))
}

/// Three rows; transaction 1 updates 0, 1 and 2, transaction 2 updates 1 and 0, and transaction 3 updates 2.
pub(crate) fn work(alloc: Global) -> Result<Workload, NoMemory>
    ensures { IfOk result (λ w. w ≡ trial_work) }
{
    let mut rows = RowList::new(alloc);
    rows.push(row(alloc, 0)?)?;
    rows.push(row(alloc, 1)?)?;
    rows.push(row(alloc, 2)?)?;
    let mut programs = ProgramList::new(alloc);
    programs.push(program(alloc, &[0, 1, 2])?)?;
    programs.push(program(alloc, &[1, 0])?)?;
    programs.push(program(alloc, &[2])?)?;
    let load = Load {
        kind: WorkKind::Ycsb,
        fields: 1,
        rows,
        items: ItemList::new(alloc),
    };
    Ok(Workload { load, programs })
}
