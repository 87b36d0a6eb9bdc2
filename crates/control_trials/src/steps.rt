//! Calls of a control, each of which is made only where it meets its conditions, and what the control says to them.
ghost use Rattle.std.specs.Prelude.{◌≡◌, [], ◌∷◌, ◌++◌, IfOk, OnOk};
ghost use Rattle.deneva_base.specs.Rows.{Rows};
ghost use Rattle.protocol_rules.specs.History.{History};
ghost use Rattle.control_trials.specs.Trials.{attempt_of, key_in, trial_key, bound_of, rows_at, rows_of, IsKept};

use crate::log::{Log, Wanted};
use control_core::Control;
use deneva_base::{
    Answer, Attempt, Bound, Cell, CellList, Key, Keyed, Mode, NoMemory, Number, Row, RowList,
    TxnId, Vote, Woken,
};
use std::alloc::Global;

/// The numbers of the rows for the keys 0 and 1 of a table.
#[derive(Clone, Copy, Debug)]
pub(crate) struct Cells {
    pub(crate) first: Option<u32>,
    pub(crate) second: Option<u32>,
}

/// The rows of table 0 that an attempt writes, and those of table 5 that it appends.
#[derive(Clone, Copy, Debug)]
pub(crate) struct Effect {
    pub(crate) writes: Cells,
    pub(crate) appends: Cells,
}

/// A call of an attempt.
#[derive(Clone, Copy, Debug)]
pub(crate) enum Step {
    /// With its stamp, asks for the key of this number in table 0.
    Ask(Attempt, u64, u32, Mode),
    /// With this bound.
    Prepare(Attempt, u64, Effect),
    /// Under the number of this `n`.
    Commit(Attempt, u64),
    Abort(Attempt),
}

/// What came of a call.
#[derive(Debug, Drop, PartialEq, Eq)]
pub(crate) enum Said {
    Answer(Answer),
    Vote(Vote),
    /// Who was woken by an end, and how many accesses wait after it.
    Ended(Woken, usize),
    /// The call was not made: it does not meet its conditions.
    Nothing,
}

pub(crate) fn attempt(txn: u32, turn: u8) -> Attempt
    ensures { result ≡ attempt_of txn turn }
{
    Attempt {
        txn: TxnId(txn),
        turn,
    }
}

pub(crate) fn key(a: u32) -> Key
    ensures { result ≡ trial_key a }
{
    Key {
        table: 0,
        a,
        b: 0,
        c: 0,
    }
}

fn bound(n: u64) -> Bound
    ensures { result ≡ bound_of n }
{
    Bound { n, key: key(0) }
}

/// Puts a row of one number at the end, if there is one.
fn push_row(
    alloc: Global,
    table: u8,
    a: u32,
    cell: Option<u32>,
    rows: &mut RowList,
) -> Result<(), NoMemory>
    ensures { OnOk result (rows.new ≡ rows.old ++ rows_at table a cell) }
{
    if let Some(cell) = cell {
        let mut cells = CellList::new(alloc);
        cells.push(Cell::Num(i64::from(cell)))?;
        let row = Row::of(alloc, cells)?;
        let key = Key {
            table,
            a,
            b: 0,
            c: 0,
        };
        rows.push(Keyed { key, row })?;
    }
    Ok(())
}

pub(crate) fn rows_with(alloc: Global, table: u8, cells: Cells) -> Result<RowList, NoMemory>
    ensures { IfOk result (λ rows. rows ≡ rows_of table cells) }
{
    let mut rows = RowList::new(alloc);
    push_row(alloc, table, 0, cells.first, &mut rows)?;
    push_row(alloc, table, 1, cells.second, &mut rows)?;
    Ok(rows)
}

fn ask<C: Control>(
    control: &mut C,
    log: &mut Log,
    who: Attempt,
    stamp: u64,
    a: u32,
    mode: Mode,
) -> Result<Said, NoMemory>
    requires kept { IsKept (C.stands control.old) log.old }
    ensures { OnOk result (IsKept (C.stands control.new) log.new) }
{
    if !log.may_ask(who, stamp, a) {
        return Ok(Said::Nothing);
    }
    let key = key(a);
    let answer = control.ask(who, stamp, key, mode)?;
    let wanted = Wanted {
        who,
        stamp,
        key,
        mode,
    };
    log.note_ask(wanted, &answer)?;
    Ok(Said::Answer(answer))
}

fn prepare<C: Control>(
    alloc: Global,
    control: &mut C,
    log: &mut Log,
    who: Attempt,
    n: u64,
    effect: Effect,
) -> Result<Said, NoMemory>
    requires kept { IsKept (C.stands control.old) log.old }
    ensures { OnOk result (IsKept (C.stands control.new) log.new) }
{
    if !log.may_prepare(who, n, effect.writes) {
        return Ok(Said::Nothing);
    }
    let written = rows_with(alloc, 0, effect.writes)?;
    let appended = rows_with(alloc, 5, effect.appends)?;
    let Ok(vote) = control.prepare(who, bound(n), written, appended) else {
        return Err(NoMemory);
    };
    log.note_prepare(who, vote)?;
    Ok(Said::Vote(vote))
}

fn commit<C: Control>(
    alloc: Global,
    control: &mut C,
    log: &mut Log,
    who: Attempt,
    n: u64,
) -> Result<Said, NoMemory>
    requires kept { IsKept (C.stands control.old) log.old }
    ensures { OnOk result (IsKept (C.stands control.new) log.new) }
{
    if !log.may_commit(who, n) {
        return Ok(Said::Nothing);
    }
    let number = Number { n, id: who.txn };
    let mut woken = Woken::new(alloc);
    control.commit(who, number, &mut woken)?;
    log.note_commit(who, woken.as_slice())?;
    Ok(Said::Ended(woken, control.waiting()))
}

fn abort<C: Control>(
    alloc: Global,
    control: &mut C,
    log: &mut Log,
    who: Attempt,
) -> Result<Said, NoMemory>
    requires kept { IsKept (C.stands control.old) log.old }
    ensures { OnOk result (IsKept (C.stands control.new) log.new) }
{
    if !log.may_abort(who) {
        return Ok(Said::Nothing);
    }
    let mut woken = Woken::new(alloc);
    control.abort(who, &mut woken)?;
    log.note_abort(who, woken.as_slice())?;
    Ok(Said::Ended(woken, control.waiting()))
}

/// What a control says to a call, where it meets its conditions.
pub(crate) fn said_once<C: Control>(
    alloc: Global,
    control: &mut C,
    log: &mut Log,
    step: Step,
) -> Result<Said, NoMemory>
    requires kept { IsKept (C.stands control.old) log.old }
    ensures { OnOk result (IsKept (C.stands control.new) log.new) }
{
    match step {
        Step::Ask(who, stamp, a, mode) => ask(control, log, who, stamp, a, mode),
        Step::Prepare(who, n, effect) => prepare(alloc, control, log, who, n, effect),
        Step::Commit(who, n) => commit(alloc, control, log, who, n),
        Step::Abort(who) => abort(alloc, control, log, who),
    }
}
