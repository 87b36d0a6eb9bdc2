//! The outcome of a serial execution.
ghost use Rattle.std.specs.Prelude.{◌≡◌, IfOk, map};
ghost use Rattle.run_outcomes.specs.SerialOutcome as spec;
ghost use Rattle.run_outcomes.specs.SerialOutcome.{decided_serially};

use deneva_base::{ByteList, NoMemory, Number};
use server_core::{AbortList, Decided, DecidedList, GiveupList, Outcome, RunKind};
use std::alloc::Global;
use txn_program::{SerialList, SerialRun, SerialTxn};

fn serial_line(alloc: Global, txn: SerialTxn) -> Result<Decided, NoMemory>
    ensures { IfOk result (λ decided. decided ≡ decided_serially txn) }
{
    let SerialTxn {
        id,
        reads,
        verdict,
        answer,
    } = txn;
    Ok(Decided {
        number: Number {
            n: u64::from(id.0),
            id,
        },
        verdict,
        answer,
        participants: ByteList::from_bytes(alloc, &[0])?,
        reads,
    })
}

fn all_decided(alloc: Global, runs: SerialList) -> Result<DecidedList, NoMemory>
    ensures { IfOk result (λ list. list ≡ map decided_serially runs) }
{
    let mut list = DecidedList::with_capacity(alloc, runs.len())?;
    for txn in runs.into_vec() {
        list.push(serial_line(alloc, txn)?)?;
    }
    Ok(list)
}

/// The outcome of a serial execution: the number of a transaction is its id, there is one partition, and nothing is
/// given up or aborted.
pub fn serial_outcome(alloc: Global, run: SerialRun) -> Result<Outcome, NoMemory>
    ensures { IfOk result (λ outcome. outcome ≡ spec.serial_outcome run) }
{
    let SerialRun { runs, rows } = run;
    let decided = all_decided(alloc, runs)?;
    Ok(Outcome {
        kind: RunKind::Serial,
        parts: 1,
        decided,
        giveups: GiveupList::new(alloc),
        aborts: AbortList::new(alloc),
        rows,
    })
}
