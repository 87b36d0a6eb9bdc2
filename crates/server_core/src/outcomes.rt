//! What came of a run.
ghost use Rattle.std.specs.Prelude.{◌≡◌, IfOk};

use crate::{AbortList, DecidedList, GiveupList};
use deneva_base::{Attempt, ByteList, Cause, Copied, NoMemory, Number, Protocol, RowList, TxnId};
use std::alloc::Global;
use txn_program::Verdict;

/// How the transactions were run.
#[derive(Clone, Copy, Debug, PartialEq, Eq)]
pub enum RunKind {
    /// One at a time, in file order.
    Serial,
    Under(Protocol),
}

/// A decided transaction, which is `number.id`: where it stands in the serial order, how it ended by its own logic, its
/// answer, its participants in rising order, and what it read, in the order of its accesses that read.
#[derive(Debug, Drop, PartialEq, Eq)]
pub struct Decided {
    pub number: Number,
    pub verdict: Verdict,
    pub answer: i64,
    pub participants: ByteList,
    pub reads: RowList,
}

impl Copied for Decided {
    fn copied(&self, alloc: Global) -> Result<Decided, NoMemory> {
        let participants = self.participants.copy(alloc)?;
        let reads = self.reads.copy(alloc)?;
        Ok(Decided {
            number: self.number,
            verdict: self.verdict,
            answer: self.answer,
            participants,
            reads,
        })
    }
}

/// A transaction that was given up after this many attempts.
#[derive(Clone, Copy, Debug, PartialEq, Eq)]
pub struct Giveup {
    pub id: TxnId,
    pub turns: u8,
}

impl Copied for Giveup {
    fn copied(&self, _alloc: Global) -> Result<Giveup, NoMemory> {
        Ok(*self)
    }
}

/// An aborted attempt: the cause, and the place and node of the entry at which it was found.
#[derive(Clone, Copy, Debug, PartialEq, Eq)]
pub struct AbortLine {
    pub who: Attempt,
    pub place: u64,
    pub node: u8,
    pub cause: Cause,
}

impl Copied for AbortLine {
    fn copied(&self, _alloc: Global) -> Result<AbortLine, NoMemory> {
        Ok(*self)
    }
}

/// What came of a run: the decided transactions in the order of their numbers, those given up by id, the aborted
/// attempts by id and turn, and the last rows in key order.
#[derive(Debug, Drop, PartialEq, Eq)]
pub struct Outcome {
    pub kind: RunKind,
    pub parts: u8,
    pub decided: DecidedList,
    pub giveups: GiveupList,
    pub aborts: AbortList,
    pub rows: RowList,
}
