//! Messages between nodes. A node is a partition together with the coordinator of its home transactions.
ghost use Rattle.std.specs.Prelude.{◌≡◌, ◌↔◌, IsTrue, IfOk, IfSome};
ghost use Rattle.server_core.specs.Messages.{txn_of};

use crate::SentRows;
use deneva_base::{
    Attempt, Bound, Cause, Copied, IdList, Key, Mode, NoMemory, Number, Row, RowList, TxnId,
};
use std::alloc::Global;

/// A message. Partitions, which are nodes, count from 0; stamps, bounds and the numbers of commits are below 2^48.
#[derive(Debug, Drop, PartialEq, Eq)]
pub enum Msg {
    /// Home to itself: begin this attempt.
    Start {
        who: Attempt,
    },
    /// Home to the partition of the key: grant this access.
    Ask {
        who: Attempt,
        stamp: u64,
        key: Key,
        mode: Mode,
    },
    /// Partition to home: the access is granted, at once or when it was woken.
    Granted {
        who: Attempt,
        key: Key,
        row: Row,
        version: Number,
        bound: u64,
    },
    /// Partition to home: the access is refused.
    Refused {
        who: Attempt,
        key: Key,
        cause: Cause,
    },
    /// Home to a participant: vote on this attempt, whose rows of your partition these are.
    Prepare {
        who: Attempt,
        bound: Bound,
        writes: RowList,
        appends: RowList,
    },
    /// Participant to home: the attempt may commit with any number from `lo` to `hi`.
    Yes {
        who: Attempt,
        part: u8,
        lo: u64,
        hi: u64,
    },
    /// Participant to home: the attempt may not commit.
    No {
        who: Attempt,
        part: u8,
        cause: Cause,
    },
    /// Home to a participant: the attempt commits with this number.
    Commit {
        who: Attempt,
        number: Number,
    },
    /// Home to a partition that it asked: the attempt aborts.
    Abort {
        who: Attempt,
    },
    /// Participant to home: the attempt has committed here.
    Done {
        who: Attempt,
        part: u8,
    },
    /// Partition to home: the attempt has aborted here.
    Undone {
        who: Attempt,
        part: u8,
    },
    /// Sequencer to itself: close this epoch.
    Tick {
        epoch: u32,
    },
    /// Sequencer to every node: its transactions of this epoch, in their order.
    Batch {
        epoch: u32,
        seq: u8,
        ids: IdList,
    },
    /// Participant to participants: the rows that the transaction reads here.
    Rows {
        id: TxnId,
        part: u8,
        rows: SentRows,
    },
    /// Participant to home: the transaction is finished here.
    Finished {
        id: TxnId,
        part: u8,
        number: Number,
    },
}

impl Msg {
    /// The transaction that the message is about. A Tick and a Batch are about none.
    pub fn txn(&self) -> Option<TxnId>
        ensures { result ≡ txn_of self.now }
    {
        match self {
            Msg::Start { who }
            | Msg::Ask { who, .. }
            | Msg::Granted { who, .. }
            | Msg::Refused { who, .. }
            | Msg::Prepare { who, .. }
            | Msg::Yes { who, .. }
            | Msg::No { who, .. }
            | Msg::Commit { who, .. }
            | Msg::Abort { who }
            | Msg::Done { who, .. }
            | Msg::Undone { who, .. } => Some(who.txn),
            Msg::Tick { .. } | Msg::Batch { .. } => None,
            Msg::Rows { id, .. } | Msg::Finished { id, .. } => Some(*id),
        }
    }

    /// Whether the two messages are one: `==` says no more of them.
    pub fn is_same(&self, other: &Msg) -> bool
        ensures { IsTrue result ↔ (self.now ≡ other.now) }
    {
        self == other
    }
}

/// A copy of a message that has no list.
fn copied_plain(msg: &Msg) -> Option<Msg>
    ensures { IfSome result (λ c. c ≡ msg.now) }
{
    match *msg {
        Msg::Start { who } => Some(Msg::Start { who }),
        Msg::Ask {
            who,
            stamp,
            key,
            mode,
        } => Some(Msg::Ask {
            who,
            stamp,
            key,
            mode,
        }),
        Msg::Refused { who, key, cause } => Some(Msg::Refused { who, key, cause }),
        Msg::Yes { who, part, lo, hi } => Some(Msg::Yes { who, part, lo, hi }),
        Msg::No { who, part, cause } => Some(Msg::No { who, part, cause }),
        Msg::Commit { who, number } => Some(Msg::Commit { who, number }),
        Msg::Abort { who } => Some(Msg::Abort { who }),
        Msg::Done { who, part } => Some(Msg::Done { who, part }),
        Msg::Undone { who, part } => Some(Msg::Undone { who, part }),
        Msg::Tick { epoch } => Some(Msg::Tick { epoch }),
        Msg::Finished { id, part, number } => Some(Msg::Finished { id, part, number }),
        Msg::Granted { .. } | Msg::Prepare { .. } | Msg::Batch { .. } | Msg::Rows { .. } => None,
    }
}

impl Copied for Msg {
    fn copied(&self, alloc: Global) -> Result<Msg, NoMemory> {
        match self {
            Msg::Granted {
                who,
                key,
                row,
                version,
                bound,
            } => Ok(Msg::Granted {
                who: *who,
                key: *key,
                row: row.share()?,
                version: *version,
                bound: *bound,
            }),
            Msg::Prepare {
                who,
                bound,
                writes,
                appends,
            } => Ok(Msg::Prepare {
                who: *who,
                bound: *bound,
                writes: writes.copy(alloc)?,
                appends: appends.copy(alloc)?,
            }),
            Msg::Batch { epoch, seq, ids } => Ok(Msg::Batch {
                epoch: *epoch,
                seq: *seq,
                ids: ids.copy(alloc)?,
            }),
            Msg::Rows { id, part, rows } => Ok(Msg::Rows {
                id: *id,
                part: *part,
                rows: rows.share()?,
            }),
            plain => copied_plain(plain).ok_or(NoMemory),
        }
    }
}

/// A message on its way.
#[derive(Debug, Drop, PartialEq, Eq)]
pub struct Mail {
    pub from: u8,
    pub to: u8,
    pub msg: Msg,
}

impl Copied for Mail {
    fn copied(&self, alloc: Global) -> Result<Mail, NoMemory> {
        let msg = self.msg.copied(alloc)?;
        Ok(Mail {
            from: self.from,
            to: self.to,
            msg,
        })
    }
}

/// A message that a node has handled. Places count from 0 over all nodes.
#[derive(Debug, Drop, PartialEq, Eq)]
pub struct Entry {
    pub place: u64,
    pub from: u8,
    pub node: u8,
    pub msg: Msg,
}

impl Copied for Entry {
    fn copied(&self, alloc: Global) -> Result<Entry, NoMemory> {
        let msg = self.msg.copied(alloc)?;
        Ok(Entry {
            place: self.place,
            from: self.from,
            node: self.node,
            msg,
        })
    }
}
