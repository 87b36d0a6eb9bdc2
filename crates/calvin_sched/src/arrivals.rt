//! The rows that came for transactions that have not finished here.
ghost use Rattle.std.specs.Prelude.{◌≡◌, ◌++◌, ◌∷◌, [], OnOk, OnErr};
ghost use Rattle.deneva_base.specs.declared.numbers.TxnId.{TxnId};
ghost use Rattle.calvin_sched.specs.Arrivals.{arrivals_at, rows_of_part, Sets, Same};

use deneva_base::{Keyed, NoMemory, TxnId};
use server_core::SentRows;
use std::alloc::Global;
use std::collections::HashMap;

/// The rows that a transaction reads at one of its participants.
#[derive(Drop)]
pub(crate) struct Arrival {
    pub part: u8,
    pub rows: SentRows,
}

/// What came for one transaction.
#[derive(Drop)]
pub(crate) struct Arrived {
    pub list: Vec<Arrival>,
}

/// What came for each transaction that has not finished here.
#[derive(Drop)]
pub(crate) struct Arrivals {
    alloc: Global,
    arrived: HashMap<TxnId, Arrived>,
}

impl Arrivals {
    pub fn new(alloc: Global) -> Arrivals
        ensures { (id : TxnId) → arrivals_at result id ≡ [] }
    {
        Arrivals {
            alloc,
            arrived: HashMap::new(alloc),
        }
    }

    /// What came for a transaction.
    pub fn of(&self, id: TxnId) -> &[Arrival]
        ensures { result.now ≡ arrivals_at self.now id }
    {
        match self.arrived.get(&id) {
            Some(arrived) => &arrived.list,
            None => &[],
        }
    }

    /// Keeps the rows of a participant.
    pub fn add(&mut self, id: TxnId, part: u8, rows: SentRows) -> Result<(), NoMemory>
        ensures ok { OnOk result (Sets self.old id (arrivals_at self.old id ++ record { part = part; rows = rows } ∷ []) self.new) }
        ensures err { OnErr result (Same self.old self.new) }
    {
        let arrival = Arrival { part, rows };
        if let Some(arrived) = self.arrived.get_mut(&id) {
            arrived.list.push(arrival)?;
            return Ok(());
        }
        let mut arrived = Arrived {
            list: Vec::new(self.alloc),
        };
        arrived.list.push(arrival)?;
        self.arrived.insert(id, arrived)?;
        Ok(())
    }

    /// Forgets what came for a transaction.
    pub fn forget(&mut self, id: TxnId)
        ensures { Sets self.old id [] self.new }
    {
        self.arrived.remove(&id);
    }
}

/// The rows of the partition, and none where they did not come.
pub(crate) fn rows_of_part(arrived: &[Arrival], part: u8) -> &[Keyed]
    ensures { result.now ≡ rows_of_part arrived.now part }
{
    for arrival in arrived {
        if arrival.part == part {
            return arrival.rows.as_slice();
        }
    }
    &[]
}
