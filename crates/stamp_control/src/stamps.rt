//! TIMESTAMP as a control.
ghost use Rattle.std.specs.Prelude.{false, refl};
ghost use Rattle.protocol_rules.specs.Timestamp.{timestamp};
ghost use Rattle.deneva_base.specs.declared.config.Protocol.TheVariants.{Timestamp};
ghost use Rattle.protocol_rules.proofs.Stamping.{windows_law};
ghost use Rattle.protocol_rules.proofs.StampsServed.{timestamp_waits};
ghost use Rattle.protocol_rules.proofs.Timestamps.{stamping};
ghost use Rattle.stamp_control.specs.Standing.{Stands};

use crate::table::Table;
use control_core::{Chosen, Control, PrepareNoMemory};
use deneva_base::{
    Answer, Attempt, Bound, Key, Mode, NoMemory, Number, Protocol, RowList, Vote, Woken,
};
use row_store::Store;
use stamp_lines::Request;

/// TIMESTAMP.
#[derive(Drop)]
pub struct Stamps {
    table: Table,
}

impl Control for Stamps {
    ghost KIND = { Timestamp };

    ghost FIXED = { false };

    ghost rule = { timestamp };

    ghost stands = { λ s loaded h. Stands s.table loaded h };

    const KIND: Protocol = Protocol::Timestamp;

    const FIXED: bool = false;

    fn begin(store: Store) -> Result<Stamps, NoMemory> {
        let table = Table::new(store);
        Ok(Stamps { table })
    }

    fn ask(&mut self, who: Attempt, stamp: u64, key: Key, mode: Mode) -> Result<Answer, NoMemory> {
        if let Some(cause) = self.table.refusal(stamp, key, mode) {
            return Ok(Answer::Refused(cause));
        }
        let asked = Request {
            who,
            stamp,
            mode,
            waits: false,
        };
        if self.table.is_stopped(stamp, key, mode) {
            self.table.wait(key, asked)
        } else {
            self.table.grant(key, asked)
        }
    }

    fn prepare(
        &mut self,
        who: Attempt,
        _bound: Bound,
        writes: RowList,
        appends: RowList,
    ) -> Result<Vote, PrepareNoMemory> {
        self.table.prepare(who, writes, appends)
    }

    fn commit(&mut self, who: Attempt, number: Number, woken: &mut Woken) -> Result<(), NoMemory> {
        self.table.end_and_wake(who, Some(number), woken)
    }

    fn abort(&mut self, who: Attempt, woken: &mut Woken) -> Result<(), NoMemory> {
        self.table.end_and_wake(who, None, woken)
    }

    fn waiting(&self) -> usize {
        self.table.accesses.waiting()
    }

    fn rows(&self) -> Result<RowList, NoMemory> {
        self.table.accesses.shelf().rows_in_order()
    }

    ghost obeys = { λ s loaded h stands. stands.obeys };

    ghost windows = { λ s loaded h stands. windows_law false loaded (timestamp loaded) (stamping loaded) h stands.obeys };

    ghost waiters = { timestamp_waits };
}

impl Chosen for Stamps {
    ghost voting = { λ e. cc e };

    ghost choice = { refl };
}
