//! Two-phase locking as a control.
ghost use Rattle.std.specs.Prelude.{true, refl};
ghost use Rattle.protocol_rules.specs.NoWait.{no_wait};
ghost use Rattle.protocol_rules.specs.WaitDie.{wait_die};
ghost use Rattle.deneva_base.specs.declared.config.Protocol.TheVariants.{NoWait, WaitDie};
ghost use Rattle.protocol_rules.proofs.NoWaits.{no_wait_windows};
ghost use Rattle.protocol_rules.proofs.NoWaitServed.{waits_law};
ghost use Rattle.protocol_rules.proofs.WaitDieServed.{waits_law as wait_die_law};
ghost use Rattle.protocol_rules.proofs.WaitDies.{wait_die_windows};
ghost use Rattle.lock_control.specs.Standing.{Stands};

use crate::requests::Request;
use crate::table::Table;
use control_core::{Chosen, Control, PrepareNoMemory};
use deneva_base::{
    Answer, Attempt, Bound, Cause, Key, Mode, NoMemory, Number, Protocol, RowList, Vote, Woken,
};
use row_store::Store;

/// Two-phase locking: NO_WAIT where `DIE` is 0, WAIT_DIE where it is 1.
#[derive(Drop)]
pub struct Locks<const DIE: u8> {
    table: Table,
}

impl Control for Locks<0> {
    ghost KIND = { NoWait };

    ghost FIXED = { true };

    ghost rule = { no_wait };

    ghost stands = { λ s loaded h. Stands no_wait s.table loaded h };

    const KIND: Protocol = Protocol::NoWait;

    const FIXED: bool = true;

    fn begin(store: Store) -> Result<Locks<0>, NoMemory> {
        let table = Table::new(store);
        Ok(Locks { table })
    }

    fn ask(&mut self, who: Attempt, stamp: u64, key: Key, mode: Mode) -> Result<Answer, NoMemory> {
        let asked = Request {
            who,
            stamp,
            mode,
            waits: false,
        };
        match self.table.lines.least_bar(key, &asked, u64::MAX) {
            Some(owner) => Ok(Answer::Refused(Cause::Held { key, by: owner.who })),
            None => self.table.grant(key, asked),
        }
    }

    fn prepare(
        &mut self,
        who: Attempt,
        _bound: Bound,
        writes: RowList,
        appends: RowList,
    ) -> Result<Vote, PrepareNoMemory> {
        self.table.prepare(who, writes, appends)
    }

    fn commit(&mut self, who: Attempt, number: Number, _woken: &mut Woken) -> Result<(), NoMemory> {
        self.table.end(who, Some(number));
        Ok(())
    }

    fn abort(&mut self, who: Attempt, _woken: &mut Woken) -> Result<(), NoMemory> {
        self.table.end(who, None);
        Ok(())
    }

    fn waiting(&self) -> usize {
        self.table.waiting
    }

    fn rows(&self) -> Result<RowList, NoMemory> {
        self.table.shelf.rows_in_order()
    }

    ghost obeys = { λ s loaded h stands. stands.obeys };

    ghost windows = { λ s loaded h stands. no_wait_windows loaded h stands.obeys };

    ghost waiters = { waits_law };
}

impl Control for Locks<1> {
    ghost KIND = { WaitDie };

    ghost FIXED = { true };

    ghost rule = { wait_die };

    ghost stands = { λ s loaded h. Stands wait_die s.table loaded h };

    const KIND: Protocol = Protocol::WaitDie;

    const FIXED: bool = true;

    fn begin(store: Store) -> Result<Locks<1>, NoMemory> {
        let table = Table::new(store);
        Ok(Locks { table })
    }

    fn ask(&mut self, who: Attempt, stamp: u64, key: Key, mode: Mode) -> Result<Answer, NoMemory> {
        let asked = Request {
            who,
            stamp,
            mode,
            waits: false,
        };
        match self.table.lines.least_bar(key, &asked, stamp) {
            Some(elder) => Ok(Answer::Refused(Cause::Younger {
                key,
                by: elder.who,
                age: elder.stamp,
            })),
            None => {
                if self.table.lines.is_stopped(key, &asked) {
                    self.table.wait(key, asked)
                } else {
                    self.table.grant(key, asked)
                }
            }
        }
    }

    fn prepare(
        &mut self,
        who: Attempt,
        _bound: Bound,
        writes: RowList,
        appends: RowList,
    ) -> Result<Vote, PrepareNoMemory> {
        self.table.prepare(who, writes, appends)
    }

    fn commit(&mut self, who: Attempt, number: Number, woken: &mut Woken) -> Result<(), NoMemory> {
        self.table.end_and_wake(who, Some(number), woken)
    }

    fn abort(&mut self, who: Attempt, woken: &mut Woken) -> Result<(), NoMemory> {
        self.table.end_and_wake(who, None, woken)
    }

    fn waiting(&self) -> usize {
        self.table.waiting
    }

    fn rows(&self) -> Result<RowList, NoMemory> {
        self.table.shelf.rows_in_order()
    }

    ghost obeys = { λ s loaded h stands. stands.obeys };

    ghost windows = { λ s loaded h stands. wait_die_windows loaded h stands.obeys };

    ghost waiters = { wait_die_law };
}

impl Chosen for Locks<0> {
    ghost voting = { λ e. cc e };

    ghost choice = { refl };
}

impl Chosen for Locks<1> {
    ghost voting = { λ e. cc e };

    ghost choice = { refl };
}
