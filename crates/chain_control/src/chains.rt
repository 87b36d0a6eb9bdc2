//! MVCC as a control.
ghost use Rattle.std.specs.Prelude.{true, false, refl, ◌≡◌, ◌≤◌, ◌+◌, Some, length, filter};
ghost use Rattle.protocol_rules.specs.Mvcc.{mvcc, versions};
ghost use Rattle.protocol_rules.specs.History.{History, waits};
ghost use Rattle.deneva_base.specs.Keys.{key_eq};
ghost use Rattle.deneva_base.specs.Rows.{Row, Rows};
ghost use Rattle.deneva_base.specs.declared.config.Protocol.TheVariants.{Mvcc};
ghost use Rattle.protocol_rules.proofs.Mvccs.{stamping};
ghost use Rattle.protocol_rules.proofs.Stamping.{windows_law};
ghost use Rattle.protocol_rules.proofs.StampsServed.{mvcc_waits};
ghost use Rattle.chain_control.specs.Kept.{kept};
ghost use Rattle.chain_control.specs.Standing.{ChainsStand};

use crate::requests::Request;
use crate::table::Table;
use control_core::{Chosen, Control, PrepareNoMemory};
use deneva_base::{
    Answer, Attempt, Bound, Key, Mode, NoMemory, Number, Protocol, RowList, Vote, Woken,
};
use row_store::Store;

/// MVCC that keeps the `KEEP` greatest versions of a key, or all for 0, and those that a waiter is to read.
#[derive(Drop)]
pub struct Chains<const KEEP: usize> {
    table: Table,
}

impl<const KEEP: usize> Chains<KEEP> {
    /// How many versions are kept of a key that is loaded here. It takes no memory.
    pub fn kept(&self, key: Key) -> usize
        requires loaded { (loaded : Rows) × (h : History) × (row : Row) × ChainsStand KEEP self.now loaded h × (loaded key ≡ Some row) }
        ensures kept { (loaded : Rows) (h : History) (row : Row) → ChainsStand KEEP self.now loaded h → loaded key ≡ Some row → result ≡ length (kept KEEP loaded h key) }
        ensures few { (loaded : Rows) (h : History) (row : Row) → ChainsStand KEEP self.now loaded h → loaded key ≡ Some row → 1 ≤ KEEP → result ≤ KEEP + length (filter (λ a. key_eq a.key key) (waits h)) }
        ensures all { (loaded : Rows) (h : History) (row : Row) → ChainsStand KEEP self.now loaded h → loaded key ≡ Some row → KEEP ≡ 0 → result ≡ length (versions loaded h key) }
    {
        self.table.lines.kept(key)
    }
}

impl<const KEEP: usize> Control for Chains<KEEP> {
    ghost KIND = { Mvcc };

    ghost FIXED = { false };

    ghost rule = { mvcc KEEP };

    ghost stands = { λ s loaded h. ChainsStand KEEP s loaded h };

    const KIND: Protocol = Protocol::Mvcc;

    const FIXED: bool = false;

    fn begin(store: Store) -> Result<Chains<KEEP>, NoMemory> {
        let table = Table::new(store);
        Ok(Chains { table })
    }

    fn ask(&mut self, who: Attempt, stamp: u64, key: Key, mode: Mode) -> Result<Answer, NoMemory> {
        self.table.open(key)?;
        let asked = Request {
            who,
            stamp,
            mode,
            waits: None,
        };
        if let Some(cause) = self.table.lines.refusal(key, &asked) {
            return Ok(Answer::Refused(cause));
        }
        if self.table.lines.is_stopped(key, &asked) {
            self.table.wait(key, asked)
        } else {
            self.table.grant(key, asked)
        }
    }

    fn prepare(
        &mut self,
        who: Attempt,
        _bound: Bound,
        writes: RowList,
        appends: RowList,
    ) -> Result<Vote, PrepareNoMemory> {
        self.table.prepare(who, writes, appends)
    }

    fn commit(&mut self, who: Attempt, number: Number, woken: &mut Woken) -> Result<(), NoMemory> {
        self.table.end_and_wake(KEEP, who, Some(number), woken)
    }

    fn abort(&mut self, who: Attempt, woken: &mut Woken) -> Result<(), NoMemory> {
        self.table.end_and_wake(KEEP, who, None, woken)
    }

    fn waiting(&self) -> usize {
        self.table.waiting
    }

    fn rows(&self) -> Result<RowList, NoMemory> {
        self.table.shelf.rows_in_order()
    }

    ghost obeys = { λ s loaded h stands. stands.obeys };

    ghost windows = { λ s loaded h stands. windows_law true loaded (mvcc KEEP loaded) (stamping KEEP loaded) h stands.obeys };

    ghost waiters = { mvcc_waits KEEP };
}

impl Chosen for Chains<4> {
    ghost voting = { λ e. cc e };

    ghost choice = { refl };
}
