//! What a node knows of the transactions of its run.
ghost use Rattle.std.specs.Prelude.{◌≡◌, ◌<◌, map, IfOk};
ghost use Rattle.deneva_base.specs.Lists.{IsIn};
ghost use Rattle.txn_program.specs.Serial.{all_ids, program_of};
ghost use Rattle.tpcc_rules.specs.ReadRows.{as_read};
ghost use Rattle.txn_program.specs.Transactions.{effect_at};
ghost use Rattle.server_core.specs.Roles.{setting_of, accesses_at};
ghost use Rattle.server_core.specs.Setting.{home, homes, participants_for};

use crate::role::Role;
use deneva_base::{AccessList, ByteList, NoMemory, TxnId, partition_of};
use txn_program::{
    Effect, Partition, Program, ReadRow, accesses_of, effect_within, home, partitions_of,
};

impl<'w> Role<'w> {
    /// The transaction of an id.
    pub fn program(&self, id: TxnId) -> &'w Program
        requires { IsIn id (all_ids self.now.work.now) }
        ensures { result.now ≡ program_of self.now.work.now id }
    {
        self.work.program(id)
    }

    /// The node whose coordinator runs the transaction: the partition of its first access.
    pub fn home(&self, id: TxnId) -> u8
        requires { IsIn id (all_ids self.now.work.now) }
        ensures home { result ≡ home (setting_of self.now) id }
        ensures below { result < self.now.config.parts }
    {
        home(&self.work.load, self.program(id), self.config.parts)
    }

    /// The transactions whose home is this node, in file order.
    pub fn homes(&self) -> Result<Vec<TxnId>, NoMemory>
        ensures { IfOk result (λ ids. ids.items ≡ homes (setting_of self.now) self.now.part) }
    {
        let mut homes = Vec::new(self.alloc);
        for at in 0..self.work.programs.len() {
            let id = TxnId(at as u32 + 1);
            if self.home(id) == self.part {
                homes.push(id)?;
            }
        }
        Ok(homes)
    }

    /// The accesses of the transaction, in its order.
    pub fn accesses(&self, id: TxnId) -> Result<AccessList, NoMemory>
        requires { IsIn id (all_ids self.now.work.now) }
        ensures { IfOk result (λ list. list ≡ (setting_of self.now).accesses id) }
    {
        accesses_of(self.alloc, &self.work.load, self.program(id))
    }

    /// The accesses of the transaction that lie at this node, in its order.
    pub fn accesses_here(&self, id: TxnId) -> Result<AccessList, NoMemory>
        requires { IsIn id (all_ids self.now.work.now) }
        ensures { IfOk result (λ list. list ≡ accesses_at (setting_of self.now) self.now.part id) }
    {
        let mut here = AccessList::new(self.alloc);
        for access in self.accesses(id)?.as_slice() {
            if partition_of(access.key, self.config.parts) == self.part {
                here.push(*access)?;
            }
        }
        Ok(here)
    }

    /// The partitions at which the transaction takes part, in rising order.
    pub fn participants(&self, id: TxnId) -> Result<ByteList, NoMemory>
        requires { IsIn id (all_ids self.now.work.now) }
        ensures { IfOk result (λ list. list ≡ participants_for (setting_of self.now) id) }
    {
        partitions_of(self.alloc, self.config.parts, self.accesses(id)?.as_slice())
    }

    /// What the transaction makes at this node of the rows of its accesses that read, which stand in their order.
    pub fn effect_here(&self, id: TxnId, rows: &[ReadRow<'_>]) -> Result<Effect, NoMemory>
        requires { IsIn id (all_ids self.now.work.now) }
        ensures { IfOk result (λ e. e ≡ effect_at self.now.config.parts self.now.part ((setting_of self.now).effect id (map as_read rows.now))) }
    {
        let here = Partition {
            part: self.part,
            parts: self.config.parts,
        };
        let program = self.program(id);
        effect_within(self.alloc, &self.work.load, id, program, rows, Some(here))
    }
}
