//! What transactions read and leave at a node.
ghost use Rattle.std.specs.Prelude.{◌≡◌, ◌++◌, ℕ, List, map, IfOk, OnOk, option_map};
ghost use Rattle.deneva_base.specs.Lists.{IsIn};
ghost use Rattle.deneva_base.specs.declared.rows.Keyed as keyed;
ghost use Rattle.row_store.specs.Stores.{row_in};
ghost use Rattle.txn_program.specs.Serial.{all_ids};
ghost use Rattle.tpcc_rules.specs.ReadRows.{as_read};
ghost use Rattle.calvin_sched.specs.Arrivals.{arrivals_at};
ghost use Rattle.server_core.specs.CalvinFits.{Suits};
ghost use Rattle.server_core.specs.Effects.{leaves};
ghost use Rattle.server_core.specs.declared.messages.Msg as messages;
ghost use Rattle.server_core.specs.declared.messages.Msg.TheVariants as msg;
ghost use Rattle.server_core.specs.Roles.{setting_of};
ghost use Rattle.calvin_sched.specs.Reading.{row_after, reads_after, mails_after, rows_with, is_complete, collected_from, left_at};
ghost use Rattle.calvin_sched.specs.Standing.{CalvinStands};

use crate::arrivals::rows_of_part;
use crate::node::CalvinNode;
use deneva_base::{Key, Keyed, NoMemory, Row, RowList, TxnId, partition_of};
use row_store::Store;
use server_core::{MailList, Msg, SentRows};
use std::alloc::Global;
use txn_program::{Effect, ReadRow, Verdict, row_among};

/// The row of a key, where these rows were left over those of the store.
fn row_after<'a>(store: &'a Store, left: &'a [Keyed], key: Key) -> Option<&'a Row>
    ensures { option_map (λ r. r.now) result ≡ row_after (row_in store.now) left.now key }
{
    match row_among(left, key) {
        Some(row) => Some(row),
        None => store.get(key),
    }
}

/// The rows that an effect leaves: none where it rolls back.
fn lasting_rows(alloc: Global, effect: Effect) -> Result<RowList, NoMemory>
    ensures { IfOk result (λ left. left ≡ leaves effect) }
{
    let Effect {
        verdict,
        writes: mut left,
        appends,
        ..
    } = effect;
    if verdict != Verdict::Commit {
        return Ok(RowList::new(alloc));
    }
    left.append(appends)?;
    Ok(left)
}

impl<'w> CalvinNode<'w> {
    /// The rows that a transaction reads here, where another one left these.
    fn reads(&self, id: TxnId, left: &[Keyed]) -> Result<RowList, NoMemory>
        requires id { IsIn id (all_ids self.now.role.work.now) }
        ensures { IfOk result (λ rows. rows ≡ reads_after (setting_of self.now.role) self.now.role.part (row_after (row_in self.now.store) left.now) id) }
    {
        let alloc = self.role.alloc;
        let mut rows = RowList::new(alloc);
        for access in self.role.accesses_here(id)?.as_slice() {
            if access.mode.is_reading() {
                let key = access.key;
                let row = match row_after(&self.store, left, key) {
                    Some(row) => row.share()?,
                    None => Row::empty(alloc)?,
                };
                rows.push(Keyed { key, row })?;
            }
        }
        Ok(rows)
    }

    /// Puts the mails at the end that send those rows to each participant of the transaction.
    pub(crate) fn push_reads(
        &self,
        id: TxnId,
        left: &[Keyed],
        mails: &mut MailList,
    ) -> Result<(), NoMemory>
        requires id { IsIn id (all_ids self.now.role.work.now) }
        ensures { OnOk result (mails.new ≡ mails.old ++ mails_after (setting_of self.now.role) self.now.role.part (row_after (row_in self.now.store) left.now) id) }
    {
        let msg = Msg::Rows {
            id,
            part: self.role.part,
            rows: SentRows::of(self.role.alloc, self.reads(id, left)?)?,
        };
        let participants = self.role.participants(id)?;
        mails.append(self.role.mails_to(participants.as_slice(), &msg)?)
    }

    /// Whether the rows that came for the transaction are those of all its participants but one.
    pub(crate) fn is_complete(&self, id: TxnId) -> bool
        requires fits { (q : ℕ) × (rows : List keyed.Keyed) × (ms : List messages.Msg) × CalvinStands self.now ms × Suits (setting_of self.now.role) self.now.role.part q (msg.Rows id q rows) ms }
        ensures { (q : ℕ) (rows : List keyed.Keyed) (ms : List messages.Msg) → CalvinStands self.now ms → Suits (setting_of self.now.role) self.now.role.part q (msg.Rows id q rows) ms → result ≡ is_complete (setting_of self.now.role) (arrivals_at self.now.arrivals id) q id }
    {
        self.arrivals.of(id).len() + 1 == usize::from(self.counts[id.0 as usize - 1])
    }

    /// The rows of the transaction's accesses that read, as they came, the last of them from `part`.
    fn collect<'r>(
        &'r self,
        id: TxnId,
        part: u8,
        rows: &'r [Keyed],
    ) -> Result<Vec<ReadRow<'r>>, NoMemory>
        requires id { IsIn id (all_ids self.now.role.work.now) }
        ensures { IfOk result (λ list. map as_read list.items ≡ collected_from (setting_of self.now.role) (rows_with (arrivals_at self.now.arrivals id) part rows.now) id) }
    {
        let arrived = self.arrivals.of(id);
        let mut collected = Vec::new(self.role.alloc);
        for access in self.role.accesses(id)?.as_slice() {
            if access.mode.is_reading() {
                let key = access.key;
                let from = partition_of(key, self.role.config.parts);
                let came = if from == part {
                    rows
                } else {
                    rows_of_part(arrived, from)
                };
                let row = row_among(came, key);
                collected.push(ReadRow { key, row })?;
            }
        }
        Ok(collected)
    }

    /// The rows that the transaction leaves here, by what came for it, the last of it from `part`.
    pub(crate) fn rows_left(&self, id: TxnId, part: u8, rows: &[Keyed]) -> Result<RowList, NoMemory>
        requires id { IsIn id (all_ids self.now.role.work.now) }
        ensures { IfOk result (λ left. left ≡ left_at (setting_of self.now.role) self.now.role.part id (collected_from (setting_of self.now.role) (rows_with (arrivals_at self.now.arrivals id) part rows.now) id)) }
    {
        let collected = self.collect(id, part, rows)?;
        let effect = self.role.effect_here(id, &collected)?;
        lasting_rows(self.role.alloc, effect)
    }
}
